ghost use Rattle.std.specs.Prelude.{◌≡◌, ◌++◌, ◌<◌, ◌≤◌, ◌^◌, MatchOption, length};
ghost use Rattle.std.specs.Str.Parse.{AllDigits, digits_value};
ghost use Rattle.fs_fraction.specs.Parts.{IsDigit, Stops, BeginsNumeral};

// The digits that a text begins with, and the rest.
fn split_digits(text: &[u8]) -> (&[u8], &[u8])
    ensures whole { text.now ≡ result.0.now ++ result.1.now }
    ensures digits { AllDigits 10 result.0.now }
    ensures rest { Stops IsDigit result.1.now }
{
    for (i, byte) in text.iter().enumerate() {
        if !byte.is_ascii_digit() {
            return text.split_at(i);
        }
    }
    (text, &[])
}

// The one digit or more that a text begins with, and the rest.
pub fn split_numeral(text: &[u8]) -> Option<(&[u8], &[u8])>
    ensures { MatchOption result
        (Stops IsDigit text.now)
        (λ parts. BeginsNumeral text.now parts.0.now parts.1.now) }
{
    let (digits, rest) = split_digits(text);
    if digits.is_empty() {
        None
    } else {
        Some((digits, rest))
    }
}

// The number that at most 18 digits spell.
pub fn number(digits: &[u8]) -> u64
    requires digits { AllDigits 10 digits.now }
    requires few { length digits.now ≤ 18 }
    ensures value { result ≡ digits_value 10 digits.now }
    ensures below { result < 10 ^ 18 }
{
    let mut value = 0u64;
    for byte in digits {
        value = value * 10 + u64::from(*byte - b'0');
    }
    value
}
