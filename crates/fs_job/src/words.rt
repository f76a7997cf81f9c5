// The words of a line.

ghost use Rattle.std.specs.Prelude.{◌≡◌, ◌≢◌, ◌<◌, ◌≤◌, ◌↔◌, ℕ, List, [], ◌∷◌, ◌++◌, true, false, IsTrue, MatchOption, length};
ghost use Rattle.std.specs.List.{AllByRecursion};
ghost use Rattle.fs_job.specs.Pieces.{is_blank, words_of, IsTextByte, IsText};
ghost use Rattle.fs_job.specs.Cuts.{Begins, IsTextOrFeed};

// A tab, or a byte from the space to the tilde.
fn is_text_byte(byte: u8) -> bool
    ensures { IsTrue result ↔ IsTextByte byte }
{
    byte == b'\t' || (b' '..=b'~').contains(&byte)
}

// Whether each byte of a line is one that a line may have.
pub fn is_text(line: &[u8]) -> bool
    ensures { IsTrue result ↔ IsText line.now }
{
    // No early exit: many bytes are looked at at once.
    let mut all = true;
    for byte in line {
        let one = is_text_byte(*byte);
        all = all && one;
    }
    all
}

// A byte that a line may have, or a line feed.
fn is_text_or_feed(byte: u8) -> bool
    ensures { IsTrue result ↔ IsTextOrFeed byte }
{
    is_text_byte(byte) || byte == b'\n'
}

// Whether each byte is one that a line may have, or a line feed. Then each line is text.
pub fn has_text_lines(bytes: &[u8]) -> bool
    ensures { IsTrue result ↔ AllByRecursion IsTextOrFeed bytes.now }
{
    // No early exit, as in `is_text`.
    let mut all = true;
    for byte in bytes {
        let one = is_text_or_feed(*byte);
        all = all && one;
    }
    all
}

// A space or a tab.
fn is_blank(byte: u8) -> bool
    ensures { result ≡ is_blank byte }
{
    byte == b' ' || byte == b'\t'
}

// What follows the spaces that a text begins with, taken eight at a time: up to seven of them stay.
fn skip_eights(text: &[u8]) -> &[u8]
    ensures words { words_of text.now ≡ words_of result.now }
    ensures shorter { length result.now ≤ length text.now }
{
    let mut rest = text;
    while let Some(more) = rest.strip_prefix(b"        ".as_slice()) {
        rest = more;
    }
    rest
}

// What follows the spaces and tabs that a text begins with.
fn skip_blanks(text: &[u8]) -> &[u8]
    ensures words { words_of text.now ≡ words_of result.now }
    ensures begins { Begins (λ b. is_blank b ≡ false) result.now }
    ensures shorter { length result.now ≤ length text.now }
{
    skip_each(skip_eights(text))
}

// The same, one by one.
fn skip_each(text: &[u8]) -> &[u8]
    ensures words { words_of text.now ≡ words_of result.now }
    ensures begins { Begins (λ b. is_blank b ≡ false) result.now }
    ensures shorter { length result.now ≤ length text.now }
{
    for (i, byte) in text.iter().enumerate() {
        if !is_blank(*byte) {
            return &text[i..];
        }
    }
    &[]
}

// The text up to the first space or tab, and what follows.
fn split_word(text: &[u8]) -> (&[u8], &[u8])
    ensures whole { text.now ≡ result.0.now ++ result.1.now }
    ensures word { AllByRecursion (λ b. is_blank b ≡ false) result.0.now }
    ensures rest { Begins (λ b. is_blank b ≡ true) result.1.now }
{
    for (i, byte) in text.iter().enumerate() {
        if is_blank(*byte) {
            return text.split_at(i);
        }
    }
    (text, &[])
}

// Whether a text has no words.
pub fn is_blank_text(text: &[u8]) -> bool
    ensures { IsTrue result ↔ (words_of text.now ≡ []) }
{
    skip_blanks(text).is_empty()
}

// The first word of a text, and what follows it.
pub fn next_word(text: &[u8]) -> Option<(&[u8], &[u8])>
    ensures { MatchOption result
        (words_of text.now ≡ [])
        (λ parts. (words_of text.now ≡ parts.0.now ∷ words_of parts.1.now) × (length parts.1.now < length text.now)) }
{
    let text = skip_blanks(text);
    if text.is_empty() {
        None
    } else {
        Some(split_word(text))
    }
}

// The word of a text that has exactly one.
pub fn only_word(text: &[u8]) -> Option<&[u8]>
    ensures { MatchOption result
        ((word : List ℕ) → words_of text.now ≢ word ∷ [])
        (λ word. words_of text.now ≡ word.now ∷ []) }
{
    let (word, rest) = next_word(text)?;
    if is_blank_text(rest) {
        Some(word)
    } else {
        None
    }
}
