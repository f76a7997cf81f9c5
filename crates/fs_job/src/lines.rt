// The lines of a text.

ghost use Rattle.std.specs.Prelude.{◌≡◌, ◌<◌, [], ◌∷◌, MatchOption, length};
ghost use Rattle.fs_job.specs.Pieces.{lines_of};
ghost use Rattle.fs_job.specs.Cuts.{DropsReturn};

use crate::pieces::cut;

// A line without the carriage return at its end, where it has one.
fn without_return(line: &[u8]) -> &[u8]
    ensures { DropsReturn line.now result.now }
{
    line.strip_suffix(b"\r").unwrap_or(line)
}

// The first line of a text, and what follows its line feed, where it has one.
pub fn next_line(text: &[u8]) -> (&[u8], Option<&[u8]>)
    ensures { MatchOption result.1
        (lines_of text.now ≡ result.0.now ∷ [])
        (λ rest. (lines_of text.now ≡ result.0.now ∷ lines_of rest.now) × (length rest.now < length text.now)) }
{
    match cut(text, b'\n') {
        Some((line, rest)) => (without_return(line), Some(rest)),
        None => (text, None),
    }
}
