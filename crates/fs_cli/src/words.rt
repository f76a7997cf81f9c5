// The words after the program's name.

ghost use Rattle.std.specs.Prelude.{ℕ, List, map, string_bytes, MatchOption};
ghost use Rattle.fs_job.specs.Line.{Finds};
ghost use Rattle.fs_cli.specs.Words.{SpellsWithin, BeginWith, Set, GiveRequest};

use fs_workload::MOST_RECTANGLES;

// The budget where no word gives one.
const DEFAULT_BUDGET: u32 = 100_000;

// The greatest budget.
const MOST_BUDGET: u32 = 1_000_000;

// The greatest seed.
const MOST_SEED: u32 = 999_999_999;

// The most digits of a number.
const MOST_DIGITS: usize = 9;

// What the words ask for: a budget for each command, and a staircase in place of a job.
#[derive(Clone, Copy)]
pub struct Request {
    pub budget: u32,
    pub staircase: Option<Staircase>,
}

// How many rectangles a staircase has, and the seed from which their lengths are drawn.
#[derive(Clone, Copy)]
pub struct Staircase {
    pub rectangles: u32,
    pub seed: u32,
}

// What options have set.
#[derive(Clone, Copy)]
pub struct Settings {
    pub steps: Option<u32>,
    pub rectangles: Option<u32>,
    pub seed: Option<u32>,
}

impl Settings {
    const NONE: Self = Self {
        steps: None,
        rectangles: None,
        seed: None,
    };
}

// What the words ask for, where they are admitted. Takes no memory.
pub(crate) fn find_request(words: &[String]) -> Option<Request>
    ensures { Finds (GiveRequest (map string_bytes words.now)) result }
{
    let settings = read_options(words, Settings::NONE)?;
    let staircase = match (settings.rectangles, settings.seed) {
        (Some(rectangles), Some(seed)) => Some(Staircase { rectangles, seed }),
        (None, None) => None,
        _ => return None,
    };
    Some(Request {
        budget: settings.steps.unwrap_or(DEFAULT_BUDGET),
        staircase,
    })
}

// What options have set after these words.
fn read_options(words: &[String], before: Settings) -> Option<Settings>
    ensures { Finds (Set before (map string_bytes words.now)) result }
{
    if words.is_empty() {
        return Some(before);
    }
    if let Some((text, rest)) = split_option("--steps", words) {
        if before.steps.is_some() {
            return None;
        }
        let steps = Some(read_number(1, MOST_BUDGET, text)?);
        return read_options(rest, Settings { steps, ..before });
    }
    if let Some((text, rest)) = split_option("--staircase", words) {
        if before.rectangles.is_some() {
            return None;
        }
        let rectangles = Some(read_number(1, MOST_RECTANGLES, text)?);
        return read_options(
            rest,
            Settings {
                rectangles,
                ..before
            },
        );
    }
    let (text, rest) = split_option("--seed", words)?;
    if before.seed.is_some() {
        return None;
    }
    let seed = Some(read_number(0, MOST_SEED, text)?);
    read_options(rest, Settings { seed, ..before })
}

// The text of the option with this name with which the words begin, and the words after it.
fn split_option<'a>(name: &str, words: &'a [String]) -> Option<(&'a str, &'a [String])>
    ensures { MatchOption result
        ((text : List ℕ) → (rest : List (List ℕ)) → ¬ BeginWith name.now (map string_bytes words.now) text rest)
        (λ found. BeginWith name.now (map string_bytes words.now) found.0.now (map string_bytes found.1.now)) }
{
    let [word, rest @ ..] = words else {
        return None;
    };
    let joined = word.strip_prefix(name)?;
    if joined.is_empty() {
        let [text, rest @ ..] = rest else {
            return None;
        };
        return Some((text, rest));
    }
    Some((joined.strip_prefix('=')?, rest))
}

// The number within these bounds that a text spells in one to nine decimal digits.
fn read_number(least: u32, most: u32, text: &str) -> Option<u32>
    ensures { Finds (SpellsWithin least most text.now) result }
{
    if text.len() > MOST_DIGITS || text.starts_with('+') {
        return None;
    }
    let n = text.parse().ok()?;
    (least..=most).contains(&n).then_some(n)
}
