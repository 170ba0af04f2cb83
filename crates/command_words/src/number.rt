//! The numbers of options and of jobs, and their ranges.
ghost use Rattle.std.specs.Prelude.{◌≡◌, ◌≤◌, ◌^◌, MatchOption, true};
ghost use Rattle.std.specs.List.{list_all};
ghost use Rattle.std.specs.Str.Parse.{digits_value};
ghost use Rattle.command_words.specs.Parsing.{IsSmall};
ghost use Rattle.command_words.specs.Verbs as spec;

/// The most workers.
pub const MOST_WORKERS: u32 = 64;

/// How many workers there are where none are asked for.
pub const DEFAULT_WORKERS: u32 = 4;

/// The most turns that loops may be allowed.
pub const MOST_TURNS: u32 = 1_048_576;

/// How many turns loops may take where none are asked for.
pub const DEFAULT_TURNS: u32 = 100_000;

/// The most words that may be held, and how many may be where none are asked for.
pub const MOST_HELD_WORDS: u32 = 16_777_216;

/// The largest seed of a made job.
pub const MOST_SEED: u32 = u32::MAX;

/// Whether the byte is a digit.
fn is_digit(byte: u8) -> bool
    ensures { result ≡ spec.is_digit byte }
{
    48 <= byte && byte <= 57
}

/// Whether the bytes are digits.
fn are_digits(bytes: &[u8]) -> bool
    ensures { result ≡ list_all spec.is_digit bytes.now }
{
    bytes.iter().all(|byte| is_digit(*byte))
}

/// Whether the text is 1 to 10 digits.
fn is_number(text: &str) -> bool
    ensures { result ≡ spec.is_number text.now }
{
    !text.is_empty() && text.len() <= 10 && are_digits(text.as_bytes())
}

/// The number that digits write, where it has at most 32 bits.
#[tactic(auto, using(crate::proofs::Numbers::parsed_digits))]
fn value_of(digits: &str) -> Option<u32>
    requires { spec.is_number digits.now ≡ true }
    ensures { MatchOption result (2 ^ 32 ≤ digits_value 10 digits.now) (λ v. v ≡ digits_value 10 digits.now) }
{
    match digits.parse::<u32>() {
        Ok(value) => Some(value),
        Err(_) => None,
    }
}

/// Whether the text is 1 to 10 digits of a number in the range.
#[tactic(auto, unfolding(crate::specs::Verbs::is_number_in))]
pub(crate) fn is_number_in(low: u32, high: u32, text: &str) -> bool
    ensures { result ≡ spec.is_number_in low high text.now }
{
    if !is_number(text) {
        return false;
    }
    match value_of(text) {
        Some(value) => low <= value && value <= high,
        None => false,
    }
}

/// The number that digits of a `u32` write.
pub(crate) fn number_of(digits: &str) -> u32
    requires { IsSmall digits.now }
    ensures { result ≡ digits_value 10 digits.now }
{
    match value_of(digits) {
        Some(value) => value,
        None => unreachable!(),
    }
}
