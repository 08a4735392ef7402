// Numbers among the words.
ghost use Rattle.std.specs.Prelude.{◌≡◌};
ghost use Rattle.px_arguments.specs.Arguments as spec;

use px_load::MOST_ROWS;
use px_values::Limit;

/// The number that decimal digits alone spell, where it isn't above the greatest of 64 bits.
pub(crate) fn number_named(word: &str) -> Option<u64>
    ensures { result ≡ spec.number_named word.now }
{
    if word.starts_with('+') {
        return None;
    }
    match word.parse::<u64>() {
        Ok(number) => Some(number),
        Err(_) => None,
    }
}

/// The number of rows of a load.
pub(crate) fn rows_named(word: &str) -> Option<u64>
    ensures { result ≡ spec.rows_named word.now }
{
    let rows = number_named(word)?;
    if 1 <= rows && rows <= MOST_ROWS {
        Some(rows)
    } else {
        None
    }
}

/// How long versions are kept, which is at most the greatest stamp.
pub(crate) fn lookback_named(word: &str) -> Option<u64>
    ensures { result ≡ spec.lookback_named word.now }
{
    let lookback = number_named(word)?;
    if lookback <= Limit::Stamps.most() {
        Some(lookback)
    } else {
        None
    }
}

/// The session of a number, which is 32 at most.
pub(crate) fn session_named(word: &str) -> Option<u32>
    ensures { result ≡ spec.session_named word.now }
{
    let number = number_named(word)?;
    if 1 <= number && number <= 32 {
        Some(number as u32)
    } else {
        None
    }
}
