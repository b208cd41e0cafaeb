//! Interval texts of the retention properties, as `interval 1 week`.

ghost use Rattle.std.specs.Prelude.{◌≡◌, ◌≤◌, ◌<◌, ◌^◌, ◌||◌, IfSome};
ghost use Rattle.std.specs.Str.{str_eq_ignore_ascii_case};
ghost use Rattle.dk_paths.specs.Intervals.{interval_of, amount_of, pair_values, sum_of_pairs, unit_of, words};

use crate::words::{is_word, next_word};

/// The word that may stand before the pairs.
const INTERVAL: &[u8] = b"interval";

/// The most pairs of a number and a unit, and the most digits of a number.
const MAX_PAIRS: u64 = 8;

const MAX_DIGITS: usize = 12;

/// The milliseconds of an interval text, as `interval 1 week`, in which tables say how long removed files and commits are kept:
/// one to eight pairs of a number and a unit, from milliseconds to weeks. `None` exactly where the text is no interval. It takes
/// no memory.
pub fn read_interval(text: &str) -> Option<i128>
    ensures { result ≡ interval_of text.now }
{
    let text = text.as_bytes();
    let Some((word, rest)) = next_word(text) else {
        return None;
    };
    if is_word(word, INTERVAL) {
        sum_pairs(rest)
    } else {
        sum_pairs(text)
    }
}

/// The sum of one to eight pairs.
fn sum_pairs(text: &[u8]) -> Option<i128>
    ensures { result ≡ sum_of_pairs (pair_values (words text.now)) }
{
    let mut rest = text;
    let mut sum = 0u128;
    for count in 0..MAX_PAIRS + 1 {
        let Some((number, after)) = next_word(rest) else {
            return if count == 0 { None } else { Some(sum as i128) };
        };
        let Some((unit, after)) = next_word(after) else {
            return None;
        };
        let Some(number) = read_number(number) else {
            return None;
        };
        let Some(unit) = read_unit(unit) else {
            return None;
        };
        sum += u128::from(number) * u128::from(unit);
        rest = after;
    }
    None
}

/// A number of 1 to 12 decimal digits.
fn read_number(word: &[u8]) -> Option<u64>
    ensures number { result ≡ amount_of word.now }
    ensures small { IfSome result (λ number. number < 10 ^ 12) }
{
    if word.is_empty() || word.len() > MAX_DIGITS {
        return None;
    }
    let mut value = 0u64;
    for byte in word {
        if !byte.is_ascii_digit() {
            return None;
        }
        value = value * 10 + u64::from(*byte - b'0');
    }
    Some(value)
}

/// The milliseconds of a unit.
fn read_unit(word: &[u8]) -> Option<u64>
    ensures unit { result ≡ unit_of word.now }
    ensures small { IfSome result (λ unit. unit ≤ 604800000) }
{
    if is_unit(word, b"millisecond", b"milliseconds") {
        Some(1)
    } else if is_unit(word, b"second", b"seconds") {
        Some(1_000)
    } else if is_unit(word, b"minute", b"minutes") {
        Some(60_000)
    } else if is_unit(word, b"hour", b"hours") {
        Some(3_600_000)
    } else if is_unit(word, b"day", b"days") {
        Some(86_400_000)
    } else if is_unit(word, b"week", b"weeks") {
        Some(604_800_000)
    } else {
        None
    }
}

/// Whether a word is a unit's name, with or without `s` at its end.
fn is_unit(word: &[u8], one: &[u8], many: &[u8]) -> bool
    ensures { result ≡ (str_eq_ignore_ascii_case word.now one.now || str_eq_ignore_ascii_case word.now many.now) }
{
    is_word(word, one) || is_word(word, many)
}
