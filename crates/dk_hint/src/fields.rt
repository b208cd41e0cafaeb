//! The fields of a hint.

ghost use Rattle.std.specs.Prelude.{◌≡◌, option_and_then};
ghost use Rattle.serde_json.specs.View.{view};
ghost use Rattle.serde_json.specs.Find.{get};
ghost use Rattle.dk_model.specs.Fields.{count, formed};
ghost use Rattle.dk_hint.specs.Spelled.{fields_of_hint, part_count};

use crate::hint::Hint;
use serde_json::Value;

fn count(value: &Value) -> Option<u64>
    ensures { result ≡ count (view value.now) }
{
    let number = value.as_u64()?;
    if number < 1 << 63 { Some(number) } else { None }
}

fn part_count(value: &Value) -> Option<u32>
    ensures { result ≡ part_count (view value.now) }
{
    let number = value.as_u64()?;
    if number >= 1 && number < 1 << 32 {
        Some(number as u32)
    } else {
        None
    }
}

fn needed_count(value: &Value, key: &str) -> Option<u64>
    ensures { result ≡ option_and_then count (get key.now (view value.now)) }
{
    let field = value.get(key)?;
    count(field)
}

fn optional_count(value: &Value, key: &str) -> Option<Option<u64>>
    ensures { result ≡ formed count (get key.now (view value.now)) }
{
    match value.get(key) {
        None => Some(None),
        Some(field) => Some(Some(count(field)?)),
    }
}

fn optional_parts(value: &Value, key: &str) -> Option<Option<u32>>
    ensures { result ≡ formed part_count (get key.now (view value.now)) }
{
    match value.get(key) {
        None => Some(None),
        Some(field) => Some(Some(part_count(field)?)),
    }
}

/// What the fields say, where all needed ones are there and each is of its form.
pub fn hint_in_fields(value: &Value) -> Option<Hint>
    ensures { result ≡ fields_of_hint (view value.now) }
{
    let version = needed_count(value, "version")?;
    let size = needed_count(value, "size")?;
    let parts = optional_parts(value, "parts")?;
    let adds = optional_count(value, "numOfAddFiles")?;
    Some(Hint {
        version,
        size,
        parts,
        adds,
    })
}
