//! The bytes of a hint that is written.

ghost use Rattle.std.specs.Prelude.{◌≡◌, Some, OnOk, IfOk, string_bytes};
ghost use Rattle.std.specs.Str.{IsUtf8};
ghost use Rattle.serde_json.specs.Data.{put as with_member};
ghost use Rattle.serde_json.specs.View.{view, members_view};
ghost use Rattle.dk_hint.specs.Spelled.{hint_of};
ghost use Rattle.dk_hint.specs.Written.{IsHint, object_of_hint, plain_members, put_if, written_hint};

use crate::checksum::checksum;
use crate::hint::Hint;
use serde_json::{Map, Value};
use std::alloc::{AllocError, Global};

/// Puts a value under a key.
fn put(
    alloc: Global,
    members: &mut Map<String, Value>,
    key: &str,
    value: Value,
) -> Result<(), AllocError>
    ensures { OnOk result (members_view members.new.entries ≡ with_member key.now (view value) (members_view members.old.entries)) }
{
    let name = String::from_str(alloc, key)?;
    drop(members.insert(name, value)?);
    Ok(())
}

/// Puts a number under a key, where there is one.
fn put_if(
    alloc: Global,
    members: &mut Map<String, Value>,
    key: &str,
    number: Option<u64>,
) -> Result<(), AllocError>
    ensures { OnOk result (members_view members.new.entries ≡ put_if key.now number (members_view members.old.entries)) }
{
    match number {
        None => Ok(()),
        Some(number) => put(alloc, members, key, Value::from(number)),
    }
}

fn widened(parts: Option<u32>) -> Option<u64>
    ensures { result ≡ parts }
{
    match parts {
        None => None,
        Some(parts) => Some(u64::from(parts)),
    }
}

/// The object of a hint without its checksum.
fn plain_members(alloc: Global, hint: &Hint) -> Result<Map<String, Value>, AllocError>
    ensures { IfOk result (λ members. members_view members.entries ≡ plain_members hint.now) }
{
    let mut members = Map::new(alloc);
    put_if(alloc, &mut members, "numOfAddFiles", hint.adds)?;
    put_if(alloc, &mut members, "parts", widened(hint.parts))?;
    put(alloc, &mut members, "size", Value::from(hint.size))?;
    put(alloc, &mut members, "version", Value::from(hint.version))?;
    Ok(members)
}

/// The object of a hint.
fn object_of(alloc: Global, hint: &Hint) -> Result<Value, AllocError>
    ensures { IfOk result (λ value. view value ≡ object_of_hint hint.now) }
{
    let mut members = plain_members(alloc, hint)?;
    let sum = checksum(alloc, &members)?;
    put(alloc, &mut members, "checksum", Value::String(sum))?;
    Ok(Value::Object(members))
}

/// A text is UTF-8.
fn note_utf8(text: &str)
    ensures { IsUtf8 text.now }
{}

/// The bytes of `_last_checkpoint` for a hint: one compact JSON object with the keys `checksum`, `numOfAddFiles` and `parts`,
/// where they are given, `size` and `version`, in this order. `checksum` is the MD5 of the rest's canonical text, in 32
/// lower-case hexadecimal digits, so that `read_hint` of the bytes is the hint (Delta Lake's PROTOCOL.md, "Last Checkpoint File
/// Schema", "JSON checksum"). The numbers have to be in the ranges that `Hint` says. `Err` says that memory was wanted and not
/// had.
pub fn write_hint(alloc: Global, hint: &Hint) -> Result<Vec<u8>, AllocError>
    requires { IsHint hint.now }
    ensures written { IfOk result (λ bytes. bytes.items ≡ written_hint hint.now) }
    ensures back { IfOk result (λ bytes. hint_of bytes.items ≡ Some hint.now) }
{
    let text = object_of(alloc, hint)?.to_string(alloc)?;
    note_utf8(text.as_str());
    Ok(text.into_bytes())
}
