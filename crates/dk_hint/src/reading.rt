//! The bytes of a hint.

ghost use Rattle.std.specs.Prelude.{◌≡◌, IfOk, IfSome};
ghost use Rattle.serde_json.specs.View.{view};
ghost use Rattle.dk_hint.specs.Spelled.{hint_in, hint_in_text, hint_of};
ghost use Rattle.dk_hint.specs.Written.{IsHint};

use crate::checksum::agrees;
use crate::fields::hint_in_fields;
use crate::hint::Hint;
use serde_json::{Category, Value};
use std::alloc::{AllocError, Global};

fn hint_in(alloc: Global, value: &Value) -> Result<Option<Hint>, AllocError>
    ensures { IfOk result (λ hint. hint ≡ hint_in (view value.now)) }
{
    match value {
        Value::Object(members) => {
            if agrees(alloc, members, value.get("checksum"))? {
                Ok(hint_in_fields(value))
            } else {
                Ok(None)
            }
        }
        _ => Ok(None),
    }
}

fn hint_in_text(alloc: Global, text: &str) -> Result<Option<Hint>, AllocError>
    ensures { IfOk result (λ hint. hint ≡ hint_in_text text.now) }
{
    match Value::from_str(alloc, text) {
        Ok(value) => hint_in(alloc, &value),
        Err(error) => match error.classify() {
            Category::Memory => Err(AllocError),
            _ => Ok(None),
        },
    }
}

/// The hint that the bytes of `_last_checkpoint` spell: one JSON object with whole numbers `version` and `size`, both at least
/// 0, and optional `parts` (1 to 4,294,967,295) and `numOfAddFiles` (at least 0); a null is no number. Where the object has a
/// `checksum`, it has to be the MD5 of the rest's canonical text, and all numbers have to be whole. None exactly where no hint
/// is spelled or the checksum differs; bytes of any kind may be handed in (Delta Lake's PROTOCOL.md, "Last Checkpoint File",
/// "JSON checksum"). `Err` says that memory was wanted and not had.
pub fn read_hint(alloc: Global, bytes: &[u8]) -> Result<Option<Hint>, AllocError>
    ensures read { IfOk result (λ hint. hint ≡ hint_of bytes.now) }
    ensures in_range { IfOk result (λ hint. IfSome hint IsHint) }
{
    let Ok(text) = simdutf8::basic::from_utf8(bytes) else {
        return Ok(None);
    };
    hint_in_text(alloc, text)
}
