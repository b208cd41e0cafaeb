//! Hints of the last checkpoint.

use crate::actions::text_of;
use crate::trouble::Trouble;
use dk_hint::{Hint, read_hint, write_hint};
use std::alloc::{AllocError, Global};

/// What a hint says.
fn words_of(alloc: Global, hint: &Hint) -> Result<String, AllocError> {
    let (version, size) = (hint.version, hint.size);
    let parts = hint.parts.unwrap_or(0);
    match hint.adds {
        Some(adds) => format!(in alloc;
            "version {version}, {size} actions, {parts} parts, {adds} adds"
        ),
        None => format!(in alloc; "version {version}, {size} actions, {parts} parts"),
    }
}

/// What the hint of a text says, and the text that is written for it.
pub(crate) fn hint_answer(alloc: Global, text: &str) -> Result<String, Trouble> {
    let Some(hint) = read_hint(alloc, text.as_bytes())? else {
        return Ok(String::from_str(alloc, "none")?);
    };
    let words = words_of(alloc, &hint)?;
    let written = text_of(write_hint(alloc, &hint)?)?;
    Ok(format!(in alloc; "{words}: {written}")?)
}
