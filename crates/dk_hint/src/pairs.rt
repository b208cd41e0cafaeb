//! The plain values of a JSON value, each under its path.

ghost use Rattle.std.specs.Prelude.{◌≡◌, ◌++◌, ◌∷◌, [], OnOk, IfOk, string_bytes, decimal};
ghost use Rattle.std.specs.Fmt.{signed_decimal};
ghost use Rattle.serde_json.specs.View.{view, items_view, members_view};
ghost use Rattle.dk_model.specs.Fields.{whole};
ghost use Rattle.dk_hint.specs.Canonical.{along, flag_text, canonical_pair, pairs_at, pairs_from, pairs_under, quoted, whole_number_text};

use dk_model::Text;
use percent_encoding::{AsciiSet, NON_ALPHANUMERIC, ascii_set, percent_encode};
use serde_json::{Map, Value};
use std::alloc::{AllocError, Global};

/// Every byte but the ASCII letters, the digits and `-`, `.`, `_`, `~`.
const ESCAPED: AsciiSet = ascii_set!(
    NON_ALPHANUMERIC
        .remove(b'-')
        .remove(b'.')
        .remove(b'_')
        .remove(b'~')
);

/// The text between double quotes, its bytes percent-encoded.
pub fn quoted(alloc: Global, text: &str) -> Result<String, AllocError>
    ensures { IfOk result (λ out. string_bytes out ≡ quoted text.now) }
{
    let mut out = String::from_str(alloc, "\"")?;
    percent_encode(text.as_bytes(), ESCAPED).append_to(&mut out)?;
    out.push_str("\"")?;
    Ok(out)
}

fn joined(alloc: Global, left: &str, between: &str, right: &str) -> Result<String, AllocError>
    ensures { IfOk result (λ out. string_bytes out ≡ (left.now ++ between.now) ++ right.now) }
{
    let mut out = String::from_str(alloc, left)?;
    out.push_str(between)?;
    out.push_str(right)?;
    Ok(out)
}

fn along(alloc: Global, path: &str, step: &str) -> Result<String, AllocError>
    ensures { IfOk result (λ out. string_bytes out ≡ along path.now step.now) }
{
    joined(alloc, path, "+", step)
}

fn add_pair(alloc: Global, list: &mut Vec<Text>, path: &str, value: &str) -> Result<(), AllocError>
    ensures { OnOk result (list.new.items ≡ list.old.items ++ canonical_pair path.now value.now ∷ []) }
{
    let pair = Text::new(joined(alloc, path, "=", value)?);
    list.push(pair)?;
    Ok(())
}

fn number_text(alloc: Global, number: i64) -> Result<String, AllocError>
    ensures { IfOk result (λ out. string_bytes out ≡ signed_decimal number) }
{
    format!(in alloc; "{number}")
}

fn place_text(alloc: Global, place: usize) -> Result<String, AllocError>
    ensures { IfOk result (λ out. string_bytes out ≡ decimal place) }
{
    format!(in alloc; "{place}")
}

fn add_number(
    alloc: Global,
    list: &mut Vec<Text>,
    path: &str,
    value: &Value,
) -> Result<(), AllocError>
    ensures { OnOk result (list.new.items ≡ list.old.items ++ canonical_pair path.now (whole_number_text (whole (view value.now))) ∷ []) }
{
    match value.as_i64() {
        Some(number) => {
            let text = number_text(alloc, number)?;
            add_pair(alloc, list, path, text.as_str())
        }
        None => add_pair(alloc, list, path, ""),
    }
}

fn add_text(alloc: Global, list: &mut Vec<Text>, path: &str, text: &str) -> Result<(), AllocError>
    ensures { OnOk result (list.new.items ≡ list.old.items ++ canonical_pair path.now (quoted text.now) ∷ []) }
{
    let text = quoted(alloc, text)?;
    add_pair(alloc, list, path, text.as_str())
}

fn add_flag(alloc: Global, list: &mut Vec<Text>, path: &str, flag: bool) -> Result<(), AllocError>
    ensures { OnOk result (list.new.items ≡ list.old.items ++ canonical_pair path.now (flag_text flag) ∷ []) }
{
    if flag {
        add_pair(alloc, list, path, "true")
    } else {
        add_pair(alloc, list, path, "false")
    }
}

/// Adds the pairs of a value at a path.
#[cycle(pairs)]
pub fn add_pairs(
    alloc: Global,
    list: &mut Vec<Text>,
    path: &str,
    value: &Value,
) -> Result<(), AllocError>
    ensures { OnOk result (list.new.items ≡ list.old.items ++ pairs_at path.now (view value.now)) }
{
    match value {
        Value::Null => add_pair(alloc, list, path, "null"),
        Value::Bool(flag) => add_flag(alloc, list, path, *flag),
        Value::Number(_) => add_number(alloc, list, path, value),
        Value::String(text) => add_text(alloc, list, path, text.as_str()),
        Value::Array(items) => add_items(alloc, list, path, items),
        Value::Object(members) => add_members(alloc, list, path, members),
    }
}

#[cycle(pairs)]
fn add_items(
    alloc: Global,
    list: &mut Vec<Text>,
    path: &str,
    items: &Vec<Value>,
) -> Result<(), AllocError>
    ensures { OnOk result (list.new.items ≡ list.old.items ++ pairs_from path.now 0 (items_view items.now.items)) }
{
    let mut place = 0usize;
    'items: for item in items {
        let step = place_text(alloc, place)?;
        let inner = along(alloc, path, step.as_str())?;
        add_pairs(alloc, list, inner.as_str(), item)?;
        place += 1;
    }
    Ok(())
}

#[cycle(pairs)]
fn add_members(
    alloc: Global,
    list: &mut Vec<Text>,
    path: &str,
    members: &Map<String, Value>,
) -> Result<(), AllocError>
    ensures { OnOk result (list.new.items ≡ list.old.items ++ pairs_under path.now (members_view members.now.entries)) }
{
    'members: for (key, member) in members.iter() {
        let step = quoted(alloc, key.as_str())?;
        let inner = along(alloc, path, step.as_str())?;
        add_pairs(alloc, list, inner.as_str(), member)?;
    }
    Ok(())
}
