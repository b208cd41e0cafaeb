//! The checksum of a hint (Delta Lake's PROTOCOL.md, "JSON checksum").

ghost use Rattle.std.specs.Prelude.{◌≡◌, ◌++◌, OnOk, IfOk, string_bytes, option_map, option_copied};
ghost use Rattle.serde_json.specs.View.{view, items_view, members_view};
ghost use Rattle.dk_hint.specs.Canonical.{is_checksum_key, top_pairs};
ghost use Rattle.dk_hint.specs.Spelled.{agrees_with, are_whole, checksum_of, is_checksum, is_whole_throughout, members_are_whole};

use crate::pairs::{add_pairs, quoted};
use crate::sorting::{behind_commas, past_first, sorted};
use dk_model::Text;
use md5::{Digest, Md5};
use serde_json::{Map, Value};
use std::alloc::{AllocError, Global};

/// Whether each number is a whole one in the range of i64.
#[cycle(whole)]
fn is_whole_throughout(value: &Value) -> bool
    ensures { result ≡ is_whole_throughout (view value.now) }
{
    match value {
        Value::Null | Value::Bool(_) | Value::String(_) => true,
        Value::Number(_) => value.as_i64().is_some(),
        Value::Array(items) => are_whole(items),
        Value::Object(members) => members_are_whole(members),
    }
}

#[cycle(whole)]
fn are_whole(items: &Vec<Value>) -> bool
    ensures { result ≡ are_whole (items_view items.now.items) }
{
    'items: for item in items {
        if !is_whole_throughout(item) {
            return false;
        }
    }
    true
}

#[cycle(whole)]
fn members_are_whole(members: &Map<String, Value>) -> bool
    ensures { result ≡ members_are_whole (members_view members.now.entries) }
{
    'members: for (_key, member) in members.iter() {
        if !is_whole_throughout(member) {
            return false;
        }
    }
    true
}

fn is_checksum_key(key: &str) -> bool
    ensures { result ≡ is_checksum_key key.now }
{
    key == "checksum"
}

/// The pairs of the object without its checksum.
fn add_top_pairs(
    alloc: Global,
    list: &mut Vec<Text>,
    members: &Map<String, Value>,
) -> Result<(), AllocError>
    ensures { OnOk result (list.new.items ≡ list.old.items ++ top_pairs (members_view members.now.entries)) }
{
    'members: for (key, member) in members.iter() {
        if !is_checksum_key(key.as_str()) {
            let path = quoted(alloc, key.as_str())?;
            add_pairs(alloc, list, path.as_str(), member)?;
        }
    }
    Ok(())
}

/// The checksum that the object should have.
#[tactic(auto, unfolding(crate::specs::Spelled::checksum_of))]
pub fn checksum(alloc: Global, members: &Map<String, Value>) -> Result<String, AllocError>
    ensures { IfOk result (λ sum. string_bytes sum ≡ checksum_of (members_view members.now.entries)) }
{
    let mut list = Vec::new(alloc);
    add_top_pairs(alloc, &mut list, members)?;
    let text = behind_commas(alloc, sorted(alloc, list)?)?;
    hex::encode(alloc, Md5::digest(past_first(text.as_bytes())))
}

fn is_checksum(
    alloc: Global,
    members: &Map<String, Value>,
    sum: Option<&str>,
) -> Result<bool, AllocError>
    ensures { IfOk result (λ is. is ≡ is_checksum (members_view members.now.entries) (option_copied sum.entry)) }
{
    match sum {
        None => Ok(false),
        Some(text) => {
            if !members_are_whole(members) {
                return Ok(false);
            }
            let own = checksum(alloc, members)?;
            Ok(text == own.as_str())
        }
    }
}

/// Whether the checksum, where there is one, is that of the rest.
pub fn agrees(
    alloc: Global,
    members: &Map<String, Value>,
    sum: Option<&Value>,
) -> Result<bool, AllocError>
    ensures { IfOk result (λ is. is ≡ agrees_with (members_view members.now.entries) (option_map (λ v. view v.now) sum.entry)) }
{
    match sum {
        None => Ok(true),
        Some(value) => is_checksum(alloc, members, value.as_str()),
    }
}
