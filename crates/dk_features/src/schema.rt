//! Whether a schema has column invariants.

ghost use Rattle.std.specs.Prelude.{◌≡◌, IfOk};
ghost use Rattle.serde_json.specs.View.{view, items_view, members_view};
ghost use Rattle.dk_features.specs.Invariants.{has_invariants, is_invariant, items_have_invariants, members_have_invariants, uses_invariants};

use serde_json::{Category, Map, Value};
use std::alloc::{AllocError, Global};

fn is_invariant(key: &str, value: &Value) -> bool
    ensures { result ≡ is_invariant key.now (view value.now) }
{
    key == "metadata" && value.get("delta.invariants").is_some()
}

#[cycle(invariants)]
fn has_invariants(value: &Value) -> bool
    ensures { result ≡ has_invariants (view value.now) }
{
    match value {
        Value::Array(items) => items_have_invariants(items),
        Value::Object(members) => members_have_invariants(members),
        _ => false,
    }
}

#[cycle(invariants)]
fn items_have_invariants(items: &Vec<Value>) -> bool
    ensures { result ≡ items_have_invariants (items_view items.now.items) }
{
    'items: for item in items {
        if has_invariants(item) {
            return true;
        }
    }
    false
}

#[cycle(invariants)]
fn members_have_invariants(members: &Map<String, Value>) -> bool
    ensures { result ≡ members_have_invariants (members_view members.now.entries) }
{
    'members: for (key, member) in members.iter() {
        if is_invariant(key.as_str(), member) || has_invariants(member) {
            return true;
        }
    }
    false
}

/// Whether a schema has invariants, or its text isn't JSON.
pub(crate) fn uses_invariants(alloc: Global, schema: &str) -> Result<bool, AllocError>
    ensures { IfOk result (λ uses. uses ≡ uses_invariants schema.now) }
{
    match Value::from_str(alloc, schema) {
        Ok(value) => Ok(has_invariants(&value)),
        Err(error) => match error.classify() {
            Category::Memory => Err(AllocError),
            _ => Ok(true),
        },
    }
}
