//! Values that borrow their text, as trees.

ghost use Rattle.std.specs.Prelude.{◌≡◌, [], option_and_then, IfOk};
ghost use Rattle.std.specs.FinMap as map;
ghost use Rattle.json.specs.Value.{value_view, items_view, members_view};
ghost use Rattle.serde_json.specs.Data.{no_members};
ghost use Rattle.serde_json.specs.Find.{as_number, as_u64};
ghost use Rattle.serde_json.specs.Read.{number_of, read};
ghost use Rattle.dk_model.specs.Fields.{whole, texts_of, pairs_of, text_or_null};
ghost use Rattle.dk_actjson.specs.Faults.{Gives, GivesBy};
ghost use Rattle.dk_actjson.specs.Seen.{seen_number, seen, seen_items, seen_members, has_values as has_values_of, items_have_values as items_have_values_of, members_have_values as members_have_values_of};
ghost use Rattle.dk_actjson.specs.Slots.{slots_after, all_slots};

use crate::fault::ActionFault;
use crate::number::Number;
use crate::tree::Tree;
use dk_model::{Names, Pairs, Text, TextMap};
use json::{Reader, Scratch, Value};
use std::alloc::{AllocError, Global};

/// How deep arrays and objects may nest.
const MAX_DEPTH: usize = 127;

impl<'v, 'a> Tree for &'v Value<'a> {
    ghost use Rattle.json.specs.Value.{value_view};
    ghost use Rattle.dk_actjson.specs.Seen.{seen};

    ghost meant = { λ v. seen (value_view v.now) };

    #[tactic(auto, using(crate::proofs::Seen::field_by))]
    fn field(self, key: &str) -> Option<&'v Value<'a>> {
        let value = self.get(key)?;
        if value.is_null() { None } else { Some(value) }
    }

    fn is_object(self) -> bool {
        matches!(self, Value::Object(_))
    }

    fn text(self, alloc: Global) -> Result<Text, ActionFault> {
        match self {
            Value::String(text) => Ok(Text::from_str(alloc, text)?),
            _ => Err(ActionFault::Bad),
        }
    }

    fn whole(self) -> Option<i64> {
        match self {
            Value::Number(text) => whole_of(text),
            _ => None,
        }
    }

    fn unsigned(self) -> Option<u64> {
        match self {
            Value::Number(text) => unsigned_of(text),
            _ => None,
        }
    }

    fn flag(self) -> Option<bool> {
        self.as_bool()
    }

    fn names(self, alloc: Global) -> Result<Names, ActionFault> {
        match self {
            Value::Array(items) => read_names(alloc, items),
            _ => Err(ActionFault::Bad),
        }
    }

    fn pairs(self, alloc: Global) -> Result<Pairs, ActionFault> {
        match self {
            Value::Object(members) => read_pairs(alloc, members),
            _ => Err(ActionFault::Bad),
        }
    }
}

fn whole_of(text: &str) -> Option<i64>
    ensures { result ≡ whole (seen_number (number_of text.now)) }
{
    match Number::parse(text) {
        Some(Number::Unsigned(n)) if n <= i64::MAX as u64 => Some(n as i64),
        Some(Number::Negative(n)) => Some(n),
        None => Some(0),
        _ => None,
    }
}

fn unsigned_of(text: &str) -> Option<u64>
    ensures { result ≡ option_and_then as_u64 (as_number (seen_number (number_of text.now))) }
{
    match Number::parse(text) {
        Some(Number::Unsigned(n)) => Some(n),
        None => Some(0),
        _ => None,
    }
}

fn read_names(alloc: Global, items: &Vec<Value<'_>>) -> Result<Names, ActionFault>
    ensures { Gives result (texts_of (seen_items (items_view items.now.items))) }
{
    let mut list = Vec::with_capacity(alloc, items.len())?;
    'items: for item in items {
        let text = item.text(alloc)?;
        list.push(text)?;
    }
    Ok(Names::new(list))
}

/// The text or the null of a value, or none where it is neither.
fn slot_of(alloc: Global, value: &Value<'_>) -> Result<Option<Option<Text>>, AllocError>
    ensures { IfOk result (λ s. s ≡ text_or_null (seen (value_view value.now))) }
{
    match value {
        Value::Null => Ok(Some(None)),
        Value::String(text) => Ok(Some(Some(Text::from_str(alloc, text)?))),
        _ => Ok(None),
    }
}

/// The members in the order of their keys, the last value of each.
fn slots_of(
    alloc: Global,
    members: &Vec<(&str, Value<'_>)>,
) -> Result<TextMap<Option<Option<Text>>>, AllocError>
    ensures { IfOk result (λ m. map.entries m ≡ slots_after (members_view members.now.items) []) }
{
    let mut slots = TextMap::new(alloc);
    'members: for member in members {
        let key = Text::from_str(alloc, member.0)?;
        let slot = slot_of(alloc, &member.1)?;
        slots.insert(key, slot)?;
    }
    Ok(slots)
}

/// The pairs of keys that each have a text or null, in the byte order of the keys; `Bad` where one has neither.
pub fn pairs_of_slots(
    alloc: Global,
    slots: TextMap<Option<Option<Text>>>,
) -> Result<Pairs, ActionFault>
    ensures { Gives result (all_slots (map.entries slots)) }
{
    let mut list = Vec::with_capacity(alloc, slots.len())?;
    'slots: for (key, slot) in slots.into_entries() {
        let Some(text) = slot else {
            return Err(ActionFault::Bad);
        };
        list.push((key, text))?;
    }
    Ok(Pairs::new(list))
}

fn read_pairs(alloc: Global, members: &Vec<(&str, Value<'_>)>) -> Result<Pairs, ActionFault>
    ensures { Gives result (pairs_of (seen_members (members_view members.now.items) no_members)) }
{
    let slots = slots_of(alloc, members)?;
    pairs_of_slots(alloc, slots)
}

#[cycle(values)]
fn has_values(value: &Value<'_>) -> bool
    ensures { result ≡ has_values_of (value_view value.now) }
{
    match value {
        Value::Number(text) => Number::parse(text).is_some(),
        Value::Array(items) => items_have_values(items),
        Value::Object(members) => members_have_values(members),
        _ => true,
    }
}

#[cycle(values)]
fn items_have_values(items: &Vec<Value<'_>>) -> bool
    ensures { result ≡ items_have_values_of (items_view items.now.items) }
{
    'items: for item in items {
        if !has_values(item) {
            return false;
        }
    }
    true
}

#[cycle(values)]
fn members_have_values(members: &Vec<(&str, Value<'_>)>) -> bool
    ensures { result ≡ members_have_values_of (members_view members.now.items) }
{
    'members: for member in members {
        if !has_values(&member.1) {
            return false;
        }
    }
    true
}

/// The value of a text.
#[tactic(auto, using(crate::proofs::Seen::read_whole, crate::proofs::Seen::read_more))]
pub(crate) fn parse<'a>(
    alloc: Global,
    text: &'a str,
    scratch: &'a mut Scratch,
) -> Result<Value<'a>, ActionFault>
    ensures { GivesBy (λ v. seen (value_view v)) result (read text.now) }
{
    let Ok(mut reader) = Reader::new(text, scratch) else {
        return Err(ActionFault::OutOfMemory);
    };
    let value = match Value::read(alloc, &mut reader, MAX_DEPTH) {
        Ok(value) => value,
        Err(json::Error::Invalid) => return Err(ActionFault::Bad),
        Err(_) => return Err(ActionFault::OutOfMemory),
    };
    if let Some(_more) = reader.next() {
        return Err(ActionFault::Bad);
    }
    if has_values(&value) {
        Ok(value)
    } else {
        Err(ActionFault::Bad)
    }
}
