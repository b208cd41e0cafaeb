//! The values of `serde_json`, as trees.

ghost use Rattle.serde_json.specs.View.{view, members_view, items_view};
ghost use Rattle.dk_model.specs.Fields.{texts_of, pairs_of, text_or_null};
ghost use Rattle.dk_actjson.specs.Faults.{Gives};

use crate::fault::ActionFault;
use crate::tree::Tree;
use dk_model::{Names, Pairs, Text};
use serde_json::{Map, Value};
use std::alloc::Global;

impl<'a> Tree for &'a Value {
    ghost use Rattle.serde_json.specs.View.{view};

    ghost meant = { λ v. view v.now };

    fn field(self, key: &str) -> Option<&'a Value> {
        match self.get(key) {
            Some(Value::Null) => None,
            found => found,
        }
    }

    fn is_object(self) -> bool {
        Value::is_object(self)
    }

    fn text(self, alloc: Global) -> Result<Text, ActionFault> {
        match self.as_str() {
            Some(text) => Ok(Text::from_str(alloc, text)?),
            None => Err(ActionFault::Bad),
        }
    }

    fn whole(self) -> Option<i64> {
        self.as_i64()
    }

    fn unsigned(self) -> Option<u64> {
        self.as_u64()
    }

    fn flag(self) -> Option<bool> {
        self.as_bool()
    }

    fn names(self, alloc: Global) -> Result<Names, ActionFault> {
        match self.as_array() {
            Some(items) => read_names(alloc, items),
            None => Err(ActionFault::Bad),
        }
    }

    fn pairs(self, alloc: Global) -> Result<Pairs, ActionFault> {
        match self.as_object() {
            Some(members) => read_pairs(alloc, members),
            None => Err(ActionFault::Bad),
        }
    }
}

fn read_names(alloc: Global, items: &Vec<Value>) -> Result<Names, ActionFault>
    ensures { Gives result (texts_of (items_view items.now.items)) }
{
    let mut list = Vec::new(alloc);
    'items: for item in items {
        let text = item.text(alloc)?;
        list.push(text)?;
    }
    Ok(Names::new(list))
}

fn read_pairs(alloc: Global, members: &Map<String, Value>) -> Result<Pairs, ActionFault>
    ensures { Gives result (pairs_of (members_view members.now.entries)) }
{
    let mut list = Vec::new(alloc);
    'members: for (name, value) in members.iter() {
        let key = Text::from_str(alloc, name.as_str())?;
        let text = read_text_or_null(alloc, value)?;
        list.push((key, text))?;
    }
    Ok(Pairs::new(list))
}

fn read_text_or_null(alloc: Global, value: &Value) -> Result<Option<Text>, ActionFault>
    ensures { Gives result (text_or_null (view value.now)) }
{
    match value {
        Value::Null => Ok(None),
        Value::String(text) => Ok(Some(Text::from_str(alloc, text.as_str())?)),
        _ => Err(ActionFault::Bad),
    }
}
