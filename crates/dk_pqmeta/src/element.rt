//! An element of the flat list that spells the schema.

ghost use Rattle.std.specs.Prelude.{◌≡◌};
ghost use Rattle.dk_pqmodel.specs.Footer.{children_in, int32, absent_or};

use crate::fault::MetaFault;
use crate::numbers::{int32, natural32};
use crate::structs::Record;
use crate::tree::SchemaElement;
use crate::values::{BINARY, is_held, read_name, read_number};
use dk_thrift::Reader;
use std::alloc::Global;

/// The fields of a SchemaElement that are read.
#[derive(Drop)]
pub(crate) struct Element {
    pub physical: Option<i64>,
    pub repetition: Option<i64>,
    pub name: Option<String>,
    pub children: Option<i64>,
}

impl Element {
    ghost use Rattle.std.specs.Prelude.{◌≡◌};
    ghost use Rattle.dk_pqmeta.specs.Kept.{element_kept, element_number};

    fn put(&mut self, id: i16, number: i64)
        ensures { element_kept self.new ≡ element_number id number (element_kept self.old) }
    {
        match id {
            1 => self.physical = Some(number),
            3 => self.repetition = Some(number),
            5 => self.children = Some(number),
            _ => {}
        }
    }
}

impl Record for Element {
    ghost use Rattle.std.specs.Prelude.{ℤ, List, ℕ};
    ghost use Rattle.dk_grammar.specs.Lists.{Either};
    ghost use Rattle.dk_pqmodel.specs.Footer.{ElementFields, element_fields};
    ghost use Rattle.dk_pqmeta.specs.Readings.{element_meaning};
    ghost use Rattle.dk_pqmeta.specs.Kept.{element_kept};

    ghost Part = { Either (List ℕ) ℤ };

    ghost meaning = { element_meaning };

    ghost Kept = { ElementFields };

    ghost kept = { element_kept };

    ghost kept_of = { element_fields };

    fn none() -> Element {
        Element {
            physical: None,
            repetition: None,
            name: None,
            children: None,
        }
    }

    fn read_field(
        &mut self,
        alloc: Global,
        reader: &mut Reader<'_>,
        id: i16,
        kind: u8,
    ) -> Result<(), MetaFault> {
        if is_held(4, BINARY, id, kind) {
            self.name = Some(read_name(alloc, reader)?);
        } else if let Some(number) = read_number(reader, kind)? {
            self.put(id, number);
        }
        Ok(())
    }
}

impl Element {
    ghost use Rattle.std.specs.Prelude.{◌≡◌, option_map};
    ghost use Rattle.dk_pqmodel.specs.Footer.{schema_element};
    ghost use Rattle.dk_pqmeta.specs.Kept.{element_kept};
    ghost use Rattle.dk_pqmeta.specs.View.{element_view};

    /// The element with its numbers in their ranges; `None` where its name isn't there, or a number is out of its range.
    pub fn into_schema(self) -> Option<SchemaElement>
        ensures { option_map element_view result ≡ schema_element (element_kept self) }
    {
        let physical = optional32(self.physical)?;
        let children = children(self.children)?;
        let name = self.name?;
        Some(SchemaElement {
            name,
            repetition: self.repetition,
            physical,
            children,
        })
    }
}

/// A number of 32 bits that may be absent.
fn optional32(number: Option<i64>) -> Option<Option<i32>>
    ensures { result ≡ absent_or int32 number }
{
    match number {
        None => Some(None),
        Some(_) => Some(Some(int32(number)?)),
    }
}

/// How many children there are; none where nothing is said.
fn children(number: Option<i64>) -> Option<u32>
    ensures { result ≡ children_in number }
{
    match number {
        None => Some(0),
        Some(value) => natural32(value),
    }
}
