//! The elements of the schema, as they are written.

ghost use Rattle.std.specs.Prelude.{OnOk};
ghost use Rattle.dk_pqwrite.specs.Elements.{WritesElement, fields_of_element};
ghost use Rattle.dk_thrift.specs.Writing.{IsOpen};

use crate::fields::{put_optional, put_text};
use dk_thrift::Writer;
use std::alloc::AllocError;

/// An element of the flat list that spells the schema (SchemaElement).
#[derive(Clone, Copy)]
pub(crate) struct Element<'a> {
    pub name: &'a str,
    /// 0 required, 1 optional, 2 repeated; the root has none.
    pub repetition: Option<u32>,
    /// The code of a leaf's physical type.
    pub physical: Option<u32>,
    /// How many fields a group has.
    pub children: Option<u32>,
    /// What other readers take it for: 0 is UTF8, 1 is MAP and 3 is LIST.
    pub converted: Option<u32>,
}

/// An element, as a struct inside another one.
pub(crate) fn write_element(writer: &mut Writer, element: &Element<'_>) -> Result<(), AllocError>
    requires { IsOpen writer.old }
    ensures { OnOk result (WritesElement (fields_of_element element.now) writer.old writer.new) }
{
    writer.enter()?;
    put_optional(writer, 1, element.physical)?;
    put_optional(writer, 3, element.repetition)?;
    put_text(writer, 4, element.name)?;
    put_optional(writer, 5, element.children)?;
    put_optional(writer, 6, element.converted)?;
    writer.end()?;
    Ok(())
}
