//! How an object is written: its fields, in the byte order of their keys.

ghost use Rattle.std.specs.Prelude.{◌++◌, List, Some, OnOk};
ghost use Rattle.dk_model.specs.Shown.{Field, object_with};
ghost use Rattle.dk_actjson.specs.Tokens.{AreRising, HasTokens, tokens_of, after_field, after_fields};

use crate::shown::{close_object, open_object};
use json::Writer;
use std::alloc::AllocError;

/// What is written as an object.
pub(crate) trait Object {
    /// Its table of fields.
    ghost fields: { Self → List Field };

    /// Writes the fields, in the order of their table, in which the keys rise.
    fn write_fields(&self, writer: &mut Writer) -> Result<(), AllocError>
        ensures written { OnOk result (HasTokens writer.old (after_fields writer.old.tokens (fields self.now)) writer.new) }
        ensures rising { OnOk result (AreRising (fields self.now)) };
}

fn write_object<O: Object>(writer: &mut Writer, object: &O) -> Result<(), AllocError>
    ensures { OnOk result (HasTokens writer.old
        (writer.old.tokens ++ tokens_of (object_with (O.fields object.now))) writer.new) }
{
    open_object(writer)?;
    object.write_fields(writer)?;
    close_object(writer)?;
    Ok(())
}

/// Writes an object under a key.
#[tactic(auto, unfolding(crate::specs::Tokens::after_field))]
pub(crate) fn object_field<O: Object>(
    writer: &mut Writer,
    key: &str,
    object: &O,
) -> Result<(), AllocError>
    ensures { OnOk result (HasTokens writer.old (after_field writer.old.tokens key.now
        (Some (object_with (O.fields object.now)))) writer.new) }
{
    writer.key(key)?;
    write_object(writer, object)?;
    Ok(())
}
