//! How the fields of an object are written.

ghost use Rattle.std.specs.Prelude.{◌≡◌, ◌++◌, ◌∷◌, [], Option, Some, OnOk, option_map};
ghost use Rattle.json.specs.Token.{begin_object, begin_array, end_object, end_array};
ghost use Rattle.serde_json.specs.Data.{Data};
ghost use Rattle.dk_model.specs.Shown.{text_data, whole_data, version_data, flag_data, names_data, pairs_data, text_or_null_data};
ghost use Rattle.dk_actjson.specs.Tokens.{HasTokens, tokens_of, after_field, after_pairs, after_names};

use dk_model::{Names, Pairs, Text};
use json::Writer;
use std::alloc::AllocError;

/// What a field shows.
pub(crate) trait Shown {
    /// The value as data.
    ghost shown: { Self → Data };

    fn write(&self, writer: &mut Writer) -> Result<(), AllocError>
        ensures { OnOk result (HasTokens writer.old
            (writer.old.tokens ++ tokens_of (shown self.now)) writer.new) };
}

impl Shown for Text {
    ghost shown = { text_data };

    fn write(&self, writer: &mut Writer) -> Result<(), AllocError> {
        writer.string(self.as_str())
    }
}

impl Shown for i64 {
    ghost shown = { whole_data };

    fn write(&self, writer: &mut Writer) -> Result<(), AllocError> {
        writer.i64(*self)
    }
}

/// A version of a protocol.
impl Shown for u32 {
    ghost shown = { version_data };

    fn write(&self, writer: &mut Writer) -> Result<(), AllocError> {
        writer.u64(*self as u64)
    }
}

/// A version of a table.
impl Shown for u64 {
    ghost shown = { version_data };

    fn write(&self, writer: &mut Writer) -> Result<(), AllocError> {
        writer.u64(*self)
    }
}

impl Shown for bool {
    ghost shown = { flag_data };

    fn write(&self, writer: &mut Writer) -> Result<(), AllocError> {
        writer.boolean(*self)
    }
}

impl Shown for Names {
    ghost shown = { names_data };

    fn write(&self, writer: &mut Writer) -> Result<(), AllocError> {
        open_array(writer)?;
        write_names(writer, self.as_slice())?;
        close_array(writer)?;
        Ok(())
    }
}

impl Shown for Pairs {
    ghost shown = { pairs_data };

    fn write(&self, writer: &mut Writer) -> Result<(), AllocError> {
        open_object(writer)?;
        write_pairs(writer, self.as_slice())?;
        close_object(writer)?;
        Ok(())
    }
}

/// A text, or null.
impl Shown for Option<Text> {
    ghost shown = { text_or_null_data };

    fn write(&self, writer: &mut Writer) -> Result<(), AllocError> {
        match self {
            Some(text) => text.write(writer),
            None => writer.null(),
        }
    }
}

fn write_names(writer: &mut Writer, names: &[Text]) -> Result<(), AllocError>
    ensures { OnOk result (HasTokens writer.old (after_names writer.old.tokens names.now)
        writer.new) }
{
    'names: for name in names {
        writer.string(name.as_str())?;
    }
    Ok(())
}

fn write_pairs(writer: &mut Writer, pairs: &[(Text, Option<Text>)]) -> Result<(), AllocError>
    ensures { OnOk result (HasTokens writer.old (after_pairs writer.old.tokens pairs.now)
        writer.new) }
{
    'pairs: for pair in pairs {
        field(writer, pair.0.as_str(), &pair.1)?;
    }
    Ok(())
}

/// Writes a field.
#[tactic(auto, unfolding(crate::specs::Tokens::after_field))]
pub(crate) fn field<S: Shown>(writer: &mut Writer, key: &str, value: &S) -> Result<(), AllocError>
    ensures { OnOk result (HasTokens writer.old
        (after_field writer.old.tokens key.now (Some (S.shown value.now))) writer.new) }
{
    writer.key(key)?;
    value.write(writer)?;
    Ok(())
}

/// Writes a field that is a text.
#[tactic(auto, unfolding(crate::specs::Tokens::after_field))]
pub(crate) fn text_field(writer: &mut Writer, key: &str, text: &str) -> Result<(), AllocError>
    ensures { OnOk result (HasTokens writer.old
        (after_field writer.old.tokens key.now (Some (text_data text.now))) writer.new) }
{
    writer.key(key)?;
    writer.string(text)?;
    Ok(())
}

/// Writes a field, where it has a value.
#[tactic(auto, unfolding(crate::specs::Tokens::after_field))]
pub(crate) fn field_if<S: Shown>(
    writer: &mut Writer,
    key: &str,
    value: &Option<S>,
) -> Result<(), AllocError>
    ensures { OnOk result (HasTokens writer.old
        (after_field writer.old.tokens key.now (option_map S.shown value.now)) writer.new) }
{
    match value {
        Some(value) => field(writer, key, value),
        None => Ok(()),
    }
}

pub(crate) fn open_object(writer: &mut Writer) -> Result<(), AllocError>
    ensures { OnOk result (HasTokens writer.old (writer.old.tokens ++ begin_object ∷ []) writer.new) }
{
    writer.begin_object()
}

pub(crate) fn close_object(writer: &mut Writer) -> Result<(), AllocError>
    ensures { OnOk result (HasTokens writer.old (writer.old.tokens ++ end_object ∷ []) writer.new) }
{
    writer.end_object()
}

fn open_array(writer: &mut Writer) -> Result<(), AllocError>
    ensures { OnOk result (HasTokens writer.old (writer.old.tokens ++ begin_array ∷ []) writer.new) }
{
    writer.begin_array()
}

fn close_array(writer: &mut Writer) -> Result<(), AllocError>
    ensures { OnOk result (HasTokens writer.old (writer.old.tokens ++ end_array ∷ []) writer.new) }
{
    writer.end_array()
}
