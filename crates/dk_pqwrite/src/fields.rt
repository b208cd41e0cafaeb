//! The fields of structs, as they are written.

ghost use Rattle.std.specs.Prelude.{◌<◌, ◌^◌, [], ◌∷◌, IfSome, IsTrue, OnOk};
ghost use Rattle.dk_grammar.specs.Thrift.{is_kind};
ghost use Rattle.dk_pqwrite.specs.Items.{IsWithin32Bits, Puts, number_item, optional_items, text_item};
ghost use Rattle.dk_thrift.specs.Writing.{IsOpen};

use dk_thrift::Writer;
use std::alloc::AllocError;

/// The kind of numbers of 32 bits.
pub(crate) const I32: u8 = 5;

/// The kind of numbers of 64 bits.
pub(crate) const I64: u8 = 6;

/// The kind of texts.
pub(crate) const BINARY: u8 = 8;

/// The kind of lists.
pub(crate) const LIST: u8 = 9;

/// The kind of structs.
pub(crate) const STRUCT: u8 = 12;

/// A field of a whole number.
pub(crate) fn put_number(
    writer: &mut Writer,
    id: u8,
    kind: u8,
    value: u64,
) -> Result<(), AllocError>
    requires in_struct { IsOpen writer.old }
    requires kind { IsTrue (is_kind kind) }
    requires small { value < 2 ^ 63 }
    ensures { OnOk result (Puts (number_item id kind value ∷ []) writer.old writer.new) }
{
    writer.field(i16::from(id), kind)?;
    writer.whole(value as i64)?;
    Ok(())
}

/// A field of a number of 32 bits, where there is one.
pub(crate) fn put_optional(
    writer: &mut Writer,
    id: u8,
    value: Option<u32>,
) -> Result<(), AllocError>
    requires { IsOpen writer.old }
    ensures put { OnOk result (Puts (optional_items id 5 value) writer.old writer.new) }
    ensures small { OnOk result (IsWithin32Bits value) }
{
    if let Some(number) = value {
        put_number(writer, id, I32, u64::from(number))?;
    }
    Ok(())
}

/// A field of a text.
pub(crate) fn put_text(writer: &mut Writer, id: u8, text: &str) -> Result<(), AllocError>
    requires { IsOpen writer.old }
    ensures { OnOk result (Puts (text_item id text.now ∷ []) writer.old writer.new) }
{
    writer.field(i16::from(id), BINARY)?;
    writer.binary(text.as_bytes())?;
    Ok(())
}

/// A field of a place in the file, where there is one.
pub(crate) fn put_place(writer: &mut Writer, id: u8, place: Option<u64>) -> Result<(), AllocError>
    requires in_struct { IsOpen writer.old }
    requires small { IfSome place (λ n. (0 < n) × (n < 2 ^ 63)) }
    ensures { OnOk result (Puts (optional_items id 6 place) writer.old writer.new) }
{
    if let Some(number) = place {
        put_number(writer, id, I64, number)?;
    }
    Ok(())
}
