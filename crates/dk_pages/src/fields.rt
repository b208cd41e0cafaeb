//! The fields of a page header.

ghost use Rattle.std.specs.Prelude.{◌≡◌, ◌&&◌, length};
ghost use Rattle.dk_pages.specs.Found.{ReadsFields, ReadsValue};
ghost use Rattle.dk_grammar.specs.PageHeaders.{is_inner, part_meaning};
ghost use Rattle.dk_pages.specs.Headers.{header_fields, with_part};
ghost use Rattle.dk_grammar.specs.Structs.{fields_from};

use crate::numbers::{Numbers, read_number, read_numbers};
use dk_thrift::{Field, Reader, ThriftFault};

/// The kind of a struct.
const STRUCT: u8 = 12;

/// The numbers of a page header, and those of the headers inside it.
#[derive(Clone, Copy)]
pub(crate) struct Fields {
    pub own: Numbers,
    pub data_page: Numbers,
    pub dictionary_page: Numbers,
    pub data_page_v2: Numbers,
}

impl Fields {
    ghost use Rattle.std.specs.Prelude.{◌≡◌, []};
    ghost use Rattle.dk_pages.specs.Headers.{header_fields, with_inner};

    /// No numbers.
    pub fn none() -> Fields
        ensures { result ≡ header_fields [] }
    {
        Fields {
            own: Numbers::none(),
            data_page: Numbers::none(),
            dictionary_page: Numbers::none(),
            data_page_v2: Numbers::none(),
        }
    }

    /// Keeps the inner header of the field with this id.
    fn put(&mut self, id: i16, inner: Numbers)
        ensures { self.new ≡ with_inner id inner self.old }
    {
        match id {
            5 => self.data_page = inner,
            7 => self.dictionary_page = inner,
            8 => self.data_page_v2 = inner,
            _ => {}
        }
    }
}

/// The fields of a page header, up to its end.
pub(crate) fn read_fields(reader: &mut Reader<'_>) -> Result<Fields, ThriftFault>
    ensures { ReadsFields header_fields reader.old reader.new result (fields_from part_meaning (length reader.old.rest) reader.old.last reader.old.rest) }
{
    let mut fields = Fields::none();
    // Each field takes a byte at least.
    for _ in 0..reader.rest().len() {
        match reader.field()? {
            Field::End => return Ok(fields),
            Field::Next { id, kind } => read_part(reader, id, kind, &mut fields)?,
        }
    }
    // Not reached, since the bytes end before there are so many fields. Callers don't look at the place.
    Err(ThriftFault::Short { at: 0 })
}

/// The value of a field: an inner header, a number, or what is passed over.
fn read_part(
    reader: &mut Reader<'_>,
    id: i16,
    kind: u8,
    fields: &mut Fields,
) -> Result<(), ThriftFault>
    ensures { ReadsValue (λ part. fields.new ≡ with_part id part fields.old) reader.old reader.new result (part_meaning id kind reader.old.rest) }
{
    if is_inner(id) && kind == STRUCT {
        let outer = reader.enter();
        let inner = read_numbers(reader)?;
        reader.leave(outer);
        fields.put(id, inner);
        Ok(())
    } else {
        read_number(reader, id, kind, &mut fields.own)
    }
}

/// Whether a field of this id is an inner header.
fn is_inner(id: i16) -> bool
    ensures { result ≡ is_inner id }
{
    id == 5 || id == 7 || id == 8
}
