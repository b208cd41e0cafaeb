//! The whole numbers among the fields of a struct.

ghost use Rattle.std.specs.Prelude.{◌≡◌, length};
ghost use Rattle.dk_pages.specs.Found.{ReadsFields, ReadsValue};
ghost use Rattle.dk_pages.specs.Headers.{numbers_of, with_number};
ghost use Rattle.dk_grammar.specs.Structs.{fields_from, number_meaning};

use dk_thrift::{Field, Reader, ThriftFault};

/// The whole numbers of the fields 1 to 6 of a struct; of several with one id it is the last.
#[derive(Clone, Copy)]
pub(crate) struct Numbers {
    pub field_1: Option<i64>,
    pub field_2: Option<i64>,
    pub field_3: Option<i64>,
    pub field_4: Option<i64>,
    pub field_5: Option<i64>,
    pub field_6: Option<i64>,
}

impl Numbers {
    ghost use Rattle.std.specs.Prelude.{◌≡◌, [], Some};
    ghost use Rattle.dk_pages.specs.Headers.{numbers_of, with_number};

    /// No numbers.
    pub fn none() -> Numbers
        ensures { result ≡ numbers_of [] }
    {
        Numbers {
            field_1: None,
            field_2: None,
            field_3: None,
            field_4: None,
            field_5: None,
            field_6: None,
        }
    }

    /// Keeps the number of the field with this id.
    pub fn put(&mut self, id: i16, number: i64)
        ensures { self.new ≡ with_number id (Some number) self.old }
    {
        match id {
            1 => self.field_1 = Some(number),
            2 => self.field_2 = Some(number),
            3 => self.field_3 = Some(number),
            4 => self.field_4 = Some(number),
            5 => self.field_5 = Some(number),
            6 => self.field_6 = Some(number),
            _ => {}
        }
    }
}

/// The fields of the current struct, up to its end.
pub(crate) fn read_numbers(reader: &mut Reader<'_>) -> Result<Numbers, ThriftFault>
    ensures { ReadsFields numbers_of reader.old reader.new result (fields_from number_meaning (length reader.old.rest) reader.old.last reader.old.rest) }
{
    let mut numbers = Numbers::none();
    // Each field takes a byte at least.
    for _ in 0..reader.rest().len() {
        match reader.field()? {
            Field::End => return Ok(numbers),
            Field::Next { id, kind } => read_number(reader, id, kind, &mut numbers)?,
        }
    }
    // Not reached, since the bytes end before there are so many fields. Callers don't look at the place.
    Err(ThriftFault::Short { at: 0 })
}

/// The value of a field: it is kept where it is a whole number, and else passed over.
pub(crate) fn read_number(
    reader: &mut Reader<'_>,
    id: i16,
    kind: u8,
    numbers: &mut Numbers,
) -> Result<(), ThriftFault>
    ensures { ReadsValue (λ value. numbers.new ≡ with_number id value numbers.old) reader.old reader.new result (number_meaning id kind reader.old.rest) }
{
    if let Some(number) = reader.number(kind)? {
        numbers.put(id, number);
    }
    Ok(())
}
