//! Structs of which some fields are kept, and lists of them.

ghost use Rattle.std.specs.Prelude.{◌≡◌, ◌++◌, [], length, map};
ghost use Rattle.dk_grammar.specs.Structs.{FieldValues, Meaning, fields_from, struct_at, under};
ghost use Rattle.dk_grammar.specs.Lists.{list_of, read_turned};
ghost use Rattle.dk_pqmeta.specs.Found.{FindsFront, FindsFields, FindsOne, kept_front};

use crate::fault::MetaFault;
use crate::values::{STRUCT, may_hold};
use dk_thrift::{Field, Reader};
use std::alloc::Global;

/// What is kept of a struct: the last value of each field that is read.
pub(crate) trait Record: Drop + Sized {
    /// What counts of a field.
    ghost Part: { Type 0 };

    ghost meaning: { Meaning Part };

    /// The kept fields as plain data, and what they are of the fields that stand there.
    ghost Kept: { Type 0 };

    ghost kept: { Self → Kept };

    ghost kept_of: { FieldValues Part → Kept };

    /// No field.
    fn none() -> Self
        ensures { kept result ≡ kept_of [] };

    /// The value of a field with this id and kind: it is kept, or passed over.
    fn read_field(
        &mut self,
        alloc: Global,
        reader: &mut Reader<'_>,
        id: i16,
        kind: u8,
    ) -> Result<(), MetaFault>
        ensures { (done : FieldValues Part) → kept self.old ≡ kept_of done
            → FindsOne (λ value. kept self.new ≡ kept_of (done ++ under id value [])) reader.old reader.new result (meaning id kind reader.old.rest) };
}

/// A struct.
pub(crate) fn read_struct<R: Record>(alloc: Global, reader: &mut Reader<'_>) -> Result<R, MetaFault>
    ensures { FindsFront R.kept reader.old reader.new result (read_turned R.kept_of (struct_at R.meaning) reader.old.rest) }
{
    let outer = reader.enter();
    let record = read_fields(alloc, reader)?;
    reader.leave(outer);
    Ok(record)
}

/// The fields of the current struct, up to its end.
fn read_fields<R: Record>(alloc: Global, reader: &mut Reader<'_>) -> Result<R, MetaFault>
    ensures { FindsFields R.kept reader.old reader.new result (kept_front R.kept_of (fields_from R.meaning (length reader.old.rest) reader.old.last reader.old.rest)) }
{
    let mut record = R::none();
    // Each field takes a byte at least.
    for _ in 0..reader.rest().len() {
        match reader.field()? {
            Field::End => return Ok(record),
            Field::Next { id, kind } => record.read_field(alloc, reader, id, kind)?,
        }
    }
    // Not reached, since the bytes end before there are so many fields.
    Err(MetaFault::Broken)
}

/// A list of structs.
pub(crate) fn read_structs<R: Record>(
    alloc: Global,
    reader: &mut Reader<'_>,
) -> Result<Vec<R>, MetaFault>
    ensures { FindsFront (λ v. map R.kept v.items) reader.old reader.new result (list_of 12 (read_turned R.kept_of (struct_at R.meaning)) reader.old.rest) }
{
    let head = reader.list()?;
    if !may_hold(STRUCT, head) {
        return Err(MetaFault::Broken);
    }
    let mut records = Vec::new(alloc);
    // Each struct takes a byte at least, so a claimed count alone grows nothing.
    for _ in 0..head.count {
        records.push(read_struct(alloc, reader)?)?;
    }
    Ok(records)
}
