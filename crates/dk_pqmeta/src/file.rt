//! What a footer says of the whole file.

use crate::element::Element;
use crate::fault::MetaFault;
use crate::group::Group;
use crate::structs::{Record, read_structs};
use crate::values::{LIST, is_held, read_number};
use dk_thrift::Reader;
use std::alloc::Global;

/// The fields of a FileMetaData that are read.
#[derive(Drop)]
pub(crate) struct FileMetaData {
    pub schema: Option<Vec<Element>>,
    pub rows: Option<i64>,
    pub groups: Option<Vec<Group>>,
}

impl FileMetaData {
    ghost use Rattle.std.specs.Prelude.{◌≡◌};
    ghost use Rattle.dk_pqmeta.specs.Kept.{file_kept, file_number};

    fn put(&mut self, id: i16, number: i64)
        ensures { file_kept self.new ≡ file_number id number (file_kept self.old) }
    {
        if id == 3 {
            self.rows = Some(number);
        }
    }
}

impl Record for FileMetaData {
    ghost use Rattle.std.specs.Prelude.{ℤ, List};
    ghost use Rattle.dk_grammar.specs.Lists.{Either};
    ghost use Rattle.dk_pqmodel.specs.Footer.{ElementFields, GroupFields, FileFields, file_fields};
    ghost use Rattle.dk_pqmeta.specs.Readings.{file_meaning};
    ghost use Rattle.dk_pqmeta.specs.Kept.{file_kept};

    ghost Part = { Either (List ElementFields) (Either (List GroupFields) ℤ) };

    ghost meaning = { file_meaning };

    ghost Kept = { FileFields };

    ghost kept = { file_kept };

    ghost kept_of = { file_fields };

    fn none() -> FileMetaData {
        FileMetaData {
            schema: None,
            rows: None,
            groups: None,
        }
    }

    fn read_field(
        &mut self,
        alloc: Global,
        reader: &mut Reader<'_>,
        id: i16,
        kind: u8,
    ) -> Result<(), MetaFault> {
        if is_held(2, LIST, id, kind) {
            self.schema = Some(read_structs(alloc, reader)?);
        } else if is_held(4, LIST, id, kind) {
            self.groups = Some(read_structs(alloc, reader)?);
        } else if let Some(number) = read_number(reader, kind)? {
            self.put(id, number);
        }
        Ok(())
    }
}
