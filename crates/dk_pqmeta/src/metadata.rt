//! What a footer says of a chunk of a column.

use crate::fault::MetaFault;
use crate::footer::Chunk;
use crate::numbers::{int32, natural, place};
use crate::structs::Record;
use crate::values::{LIST, is_held, read_number, read_path};
use dk_thrift::Reader;
use std::alloc::Global;

/// The fields of a ColumnMetaData that are read.
#[derive(Drop)]
pub(crate) struct ColumnMetaData {
    pub physical: Option<i64>,
    pub path: Option<Vec<String>>,
    pub codec: Option<i64>,
    pub values: Option<i64>,
    pub first_page: Option<i64>,
    pub dictionary_page: Option<i64>,
}

impl ColumnMetaData {
    ghost use Rattle.std.specs.Prelude.{◌≡◌};
    ghost use Rattle.dk_pqmeta.specs.Kept.{meta_kept, meta_number};

    fn put(&mut self, id: i16, number: i64)
        ensures { meta_kept self.new ≡ meta_number id number (meta_kept self.old) }
    {
        match id {
            1 => self.physical = Some(number),
            4 => self.codec = Some(number),
            5 => self.values = Some(number),
            9 => self.first_page = Some(number),
            11 => self.dictionary_page = Some(number),
            _ => {}
        }
    }
}

impl Record for ColumnMetaData {
    ghost use Rattle.std.specs.Prelude.{ℤ};
    ghost use Rattle.dk_grammar.specs.Lists.{Either};
    ghost use Rattle.dk_pqmodel.specs.Footer.{MetaFields, meta_fields};
    ghost use Rattle.dk_pqmodel.specs.Projection.{Path};
    ghost use Rattle.dk_pqmeta.specs.Readings.{meta_meaning};
    ghost use Rattle.dk_pqmeta.specs.Kept.{meta_kept};

    ghost Part = { Either Path ℤ };

    ghost meaning = { meta_meaning };

    ghost Kept = { MetaFields };

    ghost kept = { meta_kept };

    ghost kept_of = { meta_fields };

    fn none() -> ColumnMetaData {
        ColumnMetaData {
            physical: None,
            path: None,
            codec: None,
            values: None,
            first_page: None,
            dictionary_page: None,
        }
    }

    fn read_field(
        &mut self,
        alloc: Global,
        reader: &mut Reader<'_>,
        id: i16,
        kind: u8,
    ) -> Result<(), MetaFault> {
        if is_held(3, LIST, id, kind) {
            self.path = Some(read_path(alloc, reader)?);
        } else if let Some(number) = read_number(reader, kind)? {
            self.put(id, number);
        }
        Ok(())
    }
}

impl ColumnMetaData {
    ghost use Rattle.std.specs.Prelude.{◌≡◌, option_map, map, string_bytes};
    ghost use Rattle.dk_pqmodel.specs.Footer.{chunk_in, column_chunk};
    ghost use Rattle.dk_pqmeta.specs.Kept.{meta_kept};
    ghost use Rattle.dk_pqmeta.specs.View.{chunk_view};

    /// The chunk with its column's path; `None` where a field that it needs isn't there, or isn't a number that it takes.
    pub fn into_column(self) -> Option<(Vec<String>, Chunk)>
        ensures { option_map (λ x. (map string_bytes x.0.items, chunk_view x.1)) result ≡ column_chunk (meta_kept self) }
    {
        let chunk = self.chunk()?;
        let path = self.path?;
        Some((path, chunk))
    }

    fn chunk(&self) -> Option<Chunk>
        ensures { option_map chunk_view result ≡ chunk_in (meta_kept self.now) }
    {
        let physical = int32(self.physical)?;
        let codec = int32(self.codec)?;
        let values = natural(self.values)?;
        let first_page = natural(self.first_page)?;
        Some(Chunk {
            physical,
            codec,
            values,
            first_page,
            dictionary_page: place(self.dictionary_page),
        })
    }
}
