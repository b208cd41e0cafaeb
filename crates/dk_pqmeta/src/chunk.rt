//! What a footer holds of a chunk of a column.

use crate::fault::MetaFault;
use crate::footer::Chunk;
use crate::metadata::ColumnMetaData;
use crate::structs::{Record, read_struct};
use crate::values::{STRUCT, is_held, read_number};
use dk_thrift::Reader;
use std::alloc::Global;

/// The field of a ColumnChunk that is read.
#[derive(Drop)]
pub(crate) struct ColumnChunk {
    pub metadata: Option<ColumnMetaData>,
}

impl Record for ColumnChunk {
    ghost use Rattle.std.specs.Prelude.{ℤ};
    ghost use Rattle.dk_grammar.specs.Lists.{Either};
    ghost use Rattle.dk_pqmodel.specs.Footer.{MetaFields, ChunkFields, chunk_fields};
    ghost use Rattle.dk_pqmeta.specs.Readings.{chunk_meaning};
    ghost use Rattle.dk_pqmeta.specs.Kept.{chunk_kept};

    ghost Part = { Either MetaFields ℤ };

    ghost meaning = { chunk_meaning };

    ghost Kept = { ChunkFields };

    ghost kept = { chunk_kept };

    ghost kept_of = { chunk_fields };

    fn none() -> ColumnChunk {
        ColumnChunk { metadata: None }
    }

    fn read_field(
        &mut self,
        alloc: Global,
        reader: &mut Reader<'_>,
        id: i16,
        kind: u8,
    ) -> Result<(), MetaFault> {
        if is_held(3, STRUCT, id, kind) {
            self.metadata = Some(read_struct(alloc, reader)?);
        } else {
            read_number(reader, kind)?;
        }
        Ok(())
    }
}

impl ColumnChunk {
    ghost use Rattle.std.specs.Prelude.{◌≡◌, option_map, map, string_bytes};
    ghost use Rattle.dk_pqmodel.specs.Footer.{chunk_of};
    ghost use Rattle.dk_pqmeta.specs.Kept.{chunk_kept};
    ghost use Rattle.dk_pqmeta.specs.View.{chunk_view};

    /// The chunk with its column's path; `None` where it has no metadata, or not all that is needed.
    pub fn into_column(self) -> Option<(Vec<String>, Chunk)>
        ensures { option_map (λ x. (map string_bytes x.0.items, chunk_view x.1)) result ≡ chunk_of (chunk_kept self) }
    {
        self.metadata?.into_column()
    }
}
