//! What a footer says of a row group.

ghost use Rattle.std.specs.Prelude.{[], map};
ghost use Rattle.dk_pqmeta.specs.Kept.{chunk_kept};
ghost use Rattle.dk_pqmeta.specs.View.{MakesOf, column_view, columns_behind};

use crate::chunk::ColumnChunk;
use crate::fault::MetaFault;
use crate::footer::{Chunk, RowGroup};
use crate::numbers::natural;
use crate::structs::{Record, read_structs};
use crate::values::{LIST, is_held, read_number};
use dk_thrift::Reader;
use indexmap::IndexMap;
use std::alloc::Global;

/// The fields of a RowGroup that are read.
#[derive(Drop)]
pub(crate) struct Group {
    pub columns: Option<Vec<ColumnChunk>>,
    pub rows: Option<i64>,
}

impl Group {
    ghost use Rattle.std.specs.Prelude.{◌≡◌};
    ghost use Rattle.dk_pqmeta.specs.Kept.{group_kept, group_number};

    fn put(&mut self, id: i16, number: i64)
        ensures { group_kept self.new ≡ group_number id number (group_kept self.old) }
    {
        if id == 3 {
            self.rows = Some(number);
        }
    }
}

impl Record for Group {
    ghost use Rattle.std.specs.Prelude.{ℤ, List};
    ghost use Rattle.dk_grammar.specs.Lists.{Either};
    ghost use Rattle.dk_pqmodel.specs.Footer.{ChunkFields, GroupFields, group_fields};
    ghost use Rattle.dk_pqmeta.specs.Readings.{group_meaning};
    ghost use Rattle.dk_pqmeta.specs.Kept.{group_kept};

    ghost Part = { Either (List ChunkFields) ℤ };

    ghost meaning = { group_meaning };

    ghost Kept = { GroupFields };

    ghost kept = { group_kept };

    ghost kept_of = { group_fields };

    fn none() -> Group {
        Group {
            columns: None,
            rows: None,
        }
    }

    fn read_field(
        &mut self,
        alloc: Global,
        reader: &mut Reader<'_>,
        id: i16,
        kind: u8,
    ) -> Result<(), MetaFault> {
        if is_held(1, LIST, id, kind) {
            self.columns = Some(read_structs(alloc, reader)?);
        } else if let Some(number) = read_number(reader, kind)? {
            self.put(id, number);
        }
        Ok(())
    }
}

impl Group {
    ghost use Rattle.dk_pqmodel.specs.Footer.{group_of};
    ghost use Rattle.dk_pqmeta.specs.Kept.{group_kept};
    ghost use Rattle.dk_pqmeta.specs.View.{MakesOf, group_view};

    /// The row group with its chunks by path.
    pub fn into_row_group(self, alloc: Global) -> Result<RowGroup, MetaFault>
        ensures { MakesOf group_view result (group_of (group_kept self)) }
    {
        let Group { columns, rows } = self;
        let Some(chunks) = columns else {
            return Err(MetaFault::Broken);
        };
        let columns = columns_by_path(alloc, chunks)?;
        match natural(rows) {
            Some(rows) => Ok(RowGroup { rows, columns }),
            None => Err(MetaFault::Broken),
        }
    }
}

/// The chunks by their paths, where no two have one path.
fn columns_by_path(
    alloc: Global,
    chunks: Vec<ColumnChunk>,
) -> Result<IndexMap<Vec<String>, Chunk>, MetaFault>
    ensures { MakesOf (λ m. map column_view m.entries) result (columns_behind [] (map chunk_kept chunks.items)) }
{
    let mut columns = IndexMap::new(alloc);
    for chunk in chunks {
        let Some((path, chunk)) = chunk.into_column() else {
            return Err(MetaFault::Broken);
        };
        if columns.insert(path, chunk)?.is_some() {
            return Err(MetaFault::Broken);
        }
    }
    Ok(columns)
}
