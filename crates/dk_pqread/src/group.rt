//! The columns of a row group.

ghost use Rattle.std.specs.Prelude.{[], IsTrue, map};
ghost use Rattle.dk_pqmeta.specs.View.{group_view};
ghost use Rattle.dk_pqmodel.specs.ColumnView.{columns_of};
ghost use Rattle.dk_pqmodel.specs.FileMeans.{HasColumns};
ghost use Rattle.dk_pqmodel.specs.Footer.{is_new_each};
ghost use Rattle.dk_pqread.specs.ColumnView.{column_at};
ghost use Rattle.dk_pqread.specs.Meanings.{Finds};

use crate::chunk::read_chunk;
use crate::column::Column;
use crate::scan::chunk_of;
use dk_pqmeta::RowGroup;
use dk_pqmodel::{PqFault, Triple};
use std::alloc::Global;

/// The triples of each column, out of the group's chunk of its path. `before` is the file up to its footer.
pub(crate) fn read_columns(
    alloc: Global,
    before: &[u8],
    columns: &[Column],
    group: &RowGroup,
) -> Result<Vec<Vec<Triple>>, PqFault>
    // No two chunks of the group have one path, as in every footer.
    requires { IsTrue (is_new_each [] (group_view group.now).columns) }
    ensures { Finds (λ v. columns_of v.items) result (HasColumns before.now (group_view group.now) (map column_at columns.now)) }
{
    let mut leaves = Vec::new(alloc);
    for column in columns {
        let Some(chunk) = chunk_of(group, &column.path) else {
            return Err(PqFault::Broken);
        };
        leaves.push(read_chunk(alloc, before, column, chunk)?)?;
    }
    Ok(leaves)
}
