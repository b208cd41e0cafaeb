//! The wanted rows of row groups.

ghost use Rattle.std.specs.Prelude.{◌≡◌, [], false, IfOk, IsTrue, All, map};
ghost use Rattle.dk_levels.specs.Solid.{AreReadable};
ghost use Rattle.dk_pqmeta.specs.View.{group_view};
ghost use Rattle.dk_pqmodel.specs.FileMeans.{HasRows, columns_of};
ghost use Rattle.dk_pqmodel.specs.Footer.{is_new_each};
ghost use Rattle.dk_pqmodel.specs.Projection.{all_missing, projected_fields, rows_widened};
ghost use Rattle.dk_pqmodel.specs.NodeView.{fields_of};
ghost use Rattle.dk_pqmodel.specs.RowView.{rows_of};
ghost use Rattle.dk_pqread.specs.Cells.{cells_then};
ghost use Rattle.dk_pqread.specs.ColumnView.{column_at};
ghost use Rattle.dk_levels.specs.Answers.{GivesMeant};
ghost use Rattle.dk_pqread.specs.Meanings.{Finds};
ghost use Rattle.dk_pqread.specs.PlanView.{plans_of};
ghost use Rattle.dk_pqread.specs.RowsMeaning.{AddsRows, GroupMeans, GroupsMean, empty_rows};

use crate::column::Column;
use crate::cut::cut_all;
use crate::group::read_columns;
use crate::plan::{Plan, all_missing};
use crate::widen::widen_each;
use dk_levels::assemble_nodes;
use dk_pqmeta::RowGroup;
use dk_pqmodel::{Columns, Node, PqFault, Row};
use std::alloc::{AllocError, Global};

/// The wanted rows of the groups, those of one group behind those of another. `before` is the file up to its footer. `Broken` comes
/// exactly where a group has no rows, or a map in one of them has a null key.
pub(crate) fn read_groups(
    alloc: Global,
    before: &[u8],
    plans: &[Plan],
    columns: &[Column],
    groups: &[RowGroup],
) -> Result<Vec<Row>, PqFault>
    requires read { map column_at columns.now ≡ columns_of (plans_of plans.now) 0 0 }
    requires readable { all_missing (plans_of plans.now) ≡ false → AreReadable (projected_fields (plans_of plans.now)) }
    // No two chunks of a group have one path, as in every footer.
    requires distinct { All (λ group. IsTrue (is_new_each [] (group_view group).columns)) groups.now }
    ensures { Finds (λ v. rows_of v.items) result (GroupsMean before.now (plans_of plans.now) (map group_view groups.now)) }
{
    let nodes = cut_all(plans, alloc)?;
    let mut rows = Vec::new(alloc);
    for group in groups {
        add_group(alloc, &mut rows, before, plans, columns, &nodes, group)?;
    }
    Ok(rows)
}

/// Adds the wanted rows of a group.
fn add_group(
    alloc: Global,
    rows: &mut Vec<Row>,
    before: &[u8],
    plans: &[Plan],
    columns: &[Column],
    nodes: &[Node],
    group: &RowGroup,
) -> Result<(), PqFault>
    requires read { map column_at columns.now ≡ columns_of (plans_of plans.now) 0 0 }
    requires cut { fields_of nodes.now ≡ projected_fields (plans_of plans.now) }
    requires readable { all_missing (plans_of plans.now) ≡ false → AreReadable (projected_fields (plans_of plans.now)) }
    requires distinct { IsTrue (is_new_each [] (group_view group.now).columns) }
    ensures { Finds (λ _. rows_of rows.new.items) result (AddsRows (rows_of rows.old.items) (GroupMeans before.now (plans_of plans.now) (group_view group.now))) }
{
    let own = own_rows(alloc, before, plans, columns, nodes, group)?;
    add_widened(alloc, rows, plans, own)
}

/// The rows of a group, as the file has them.
fn own_rows(
    alloc: Global,
    before: &[u8],
    plans: &[Plan],
    columns: &[Column],
    nodes: &[Node],
    group: &RowGroup,
) -> Result<Vec<Row>, PqFault>
    requires read { map column_at columns.now ≡ columns_of (plans_of plans.now) 0 0 }
    requires cut { fields_of nodes.now ≡ projected_fields (plans_of plans.now) }
    requires readable { all_missing (plans_of plans.now) ≡ false → AreReadable (projected_fields (plans_of plans.now)) }
    requires distinct { IsTrue (is_new_each [] (group_view group.now).columns) }
    ensures { Finds (λ v. rows_of v.items) result (HasRows before.now (plans_of plans.now) (group_view group.now)) }
{
    if all_missing(plans) {
        return Ok(empty_rows(alloc, group.rows)?);
    }
    let leaves = read_columns(alloc, before, columns, group)?;
    let rows = assemble_nodes(alloc, nodes, Columns { leaves })?;
    if rows.len() as u64 == group.rows {
        Ok(rows)
    } else {
        Err(PqFault::Broken)
    }
}

/// So many rows without a cell: what a group has of none of its columns. Room is made for all at once, so that a count that has no room
/// makes nothing grow.
fn empty_rows(alloc: Global, count: u64) -> Result<Vec<Row>, AllocError>
    ensures { IfOk result (λ v. rows_of v.items ≡ empty_rows count) }
{
    let mut rows = Vec::with_capacity(alloc, count as usize)?;
    for _ in 0..count {
        rows.push(Row {
            cells: Vec::new(alloc),
        })?;
    }
    Ok(rows)
}

/// Adds the wanted rows that are made of the file's. `Broken` comes exactly where a map in one has a null key.
fn add_widened(
    alloc: Global,
    rows: &mut Vec<Row>,
    plans: &[Plan],
    own: Vec<Row>,
) -> Result<(), PqFault>
    ensures { GivesMeant (λ _. rows_of rows.new.items) result (cells_then (rows_of rows.old.items) (rows_widened (plans_of plans.now) (rows_of own.items))) }
{
    rows.reserve(own.len())?;
    for row in own {
        let cells = widen_each(plans, alloc, row.cells)?;
        rows.push(Row { cells })?;
    }
    Ok(())
}
