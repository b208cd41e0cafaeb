//! What stands against reading a file, before a value of it is read.

ghost use Rattle.std.specs.Prelude.{◌≡◌, ℕ, List, IfOk, map};
ghost use Rattle.dk_pqmodel.specs.FileMeans.{columns_of};
ghost use Rattle.dk_pqmodel.specs.FooterBytes.{IsFramed};
ghost use Rattle.dk_pqmodel.specs.SchemaView.{fields_in};
ghost use Rattle.dk_pqmeta.specs.View.{group_view, nodes_of};
ghost use Rattle.dk_pqread.specs.ColumnView.{column_at};
ghost use Rattle.dk_pqread.specs.Depth.{depth_of};
ghost use Rattle.dk_pqread.specs.Examining.{Examines, LaysFile, Scans};
ghost use Rattle.dk_pqread.specs.PlanView.{plans_of};
ghost use Rattle.std.specs.Prelude.{◌+◌, ◌<◌};

use crate::bytes::number;
use crate::column::{Column, add_columns};
use crate::fault::LayFault;
use crate::lay::lay_nodes;
use crate::names::dotted;
use crate::plan::Plan;
use crate::scan::{first_compressed, first_unread};
use dk_pqmeta::{FileNode, Footer, RowGroup, read_footer};
use dk_pqmodel::{PqFault, Schema};
use std::alloc::{AllocError, Global};

/// What is read of a file for wanted fields.
#[derive(Drop)]
pub(crate) struct Examined {
    pub footer: Footer,
    /// What is read for each wanted field.
    pub plans: Vec<Plan>,
    /// The columns that are read, in the order of the schema.
    pub columns: Vec<Column>,
}

/// The footer, and what is read for the wanted fields. `NotParquet` comes exactly where the magic or the footer's length doesn't fit;
/// `Broken` where no footer is spelled; `Shape` where a wanted leaf has another type or structure in the file, with the first of them;
/// `Compressed` where a chunk that is read has a codec, from the footer alone; `Encoding` where a page that is read has an encoding that
/// isn't, from the page headers alone. Each comes only where none before it does. There is no other refusal but `OutOfMemory`.
pub(crate) fn examine(alloc: Global, bytes: &[u8], wanted: &Schema) -> Result<Examined, PqFault>
    ensures { Examines (fields_in wanted.now) bytes.now result }
{
    let footer = read_footer(alloc, bytes)?;
    let plans = lay(alloc, wanted, &footer.fields)?;
    let columns = columns(alloc, &plans)?;
    scan(alloc, before_footer(bytes), &columns, &footer.groups)?;
    Ok(Examined {
        footer,
        plans,
        columns,
    })
}

/// What is read for each wanted field of a file whose schema has these fields.
fn lay(alloc: Global, wanted: &Schema, fields: &[FileNode]) -> Result<Vec<Plan>, PqFault>
    ensures { LaysFile (fields_in wanted.now) (nodes_of fields.now) result }
{
    match lay_nodes(&wanted.nodes, alloc, &[], &[], fields) {
        Ok(plans) => Ok(plans),
        Err(LayFault::Shape(path)) => {
            let column = dotted(alloc, &path)?;
            Err(PqFault::Shape { column })
        }
        Err(LayFault::OutOfMemory) => Err(PqFault::OutOfMemory),
    }
}

fn columns(alloc: Global, plans: &[Plan]) -> Result<Vec<Column>, AllocError>
    requires { 0 + depth_of (plans_of plans.now) < 256 }
    ensures { IfOk result (λ v. map column_at v.items ≡ columns_of (plans_of plans.now) 0 0) }
{
    let mut columns = Vec::new(alloc);
    add_columns(plans, alloc, &mut columns, 0, 0)?;
    Ok(columns)
}

/// The two scans, one after the other.
fn scan(
    alloc: Global,
    before: &[u8],
    columns: &[Column],
    groups: &[RowGroup],
) -> Result<(), PqFault>
    ensures { Scans before.now (map column_at columns.now) (map group_view groups.now) result }
{
    if let Some((column, codec)) = first_compressed(columns, groups) {
        let column = dotted(alloc, &column.path)?;
        return Err(PqFault::Compressed { column, codec });
    }
    if let Some((column, code)) = first_unread(before, columns, groups) {
        let column = dotted(alloc, &column.path)?;
        return Err(PqFault::Encoding { column, code });
    }
    Ok(())
}

/// The file up to its footer.
pub(crate) fn before_footer(bytes: &[u8]) -> &[u8]
    requires { (before : List ℕ) × (part : List ℕ) × IsFramed bytes.now before part }
    ensures { (before part : List ℕ) → IsFramed bytes.now before part → result.now ≡ before }
{
    let end = bytes.len() - 8;
    let size = number(&bytes[end..end + 4]) as usize;
    &bytes[..end - size]
}
