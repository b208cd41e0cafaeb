//! The columns of the file that are read.

ghost use Rattle.std.specs.Prelude.{◌≡◌, ◌+◌, ◌<◌, ◌≤◌, ◌++◌, OnOk, map};
ghost use Rattle.dk_pqmodel.specs.FileMeans.{columns_in, columns_of};
ghost use Rattle.dk_pqread.specs.ColumnView.{column_at, one_column};
ghost use Rattle.dk_pqread.specs.Depth.{depth_in, depth_of};
ghost use Rattle.dk_pqread.specs.PlanView.{plan_of, plans_of};

use crate::leaf::Leaf;
use crate::names::copy_path;
use crate::plan::Plan;
use std::alloc::{AllocError, Global};

/// A column of the file that is read.
#[derive(Drop)]
pub(crate) struct Column {
    /// The names from the top of the file's schema to it.
    pub path: Vec<String>,
    pub kind: Leaf,
    /// The greatest repetition level: how many lists are around its values.
    pub rep: u8,
    /// The greatest definition level: how many of the nodes on its path are optional or repeated.
    pub def: u8,
}

/// Adds the columns of the plans, in order. So many lists are around them, and so many optional or repeated nodes above them.
#[cycle(columns)]
pub(crate) fn add_columns(
    plans: &[Plan],
    alloc: Global,
    columns: &mut Vec<Column>,
    rep: u8,
    def: u8,
) -> Result<(), AllocError>
    requires deep { def + depth_of (plans_of plans.now) < 256 }
    requires lists { rep ≤ def }
    ensures { OnOk result (map column_at columns.new.items ≡ map column_at columns.old.items ++ columns_of (plans_of plans.now) rep def) }
{
    for plan in plans {
        add_plan(plan, alloc, columns, rep, def)?;
    }
    Ok(())
}

#[cycle(columns)]
fn add_plan(
    plan: &Plan,
    alloc: Global,
    columns: &mut Vec<Column>,
    rep: u8,
    def: u8,
) -> Result<(), AllocError>
    requires deep { def + depth_in (plan_of plan.now) < 256 }
    requires lists { rep ≤ def }
    ensures { OnOk result (map column_at columns.new.items ≡ map column_at columns.old.items ++ columns_in (plan_of plan.now) rep def) }
{
    match plan {
        Plan::Missing => Ok(()),
        Plan::Value {
            optional,
            kind,
            path,
        } => add_column(alloc, columns, path, *kind, rep, def + u8::from(*optional)),
        Plan::Members { optional, plans } => {
            add_columns(plans, alloc, columns, rep, def + u8::from(*optional))
        }
        Plan::Elements { optional, plan } => {
            add_plan(plan, alloc, columns, rep + 1, def + u8::from(*optional) + 1)
        }
        Plan::Entries {
            optional,
            key_optional,
            path,
            value,
        } => {
            let def = def + u8::from(*optional) + 1;
            add_column(
                alloc,
                columns,
                path,
                Leaf::Chars,
                rep + 1,
                def + u8::from(*key_optional),
            )?;
            add_plan(value, alloc, columns, rep + 1, def)
        }
    }
}

fn add_column(
    alloc: Global,
    columns: &mut Vec<Column>,
    path: &[String],
    kind: Leaf,
    rep: u8,
    def: u8,
) -> Result<(), AllocError>
    ensures { OnOk result (map column_at columns.new.items ≡ map column_at columns.old.items ++ one_column path.now kind rep def) }
{
    let path = copy_path(alloc, path)?;
    columns.push(Column {
        path,
        kind,
        rep,
        def,
    })?;
    Ok(())
}
