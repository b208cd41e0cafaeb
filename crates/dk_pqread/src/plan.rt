//! What is read of a file for wanted fields.

ghost use Rattle.std.specs.Prelude.{◌≡◌};
ghost use Rattle.dk_pqmodel.specs.Projection.{all_missing, is_missing};
ghost use Rattle.dk_pqread.specs.PlanView.{plan_of, plans_of};

use crate::leaf::Leaf;

/// What is read for a wanted field. The flags say whether the file's own field is optional.
#[derive(Drop)]
pub(crate) enum Plan {
    /// Nothing: the file lacks it, and it is null in each row.
    Missing,
    /// A column, by the names from the top to it.
    Value {
        optional: bool,
        kind: Leaf,
        path: Vec<String>,
    },
    /// Fields beside one another.
    Members {
        optional: bool,
        plans: Vec<Plan>,
    },
    /// The elements of a list.
    Elements {
        optional: bool,
        plan: Box<Plan>,
    },
    /// The entries of a map: the column of their keys, and their values.
    Entries {
        optional: bool,
        key_optional: bool,
        path: Vec<String>,
        value: Box<Plan>,
    },
}

/// Whether nothing is read.
pub(crate) fn is_missing(plan: &Plan) -> bool
    ensures { result ≡ is_missing (plan_of plan.now) }
{
    match plan {
        Plan::Missing => true,
        _ => false,
    }
}

/// Whether nothing is read for any of the plans.
pub(crate) fn all_missing(plans: &[Plan]) -> bool
    ensures { result ≡ all_missing (plans_of plans.now) }
{
    for plan in plans {
        if !is_missing(plan) {
            return false;
        }
    }
    true
}
