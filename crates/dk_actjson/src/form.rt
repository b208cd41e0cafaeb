//! The forms that a field may have.

ghost use Rattle.std.specs.Prelude.{Option};
ghost use Rattle.serde_json.specs.Data.{Data};
ghost use Rattle.dk_model.specs.Fields.{whole, version, count, text, flag, names, pairs};
ghost use Rattle.dk_actjson.specs.Faults.{Gives};

use crate::fault::ActionFault;
use crate::tree::Tree;
use dk_model::{Names, Pairs, Text};
use std::alloc::Global;

/// What a field may hold.
pub(crate) trait Form: Sized {
    /// What a value of this form has, or none for a value of another form.
    ghost form: { Data → Option Self };

    fn read<T: Tree>(alloc: Global, value: T) -> Result<Self, ActionFault>
        ensures { Gives result (form (T.meant value)) };
}

impl Form for Text {
    ghost form = { text };

    fn read<T: Tree>(alloc: Global, value: T) -> Result<Text, ActionFault> {
        value.text(alloc)
    }
}

impl Form for i64 {
    ghost form = { whole };

    fn read<T: Tree>(_alloc: Global, value: T) -> Result<i64, ActionFault> {
        value.whole().ok_or(ActionFault::Bad)
    }
}

/// A version of a protocol, from 0 to 2,147,483,647.
impl Form for u32 {
    ghost form = { version };

    fn read<T: Tree>(_alloc: Global, value: T) -> Result<u32, ActionFault> {
        match value.unsigned() {
            Some(number) if number < 2_147_483_648 => Ok(number as u32),
            _ => Err(ActionFault::Bad),
        }
    }
}

/// A version of a table, from 0 to 9,223,372,036,854,775,807.
impl Form for u64 {
    ghost form = { count };

    fn read<T: Tree>(_alloc: Global, value: T) -> Result<u64, ActionFault> {
        match value.unsigned() {
            Some(number) if number < 9_223_372_036_854_775_808 => Ok(number),
            _ => Err(ActionFault::Bad),
        }
    }
}

impl Form for bool {
    ghost form = { flag };

    fn read<T: Tree>(_alloc: Global, value: T) -> Result<bool, ActionFault> {
        value.flag().ok_or(ActionFault::Bad)
    }
}

impl Form for Names {
    ghost form = { names };

    fn read<T: Tree>(alloc: Global, value: T) -> Result<Names, ActionFault> {
        value.names(alloc)
    }
}

impl Form for Pairs {
    ghost form = { pairs };

    fn read<T: Tree>(alloc: Global, value: T) -> Result<Pairs, ActionFault> {
        value.pairs(alloc)
    }
}
