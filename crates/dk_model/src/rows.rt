//! Whether actions change rows.

ghost use Rattle.std.specs.Prelude.{◌≡◌};
ghost use Rattle.dk_model.specs.Rows.{adds_rows, removes_rows};

use crate::action::Action;

impl Action {
    /// Whether it adds rows that weren't in the table before: an add whose `dataChange` is true (Delta Lake's PROTOCOL.md,
    /// "Add File and Remove File").
    pub fn adds_rows(&self) -> bool
        ensures { result ≡ adds_rows self.now }
    {
        match self {
            Action::Add(file) => file.data_change,
            _ => false,
        }
    }

    /// Whether it removes rows that are in the table no more: a remove whose `dataChange` is true (Delta Lake's PROTOCOL.md,
    /// "Add File and Remove File").
    pub fn removes_rows(&self) -> bool
        ensures { result ≡ removes_rows self.now }
    {
        match self {
            Action::Remove(file) => file.data_change,
            _ => false,
        }
    }
}
