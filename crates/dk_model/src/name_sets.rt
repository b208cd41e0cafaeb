//! Names as sets.

ghost use Rattle.std.specs.Prelude.{IfOk};
ghost use Rattle.dk_model.specs.NameSets.{HasNames};

use crate::text::Text;
use std::alloc::{AllocError, Global};
use std::collections::BTreeSet;

/// The set of the names of a list, which borrows them. Takes memory in proportion to the list; `Err` says that it was
/// wanted and not had.
pub fn name_set(alloc: Global, list: &[Text]) -> Result<BTreeSet<&str>, AllocError>
    ensures { IfOk result (λ names. HasNames names list.now) }
{
    let mut names: BTreeSet<&str> = BTreeSet::new(alloc);
    'list: for name in list {
        names.insert(name.as_str())?;
    }
    Ok(names)
}
