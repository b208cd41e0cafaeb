//! The fields of a JSON object.

ghost use Rattle.std.specs.Prelude.{Some, option_map};
ghost use Rattle.dk_model.specs.Fields.{needed as needed_of, optional as optional_of, lenient as lenient_of, group};
ghost use Rattle.dk_actjson.specs.Faults.{Gives, GivesBy};

use crate::fault::ActionFault;
use crate::form::Form;
use crate::tree::Tree;
use std::alloc::Global;

/// The field of that name, which must be there.
pub(crate) fn needed<F: Form, T: Tree>(
    alloc: Global,
    object: T,
    key: &str,
) -> Result<F, ActionFault>
    ensures { Gives result (needed_of F.form key.now (T.meant object)) }
{
    match object.field(key) {
        Some(value) => F::read(alloc, value),
        None => Err(ActionFault::Bad),
    }
}

/// The field of that name, where it is there.
pub(crate) fn optional<F: Form, T: Tree>(
    alloc: Global,
    object: T,
    key: &str,
) -> Result<Option<F>, ActionFault>
    ensures { Gives result (optional_of F.form key.now (T.meant object)) }
{
    match object.field(key) {
        Some(value) => Ok(Some(F::read(alloc, value)?)),
        None => Ok(None),
    }
}

/// The field of that name, where it is there and has the form.
pub(crate) fn lenient<F: Form, T: Tree>(
    alloc: Global,
    object: T,
    key: &str,
) -> Result<Option<F>, ActionFault>
    ensures { Gives result (Some (lenient_of F.form key.now (T.meant object))) }
{
    match object.field(key) {
        Some(value) => match F::read(alloc, value) {
            Ok(found) => Ok(Some(found)),
            Err(ActionFault::Bad) => Ok(None),
            Err(ActionFault::OutOfMemory) => Err(ActionFault::OutOfMemory),
        },
        None => Ok(None),
    }
}

/// The object of that name, which must be there.
pub(crate) fn needed_group<T: Tree>(object: T, key: &str) -> Result<T, ActionFault>
    ensures { GivesBy T.meant result (needed_of group key.now (T.meant object)) }
{
    match object.field(key) {
        Some(value) if value.is_object() => Ok(value),
        _ => Err(ActionFault::Bad),
    }
}

/// The object of that name, where it is there.
pub(crate) fn optional_group<T: Tree>(object: T, key: &str) -> Result<Option<T>, ActionFault>
    ensures { GivesBy (option_map T.meant) result
        (optional_of group key.now (T.meant object)) }
{
    match object.field(key) {
        None => Ok(None),
        Some(value) if value.is_object() => Ok(Some(value)),
        Some(_) => Err(ActionFault::Bad),
    }
}
