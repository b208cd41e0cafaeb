//! What a reader of actions asks of a JSON value.

ghost use Rattle.std.specs.Prelude.{◌≡◌, is_some, option_map, option_and_then};
ghost use Rattle.serde_json.specs.Data.{Data};
ghost use Rattle.serde_json.specs.Find.{as_object, as_number, as_u64};
ghost use Rattle.dk_model.specs.Fields.{field as field_of, whole, text, flag, names, pairs};
ghost use Rattle.dk_actjson.specs.Faults.{Gives};

use crate::fault::ActionFault;
use dk_model::{Names, Pairs, Text};
use std::alloc::Global;

/// A JSON value, as a tree that can be looked into: a handle on what holds it.
pub trait Tree: Copy {
    /// The value as data.
    ghost meant: { Self → Data };

    /// The member of that name, where it is there and not null.
    fn field(self, key: &str) -> Option<Self>
        ensures { option_map meant result ≡ field_of key.now (meant self) };

    /// Whether it is an object.
    fn is_object(self) -> bool
        ensures { result ≡ is_some (as_object (meant self)) };

    /// A text, copied. `Bad` says that it is none, `OutOfMemory` that memory was wanted and not had.
    fn text(self, alloc: Global) -> Result<Text, ActionFault>
        ensures { Gives result (text (meant self)) };

    /// A whole number in the range of `i64`.
    fn whole(self) -> Option<i64>
        ensures { result ≡ whole (meant self) };

    /// A whole number in the range of `u64`.
    fn unsigned(self) -> Option<u64>
        ensures { result ≡ option_and_then as_u64 (as_number (meant self)) };

    /// True or false.
    fn flag(self) -> Option<bool>
        ensures { result ≡ flag (meant self) };

    /// A list of texts.
    fn names(self, alloc: Global) -> Result<Names, ActionFault>
        ensures { Gives result (names (meant self)) };

    /// A map of texts.
    fn pairs(self, alloc: Global) -> Result<Pairs, ActionFault>
        ensures { Gives result (pairs (meant self)) };
}
