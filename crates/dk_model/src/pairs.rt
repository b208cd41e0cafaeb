//! Maps of texts, kept as pairs in the order of their keys.

ghost use Rattle.std.specs.Prelude.{◌≡◌, []};
ghost use Rattle.dk_model.specs.Pairs.{AreKeysRising};

use crate::text::Text;
use std::alloc::Global;
use std::marker::Model;

/// Pairs of a key and an optional value, the keys distinct and in byte order.
#[derive(Drop)]
pub struct Pairs {
    list: Vec<(Text, Option<Text>)>,
}

impl Model for Pairs {
    ghost use Rattle.std.specs.Prelude.{List, ℕ, Option, ◌≡◌};
    ghost use Rattle.dk_model.specs.Pairs.{AreKeysRising};

    ghost Value = { List (List ℕ × Option (List ℕ)) };

    ghost view = { λ p. p.list.items };

    ghost invariant = { λ p. AreKeysRising p.list.items };
}

impl Pairs {
    /// These pairs, whose keys rise in byte order. Takes no memory.
    pub fn new(list: Vec<(Text, Option<Text>)>) -> Pairs
        requires { AreKeysRising list.items }
        ensures { result ≡ list.items }
    {
        Pairs { list }
    }

    /// No pairs.
    pub fn empty(alloc: Global) -> Pairs
        ensures { result ≡ [] }
    {
        Pairs {
            list: Vec::new(alloc),
        }
    }

    /// The pairs, in the byte order of their keys.
    pub fn as_slice(&self) -> &[(Text, Option<Text>)]
        ensures value { result.now ≡ self.now }
        ensures rising { AreKeysRising self.now }
    {
        self.list.as_slice()
    }

    /// The pairs by value, with no copy.
    pub fn into_vec(self) -> Vec<(Text, Option<Text>)>
        ensures value { result.items ≡ self }
        ensures rising { AreKeysRising self }
    {
        self.list
    }
}
