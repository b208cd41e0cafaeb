//! A reader over bytes, value by value.

ghost use Rattle.std.specs.Prelude.{◌≡◌, ◌≤◌};
ghost use Rattle.dk_grammar.specs.Within.{left_of};
ghost use Rattle.dk_thrift.specs.Reading.{fault_of};

use crate::fault::ThriftFault;
use crate::numbers::{number, whole};
use crate::passing::pass;
use crate::values::{binary, field, list};
use dk_grammar::thrift::{Field, Flaw, ListHead};
use std::marker::Model;

/// A reader of Thrift's compact protocol. It stands at a place of the bytes, and knows the id of the last field of the current
/// struct. Its calls take no memory; after a fault it stands where it stood.
#[derive(Drop)]
pub struct Reader<'a> {
    size: usize,
    left: &'a [u8],
    last_id: i16,
}

impl<'a> Model for Reader<'a> {
    ghost use Rattle.std.specs.Prelude.{◌≤◌, length};
    ghost use Rattle.dk_thrift.specs.Reading.{Reading};

    ghost Value = { Reading };

    ghost view = { λ r. record { size = r.size; rest = r.left.now; last = r.last_id } };

    ghost invariant = { λ r. length r.left.now ≤ r.size };
}

impl<'a> Reader<'a> {
    ghost use Rattle.std.specs.Prelude.{◌≡◌, ◌≤◌, IfOk, OnOk, length, pos};
    ghost use Rattle.dk_grammar.specs.Grammar.{Spelled, SpellsBinary, SpellsField, SpellsList, SpellsNumber, SpellsWhole};
    ghost use Rattle.dk_grammar.specs.Nested.{SpellsValue, Takes};
    ghost use Rattle.dk_grammar.specs.Structs.{number_meaning};
    ghost use Rattle.dk_grammar.specs.Passed.{passed_at};
    ghost use Rattle.dk_grammar.specs.Thrift.{binary_at, field_at, list_at, number_at, whole_at};
    ghost use Rattle.dk_thrift.specs.Reading.{ReadsFront, ReadsField, Skips};

    /// A reader at the start of a struct.
    pub fn new(bytes: &'a [u8]) -> Reader<'a>
        ensures { result ≡ record { size = length bytes.now; rest = bytes.now; last = pos 0 } }
    {
        Reader {
            size: bytes.len(),
            left: bytes,
            last_id: 0,
        }
    }

    /// Begins an inner struct, and answers the last field id of the outer one, which [`Reader::leave`] takes.
    pub fn enter(&mut self) -> i16
        ensures outer { result ≡ self.old.last }
        ensures inner { self.new ≡ record self.old { last = pos 0 } }
    {
        let outer = self.last_id;
        self.last_id = 0;
        outer
    }

    /// Goes back to the outer struct, whose last field has this id.
    pub fn leave(&mut self, id: i16)
        ensures { self.new ≡ record self.old { last = id } }
    {
        self.last_id = id;
    }

    /// The bytes behind all that was read. The place where the reader stands is the number of all bytes less theirs.
    pub fn rest(&self) -> &'a [u8]
        ensures bytes { result.now ≡ self.now.rest }
        ensures within { length self.now.rest ≤ self.now.size }
    {
        self.left
    }

    /// A varint of at most 64 bits (Thrift compact protocol, "Integer encoding").
    ///
    /// `Short` comes exactly where the bytes end inside it, `BadType` with the place of its first byte exactly where it has more bits.
    pub fn varint(&mut self) -> Result<u64, ThriftFault>
        ensures exact { ReadsFront (λ n. n) self.old self.new result (number_at self.old.rest) }
        ensures spelled { IfOk result (λ number. Spelled SpellsNumber self.old.rest number self.new.rest) }
    {
        match number(self.left) {
            Ok((value, rest)) => {
                self.left = rest;
                Ok(value)
            }
            Err(flaw) => Err(fault(self.size, flaw)),
        }
    }

    /// A whole number of at most 64 bits: a zigzag varint (Thrift compact protocol, "Integer encoding").
    ///
    /// The faults are those of [`Reader::varint`].
    pub fn whole(&mut self) -> Result<i64, ThriftFault>
        ensures exact { ReadsFront (λ z. z) self.old self.new result (whole_at self.old.rest) }
        ensures spelled { IfOk result (λ value. Spelled SpellsWhole self.old.rest value self.new.rest) }
    {
        match whole(self.left) {
            Ok((value, rest)) => {
                self.left = rest;
                Ok(value)
            }
            Err(flaw) => Err(fault(self.size, flaw)),
        }
    }

    /// A text or other bytes: a length in bytes, and as many bytes (Thrift compact protocol, "Binary encoding"). They are a part
    /// of the bytes that the reader was made of.
    ///
    /// `Short` comes exactly where the bytes end before them, `BadType` exactly where the length has more than 64 bits.
    pub fn binary(&mut self) -> Result<&'a [u8], ThriftFault>
        ensures exact { ReadsFront (λ part. part.now) self.old self.new result (binary_at self.old.rest) }
        ensures spelled { IfOk result (λ part. Spelled SpellsBinary self.old.rest part.now self.new.rest) }
    {
        match binary(self.left) {
            Ok((part, rest)) => {
                self.left = rest;
                Ok(part)
            }
            Err(flaw) => Err(fault(self.size, flaw)),
        }
    }

    /// The header of a list or a set: how many elements follow, and of which kind (Thrift compact protocol, "List and set
    /// encoding"). A byte 0 is read as no elements, of kind 0.
    ///
    /// `Short` comes exactly where the bytes end inside it. `BadType` comes exactly where another byte names no kind, with its
    /// place, or the count has more than 32 bits, with that of its first byte.
    pub fn list(&mut self) -> Result<ListHead, ThriftFault>
        ensures exact { ReadsFront (λ head. head) self.old self.new result (list_at self.old.rest) }
        ensures spelled { IfOk result (λ head. Spelled SpellsList self.old.rest head self.new.rest) }
    {
        match list(self.left) {
            Ok((head, rest)) => {
                self.left = rest;
                Ok(head)
            }
            Err(flaw) => Err(fault(self.size, flaw)),
        }
    }

    /// The header of the next field of the current struct, or the struct's end (Thrift compact protocol, "Struct encoding").
    ///
    /// `Short` comes exactly where the bytes end inside it. `BadType` comes exactly where the byte names no kind or its step leads
    /// past the ids of 16 bits, with its place, or where an id in full has more than 16 bits, with that of its first byte.
    pub fn field(&mut self) -> Result<Field, ThriftFault>
        ensures exact { ReadsField self.old self.new result (field_at self.old.last self.old.rest) }
        ensures spelled { IfOk result (λ field. Spelled (SpellsField self.old.last) self.old.rest field self.new.rest) }
    {
        match field(self.last_id, self.left) {
            Ok((field, rest)) => {
                self.left = rest;
                if let Field::Next { id, .. } = field {
                    self.last_id = id;
                }
                Ok(field)
            }
            Err(flaw) => Err(fault(self.size, flaw)),
        }
    }

    /// Passes over the value of a field of this kind (Thrift compact protocol, "Struct encoding"), with at most 32 levels of
    /// structs and containers. The value of a flag,
    /// kind 1 or 2, stands in its header, so there is nothing to pass over. A claimed count costs no time that its bytes don't.
    ///
    /// `Short` comes exactly where the bytes end inside it, `TooDeep` where a struct or container of level 33 would begin, and
    /// `BadType` where a kind, a count or a number in it is none, or with the place of the reader where `kind` is none.
    pub fn skip(&mut self, kind: u8) -> Result<(), ThriftFault>
        ensures exact { Skips self.old self.new result (passed_at kind self.old.rest) }
        ensures spelled { OnOk result (Takes (SpellsValue kind) self.old.rest self.new.rest) }
    {
        match pass(kind, self.left) {
            Ok(rest) => {
                self.left = rest;
                Ok(())
            }
            Err(flaw) => Err(fault(self.size, flaw)),
        }
    }

    /// The value of a field of this kind, where it is a whole number of 16, 32 or 64 bits (Thrift compact protocol, "Integer
    /// encoding"). A value of another kind is passed over,
    /// and there is `None`. The faults are those of [`Reader::whole`] and [`Reader::skip`].
    pub fn number(&mut self, kind: u8) -> Result<Option<i64>, ThriftFault>
        ensures { ReadsFront (λ number. number) self.old self.new result (number_meaning (pos 0) kind self.old.rest) }
    {
        if 4 <= kind && kind <= 6 {
            return Ok(Some(self.whole()?));
        }
        self.skip(kind)?;
        Ok(None)
    }
}

/// A flaw with its place from the front of `size` bytes.
fn fault(size: usize, flaw: Flaw) -> ThriftFault
    requires { left_of flaw ≤ size }
    ensures { result ≡ fault_of size flaw }
{
    match flaw {
        Flaw::Short => ThriftFault::Short { at: size },
        Flaw::BadType { left } => ThriftFault::BadType { at: size - left },
        Flaw::TooDeep { left } => ThriftFault::TooDeep { at: size - left },
    }
}
