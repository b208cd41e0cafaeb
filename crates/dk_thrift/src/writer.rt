//! A writer of structs, value by value.

ghost use Rattle.std.specs.Prelude.{◌≡◌, ◌≤◌, ◌++◌, ◌-ℤ◌, IsTrue, OnOk};
ghost use Rattle.dk_grammar.specs.Spelling.{field_bytes, short_step};
ghost use Rattle.dk_grammar.specs.Thrift.{is_kind};
ghost use Rattle.dk_grammar.specs.Varint.{varint_bytes};
ghost use Rattle.dk_grammar.specs.Zigzag.{zigzag};

use std::alloc::{AllocError, Global};
use std::marker::Model;

/// The greatest step from one field's id to the next that its header has room for.
const MAX_STEP: i32 = 15;

/// A list's header has room for a count below this.
const SHORT_COUNT: u32 = 15;

/// A writer of Thrift's compact protocol, in its shortest spellings. It keeps the id of the last field of each struct that isn't
/// ended. After want of memory it must not be used further.
#[derive(Drop)]
pub struct Writer {
    bytes: Vec<u8>,
    current: Option<i16>,
    outer: Vec<i16>,
}

impl Model for Writer {
    ghost use Rattle.dk_thrift.specs.Writing.{WrittenSoFar, structs_of};

    ghost Value = { WrittenSoFar };

    ghost view = { λ w. record { bytes = w.bytes.items; structs = structs_of w.current w.outer.items } };
}

impl Writer {
    ghost use Rattle.std.specs.Prelude.{◌≡◌, ◌∷◌, [], OnOk, IsTrue, pos};
    ghost use Rattle.dk_grammar.specs.Spelling.{binary_bytes, list_bytes, whole_bytes};
    ghost use Rattle.dk_grammar.specs.Thrift.{binary_at, is_kind, list_at, whole_at};
    ghost use Rattle.dk_grammar.specs.declared.thrift.Field.TheVariants.{End, Next};
    ghost use Rattle.dk_thrift.specs.Writing.{IsFieldAgain, IsOpen, IsReadAgain, with_bytes, with_end, with_field_header, with_struct};

    /// A writer at the start of a struct.
    pub fn new(alloc: Global) -> Writer
        ensures { result ≡ record { bytes = []; structs = pos 0 ∷ [] } }
    {
        Writer {
            bytes: Vec::new(alloc),
            current: Some(0),
            outer: Vec::new(alloc),
        }
    }

    /// Begins an inner struct: the value of a field of kind 12, or an element of that kind. It writes nothing.
    /// `Err` is want of memory.
    pub fn enter(&mut self) -> Result<(), AllocError>
        requires { IsOpen self.old }
        ensures { OnOk result (self.new ≡ with_struct self.old) }
    {
        let last = self.current.unwrap();
        self.outer.push(last)?;
        self.current = Some(0);
        Ok(())
    }

    /// A field's header (Thrift compact protocol, "Struct encoding"): one byte where the id is 1 to 15 above the struct's last one,
    /// else the kind and the whole id. Its value follows, but for a flag, whose kind is its value: 1 for true and 2 for false.
    /// `Err` is want of memory.
    pub fn field(&mut self, id: i16, kind: u8) -> Result<(), AllocError>
        requires in_struct { IsOpen self.old }
        requires kind { IsTrue (is_kind kind) }
        ensures written { OnOk result (self.new ≡ with_field_header id kind self.old) }
        ensures again { OnOk result (IsFieldAgain (Next id kind) self.old self.new) }
    {
        let last = self.current.unwrap();
        push_field(&mut self.bytes, last, id, kind)?;
        self.current = Some(id);
        Ok(())
    }

    /// A whole number, as a zigzag varint (Thrift compact protocol, "Integer encoding").
    /// `Err` is want of memory.
    pub fn whole(&mut self, value: i64) -> Result<(), AllocError>
        requires { IsOpen self.old }
        ensures written { OnOk result (self.new ≡ with_bytes (whole_bytes value) self.old) }
        ensures again { OnOk result (IsReadAgain whole_at value self.old self.new) }
    {
        push_varint(&mut self.bytes, zigzag(value))
    }

    /// A text or other bytes: their number, and they (Thrift compact protocol, "Binary encoding").
    /// `Err` is want of memory.
    pub fn binary(&mut self, bytes: &[u8]) -> Result<(), AllocError>
        requires { IsOpen self.old }
        ensures written { OnOk result (self.new ≡ with_bytes (binary_bytes bytes.now) self.old) }
        ensures again { OnOk result (IsReadAgain binary_at bytes.now self.old self.new) }
    {
        push_varint(&mut self.bytes, bytes.len() as u64)?;
        self.bytes.extend_from_slice(bytes)?;
        Ok(())
    }

    /// The header of a list or a set of so many elements of a kind (Thrift compact protocol, "List and set encoding").
    /// `Err` is want of memory.
    pub fn list(&mut self, count: u32, kind: u8) -> Result<(), AllocError>
        requires in_struct { IsOpen self.old }
        requires kind { IsTrue (is_kind kind) }
        ensures written { OnOk result (self.new ≡ with_bytes (list_bytes count kind) self.old) }
        ensures again { OnOk result (IsReadAgain list_at (record { count = count; kind = kind }) self.old self.new) }
    {
        if count < SHORT_COUNT {
            self.bytes.push(16 * count as u8 + kind)?;
        } else {
            self.bytes.push(240 + kind)?;
            push_varint(&mut self.bytes, u64::from(count))?;
        }
        Ok(())
    }

    /// Ends the current struct by a zero byte, and goes back to the outer one.
    /// `Err` is want of memory.
    pub fn end(&mut self) -> Result<(), AllocError>
        requires { IsOpen self.old }
        ensures written { OnOk result (self.new ≡ with_end self.old) }
        ensures again { OnOk result (IsFieldAgain End self.old self.new) }
    {
        self.bytes.push(0)?;
        self.current = self.outer.pop();
        Ok(())
    }

    /// The bytes written. It takes no memory.
    pub fn finish(self) -> Vec<u8>
        ensures { result.items ≡ self.bytes }
    {
        self.bytes
    }
}

/// The zigzag number that stands for a signed one.
fn zigzag(value: i64) -> u64
    ensures { result ≡ zigzag value }
{
    if value < 0 {
        2 * (-1 - value) as u64 + 1
    } else {
        2 * value as u64
    }
}

fn push_varint(bytes: &mut Vec<u8>, value: u64) -> Result<(), AllocError>
    ensures { OnOk result (bytes.new.items ≡ bytes.old.items ++ varint_bytes value) }
{
    let mut rest = value;
    while rest >= 128 {
        bytes.push((rest % 128) as u8 + 128)?;
        rest /= 128;
    }
    bytes.push(rest as u8)?;
    Ok(())
}

fn push_field(bytes: &mut Vec<u8>, last: i16, id: i16, kind: u8) -> Result<(), AllocError>
    requires { IsTrue (is_kind kind) }
    ensures { OnOk result (bytes.new.items ≡ bytes.old.items ++ field_bytes last id kind) }
{
    let step = short_step(last, id);
    if step == 0 {
        bytes.push(kind)?;
        push_varint(bytes, zigzag(i64::from(id)))?;
    } else {
        bytes.push(16 * step + kind)?;
    }
    Ok(())
}

/// The step from one id to the next, where a header has room for it, else 0.
fn short_step(last: i16, id: i16) -> u8
    ensures step { result ≡ short_step (id -ℤ last) }
    ensures small { result ≤ 15 }
{
    let step = i32::from(id) - i32::from(last);
    if 1 <= step && step <= MAX_STEP {
        step as u8
    } else {
        0
    }
}
