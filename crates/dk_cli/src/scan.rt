//! Which limit on the input its bytes pass first.
ghost use Rattle.std.specs.Prelude.{◌≡◌, ◌<◌, ◌≤◌, ◌^◌, ◌+◌, ◌++◌, ◌∷◌, [], List, ℕ, length, None};
ghost use Rattle.dk_cli.specs.Input.{passed, first_passed_from};
ghost use Rattle.dk_cli.specs.Seen.{HasSeen, IsWithin};

use dk_engine::{Limits, Which};

/// What was seen of the input so far.
#[derive(Clone, Copy)]
pub(crate) struct Scan {
    /// How many bytes.
    size: u64,
    /// The length of the line that is being read.
    line: u64,
    /// How many lines have begun.
    lines: u64,
}

impl Scan {
    /// Nothing was seen.
    pub(crate) fn new() -> Scan
        ensures seen { HasSeen result [] }
        ensures within { IsWithin result }
    {
        Scan {
            size: 0,
            line: 0,
            lines: 0,
        }
    }

    /// One more byte.
    fn count(&mut self, byte: u8)
        requires room { self.old.size < 2 ^ 63 }
        requires within { IsWithin self.old }
        ensures seen { (bytes : List ℕ) → HasSeen self.old bytes → HasSeen self.new (bytes ++ byte ∷ []) }
        ensures within { IsWithin self.new }
        ensures one_more { self.new.size ≡ self.old.size + 1 }
    {
        self.size += 1;
        if self.line == 0 {
            self.lines += 1;
        }
        self.line = if byte == b'\n' { 0 } else { self.line + 1 };
    }

    /// The first limit of the table that is passed.
    fn passed(&self, limits: Limits) -> Option<Which>
        ensures first { (bytes : List ℕ) → HasSeen self.now bytes → result ≡ passed limits bytes }
        ensures small { result ≡ None → self.now.size ≤ limits.input }
    {
        if self.size > limits.input {
            Some(Which::Input)
        } else if self.line > limits.line {
            Some(Which::InputLine)
        } else if self.lines > limits.lines {
            Some(Which::InputLines)
        } else {
            None
        }
    }

    /// Looks at more bytes, up to the one with which a limit is passed.
    pub(crate) fn look(&mut self, limits: Limits, piece: &[u8]) -> Option<Which>
        requires room { self.old.size + length piece.now < 2 ^ 63 }
        requires within { IsWithin self.old }
        requires small { self.old.size ≤ limits.input }
        ensures first { (bytes : List ℕ) → HasSeen self.old bytes → result ≡ first_passed_from limits (length bytes) (length piece.now) (bytes ++ piece.now) }
        ensures seen { result ≡ None → (bytes : List ℕ) → HasSeen self.old bytes → HasSeen self.new (bytes ++ piece.now) }
        ensures within { IsWithin self.new }
        ensures small { result ≡ None → self.new.size ≤ limits.input }
    {
        for byte in piece {
            self.count(*byte);
            let passed = self.passed(limits);
            if passed.is_some() {
                return passed;
            }
        }
        None
    }
}
