//! Laws of the grammars, for the crates above. Each function does nothing; what it promises is the law.

ghost use Rattle.std.specs.Prelude.{◌≡◌, ◌<◌, ◌^◌, ℕ, ℤ, ◌++◌, List, Some, FitsSigned, IsTrue, length};
ghost use Rattle.std.specs.Int.{w64};
ghost use Rattle.dk_grammar.specs.Grammar.{ReadsBy, Spelled, SpellsBinary, SpellsField, SpellsList, SpellsNumber, SpellsWhole};
ghost use Rattle.dk_grammar.specs.Nested.{PassesBy, SpellsValue};
ghost use Rattle.dk_grammar.specs.Passed.{passed_at};
ghost use Rattle.dk_grammar.specs.Spelling.{binary_bytes, end_bytes, field_bytes, list_bytes, whole_bytes};
ghost use Rattle.dk_grammar.specs.Thrift.{binary_at, field_at, head, is_id, is_kind, list_at, number_at, whole_at};
ghost use Rattle.dk_grammar.specs.Varint.{IsVarint, varint_at, varint_bytes};
ghost use Rattle.dk_grammar.specs.declared.thrift.Field.TheVariants.{End, Next};

/// A varint (Thrift compact protocol, "Integer encoding") is read as its number, whatever follows; what is read is a varint;
/// and what is written is one.
pub fn varints_are_read()
    ensures given { (front rest : List ℕ) (n : ℕ) → IsVarint front n → varint_at (front ++ rest) ≡ Some (n, rest) }
    ensures spelled { (bytes rest : List ℕ) (n : ℕ) → varint_at bytes ≡ Some (n, rest) → Spelled IsVarint bytes n rest }
    ensures written { (n : ℕ) → IsVarint (varint_bytes n) n }
{}

/// What is read of Thrift's compact protocol, or passed over, is spelled by the bytes taken, and what is spelled is read or passed
/// over, whatever follows.
pub fn values_are_read_by_their_grammars()
    ensures number { ReadsBy SpellsNumber number_at }
    ensures whole { ReadsBy SpellsWhole whole_at }
    ensures binary { ReadsBy SpellsBinary binary_at }
    ensures field { (last : ℤ) → ReadsBy (SpellsField last) (field_at last) }
    ensures list { ReadsBy SpellsList list_at }
    ensures passed { (kind : ℕ) → PassesBy (SpellsValue kind) (passed_at kind) }
{}

/// What is written of Thrift's compact protocol is a spelling of its value.
pub fn values_are_written_as_spellings()
    ensures whole { (z : ℤ) → FitsSigned w64 z → SpellsWhole (whole_bytes z) z }
    ensures binary { (part : List ℕ) → length part < 2 ^ 64 → SpellsBinary (binary_bytes part) part }
    ensures field { (last id : ℤ) (kind : ℕ) → IsTrue (is_id id) → IsTrue (is_kind kind) → SpellsField last (field_bytes last id kind) (Next id kind) }
    ensures end { (last : ℤ) → SpellsField last end_bytes End }
    ensures list { (count kind : ℕ) → count < 2 ^ 32 → IsTrue (is_kind kind) → SpellsList (list_bytes count kind) (head count kind) }
{}
