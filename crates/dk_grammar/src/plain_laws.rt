//! Laws of plain values. Each function does nothing; what it promises is the law.

ghost use Rattle.std.specs.Prelude.{◌≡◌, ◌++◌, ℕ, Bool, List, length};
ghost use Rattle.dk_grammar.specs.Plain.{Plain, AreAlike, IsPlain, plain_bytes, AreFlags};

/// Bytes begin with at most one value of a type, and hold so many flags in at most one way (Apache Parquet, "Plain").
pub fn plain_values_have_one_reading()
    ensures values { (value other : Plain) (rest more : List ℕ) → AreAlike value other → IsPlain value → IsPlain other
        → plain_bytes value ++ rest ≡ plain_bytes other ++ more → (value ≡ other) × (rest ≡ more) }
    ensures flags { (flags others : List Bool) (bytes : List ℕ) → length flags ≡ length others → AreFlags flags bytes → AreFlags others bytes → flags ≡ others }
{}
