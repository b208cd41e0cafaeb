//! Laws of runs. Each function does nothing; what it promises is the law.

ghost use Rattle.std.specs.Prelude.{◌≡◌, ℕ, ◌++◌, List, length};
ghost use Rattle.dk_grammar.specs.Runs.{AreFirst, EndShort};

/// Bytes hold the first values of runs (Apache Parquet, "Run Length Encoding / Bit-Packing Hybrid") in at most one way, as
/// many as are wanted, and bytes that end before so many values hold none.
pub fn runs_have_one_meaning()
    ensures one { (width count : ℕ) (values others front other rest more : List ℕ) → AreFirst width count values front → AreFirst width count others other
        → front ++ rest ≡ other ++ more → (front ≡ other) × (values ≡ others) }
    ensures count { (width count : ℕ) (values bytes : List ℕ) → AreFirst width count values bytes → length values ≡ count }
    ensures short { (width count : ℕ) (values bytes front rest : List ℕ) → EndShort width count bytes → AreFirst width count values front → bytes ≡ front ++ rest → ⊥ }
{}
