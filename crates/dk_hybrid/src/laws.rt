//! Laws of runs. Each function does nothing; what it promises is the law.

ghost use Rattle.dk_hybrid.specs.Laws.{EncodedValuesAreDecoded};

/// What `encode` writes, `decode` reads as the values, whatever follows.
pub fn encoded_values_are_decoded()
    ensures { EncodedValuesAreDecoded }
{}
