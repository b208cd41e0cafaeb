//! Texts without a known front or end.

ghost use Rattle.std.specs.Prelude.{◌≡◌, ◌++◌, ℕ, List, MatchOption};

/// What follows `front` in `text`; `None` where `text` doesn't begin with it.
pub fn strip_front<'a>(text: &'a [u8], front: &[u8]) -> Option<&'a [u8]>
    ensures { MatchOption result ((rest : List ℕ) → text.now ≡ front.now ++ rest → ⊥) (λ rest. text.now ≡ front.now ++ rest.now) }
{
    text.strip_prefix(front)
}

/// What stands before `ending` in `text`; `None` where `text` doesn't end with it.
pub fn strip_end<'a>(text: &'a [u8], ending: &[u8]) -> Option<&'a [u8]>
    ensures { MatchOption result ((front : List ℕ) → text.now ≡ front ++ ending.now → ⊥) (λ front. text.now ≡ front.now ++ ending.now) }
{
    text.strip_suffix(ending)
}
