//! Worked hints. None of these functions does anything when it runs.

ghost use Rattle.dk_hint.specs.Example.{CanonicalTextIs, PlainHintIsRead, NullIsNoHint};

/// The canonical text of an object with lists, escapes and empty containers; a hint with no checksum is read; a null
/// field makes it none.
pub fn worked_hints()
    ensures canonical { CanonicalTextIs }
    ensures read { PlainHintIsRead }
    ensures null { NullIsNoHint }
{}
