//! The words of an interval text.

ghost use Rattle.std.specs.Prelude.{◌≡◌, ◌<◌, ◌==◌, [], ◌∷◌, false, length, MatchOption, slice_index};
ghost use Rattle.std.specs.Str.{str_eq_ignore_ascii_case};
ghost use Rattle.dk_paths.specs.Intervals.{words};

/// The first word of a text, and what follows it; `None` where it has no word.
pub fn next_word(text: &[u8]) -> Option<(&[u8], &[u8])>
    ensures { MatchOption result (words text.now ≡ []) (λ split. words text.now ≡ split.0.now ∷ words split.1.now) }
{
    let text = skip_spaces(text);
    if text.is_empty() {
        return None;
    }
    Some(split_word(text))
}

/// A text from its first byte on that is no space.
fn skip_spaces(text: &[u8]) -> &[u8]
    ensures same { words result.now ≡ words text.now }
    ensures word { 0 < length result.now → (slice_index result.now 0 == 32) ≡ false }
{
    for (start, byte) in text.iter().enumerate() {
        if *byte != b' ' {
            return &text[start..];
        }
    }
    &text[text.len()..]
}

/// The word that a text begins with, and what follows it.
fn split_word(text: &[u8]) -> (&[u8], &[u8])
    requires some { 0 < length text.now }
    requires word { (slice_index text.now 0 == 32) ≡ false }
    ensures { words text.now ≡ result.0.now ∷ words result.1.now }
{
    for (end, byte) in text.iter().enumerate() {
        if *byte == b' ' {
            return (&text[..end], &text[end..]);
        }
    }
    (text, &text[text.len()..])
}

/// Whether two words are the same without regard to ASCII case.
pub fn is_word(word: &[u8], name: &[u8]) -> bool
    ensures { result ≡ str_eq_ignore_ascii_case word.now name.now }
{
    word.eq_ignore_ascii_case(name)
}
