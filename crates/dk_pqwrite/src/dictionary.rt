//! Dictionaries of texts.

ghost use Rattle.std.specs.Prelude.{◌≡◌, ◌<◌, ◌^◌, IfOk, length, map, option_and_then, option_map};
ghost use Rattle.dk_levels.specs.Borrowed.{borrowed_triple};
ghost use Rattle.dk_pqwrite.specs.FirstUses.{AreTheirs, first_uses, text_value, texts_in};

use dk_levels::{BorrowedTriple, BorrowedValue};
use indexmap::IndexSet;
use std::alloc::{AllocError, Global};

/// The distinct texts of a column, in the order of their first use, and for each of its texts, in order, the place among these.
#[derive(Drop)]
pub(crate) struct Dictionary<'a> {
    pub texts: IndexSet<&'a str>,
    pub places: Vec<u32>,
}

/// The dictionary of the texts of triples. It takes time by their number and their lengths.
pub(crate) fn dictionary_of<'a>(
    alloc: Global,
    triples: &[BorrowedTriple<'a>],
) -> Result<Dictionary<'a>, AllocError>
    requires { length triples.now < 2 ^ 32 }
    ensures texts { IfOk result (λ d. map (λ k. k.now) d.texts.keys ≡ first_uses (texts_in (map borrowed_triple triples.now))) }
    ensures places { IfOk result (λ d. AreTheirs (map (λ k. k.now) d.texts.keys) d.places.items (texts_in (map borrowed_triple triples.now))) }
{
    let mut texts = IndexSet::new(alloc);
    let mut places = Vec::new(alloc);
    for triple in triples {
        if let Some(text) = text_of(triple) {
            let (place, _) = texts.insert_full(text)?;
            places.push(place as u32)?;
        }
    }
    Ok(Dictionary { texts, places })
}

/// The text that an entry has, if it has one.
fn text_of<'a>(triple: &BorrowedTriple<'a>) -> Option<&'a str>
    ensures { option_map (λ text. text.now) result ≡ option_and_then text_value (borrowed_triple triple.now).value }
{
    match &triple.value {
        BorrowedValue::Chars(text) => Some(*text),
        _ => None,
    }
}
