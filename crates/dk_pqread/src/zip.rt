//! Triples of levels and values.

ghost use Rattle.std.specs.Prelude.{◌≡◌, ◌<◌, MatchOption, Some, length, map, slice_get, vec_len};
ghost use Rattle.dk_levels.specs.Answers.{GivesMeant};
ghost use Rattle.dk_pqmodel.specs.ColumnView.{column_of, triple_of, value_of};
ghost use Rattle.dk_pqread.specs.Meanings.{levels_on_page, one_triple, triples_then, zipped};
ghost use Rattle.std.specs.Vec.Iter.{into_iter_items};

use crate::column::Column;
use dk_pqmodel::{PqFault, Triple, Value};
use std::vec::IntoIter;

/// Adds so many triples of the column. `Broken` comes exactly where a level is above its greatest, or there aren't as many values as
/// definition levels that are the greatest.
pub(crate) fn add_triples(
    triples: &mut Vec<Triple>,
    column: &Column,
    repetitions: &Option<Vec<u32>>,
    definitions: &Option<Vec<u32>>,
    values: Vec<Value>,
    count: usize,
) -> Result<(), PqFault>
    requires reps { length (levels_on_page count repetitions.now) ≡ count }
    requires defs { length (levels_on_page count definitions.now) ≡ count }
    ensures { GivesMeant (λ _. column_of triples.new) result
        (triples_then (column_of triples.old) (zipped column.now.rep column.now.def (levels_on_page count repetitions.now) (levels_on_page count definitions.now) (map value_of values.items))) }
{
    triples.reserve(room(definitions, &values))?;
    let mut values = values.into_iter();
    for place in 0..count {
        let repetition = level(repetitions, place, count);
        let definition = level(definitions, place, count);
        triples.push(triple(column, repetition, definition, &mut values)?)?;
    }
    if values.next().is_some() {
        return Err(PqFault::Broken);
    }
    Ok(())
}

/// For how many triples room is made: as many as there are levels, or values where no levels are kept. What a page claims alone
/// makes no room.
fn room(definitions: &Option<Vec<u32>>, values: &[Value]) -> usize
    ensures { MatchOption definitions.now (result ≡ length values.now) (λ levels. result ≡ vec_len levels) }
{
    match definitions {
        Some(levels) => levels.len(),
        None => values.len(),
    }
}

/// The triple of two levels.
fn triple(
    column: &Column,
    repetition: u32,
    definition: u32,
    values: &mut IntoIter<Value>,
) -> Result<Triple, PqFault>
    ensures { GivesMeant (λ t. (triple_of t, map value_of (into_iter_items values.new))) result
        (one_triple column.now.rep column.now.def repetition definition (map value_of (into_iter_items values.old))) }
{
    if repetition > u32::from(column.rep) || definition > u32::from(column.def) {
        return Err(PqFault::Broken);
    }
    let value = if definition == u32::from(column.def) {
        let Some(value) = values.next() else {
            return Err(PqFault::Broken);
        };
        Some(value)
    } else {
        None
    };
    Ok(Triple {
        repetition: repetition as u8,
        definition: definition as u8,
        value,
    })
}

/// The level at a place.
fn level(levels: &Option<Vec<u32>>, place: usize, count: usize) -> u32
    requires all { length (levels_on_page count levels.now) ≡ count }
    requires within { place < count }
    ensures { slice_get (levels_on_page count levels.now) place ≡ Some result }
{
    match levels {
        Some(levels) => levels[place],
        None => 0,
    }
}
