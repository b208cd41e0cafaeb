//! Columns that are read triple by triple.
//!
//! A column that is read is turned: its next triple stands at its end, so that taking it moves it
//! out and leaves the others.

ghost use Rattle.std.specs.Prelude.{◌≡◌, ◌+◌, ◌<◌, ◌≤◌, length, MatchOption, None, Some};
ghost use Rattle.dk_pqmodel.specs.ColumnView.{triple_of, columns_of, value_of};
ghost use Rattle.dk_levels.specs.Reading.{begins, at_definition, at_repetition, first_triple, none_at, nothing_at, some_at, column_length, all_empty};
ghost use Rattle.dk_levels.specs.Fronts.{fronts};
ghost use Rattle.dk_levels.specs.Answers.{GivesMeant};

use crate::levels::Levels;
use dk_pqmodel::{PqFault, Triple, Value};

/// Turns each column.
pub fn turn(columns: &mut [Vec<Triple>])
    ensures { fronts columns.new ≡ columns_of columns.old }
{
    for column in columns.iter_mut() {
        column.reverse();
    }
}

/// Takes the next triple of the column.
pub fn take_first(rest: &mut [Vec<Triple>], place: usize) -> Option<Triple>
    requires { place < length rest.old }
    ensures { MatchOption result (first_triple (fronts rest.old) place ≡ None)
        (λ t. first_triple (fronts rest.old) place ≡ Some (triple_of t, fronts rest.new)) }
{
    rest[place].pop()
}

/// How many triples are left in the column.
pub fn triples_left(rest: &[Vec<Triple>], place: usize) -> usize
    requires { place < length rest.now }
    ensures { result ≡ column_length (fronts rest.now) place }
{
    rest[place].len()
}

/// Whether the column's next triple has the definition level.
pub fn is_at_definition(rest: &[Vec<Triple>], place: usize, definition: u8) -> bool
    requires { place < length rest.now }
    ensures { result ≡ begins (at_definition definition) (fronts rest.now) place }
{
    match rest[place].last() {
        Some(triple) => triple.definition == definition,
        None => false,
    }
}

/// Whether the column's next triple has the repetition level.
pub fn is_at_repetition(rest: &[Vec<Triple>], place: usize, repetition: u8) -> bool
    requires { place < length rest.now }
    ensures { result ≡ begins (at_repetition repetition) (fronts rest.now) place }
{
    match rest[place].last() {
        Some(triple) => triple.repetition == repetition,
        None => false,
    }
}

/// Takes one triple without a value from each of several columns.
pub fn take_nothing(
    rest: &mut [Vec<Triple>],
    width: usize,
    place: usize,
    levels: Levels,
) -> Result<(), PqFault>
    requires { place + width ≤ length rest.old }
    ensures { GivesMeant (λ _. fronts rest.new) result (nothing_at width levels.repetition levels.definition place (fronts rest.old)) }
{
    for i in place..place + width {
        take_none(rest, i, levels)?;
    }
    Ok(())
}

fn take_none(rest: &mut [Vec<Triple>], place: usize, levels: Levels) -> Result<(), PqFault>
    requires { place < length rest.old }
    ensures { GivesMeant (λ _. fronts rest.new) result (none_at levels.repetition levels.definition place (fronts rest.old)) }
{
    match take_first(rest, place) {
        Some(triple) => {
            if triple.repetition == levels.repetition
                && triple.definition == levels.definition
                && triple.value.is_none()
            {
                Ok(())
            } else {
                Err(PqFault::Broken)
            }
        }
        None => Err(PqFault::Broken),
    }
}

/// Takes the value of the column's next triple, which has these levels.
pub fn take_value(rest: &mut [Vec<Triple>], place: usize, levels: Levels) -> Result<Value, PqFault>
    requires { place < length rest.old }
    ensures { GivesMeant (λ v. (value_of v, fronts rest.new)) result (some_at levels.repetition levels.definition place (fronts rest.old)) }
{
    match take_first(rest, place) {
        Some(triple) => {
            if triple.repetition == levels.repetition && triple.definition == levels.definition {
                match triple.value {
                    Some(value) => Ok(value),
                    None => Err(PqFault::Broken),
                }
            } else {
                Err(PqFault::Broken)
            }
        }
        None => Err(PqFault::Broken),
    }
}

/// Whether no triple is left in any column.
pub fn is_all_read(rest: &[Vec<Triple>]) -> bool
    ensures { result ≡ all_empty (fronts rest.now) }
{
    for column in rest {
        if !column.is_empty() {
            return false;
        }
    }
    true
}
