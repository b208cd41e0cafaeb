//! Triples that borrow their texts from rows.

ghost use Rattle.std.specs.Prelude.{◌≡◌, IfOk, map, option_map};
ghost use Rattle.dk_pqmodel.specs.ColumnView.{columns_in, column_of as owned_column_of, triple_of as owned_triple_of, value_of as owned_value_of};
ghost use Rattle.dk_levels.specs.Borrowed.{borrowed_columns, borrowed_triple, borrowed_value};

use dk_pqmodel::{Columns, Triple, Value};
use std::alloc::{AllocError, Global};

/// What a leaf of rows holds. That it may hold nothing is a case of its own here, as a triple is smaller so.
#[derive(Clone, Copy)]
pub enum BorrowedValue<'a> {
    Null,
    Flag(bool),
    Int(i64),
    Chars(&'a str),
}

/// One entry of a column of rows, as a `Triple` is, but that its text is that of the rows.
#[derive(Clone, Copy)]
pub struct BorrowedTriple<'a> {
    /// How many lists go on here: 0 begins a row, the number k begins a later element of the k-th list around the leaf.
    pub repetition: u8,
    /// How many of the optional fields and lists on the leaf's path are there.
    pub definition: u8,
    /// The leaf's value; `Null` where something on its path is null or empty.
    pub value: BorrowedValue<'a>,
}

/// Columns of the same content with texts of their own.
pub(crate) fn owned_columns(
    alloc: Global,
    columns: &[Vec<BorrowedTriple<'_>>],
) -> Result<Columns, AllocError>
    ensures { IfOk result (λ c. columns_in c ≡ borrowed_columns columns.now) }
{
    let mut leaves = Vec::with_capacity(alloc, columns.len())?;
    for column in columns {
        leaves.push(owned_column(alloc, column)?)?;
    }
    Ok(Columns { leaves })
}

fn owned_column(alloc: Global, column: &[BorrowedTriple<'_>]) -> Result<Vec<Triple>, AllocError>
    ensures { IfOk result (λ v. owned_column_of v ≡ map borrowed_triple column.now) }
{
    let mut out = Vec::with_capacity(alloc, column.len())?;
    for triple in column {
        out.push(owned_triple(alloc, triple)?)?;
    }
    Ok(out)
}

fn owned_triple(alloc: Global, triple: &BorrowedTriple<'_>) -> Result<Triple, AllocError>
    ensures { IfOk result (λ t. owned_triple_of t ≡ borrowed_triple triple.now) }
{
    Ok(Triple {
        repetition: triple.repetition,
        definition: triple.definition,
        value: owned_value(alloc, &triple.value)?,
    })
}

fn owned_value(alloc: Global, value: &BorrowedValue<'_>) -> Result<Option<Value>, AllocError>
    ensures { IfOk result (λ v. option_map owned_value_of v ≡ borrowed_value value.now) }
{
    match value {
        BorrowedValue::Null => Ok(None),
        BorrowedValue::Flag(flag) => Ok(Some(Value::Flag(*flag))),
        BorrowedValue::Int(number) => Ok(Some(Value::Int(*number))),
        BorrowedValue::Chars(text) => Ok(Some(Value::Chars(String::from_str(alloc, text)?))),
    }
}
