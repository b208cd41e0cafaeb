//! Columns of triples: what the Parquet format keeps of rows (Dremel's repetition and definition levels).

ghost use Rattle.std.specs.Prelude.{◌≡◌, IfOk, map};
ghost use Rattle.dk_pqmodel.specs.ColumnView.{columns_in, column_of, triple_of, value_of};

use std::alloc::{AllocError, Global};

/// What a leaf holds where it isn't null.
#[derive(Drop)]
pub enum Value {
    Flag(bool),
    Int(i64),
    Chars(String),
}

/// One entry of a column.
#[derive(Drop)]
pub struct Triple {
    /// How many lists go on here: 0 begins a row, the number k begins a later element of the k-th
    /// list around the leaf.
    pub repetition: u8,
    /// How many of the optional fields and lists on the leaf's path are there.
    pub definition: u8,
    /// The leaf's value, where nothing on its path is null or empty.
    pub value: Option<Value>,
}

/// The triples of rows: a column for each leaf of the schema, in the schema's order.
#[derive(Drop)]
pub struct Columns {
    pub leaves: Vec<Vec<Triple>>,
}

impl Columns {
    /// Columns of the same content. `Err` is want of memory.
    pub fn copy(&self, alloc: Global) -> Result<Columns, AllocError>
        ensures { IfOk result (λ c. columns_in c ≡ columns_in self.now) }
    {
        let mut leaves = Vec::new(alloc);
        for column in &self.leaves {
            leaves.push(copy_column(alloc, column)?)?;
        }
        Ok(Columns { leaves })
    }
}

fn copy_column(alloc: Global, column: &[Triple]) -> Result<Vec<Triple>, AllocError>
    ensures { IfOk result (λ v. column_of v ≡ map triple_of column.now) }
{
    let mut out = Vec::with_capacity(alloc, column.len())?;
    for triple in column {
        out.push(copy_triple(triple)?)?;
    }
    Ok(out)
}

fn copy_triple(triple: &Triple) -> Result<Triple, AllocError>
    ensures { IfOk result (λ t. triple_of t ≡ triple_of triple.now) }
{
    let value = match &triple.value {
        Some(value) => Some(copy_value(value)?),
        None => None,
    };
    Ok(Triple {
        repetition: triple.repetition,
        definition: triple.definition,
        value,
    })
}

fn copy_value(value: &Value) -> Result<Value, AllocError>
    ensures { IfOk result (λ v. value_of v ≡ value_of value.now) }
{
    match value {
        Value::Flag(flag) => Ok(Value::Flag(*flag)),
        Value::Int(number) => Ok(Value::Int(*number)),
        Value::Chars(text) => Ok(Value::Chars(text.clone()?)),
    }
}
