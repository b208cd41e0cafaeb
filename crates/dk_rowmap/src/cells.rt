//! Cells of what the fields of actions hold.

ghost use Rattle.std.specs.Prelude.{◌≡◌, ◌++◌, ◌∷◌, [], IfOk, Option, map, option_map};
ghost use Rattle.dk_pqmodel.specs.Shape.{Shape, leaf, flag, int32, int64, chars};
ghost use Rattle.serde_json.specs.Data.{Data};
ghost use Rattle.dk_pqmodel.specs.RowView.{datum_of};
ghost use Rattle.dk_model.specs.Shown.{text_data, whole_data, version_data, flag_data, names_data, pairs_data};
ghost use Rattle.dk_lawful.specs.CheckpointSchema.{list_of_texts, text_map};
ghost use Rattle.dk_rowmap.specs.ActionRows.{held, text_cell, entry_cell, cell_in};

use dk_model::{Names, Pairs, Text};
use dk_pqmodel::Cell;
use std::alloc::{AllocError, Global};

/// What the cell of a field holds.
pub(crate) trait Held {
    /// The shape of its field.
    ghost shape: { Shape };
    /// The value as data.
    ghost shown: { Self → Data };

    /// The value as a cell of that shape.
    fn cell(&self, alloc: Global) -> Result<Cell, AllocError>
        ensures { IfOk result (λ c. datum_of c ≡ cell_in shape (shown self.now)) };
}

impl Held for Text {
    ghost shape = { leaf chars };

    ghost shown = { text_data };

    fn cell(&self, alloc: Global) -> Result<Cell, AllocError> {
        Ok(Cell::Chars(String::from_str(alloc, self.as_str())?))
    }
}

impl Held for i64 {
    ghost shape = { leaf int64 };

    ghost shown = { whole_data };

    #[tactic(auto, using(crate::proofs::HeldFields::whole_cell))]
    fn cell(&self, _alloc: Global) -> Result<Cell, AllocError> {
        Ok(Cell::Int(*self))
    }
}

/// A version of a protocol.
impl Held for u32 {
    ghost shape = { leaf int32 };

    ghost shown = { version_data };

    fn cell(&self, _alloc: Global) -> Result<Cell, AllocError> {
        Ok(Cell::Int(*self as i64))
    }
}

impl Held for bool {
    ghost shape = { leaf flag };

    ghost shown = { flag_data };

    fn cell(&self, _alloc: Global) -> Result<Cell, AllocError> {
        Ok(Cell::Flag(*self))
    }
}

impl Held for Names {
    ghost shape = { list_of_texts };

    ghost shown = { names_data };

    fn cell(&self, alloc: Global) -> Result<Cell, AllocError> {
        Ok(Cell::List(text_cells(alloc, self.as_slice())?))
    }
}

impl Held for Pairs {
    ghost shape = { text_map };

    ghost shown = { pairs_data };

    fn cell(&self, alloc: Global) -> Result<Cell, AllocError> {
        Ok(Cell::List(entry_cells(alloc, self.as_slice())?))
    }
}

fn text_cells(alloc: Global, texts: &[Text]) -> Result<Vec<Cell>, AllocError>
    ensures { IfOk result (λ v. map datum_of v.items ≡ map text_cell texts.now) }
{
    let mut cells = Vec::with_capacity(alloc, texts.len())?;
    'texts: for text in texts {
        let cell = text.cell(alloc)?;
        cells.push(cell)?;
    }
    Ok(cells)
}

/// The entry of a map: a group of its key and its value.
fn entry(alloc: Global, pair: &(Text, Option<Text>)) -> Result<Cell, AllocError>
    ensures { IfOk result (λ c. datum_of c ≡ entry_cell pair.now) }
{
    let cells = and(alloc, Vec::with_capacity(alloc, 2)?, &pair.0)?;
    let cells = and_if(alloc, cells, &pair.1)?;
    Ok(Cell::Group(cells))
}

fn entry_cells(alloc: Global, pairs: &[(Text, Option<Text>)]) -> Result<Vec<Cell>, AllocError>
    ensures { IfOk result (λ v. map datum_of v.items ≡ map entry_cell pairs.now) }
{
    let mut cells = Vec::with_capacity(alloc, pairs.len())?;
    'pairs: for pair in pairs {
        let cell = entry(alloc, pair)?;
        cells.push(cell)?;
    }
    Ok(cells)
}

/// The cells, and that of one more value.
pub(crate) fn and<T: Held>(
    alloc: Global,
    mut cells: Vec<Cell>,
    value: &T,
) -> Result<Vec<Cell>, AllocError>
    ensures { IfOk result (λ v. map datum_of v.items ≡ map datum_of cells.items ++ cell_in T.shape (T.shown value.now) ∷ []) }
{
    let cell = value.cell(alloc)?;
    cells.push(cell)?;
    Ok(cells)
}

/// The cells, and that of one more value, which is null where there is none.
pub(crate) fn and_if<T: Held>(
    alloc: Global,
    mut cells: Vec<Cell>,
    value: &Option<T>,
) -> Result<Vec<Cell>, AllocError>
    ensures { IfOk result (λ v. map datum_of v.items ≡ map datum_of cells.items ++ held (cell_in T.shape) (option_map T.shown value.now) ∷ []) }
{
    match value {
        Some(value) => and(alloc, cells, value),
        None => {
            cells.push(Cell::Null)?;
            Ok(cells)
        }
    }
}
