//! The levels at a cell.

ghost use Rattle.std.specs.Prelude.{◌≡◌, ◌<◌};
ghost use Rattle.dk_pqmodel.specs.NodeView.{field_of};
ghost use Rattle.dk_pqmodel.specs.Triples.{reached};

use dk_pqmodel::Node;

/// The levels at a cell.
#[derive(Clone, Copy)]
pub struct Levels {
    /// The repetition level of the cell's first triple.
    pub repetition: u8,
    /// The definition level reached above the cell.
    pub definition: u8,
    /// How many lists are around the cell.
    pub lists: u8,
}

/// What a list or a map repeats: cells of its node, or entries of a key and a cell of its node.
#[derive(Clone, Copy)]
pub enum Repeated {
    Elements,
    Entries,
}

/// The levels at the top of a row.
pub const TOP: Levels = Levels {
    repetition: 0,
    definition: 0,
    lists: 0,
};

/// The levels of a cell that isn't null.
pub fn reach(levels: Levels, node: &Node) -> Levels
    requires { reached (field_of node.now) levels.definition < 256 }
    ensures repetition { result.repetition ≡ levels.repetition }
    ensures definition { result.definition ≡ reached (field_of node.now) levels.definition }
    ensures lists { result.lists ≡ levels.lists }
{
    Levels {
        definition: if node.nullable {
            levels.definition + 1
        } else {
            levels.definition
        },
        ..levels
    }
}
