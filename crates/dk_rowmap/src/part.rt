//! A part of a row as a JSON value, which the reader of actions looks into.

ghost use Rattle.std.specs.Prelude.{◌≡◌, ◌≤◌, ◌&&◌, [], length, min, Some, option_map, IfOk};
ghost use Rattle.std.specs.FinMap as map;
ghost use Rattle.dk_pqmodel.specs.Shape.{field_name, fields_at, element_at};
ghost use Rattle.dk_pqmodel.specs.Object.{json_in, members_of, items_of, entries_of, list_or_map, entry_key, value_at, whole_num};
ghost use Rattle.dk_pqmodel.specs.Datum.{group};
ghost use Rattle.dk_pqmodel.specs.RowView.{datum_of, cells_of};
ghost use Rattle.dk_pqmodel.specs.NodeView.{field_of, fields_of, shape_of};
ghost use Rattle.serde_json.specs.Data.{no_members, number, object};
ghost use Rattle.dk_model.specs.Fields.{field as field_named, present, texts_of, pairs_of, pairs, text_or_null, whole};
ghost use Rattle.dk_lawful.specs.CheckpointRows.{all_null as are_all_null, is_null as is_null_cell, is_vector_name, each_by};
ghost use Rattle.dk_actjson.specs.Faults.{Gives};
ghost use Rattle.dk_rowmap.specs.Parts.{turned, group_data, data_in, named_part, text_in, slot_in, entry_in, entry_value, after_entry, after_entries, after_group_field, slots_in};

use dk_actjson::{ActionFault, Tree, pairs_of_slots};
use dk_model::{Names, Pairs, Text, TextMap};
use dk_pqmodel::{Cell, Node, NodeKind};
use std::alloc::{AllocError, Global};

/// Where a group stands in a row.
#[derive(Clone, Copy)]
pub(crate) enum Depth {
    /// It is the row.
    Row,
    /// It is the group of a kind of actions.
    Kind,
    /// It stands in such a group.
    Inner,
}

/// What a cell that isn't null holds, under its field.
#[derive(Clone, Copy)]
pub(crate) enum Part<'a> {
    Flag(bool),
    Int(i64),
    Chars(&'a str),
    /// A cell for each field.
    Group {
        cells: &'a [Cell],
        nodes: &'a [Node],
        depth: Depth,
    },
    /// The elements of a list of this kind.
    List {
        cells: &'a [Cell],
        kind: &'a NodeKind,
    },
    /// The entries of a map, and the field of their values.
    Map {
        cells: &'a [Cell],
        value: &'a Node,
    },
}

impl<'a> Tree for Part<'a> {
    ghost use Rattle.dk_rowmap.specs.Parts.{data_in};

    ghost meant = { data_in };

    fn field(self, key: &str) -> Option<Part<'a>> {
        match self {
            Part::Group {
                cells,
                nodes,
                depth,
            } => find(cells, nodes, depth, key),
            Part::Flag(_) => None,
            Part::Int(_) => None,
            Part::Chars(_) => None,
            Part::List { .. } => None,
            Part::Map { cells, value } => find_entry(cells, value, key),
        }
    }

    fn is_object(self) -> bool {
        matches!(self, Part::Group { .. } | Part::Map { .. })
    }

    fn text(self, alloc: Global) -> Result<Text, ActionFault> {
        match self {
            Part::Chars(text) => Ok(Text::from_str(alloc, text)?),
            _ => Err(ActionFault::Bad),
        }
    }

    fn whole(self) -> Option<i64> {
        match self {
            Part::Int(whole) => Some(whole_of(whole)),
            _ => None,
        }
    }

    fn unsigned(self) -> Option<u64> {
        match self {
            Part::Int(number) if number >= 0 => Some(number as u64),
            _ => None,
        }
    }

    fn flag(self) -> Option<bool> {
        match self {
            Part::Flag(flag) => Some(flag),
            _ => None,
        }
    }

    fn names(self, alloc: Global) -> Result<Names, ActionFault> {
        match self {
            Part::List { cells, kind } => read_names(alloc, cells, kind),
            _ => Err(ActionFault::Bad),
        }
    }

    fn pairs(self, alloc: Global) -> Result<Pairs, ActionFault> {
        match self {
            Part::Map { cells, value } => read_map(alloc, cells, value),
            Part::Group {
                cells,
                nodes,
                depth,
            } => read_group(alloc, cells, nodes, depth),
            _ => Err(ActionFault::Bad),
        }
    }
}

/// Does nothing but say, for proofs, that a number of 64 bits is read as itself.
fn whole_of(given: i64) -> i64
    ensures { whole (number (whole_num given)) ≡ Some result }
{
    given
}

/// How many of the cells have a field.
fn count_of(cells: &[Cell], nodes: &[Node]) -> usize
    ensures least { result ≡ min (length cells.now) (length nodes.now) }
    ensures cells { result ≤ length cells.now }
    ensures nodes { result ≤ length nodes.now }
{
    if cells.len() < nodes.len() {
        cells.len()
    } else {
        nodes.len()
    }
}

/// The first cell of that name that isn't null.
#[tactic(auto, using(crate::proofs::RowSteps::none_found))]
fn find<'a>(cells: &'a [Cell], nodes: &'a [Node], depth: Depth, key: &str) -> Option<Part<'a>>
    ensures { option_map data_in result ≡ field_named key.now (group_data depth (fields_of nodes.now) (cells_of cells.now)) }
{
    let count = count_of(cells, nodes);
    'cells: for i in 0..count {
        if let Some(part) = part_named(&cells[i], &nodes[i], depth, key) {
            return Some(part);
        }
    }
    None
}

/// The cell, where its field has that name and it isn't null.
fn part_named<'a>(cell: &'a Cell, node: &'a Node, depth: Depth, key: &str) -> Option<Part<'a>>
    ensures { option_map data_in result ≡ named_part key.now (field_of node.now) (turned depth (field_of node.now) (datum_of cell.now)) }
{
    if node.name.as_str() == key {
        part_of(cell, node, depth)
    } else {
        None
    }
}

/// The value of the last entry of that key, where it isn't null.
#[tactic(auto, using(crate::proofs::RowSteps::map_field, crate::proofs::RowSteps::entries_turn))]
fn find_entry<'a>(cells: &'a [Cell], value: &'a Node, key: &str) -> Option<Part<'a>>
    ensures { option_map data_in result ≡ field_named key.now (object (entries_of (cells_of cells.now) (field_of value.now) no_members)) }
{
    let mut found = None;
    'cells: for place in 0..cells.len() {
        let more = entry_or(&cells[place], value, key, found);
        found = more;
    }
    found
}

/// The value of the cell, where it is an entry of that key, else what was found before it.
fn entry_or<'a>(
    cell: &'a Cell,
    value: &'a Node,
    key: &str,
    found: Option<Part<'a>>,
) -> Option<Part<'a>>
    ensures { option_map data_in result ≡ entry_value key.now (field_of value.now) (entry_in (datum_of cell.now)) (option_map data_in found.entry) }
{
    match entry_of(cell) {
        Some((name, held)) => {
            if key_of(name) == key {
                part_of(held, value, Depth::Inner)
            } else {
                found
            }
        }
        None => found,
    }
}

/// What the cell holds, where it isn't null.
fn part_of<'a>(cell: &'a Cell, node: &'a Node, depth: Depth) -> Option<Part<'a>>
    ensures { option_map data_in result ≡ present (Some (json_in (turned depth (field_of node.now) (datum_of cell.now)) (field_of node.now))) }
{
    match cell {
        Cell::Null => None,
        Cell::Flag(flag) => Some(Part::Flag(*flag)),
        Cell::Int(number) => Some(Part::Int(*number)),
        Cell::Chars(text) => Some(Part::Chars(text)),
        Cell::Group(cells) => group_of(cells, node, depth),
        Cell::List(cells) => Some(list_of(cells, &node.kind)),
    }
}

fn group_of<'a>(cells: &'a [Cell], node: &'a Node, depth: Depth) -> Option<Part<'a>>
    ensures { option_map data_in result ≡ present (Some (json_in (turned depth (field_of node.now) (group (cells_of cells.now))) (field_of node.now))) }
{
    let nodes = nodes_of(&node.kind);
    match depth {
        Depth::Row => Some(Part::Group {
            cells,
            nodes,
            depth: Depth::Kind,
        }),
        Depth::Kind => {
            if is_no_vector(cells, node) {
                None
            } else {
                Some(inner(cells, nodes))
            }
        }
        Depth::Inner => Some(inner(cells, nodes)),
    }
}

fn inner<'a>(cells: &'a [Cell], nodes: &'a [Node]) -> Part<'a>
    ensures { data_in result ≡ object (members_of (cells_of cells.now) (fields_of nodes.now)) }
{
    Part::Group {
        cells,
        nodes,
        depth: Depth::Inner,
    }
}

/// Whether it is a deletion vector without a storage type.
fn is_no_vector(cells: &[Cell], node: &Node) -> bool
    ensures { result ≡ (is_vector_name (field_name (field_of node.now)) && are_all_null (cells_of cells.now)) }
{
    node.name.as_str() == "deletionVector" && all_null(cells)
}

fn all_null(cells: &[Cell]) -> bool
    ensures { result ≡ are_all_null (cells_of cells.now) }
{
    'cells: for cell in cells {
        if !is_null(cell) {
            return false;
        }
    }
    true
}

fn is_null(cell: &Cell) -> bool
    ensures { result ≡ is_null_cell (datum_of cell.now) }
{
    match cell {
        Cell::Null => true,
        Cell::Flag(_) | Cell::Int(_) | Cell::Chars(_) | Cell::Group(_) | Cell::List(_) => false,
    }
}

fn nodes_of(kind: &NodeKind) -> &[Node]
    ensures { fields_of result.now ≡ fields_at (shape_of kind.now) }
{
    match kind {
        NodeKind::Group(nodes) => nodes,
        NodeKind::Flag | NodeKind::Int32 | NodeKind::Int64 | NodeKind::Chars => &[],
        NodeKind::List(_) | NodeKind::Map(_) => &[],
    }
}

fn list_of<'a>(cells: &'a [Cell], kind: &'a NodeKind) -> Part<'a>
    ensures { data_in result ≡ list_or_map (shape_of kind.now) (items_of (cells_of cells.now) (element_at (shape_of kind.now)))
        (entries_of (cells_of cells.now) (value_at (shape_of kind.now)) no_members) }
{
    match kind {
        NodeKind::Map(value) => Part::Map { cells, value },
        NodeKind::Flag | NodeKind::Int32 | NodeKind::Int64 | NodeKind::Chars => {
            Part::List { cells, kind }
        }
        NodeKind::Group(_) | NodeKind::List(_) => Part::List { cells, kind },
    }
}

/// The text of a cell.
fn text_of(alloc: Global, cell: &Cell) -> Result<Text, ActionFault>
    ensures { Gives result (text_in (datum_of cell.now)) }
{
    match cell {
        Cell::Chars(text) => Ok(Text::from_str(alloc, text)?),
        Cell::Null | Cell::Flag(_) | Cell::Int(_) | Cell::Group(_) | Cell::List(_) => {
            Err(ActionFault::Bad)
        }
    }
}

#[tactic(auto, using(crate::proofs::RowSteps::text_in_is, crate::proofs::RowSteps::names_turn))]
fn read_names(alloc: Global, cells: &[Cell], kind: &NodeKind) -> Result<Names, ActionFault>
    ensures { Gives result (texts_of (items_of (cells_of cells.now) (element_at (shape_of kind.now)))) }
{
    let mut list = Vec::with_capacity(alloc, cells.len())?;
    'cells: for cell in cells {
        let text = text_of(alloc, cell)?;
        list.push(text)?;
    }
    Ok(Names::new(list))
}

/// The text or the null of a cell, or none where it is neither.
fn slot_of(alloc: Global, cell: &Cell) -> Result<Option<Option<Text>>, AllocError>
    ensures { IfOk result (λ s. s ≡ slot_in (datum_of cell.now)) }
{
    match cell {
        Cell::Null => Ok(Some(None)),
        Cell::Chars(text) => Ok(Some(Some(Text::from_str(alloc, text)?))),
        Cell::Flag(_) | Cell::Int(_) | Cell::Group(_) | Cell::List(_) => Ok(None),
    }
}

/// The key of an entry.
fn key_of(cell: &Cell) -> &str
    ensures { result.now ≡ entry_key (datum_of cell.now) }
{
    match cell {
        Cell::Chars(text) => text,
        Cell::Null | Cell::Flag(_) | Cell::Int(_) | Cell::Group(_) | Cell::List(_) => "",
    }
}

type Slots = TextMap<Option<Option<Text>>>;

/// The key and the value of an entry: a group of the two.
fn entry_of(cell: &Cell) -> Option<(&Cell, &Cell)>
    ensures { option_map (λ p. (datum_of p.0.now, datum_of p.1.now)) result ≡ entry_in (datum_of cell.now) }
{
    match cell {
        Cell::Group(parts) => pair_of(parts),
        Cell::Null | Cell::Flag(_) | Cell::Int(_) | Cell::Chars(_) | Cell::List(_) => None,
    }
}

#[tactic(auto, using(crate::proofs::RowSteps::no_pair))]
fn pair_of(parts: &[Cell]) -> Option<(&Cell, &Cell)>
    ensures { option_map (λ p. (datum_of p.0.now, datum_of p.1.now)) result ≡ entry_in (group (cells_of parts.now)) }
{
    if parts.len() == 2 {
        Some((&parts[0], &parts[1]))
    } else {
        None
    }
}

/// One more entry of a map, where the cell is one.
#[tactic(auto, using(crate::proofs::RowSteps::inserted))]
fn with_entry(alloc: Global, mut slots: Slots, cell: &Cell) -> Result<Slots, AllocError>
    ensures { IfOk result (λ m. map.entries m ≡ after_entry (entry_in (datum_of cell.now)) (map.entries slots)) }
{
    match entry_of(cell) {
        Some((key, value)) => {
            let key = Text::from_str(alloc, key_of(key))?;
            let slot = slot_of(alloc, value)?;
            slots.insert(key, slot)?;
            Ok(slots)
        }
        None => Ok(slots),
    }
}

/// The entries of a map in the order of their keys, the last value of each.
fn map_slots(alloc: Global, cells: &[Cell]) -> Result<Slots, AllocError>
    ensures { IfOk result (λ m. map.entries m ≡ after_entries (cells_of cells.now) []) }
{
    let mut slots = TextMap::new(alloc);
    'cells: for cell in cells {
        let more = with_entry(alloc, slots, cell)?;
        slots = more;
    }
    Ok(slots)
}

fn read_map(alloc: Global, cells: &[Cell], value: &Node) -> Result<Pairs, ActionFault>
    ensures { Gives result (pairs_of (entries_of (cells_of cells.now) (field_of value.now) no_members)) }
{
    let slots = map_slots(alloc, cells)?;
    pairs_of_slots(alloc, slots)
}

/// The text of a part, or none where it is no text.
fn part_slot(alloc: Global, part: Part<'_>) -> Result<Option<Option<Text>>, AllocError>
    ensures { IfOk result (λ s. s ≡ text_or_null (data_in part.entry)) }
{
    match part {
        Part::Chars(text) => Ok(Some(Some(Text::from_str(alloc, text)?))),
        Part::Flag(_) | Part::Int(_) => Ok(None),
        Part::Group { .. } | Part::List { .. } | Part::Map { .. } => Ok(None),
    }
}

/// One more field of a group, where it isn't null.
#[tactic(auto, using(crate::proofs::RowSteps::inserted))]
fn with_field(
    alloc: Global,
    mut slots: Slots,
    cell: &Cell,
    node: &Node,
    depth: Depth,
) -> Result<Slots, AllocError>
    ensures { IfOk result (λ m. map.entries m ≡ after_group_field (field_name (field_of node.now))
        (present (Some (json_in (turned depth (field_of node.now) (datum_of cell.now)) (field_of node.now)))) (map.entries slots)) }
{
    match part_of(cell, node, depth) {
        Some(part) => {
            let key = Text::from_str(alloc, node.name.as_str())?;
            let slot = part_slot(alloc, part)?;
            slots.insert(key, slot)?;
            Ok(slots)
        }
        None => Ok(slots),
    }
}

/// The fields of a group that aren't null. The last ones go in first, since of fields of one name the first counts.
fn group_slots(
    alloc: Global,
    cells: &[Cell],
    nodes: &[Node],
    depth: Depth,
) -> Result<Slots, AllocError>
    ensures { IfOk result (λ m. map.entries m ≡ slots_in (members_of (each_by (turned depth) (fields_of nodes.now) (cells_of cells.now)) (fields_of nodes.now))) }
{
    let mut place = count_of(cells, nodes);
    let mut slots = TextMap::new(alloc);
    'cells: while place > 0 {
        place -= 1;
        let more = with_field(alloc, slots, &cells[place], &nodes[place], depth)?;
        slots = more;
    }
    Ok(slots)
}

/// The fields of a group as pairs.
fn read_group(
    alloc: Global,
    cells: &[Cell],
    nodes: &[Node],
    depth: Depth,
) -> Result<Pairs, ActionFault>
    ensures { Gives result (pairs (group_data depth (fields_of nodes.now) (cells_of cells.now))) }
{
    let slots = group_slots(alloc, cells, nodes, depth)?;
    pairs_of_slots(alloc, slots)
}
