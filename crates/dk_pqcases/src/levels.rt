//! Rows to columns of triples, and back.

use anyhow::{Context, Result, bail};
use dk_levels::{assemble, shred};
use dk_pqmodel::{Cell, Columns, Node, NodeKind, Schema, Triple, Value};
use std::alloc::{AllocError, Global};

/// The rows of the columns. The words of `call` are the schema's nodes, each behind what it holds. Where the rows have other
/// columns than these, they are answered in place of the rows.
pub fn rows(alloc: Global, call: &str, input: &str) -> Result<String> {
    let nodes = nodes_of(alloc, call)?;
    let made = Schema::try_new(nodes).context("a schema")?;
    let schema = made.copy(alloc)?;
    let columns = columns_of(alloc, input)?;
    let rows = assemble(alloc, &schema, &columns)?;
    let again = shred(alloc, &schema, &rows)?;
    let was = columns_text(alloc, &columns)?;
    let is = columns_text(alloc, &again)?;
    if was.as_str() != is.as_str() {
        return Ok(is);
    }
    let mut said = String::new(alloc);
    for row in &rows {
        say_cells(&mut said, &row.copy(alloc)?.cells)?;
        said.push_str("; ")?;
    }
    Ok(said)
}

/// The nodes that the words make, behind the first: a leaf stands alone, a list or a map takes the node before it, a group the two.
fn nodes_of(alloc: Global, call: &str) -> Result<Vec<Node>> {
    let mut nodes = Vec::new(alloc);
    for word in call.split(' ').skip(1) {
        let (kind, name) = word.split_once(':').context("a node")?;
        let kind = kind_of(alloc, kind, &mut nodes)?;
        let node = Node {
            name: String::from_str(alloc, name.trim_end_matches('?'))?,
            nullable: name.ends_with('?'),
            kind,
        };
        nodes.push(node)?;
    }
    Ok(nodes)
}

fn kind_of(alloc: Global, kind: &str, nodes: &mut Vec<Node>) -> Result<NodeKind> {
    match kind {
        "int32" => Ok(NodeKind::Int32),
        "int64" => Ok(NodeKind::Int64),
        "chars" => Ok(NodeKind::Chars),
        "list" => {
            let element = nodes.pop().context("an element")?;
            Ok(NodeKind::List(Box::new(alloc, element)?))
        }
        "map" => {
            let value = nodes.pop().context("a value")?;
            Ok(NodeKind::Map(Box::new(alloc, value)?))
        }
        "group" => group_of(alloc, nodes),
        _ => bail!("no kind"),
    }
}

fn group_of(alloc: Global, nodes: &mut Vec<Node>) -> Result<NodeKind> {
    let second = nodes.pop().context("a field")?;
    let first = nodes.pop().context("a field")?;
    let mut fields = Vec::new(alloc);
    fields.push(first)?;
    fields.push(second)?;
    Ok(NodeKind::Group(fields))
}

/// Columns with `;` between them; `none` is no column.
fn columns_of(alloc: Global, text: &str) -> Result<Columns> {
    let mut leaves = Vec::new(alloc);
    if text != "none" {
        for column in text.split(';') {
            leaves.push(column_of(alloc, column)?)?;
        }
    }
    Ok(Columns { leaves })
}

fn column_of(alloc: Global, text: &str) -> Result<Vec<Triple>> {
    let mut column = Vec::new(alloc);
    for word in text.split_whitespace() {
        let (repetition, rest) = word.split_once('/').context("a triple")?;
        let (definition, value) = rest.split_once('/').context("a triple")?;
        column.push(Triple {
            repetition: repetition.parse()?,
            definition: definition.parse()?,
            value: value_of(alloc, value)?,
        })?;
    }
    Ok(column)
}

/// A text behind `'`, a number, or `-` for none.
fn value_of(alloc: Global, word: &str) -> Result<Option<Value>> {
    if word == "-" {
        return Ok(None);
    }
    match word.strip_prefix("'") {
        Some(text) => Ok(Some(Value::Chars(String::from_str(alloc, text)?))),
        None => Ok(Some(Value::Int(word.parse()?))),
    }
}

fn columns_text(alloc: Global, columns: &Columns) -> Result<String, AllocError> {
    let mut said = String::new(alloc);
    for column in &columns.leaves {
        for triple in column {
            say_triple(&mut said, triple)?;
        }
        said.push_str("; ")?;
    }
    Ok(said)
}

fn say_triple(said: &mut String, triple: &Triple) -> Result<(), AllocError> {
    write!(said, "{}/{}/", triple.repetition, triple.definition)?;
    match &triple.value {
        None => said.push_str("- "),
        Some(Value::Flag(flag)) => write!(said, "{flag} "),
        Some(Value::Int(number)) => write!(said, "{number} "),
        Some(Value::Chars(text)) => write!(said, "'{text} "),
    }
}

#[cycle(cells)]
fn say_cells(said: &mut String, cells: &[Cell]) -> Result<(), AllocError> {
    for cell in cells {
        say_cell(said, cell)?;
    }
    Ok(())
}

#[cycle(cells)]
fn say_cell(said: &mut String, cell: &Cell) -> Result<(), AllocError> {
    match cell {
        Cell::Null => said.push_str("null "),
        Cell::Flag(flag) => write!(said, "{flag} "),
        Cell::Int(number) => write!(said, "{number} "),
        Cell::Chars(text) => write!(said, "'{text} "),
        Cell::Group(cells) => {
            said.push_str("( ")?;
            say_cells(said, cells)?;
            said.push_str(") ")
        }
        Cell::List(cells) => {
            said.push_str("[ ")?;
            say_cells(said, cells)?;
            said.push_str("] ")
        }
    }
}
