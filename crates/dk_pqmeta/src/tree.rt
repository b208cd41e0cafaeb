//! The tree of the schema, from the flat list of its elements.

ghost use Rattle.std.specs.Prelude.{◌≡◌, [], Some, map, option_and_then};
ghost use Rattle.std.specs.Vec.Iter.{into_iter_items};
ghost use Rattle.dk_pqmodel.specs.Footer.{are_new};
ghost use Rattle.dk_pqmeta.specs.Trees.{group_by, node_at, repetition_at, tree_of};
ghost use Rattle.dk_pqmeta.specs.View.{MakesOf, TakesElements, element_view, node_of, nodes_of};

use crate::fault::MetaFault;
use crate::footer::FileNode;
use indexmap::IndexSet;
use std::alloc::Global;
use std::vec::IntoIter;

/// Most levels of a file's schema, the root not counted.
const MOST_LEVELS: u8 = 100;

/// An element of the flat list that spells the schema. Its children follow it.
#[derive(Drop)]
pub(crate) struct SchemaElement {
    pub name: String,
    pub repetition: Option<i64>,
    pub physical: Option<i32>,
    pub children: u32,
}

/// The fields at the top of the schema. The first element is the root, which is no field itself.
pub(crate) fn read_tree(
    alloc: Global,
    elements: Vec<SchemaElement>,
) -> Result<Vec<FileNode>, MetaFault>
    ensures { MakesOf (λ v. nodes_of v.items) result (tree_of (map element_view elements.items)) }
{
    let mut elements = elements.into_iter();
    let Some(root) = elements.next() else {
        return Err(MetaFault::Broken);
    };
    let fields = read_nodes(alloc, root.children, &mut elements, MOST_LEVELS)?;
    if elements.next().is_some() {
        return Err(MetaFault::Broken);
    }
    Ok(fields)
}

/// So many nodes of one group, with at most so many levels. Each takes an element, so a claimed count alone grows nothing.
#[cycle(tree)]
fn read_nodes(
    alloc: Global,
    count: u32,
    elements: &mut IntoIter<SchemaElement>,
    levels: u8,
) -> Result<Vec<FileNode>, MetaFault>
    ensures { TakesElements (λ v. nodes_of v.items) result (map element_view (into_iter_items elements.new)) (group_by (node_at levels) count (map element_view (into_iter_items elements.old))) }
{
    let mut nodes = Vec::new(alloc);
    for _ in 0..count {
        nodes.push(read_node(alloc, elements, levels)?)?;
    }
    if are_distinct(alloc, &nodes)? {
        Ok(nodes)
    } else {
        Err(MetaFault::Broken)
    }
}

/// A node and all below it.
#[cycle(tree)]
fn read_node(
    alloc: Global,
    elements: &mut IntoIter<SchemaElement>,
    levels: u8,
) -> Result<FileNode, MetaFault>
    ensures { TakesElements node_of result (map element_view (into_iter_items elements.new)) (node_at levels (map element_view (into_iter_items elements.old))) }
{
    if levels == 0 {
        return Err(MetaFault::Broken);
    }
    let Some(element) = elements.next() else {
        return Err(MetaFault::Broken);
    };
    let Some(repetition) = repetition(element.repetition) else {
        return Err(MetaFault::Broken);
    };
    let children = read_nodes(alloc, element.children, elements, levels - 1)?;
    Ok(FileNode {
        name: element.name,
        repetition,
        physical: element.physical,
        children,
    })
}

/// A repetition: 0 required, 1 optional, 2 repeated.
fn repetition(number: Option<i64>) -> Option<u8>
    ensures { result ≡ option_and_then repetition_at number }
{
    let value = number?;
    if 0 <= value && value <= 2 {
        Some(value as u8)
    } else {
        None
    }
}

/// Whether no two of the nodes have one name.
fn are_distinct(alloc: Global, nodes: &[FileNode]) -> Result<bool, MetaFault>
    ensures { MakesOf (λ b. b) result (Some (are_new [] (nodes_of nodes.now))) }
{
    let mut names = IndexSet::new(alloc);
    for node in nodes {
        if !names.insert(node.name.as_str())? {
            return Ok(false);
        }
    }
    Ok(true)
}
