//! The elements of all nodes of a schema, depth first.

ghost use Rattle.std.specs.Prelude.{◌≡◌, ◌<◌, ◌^◌, None, Some, codes, IfOk, IfSome, OnOk, length, option_map, pos};
ghost use Rattle.dk_pqmodel.specs.NodeView.{field_of, fields_of, shape_of};
ghost use Rattle.dk_pqwrite.specs.Elements.{IsElementOf, WritesNode, WritesNodes, children_said, fields_of_element, fields_said, said_of};
ghost use Rattle.dk_pqwrite.specs.Written.{converted_at, nodes_at, physical_at, written_as, written_nodes};
ghost use Rattle.dk_thrift.specs.Writing.{IsOpen};

use crate::element::{Element, write_element};
use dk_pqmodel::{Node, NodeKind};
use dk_thrift::Writer;
use std::alloc::AllocError;

/// The converted type of a text.
const UTF8: u32 = 0;

/// The converted type of a map.
const MAP: u32 = 1;

/// The converted type of a list.
const LIST: u32 = 3;

/// The code of the physical type BYTE_ARRAY.
const BYTE_ARRAY: u32 = 6;

/// The repetition of what may stand many times.
const REPEATED: u32 = 2;

/// The elements of nodes that stand beside one another.
#[cycle(elements)]
pub(crate) fn write_nodes(writer: &mut Writer, nodes: &[Node]) -> Result<(), AllocError>
    requires { IsOpen writer.old }
    ensures { OnOk result (WritesNodes (written_nodes (fields_of nodes.now)) writer.old writer.new) }
{
    for node in nodes {
        write_node(writer, &node.name, node)?;
    }
    Ok(())
}

/// The elements of a node that is written under this name, and of all below it.
#[cycle(elements)]
fn write_node(writer: &mut Writer, name: &str, node: &Node) -> Result<(), AllocError>
    requires { IsOpen writer.old }
    ensures { OnOk result (WritesNode (written_as name.now (field_of node.now)) writer.old writer.new) }
{
    let element = element_of(name, node)?;
    write_element(writer, &element)?;
    write_inner(writer, &node.kind)?;
    Ok(())
}

/// The elements below a node of this kind.
#[cycle(elements)]
fn write_inner(writer: &mut Writer, kind: &NodeKind) -> Result<(), AllocError>
    requires { IsOpen writer.old }
    ensures { OnOk result (WritesNodes (nodes_at (shape_of kind.now)) writer.old writer.new) }
{
    match kind {
        NodeKind::Flag | NodeKind::Int32 | NodeKind::Int64 | NodeKind::Chars => Ok(()),
        NodeKind::Group(nodes) => {
            write_nodes(writer, nodes)?;
            Ok(())
        }
        NodeKind::List(element) => {
            write_element(writer, &repeated("list", 1))?;
            write_node(writer, "element", element)?;
            Ok(())
        }
        NodeKind::Map(value) => {
            write_element(writer, &repeated("key_value", 2))?;
            write_element(writer, &key())?;
            write_node(writer, "value", value)?;
            Ok(())
        }
    }
}

/// The element of a node that is written under this name. Where a group has more fields than the format counts there is no memory for it.
fn element_of<'a>(name: &'a str, node: &Node) -> Result<Element<'a>, AllocError>
    ensures { IfOk result (λ e. IsElementOf (fields_of_element e) (written_as name.now (field_of node.now))) }
{
    let children = children_of(&node.kind)?;
    Ok(Element {
        name,
        repetition: Some(u32::from(node.nullable)),
        physical: physical_type(&node.kind),
        children,
        converted: converted_type(&node.kind),
    })
}

/// The repeated group of a list or a map.
fn repeated(name: &str, children: u32) -> Element<'_>
    ensures { fields_of_element result ≡ fields_said name.now (Some 2) None (Some children) None }
{
    Element {
        name,
        repetition: Some(REPEATED),
        physical: None,
        children: Some(children),
        converted: None,
    }
}

/// The key of a map.
fn key() -> Element<'static>
    ensures { fields_of_element result ≡ fields_said (codes "key") (Some 0) (Some 6) None (Some 0) }
{
    Element {
        name: "key",
        repetition: Some(0),
        physical: Some(BYTE_ARRAY),
        children: None,
        converted: Some(UTF8),
    }
}

/// The code of the physical type of a leaf.
fn physical_type(kind: &NodeKind) -> Option<u32>
    ensures { option_map pos result ≡ physical_at (shape_of kind.now) }
{
    match kind {
        NodeKind::Flag => Some(0),
        NodeKind::Int32 => Some(1),
        NodeKind::Int64 => Some(2),
        NodeKind::Chars => Some(BYTE_ARRAY),
        NodeKind::Group(_) | NodeKind::List(_) | NodeKind::Map(_) => None,
    }
}

/// How many children a group has, where the format can count them.
fn children_of(kind: &NodeKind) -> Result<Option<u32>, AllocError>
    ensures said { IfOk result (λ n. n ≡ children_said (physical_at (shape_of kind.now)) (nodes_at (shape_of kind.now))) }
    ensures small { IfOk result (λ n. IfSome n (λ n. n < 2 ^ 31)) }
{
    match kind {
        NodeKind::Flag | NodeKind::Int32 | NodeKind::Int64 | NodeKind::Chars => Ok(None),
        NodeKind::Group(nodes) => {
            let count = nodes.len();
            if count < 1 << 31 {
                Ok(Some(count as u32))
            } else {
                Err(AllocError)
            }
        }
        NodeKind::List(_) | NodeKind::Map(_) => Ok(Some(1)),
    }
}

/// What other readers take a node for, beyond its physical type.
fn converted_type(kind: &NodeKind) -> Option<u32>
    ensures same { result ≡ converted_at (shape_of kind.now) }
    ensures small { IfSome result (λ n. n < 2 ^ 31) }
{
    match kind {
        NodeKind::Chars => Some(UTF8),
        NodeKind::List(_) => Some(LIST),
        NodeKind::Map(_) => Some(MAP),
        NodeKind::Flag | NodeKind::Int32 | NodeKind::Int64 | NodeKind::Group(_) => None,
    }
}

/// How many elements there are of nodes that stand beside one another; none where the format can't count them.
#[cycle(counts)]
pub(crate) fn count_nodes(nodes: &[Node]) -> Option<u32>
    ensures { IfSome result (λ n. n ≡ length (said_of (written_nodes (fields_of nodes.now)))) }
{
    let mut count: u32 = 0;
    for node in nodes {
        let inner = count_inner(&node.kind)?;
        count = count.checked_add(1)?.checked_add(inner)?;
    }
    Some(count)
}

/// How many there are below a node of this kind.
#[cycle(counts)]
fn count_inner(kind: &NodeKind) -> Option<u32>
    ensures { IfSome result (λ n. n ≡ length (said_of (nodes_at (shape_of kind.now)))) }
{
    match kind {
        NodeKind::Flag | NodeKind::Int32 | NodeKind::Int64 | NodeKind::Chars => Some(0),
        NodeKind::Group(nodes) => count_nodes(nodes),
        NodeKind::List(element) => {
            let inner = count_inner(&element.kind)?;
            inner.checked_add(2)
        }
        NodeKind::Map(value) => {
            let inner = count_inner(&value.kind)?;
            inner.checked_add(3)
        }
    }
}
