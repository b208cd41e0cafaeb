//! The part of the file's own schema that is read, as nodes.

ghost use Rattle.std.specs.Prelude.{◌≡◌, [], IfOk, OnOk, option_map};
ghost use Rattle.dk_pqmodel.specs.Projection.{projected_field, projected_fields, file_entry};
ghost use Rattle.dk_pqmodel.specs.NodeView.{field_of, fields_of, shape_of};
ghost use Rattle.dk_pqmodel.specs.Shape.{field, leaf, list as shape_list};
ghost use Rattle.dk_pqread.specs.Lays.{AddsField};
ghost use Rattle.dk_pqread.specs.LeafView.{leaf_of};
ghost use Rattle.dk_pqread.specs.PlanView.{plan_of, plans_of};

use crate::leaf::Leaf;
use crate::plan::Plan;
use dk_pqmodel::{Node, NodeKind};
use std::alloc::{AllocError, Global};

/// The nodes of what is read, without those that the file lacks.
#[cycle(cut)]
pub(crate) fn cut_all(plans: &[Plan], alloc: Global) -> Result<Vec<Node>, AllocError>
    ensures { IfOk result (λ v. fields_of v.items ≡ projected_fields (plans_of plans.now)) }
{
    let mut nodes = Vec::new(alloc);
    for plan in plans {
        add_node(&mut nodes, cut(plan, alloc)?)?;
    }
    Ok(nodes)
}

/// Adds the node, if there is one.
fn add_node(nodes: &mut Vec<Node>, node: Option<Node>) -> Result<(), AllocError>
    ensures { OnOk result (AddsField (fields_of nodes.old.items) (option_map field_of node) (fields_of nodes.new.items)) }
{
    match node {
        Some(node) => {
            nodes.push(node)?;
            Ok(())
        }
        None => Ok(()),
    }
}

/// The node of what is read for a plan; `None` where it is nothing.
#[cycle(cut)]
fn cut(plan: &Plan, alloc: Global) -> Result<Option<Node>, AllocError>
    ensures { IfOk result (λ o. option_map field_of o ≡ projected_field (plan_of plan.now)) }
{
    match plan {
        Plan::Missing => Ok(None),
        Plan::Value { optional, kind, .. } => { Ok(Some(node(alloc, *optional, kind_of(*kind)))) }
        Plan::Members { optional, plans } => {
            let nodes = cut_all(plans, alloc)?;
            Ok(Some(node(alloc, *optional, NodeKind::Group(nodes))))
        }
        Plan::Elements { optional, plan } => match cut(plan, alloc)? {
            Some(element) => Ok(Some(list(alloc, *optional, element)?)),
            None => Ok(None),
        },
        Plan::Entries {
            optional,
            key_optional,
            value,
            ..
        } => {
            let value = cut(value, alloc)?;
            let entry = entry(alloc, *key_optional, value)?;
            Ok(Some(list(alloc, *optional, entry)?))
        }
    }
}

/// A node without a name.
fn node(alloc: Global, nullable: bool, kind: NodeKind) -> Node
    ensures { field_of result ≡ field [] nullable (shape_of kind) }
{
    Node {
        name: String::new(alloc),
        nullable,
        kind,
    }
}

fn list(alloc: Global, nullable: bool, element: Node) -> Result<Node, AllocError>
    ensures { IfOk result (λ n. field_of n ≡ field [] nullable (shape_list (field_of element))) }
{
    let element = Box::new(alloc, element)?;
    Ok(node(alloc, nullable, NodeKind::List(element)))
}

/// An entry of a map, as the file has it: a group of a key and perhaps a value.
fn entry(alloc: Global, key_optional: bool, value: Option<Node>) -> Result<Node, AllocError>
    ensures { IfOk result (λ n. field_of n ≡ file_entry key_optional (option_map field_of value)) }
{
    let mut nodes = Vec::new(alloc);
    nodes.push(node(alloc, key_optional, NodeKind::Chars))?;
    if let Some(value) = value {
        nodes.push(value)?;
    }
    Ok(node(alloc, false, NodeKind::Group(nodes)))
}

fn kind_of(kind: Leaf) -> NodeKind
    ensures { shape_of result ≡ leaf (leaf_of kind) }
{
    match kind {
        Leaf::Flag => NodeKind::Flag,
        Leaf::Int32 => NodeKind::Int32,
        Leaf::Int64 => NodeKind::Int64,
        Leaf::Chars => NodeKind::Chars,
    }
}
