//! A wanted schema laid over a file's own.

ghost use Rattle.std.specs.Prelude.{◌≡◌, [], ◌∷◌, ◌++◌, IfOk, codes, option_map};
ghost use Rattle.dk_pqmodel.specs.FileSchema.{is_optional, node_name};
ghost use Rattle.dk_pqmodel.specs.Projection.{elements_of, entries as laid_entries, first_leaf, first_leaf_of, projection_at, projection_each, projection_in, projection_named, members_of, misfit_at, misfit_each, misfit_in, misfit_named};
ghost use Rattle.dk_pqmodel.specs.NodeView.{field_of, fields_of, shape_of};
ghost use Rattle.dk_pqmodel.specs.Shape.{map_of, group, leaf, list};
ghost use Rattle.dk_pqmeta.specs.View.{node_of, nodes_of};
ghost use Rattle.dk_pqread.specs.Inner.{Pair, EntryNodes, element_nodes, entry_nodes};
ghost use Rattle.dk_pqread.specs.LeafView.{leaf_of};
ghost use Rattle.dk_pqread.specs.Lays.{Lays};
ghost use Rattle.dk_pqread.specs.PlanView.{path_of, plan_of, plans_of};

use crate::fault::LayFault;
use crate::leaf::Leaf;
use crate::names::{below, below_two, copy_path};
use crate::plan::{Plan, all_missing, is_missing};
use crate::tree::{
    group_nodes, is_optional, leaf_kind, named, only_node, repeated_node, two_nodes,
};
use dk_pqmeta::FileNode;
use dk_pqmodel::{Node, NodeKind};
use std::alloc::{AllocError, Global};

/// The plan of a wanted kind at the file's node. `path` is the node's path in the file, and `written` the same by the names that are
/// written.
#[cycle(lay)]
fn lay_kind(
    kind: &NodeKind,
    alloc: Global,
    path: &[String],
    written: &[String],
    node: &FileNode,
) -> Result<Plan, LayFault>
    ensures { Lays plan_of result (misfit_at (shape_of kind.now) (path_of written.now) (node_of node.now)) (projection_at (shape_of kind.now) (path_of path.now) (node_of node.now)) }
{
    match kind {
        NodeKind::Flag => lay_leaf(alloc, Leaf::Flag, path, written, node),
        NodeKind::Int32 => lay_leaf(alloc, Leaf::Int32, path, written, node),
        NodeKind::Int64 => lay_leaf(alloc, Leaf::Int64, path, written, node),
        NodeKind::Chars => lay_leaf(alloc, Leaf::Chars, path, written, node),
        NodeKind::Group(nodes) => lay_group(nodes, alloc, path, written, node),
        NodeKind::List(element) => lay_list(element, alloc, path, written, node),
        NodeKind::Map(value) => lay_map(value, alloc, path, written, node),
    }
}

/// A column.
fn lay_leaf(
    alloc: Global,
    wanted: Leaf,
    path: &[String],
    written: &[String],
    node: &FileNode,
) -> Result<Plan, LayFault>
    ensures { Lays plan_of result (misfit_at (leaf (leaf_of wanted)) (path_of written.now) (node_of node.now)) (projection_at (leaf (leaf_of wanted)) (path_of path.now) (node_of node.now)) }
{
    let Some(kind) = leaf_kind(wanted, node) else {
        return Err(LayFault::Shape(copy_path(alloc, written)?));
    };
    let path = copy_path(alloc, path)?;
    Ok(Plan::Value {
        optional: is_optional(node),
        kind,
        path,
    })
}

#[cycle(lay)]
fn lay_group(
    nodes: &[Node],
    alloc: Global,
    path: &[String],
    written: &[String],
    node: &FileNode,
) -> Result<Plan, LayFault>
    ensures { Lays plan_of result (misfit_at (group (fields_of nodes.now)) (path_of written.now) (node_of node.now)) (projection_at (group (fields_of nodes.now)) (path_of path.now) (node_of node.now)) }
{
    let Some(inner) = group_nodes(node) else {
        return Err(LayFault::Shape(first_leaf_of(nodes, alloc, written)?));
    };
    let plans = lay_nodes(nodes, alloc, path, written, inner)?;
    Ok(members(is_optional(node), plans))
}

/// The plans of wanted nodes, each at the file's node of its name.
#[cycle(lay)]
pub(crate) fn lay_nodes(
    nodes: &[Node],
    alloc: Global,
    path: &[String],
    written: &[String],
    inner: &[FileNode],
) -> Result<Vec<Plan>, LayFault>
    ensures { Lays (λ v. plans_of v.items) result (misfit_each (fields_of nodes.now) (path_of written.now) (nodes_of inner.now)) (projection_each (fields_of nodes.now) (path_of path.now) (nodes_of inner.now)) }
{
    let mut plans = Vec::new(alloc);
    for node in nodes {
        plans.push(lay_named(node, alloc, path, written, inner)?)?;
    }
    Ok(plans)
}

#[cycle(lay)]
fn lay_named(
    node: &Node,
    alloc: Global,
    path: &[String],
    written: &[String],
    inner: &[FileNode],
) -> Result<Plan, LayFault>
    ensures { Lays plan_of result (misfit_named (field_of node.now) (path_of written.now) (nodes_of inner.now)) (projection_named (field_of node.now) (path_of path.now) (nodes_of inner.now)) }
{
    let Some(own) = named(&node.name, inner) else {
        return Ok(Plan::Missing);
    };
    let path = below(alloc, path, &node.name)?;
    let written = below(alloc, written, &node.name)?;
    lay_kind(&node.kind, alloc, &path, &written, own)
}

#[cycle(lay)]
fn lay_list(
    element: &Node,
    alloc: Global,
    path: &[String],
    written: &[String],
    node: &FileNode,
) -> Result<Plan, LayFault>
    ensures { Lays plan_of result (misfit_at (list (field_of element.now)) (path_of written.now) (node_of node.now)) (projection_at (list (field_of element.now)) (path_of path.now) (node_of node.now)) }
{
    let written = below_two(alloc, written, "list", "element")?;
    let Some((repeated, inner)) = element_node(node) else {
        return Err(LayFault::Shape(first_leaf(&element.kind, alloc, &written)?));
    };
    let path = below_two(alloc, path, &repeated.name, &inner.name)?;
    let plan = lay_kind(&element.kind, alloc, &path, &written, inner)?;
    Ok(elements(alloc, is_optional(node), plan)?)
}

#[cycle(lay)]
fn lay_map(
    value: &Node,
    alloc: Global,
    path: &[String],
    written: &[String],
    node: &FileNode,
) -> Result<Plan, LayFault>
    ensures { Lays plan_of result (misfit_at (map_of (field_of value.now)) (path_of written.now) (node_of node.now)) (projection_at (map_of (field_of value.now)) (path_of path.now) (node_of node.now)) }
{
    let Some((repeated, key, inner)) = entry_nodes(node) else {
        return Err(LayFault::Shape(below_two(alloc, written, "key_value", "key")?));
    };
    let plan = lay_value(value, alloc, path, written, repeated, inner)?;
    Ok(entries(alloc, path, node, repeated, key, plan)?)
}

/// The values of a map.
#[cycle(lay)]
fn lay_value(
    value: &Node,
    alloc: Global,
    path: &[String],
    written: &[String],
    repeated: &FileNode,
    inner: &FileNode,
) -> Result<Plan, LayFault>
    ensures { Lays plan_of result (misfit_in (field_of value.now) (path_of written.now ++ (codes "key_value" ∷ codes "value" ∷ [])) (node_of inner.now))
        (projection_in (field_of value.now) (path_of path.now ++ (node_name (node_of repeated.now) ∷ node_name (node_of inner.now) ∷ [])) (node_of inner.now)) }
{
    let written = below_two(alloc, written, "key_value", "value")?;
    let path = below_two(alloc, path, &repeated.name, &inner.name)?;
    lay_kind(&value.kind, alloc, &path, &written, inner)
}

/// The repeated node of a list, and the one node in it.
fn element_node(node: &FileNode) -> Option<(&FileNode, &FileNode)>
    ensures { option_map {U = Pair} (λ x. (node_of x.0.now, node_of x.1.now)) result ≡ element_nodes (node_of node.now) }
{
    let repeated = repeated_node(node)?;
    let inner = only_node(repeated)?;
    Some((repeated, inner))
}

/// The repeated node of a map, and its key and value. The key is a text.
fn entry_nodes(node: &FileNode) -> Option<(&FileNode, &FileNode, &FileNode)>
    ensures { option_map {U = EntryNodes} (λ x. (node_of x.0.now, node_of x.1.now, node_of x.2.now)) result ≡ entry_nodes (node_of node.now) }
{
    let repeated = repeated_node(node)?;
    let (key, value) = two_nodes(repeated)?;
    let _text = leaf_kind(Leaf::Chars, key)?;
    Some((repeated, key, value))
}

/// The path of the first wanted leaf of the kind, by the names that are written.
#[cycle(first)]
fn first_leaf(kind: &NodeKind, alloc: Global, path: &[String]) -> Result<Vec<String>, AllocError>
    ensures { IfOk result (λ v. path_of v.items ≡ first_leaf (shape_of kind.now) (path_of path.now)) }
{
    match kind {
        NodeKind::Flag | NodeKind::Int32 | NodeKind::Int64 | NodeKind::Chars => {
            copy_path(alloc, path)
        }
        NodeKind::Group(nodes) => first_leaf_of(nodes, alloc, path),
        NodeKind::List(element) => {
            let path = below_two(alloc, path, "list", "element")?;
            first_leaf(&element.kind, alloc, &path)
        }
        NodeKind::Map(_) => below_two(alloc, path, "key_value", "key"),
    }
}

#[cycle(first)]
fn first_leaf_of(nodes: &[Node], alloc: Global, path: &[String]) -> Result<Vec<String>, AllocError>
    ensures { IfOk result (λ v. path_of v.items ≡ first_leaf_of (fields_of nodes.now) (path_of path.now)) }
{
    match nodes {
        [node, ..] => {
            let path = below(alloc, path, &node.name)?;
            first_leaf(&node.kind, alloc, &path)
        }
        [] => copy_path(alloc, path),
    }
}

/// Fields beside one another; nothing, where the file has none of them.
fn members(optional: bool, plans: Vec<Plan>) -> Plan
    ensures { plan_of result ≡ members_of optional (plans_of plans.items) }
{
    if all_missing(&plans) {
        Plan::Missing
    } else {
        Plan::Members { optional, plans }
    }
}

/// The elements of a list; nothing, where the file has none of what is wanted of them.
fn elements(alloc: Global, optional: bool, plan: Plan) -> Result<Plan, AllocError>
    ensures { IfOk result (λ p. plan_of p ≡ elements_of optional (plan_of plan)) }
{
    if is_missing(&plan) {
        return Ok(Plan::Missing);
    }
    let plan = Box::new(alloc, plan)?;
    Ok(Plan::Elements { optional, plan })
}

/// The entries of a map, whose key the file has.
#[tactic(auto, using(crate::proofs::FileNodes::name_is))]
fn entries(
    alloc: Global,
    path: &[String],
    node: &FileNode,
    repeated: &FileNode,
    key: &FileNode,
    value: Plan,
) -> Result<Plan, AllocError>
    ensures { IfOk result (λ p. plan_of p
        ≡ laid_entries (is_optional (node_of node.now)) (is_optional (node_of key.now))
        (path_of path.now ++ (node_name (node_of repeated.now) ∷ node_name (node_of key.now) ∷ [])) (plan_of value)) }
{
    let path = below_two(alloc, path, &repeated.name, &key.name)?;
    let value = Box::new(alloc, value)?;
    Ok(Plan::Entries {
        optional: is_optional(node),
        key_optional: is_optional(key),
        path,
        value,
    })
}
