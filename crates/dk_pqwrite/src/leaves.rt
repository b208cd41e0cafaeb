//! The leaves of a schema, each with its path and its greatest levels.

ghost use Rattle.std.specs.Prelude.{◌≡◌, ◌+◌, ◌<◌, [], ◌∷◌, ◌++◌, codes, IfOk, OnOk, map, string_bytes};
ghost use Rattle.dk_pqmodel.specs.FileMeans.{columns_in, columns_of, one_if};
ghost use Rattle.dk_pqmodel.specs.NodeView.{field_of, fields_of};
ghost use Rattle.dk_pqmodel.specs.SchemaView.{fields_in};
ghost use Rattle.dk_pqmodel.specs.Shape.{deepest_in, deepest_of};
ghost use Rattle.dk_pqwrite.specs.OverItself.{own_plan_in, own_plans};
ghost use Rattle.dk_pqwrite.specs.SchemaLeaves.{AddsLeaves, HasRoom, entry_columns, leaf_view, walked_names, one_leaf_column};

use crate::column::{LeafColumn, LeafKind};
use dk_pqmodel::{Node, NodeKind, Schema};
use std::alloc::{AllocError, Global};

/// A leaf of the schema: where it stands, and the column that is written for it.
#[derive(Drop)]
pub(crate) struct SchemaLeaf {
    /// The names from the top of the schema to the leaf, those of the groups of lists and maps among them.
    pub path: Vec<String>,
    pub column: LeafColumn,
}

/// A walk along a schema: the leaves that were met, and the names from the top to where it stands.
#[derive(Drop)]
struct LeafWalk<'a> {
    leaves: Vec<SchemaLeaf>,
    path: Vec<&'a str>,
}

/// How deep a node stands: how many lists and maps are around it, and how many nodes that may be null, lists and maps are above it.
#[derive(Clone, Copy)]
struct Depth {
    rep: u8,
    def: u8,
}

impl Depth {
    /// That of what is in a node, which may be null or not.
    fn below(self, nullable: bool) -> Depth
        requires { self.def + one_if nullable < 256 }
        ensures { result ≡ record { rep = self.rep; def = self.def + one_if nullable } }
    {
        Depth {
            rep: self.rep,
            def: self.def + u8::from(nullable),
        }
    }

    /// That of what is in a list or a map.
    fn inside(self) -> Depth
        requires { HasRoom self 1 }
        ensures { result ≡ record { rep = self.rep + 1; def = self.def + 1 } }
    {
        Depth {
            rep: self.rep + 1,
            def: self.def + 1,
        }
    }
}

/// The leaves of a schema, in the order of its columns.
pub(crate) fn leaves_of(alloc: Global, schema: &Schema) -> Result<Vec<SchemaLeaf>, AllocError>
    ensures { IfOk result (λ v. map leaf_view v.items ≡ columns_of (own_plans (fields_in schema.now) []) 0 0) }
{
    let mut walk = LeafWalk {
        leaves: Vec::new(alloc),
        path: Vec::new(alloc),
    };
    add_nodes(alloc, &mut walk, &schema.nodes, Depth { rep: 0, def: 0 })?;
    Ok(walk.leaves)
}

/// Adds the leaves of nodes that stand beside one another in the group where the walk stands.
#[cycle(walk)]
fn add_nodes<'a>(
    alloc: Global,
    walk: &mut LeafWalk<'a>,
    nodes: &'a [Node],
    depth: Depth,
) -> Result<(), AllocError>
    requires { HasRoom depth (deepest_of (fields_of nodes.now)) }
    ensures { OnOk result (AddsLeaves (columns_of (own_plans (fields_of nodes.now) (walked_names walk.old.path.items)) depth.rep depth.def) walk.old walk.new) }
{
    for node in nodes {
        add_named(alloc, walk, &node.name, node, depth)?;
    }
    Ok(())
}

/// Adds the leaves of a node that has this name in the group where the walk stands.
#[cycle(walk)]
fn add_named<'a>(
    alloc: Global,
    walk: &mut LeafWalk<'a>,
    name: &'a str,
    node: &'a Node,
    depth: Depth,
) -> Result<(), AllocError>
    requires { HasRoom depth (deepest_in (field_of node.now)) }
    ensures { OnOk result (AddsLeaves (columns_in (own_plan_in (field_of node.now) (walked_names walk.old.path.items ++ name.now ∷ [])) depth.rep depth.def) walk.old walk.new) }
{
    walk.path.push(name)?;
    add_node(alloc, walk, node, depth)?;
    walk.path.pop();
    Ok(())
}

/// Adds the leaves of the node where the walk stands.
#[cycle(walk)]
fn add_node<'a>(
    alloc: Global,
    walk: &mut LeafWalk<'a>,
    node: &'a Node,
    depth: Depth,
) -> Result<(), AllocError>
    requires { HasRoom depth (deepest_in (field_of node.now)) }
    ensures { OnOk result (AddsLeaves (columns_in (own_plan_in (field_of node.now) (walked_names walk.old.path.items)) depth.rep depth.def) walk.old walk.new) }
{
    let depth = depth.below(node.nullable);
    match &node.kind {
        NodeKind::Flag => add_leaf(alloc, walk, LeafKind::Flag, depth),
        NodeKind::Int32 => add_leaf(alloc, walk, LeafKind::Int32, depth),
        NodeKind::Int64 => add_leaf(alloc, walk, LeafKind::Int64, depth),
        NodeKind::Chars => add_leaf(alloc, walk, LeafKind::Chars, depth),
        NodeKind::Group(nodes) => add_nodes(alloc, walk, nodes, depth),
        NodeKind::List(element) => add_element(alloc, walk, element, depth.inside()),
        NodeKind::Map(value) => add_entry(alloc, walk, value, depth.inside()),
    }
}

/// Adds the leaves of the element of the list where the walk stands. The depth is that inside the list.
#[cycle(walk)]
fn add_element<'a>(
    alloc: Global,
    walk: &mut LeafWalk<'a>,
    element: &'a Node,
    depth: Depth,
) -> Result<(), AllocError>
    requires { HasRoom depth (deepest_in (field_of element.now)) }
    ensures { OnOk result (AddsLeaves (columns_in (own_plan_in (field_of element.now) (walked_names walk.old.path.items ++ codes "list" ∷ codes "element" ∷ [])) depth.rep depth.def) walk.old walk.new) }
{
    walk.path.push("list")?;
    add_named(alloc, walk, "element", element, depth)?;
    walk.path.pop();
    Ok(())
}

/// Adds the leaves of an entry of the map where the walk stands: its key, and those of its value. The depth is that inside the map.
#[cycle(walk)]
fn add_entry<'a>(
    alloc: Global,
    walk: &mut LeafWalk<'a>,
    value: &'a Node,
    depth: Depth,
) -> Result<(), AllocError>
    requires { HasRoom depth (deepest_in (field_of value.now)) }
    ensures { OnOk result (AddsLeaves (entry_columns (field_of value.now) (walked_names walk.old.path.items) depth.rep depth.def) walk.old walk.new) }
{
    walk.path.push("key_value")?;
    add_key(alloc, walk, depth)?;
    add_named(alloc, walk, "value", value, depth)?;
    walk.path.pop();
    Ok(())
}

/// Adds the key of a map, a text that is never null. The walk stands at the map's entries.
fn add_key<'a>(alloc: Global, walk: &mut LeafWalk<'a>, depth: Depth) -> Result<(), AllocError>
    ensures { OnOk result (AddsLeaves (one_leaf_column (walked_names walk.old.path.items ++ codes "key" ∷ []) LeafKind.Chars depth.rep depth.def) walk.old walk.new) }
{
    walk.path.push("key")?;
    add_leaf(alloc, walk, LeafKind::Chars, depth)?;
    walk.path.pop();
    Ok(())
}

/// Adds a leaf where the walk stands.
fn add_leaf(
    alloc: Global,
    walk: &mut LeafWalk<'_>,
    kind: LeafKind,
    depth: Depth,
) -> Result<(), AllocError>
    ensures { OnOk result (AddsLeaves (one_leaf_column (walked_names walk.old.path.items) kind depth.rep depth.def) walk.old walk.new) }
{
    let path = copy_names(alloc, &walk.path)?;
    let Depth { rep, def } = depth;
    walk.leaves.push(SchemaLeaf {
        path,
        column: LeafColumn { kind, rep, def },
    })?;
    Ok(())
}

/// The same names, owned.
fn copy_names(alloc: Global, names: &[&str]) -> Result<Vec<String>, AllocError>
    ensures { IfOk result (λ v. map string_bytes v.items ≡ walked_names names.now) }
{
    let mut owned = Vec::with_capacity(alloc, names.len())?;
    for name in names {
        owned.push(String::from_str(alloc, name)?)?;
    }
    Ok(owned)
}
