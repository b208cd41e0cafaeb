//! Schemas: the named fields of rows.

ghost use Rattle.dk_pqmodel.specs.Schema.{IsSchema};
ghost use Rattle.dk_pqmodel.specs.NodeView.{fields_of};

use crate::node::{Node, copy_nodes};
use crate::rules::is_schema;
use std::alloc::{AllocError, Global};

/// The fields of a row, each with its kind.
///
/// There is at least one field at the top and in each group, no two fields of one group or of the
/// top have one name, and there are at most 32 levels.
#[derive(Drop)]
pub struct Schema {
    pub nodes: Vec<Node>,
    ghost is_schema: { IsSchema (fields_of nodes.items) },
}

impl Schema {
    ghost use Rattle.std.specs.Prelude.{◌≡◌, ◌↔◌, IfOk, IsSome, IfSome};
    ghost use Rattle.dk_pqmodel.specs.SchemaView.{fields_in};

    /// The schema of these nodes.
    pub fn new(nodes: Vec<Node>) -> Schema
        requires { IsSchema (fields_of nodes.items) }
        ensures { fields_in result ≡ fields_of nodes.items }
    {
        Schema { nodes }
    }

    /// The schema of these nodes (Apache Parquet, "Nested Types"), where they make one.
    pub fn try_new(nodes: Vec<Node>) -> Option<Schema>
        ensures made { IsSome result ↔ IsSchema (fields_of nodes.items) }
        ensures same { IfSome result (λ s. fields_in s ≡ fields_of nodes.items) }
    {
        if is_schema(&nodes) {
            Some(Schema { nodes })
        } else {
            None
        }
    }

    /// A schema of the same content. `Err` is want of memory.
    pub fn copy(&self, alloc: Global) -> Result<Schema, AllocError>
        ensures { IfOk result (λ s. fields_in s ≡ fields_in self.now) }
    {
        Ok(Schema {
            nodes: copy_nodes(alloc, &self.nodes)?,
        })
    }
}
