//! The schemas of checkpoints.

ghost use Rattle.std.specs.Prelude.{◌≡◌, [], ◌∷◌, ◌++◌, map, IfOk};
ghost use Rattle.dk_pqmodel.specs.NodeView.{field_of, fields_of};
ghost use Rattle.dk_pqmodel.specs.SchemaView.{fields_in};
ghost use Rattle.dk_lawful.specs.CheckpointSchema.{txn_group, add_group, vector_group, remove_group, format_group, metadata_group, keyed_group, protocol_group, domain_group, checkpoint_group, sidecar_group, action_groups, written_fields, read_fields};

use crate::kinds::{Holds, and, and_group};
use dk_model::ActionKey;
use dk_pqmodel::{Node, Schema};
use std::alloc::{AllocError, Global};

#[tactic(auto, unfolding(dk_lawful::specs::CheckpointSchema::txn_group))]
fn txn_nodes(alloc: Global) -> Result<Vec<Node>, AllocError>
    ensures { IfOk result (λ v. map field_of v.items ≡ txn_group) }
{
    let nodes = and(alloc, Vec::new(alloc), "appId", Holds::Text)?;
    let nodes = and(alloc, nodes, "version", Holds::Number)?;
    let nodes = and(alloc, nodes, "lastUpdated", Holds::Number)?;
    Ok(nodes)
}

#[tactic(auto, unfolding(dk_lawful::specs::CheckpointSchema::add_group))]
fn add_nodes(alloc: Global) -> Result<Vec<Node>, AllocError>
    ensures { IfOk result (λ v. map field_of v.items ≡ add_group) }
{
    let nodes = and(alloc, Vec::new(alloc), "path", Holds::Text)?;
    let nodes = and(alloc, nodes, "partitionValues", Holds::Map)?;
    let nodes = and(alloc, nodes, "size", Holds::Number)?;
    let nodes = and(alloc, nodes, "modificationTime", Holds::Number)?;
    let nodes = and(alloc, nodes, "dataChange", Holds::Flag)?;
    let nodes = and(alloc, nodes, "stats", Holds::Text)?;
    let nodes = and(alloc, nodes, "tags", Holds::Map)?;
    let nodes = and(alloc, nodes, "baseRowId", Holds::Number)?;
    let nodes = and(alloc, nodes, "defaultRowCommitVersion", Holds::Number)?;
    let nodes = and(alloc, nodes, "clusteringProvider", Holds::Text)?;
    Ok(nodes)
}

#[tactic(auto, unfolding(dk_lawful::specs::CheckpointSchema::vector_group))]
fn read_add_nodes(alloc: Global) -> Result<Vec<Node>, AllocError>
    ensures { IfOk result (λ v. map field_of v.items ≡ add_group ++ vector_group) }
{
    let nodes = add_nodes(alloc)?;
    let vector = and(alloc, Vec::new(alloc), "storageType", Holds::Text)?;
    let nodes = and_group(alloc, nodes, "deletionVector", vector)?;
    Ok(nodes)
}

#[tactic(auto, unfolding(dk_lawful::specs::CheckpointSchema::remove_group))]
fn remove_nodes(alloc: Global) -> Result<Vec<Node>, AllocError>
    ensures { IfOk result (λ v. map field_of v.items ≡ remove_group) }
{
    let nodes = and(alloc, Vec::new(alloc), "path", Holds::Text)?;
    let nodes = and(alloc, nodes, "deletionTimestamp", Holds::Number)?;
    let nodes = and(alloc, nodes, "dataChange", Holds::Flag)?;
    Ok(nodes)
}

#[tactic(auto, unfolding(dk_lawful::specs::CheckpointSchema::format_group))]
fn format_nodes(alloc: Global) -> Result<Vec<Node>, AllocError>
    ensures { IfOk result (λ v. map field_of v.items ≡ format_group) }
{
    let nodes = and(alloc, Vec::new(alloc), "provider", Holds::Text)?;
    let nodes = and(alloc, nodes, "options", Holds::Map)?;
    Ok(nodes)
}

#[tactic(auto, unfolding(dk_lawful::specs::CheckpointSchema::metadata_group))]
fn metadata_nodes(alloc: Global) -> Result<Vec<Node>, AllocError>
    ensures { IfOk result (λ v. map field_of v.items ≡ metadata_group) }
{
    let nodes = and(alloc, Vec::new(alloc), "id", Holds::Text)?;
    let nodes = and(alloc, nodes, "name", Holds::Text)?;
    let nodes = and(alloc, nodes, "description", Holds::Text)?;
    let nodes = and_group(alloc, nodes, "format", format_nodes(alloc)?)?;
    let nodes = and(alloc, nodes, "schemaString", Holds::Text)?;
    let nodes = and(alloc, nodes, "partitionColumns", Holds::Texts)?;
    let nodes = and(alloc, nodes, "configuration", Holds::Map)?;
    let nodes = and(alloc, nodes, "createdTime", Holds::Number)?;
    Ok(nodes)
}

#[tactic(auto, unfolding(dk_lawful::specs::CheckpointSchema::protocol_group))]
fn protocol_nodes(alloc: Global) -> Result<Vec<Node>, AllocError>
    ensures { IfOk result (λ v. map field_of v.items ≡ protocol_group) }
{
    let nodes = and(alloc, Vec::new(alloc), "minReaderVersion", Holds::Version)?;
    let nodes = and(alloc, nodes, "minWriterVersion", Holds::Version)?;
    let nodes = and(alloc, nodes, "readerFeatures", Holds::Texts)?;
    let nodes = and(alloc, nodes, "writerFeatures", Holds::Texts)?;
    Ok(nodes)
}

#[tactic(auto, unfolding(dk_lawful::specs::CheckpointSchema::domain_group))]
fn domain_nodes(alloc: Global) -> Result<Vec<Node>, AllocError>
    ensures { IfOk result (λ v. map field_of v.items ≡ domain_group) }
{
    let nodes = and(alloc, Vec::new(alloc), "domain", Holds::Text)?;
    let nodes = and(alloc, nodes, "configuration", Holds::Text)?;
    let nodes = and(alloc, nodes, "removed", Holds::Flag)?;
    Ok(nodes)
}

#[tactic(auto, unfolding(dk_lawful::specs::CheckpointSchema::checkpoint_group))]
fn checkpoint_nodes(alloc: Global) -> Result<Vec<Node>, AllocError>
    ensures { IfOk result (λ v. map field_of v.items ≡ checkpoint_group) }
{
    let nodes = and(alloc, Vec::new(alloc), "version", Holds::Number)?;
    Ok(nodes)
}

#[tactic(auto, unfolding(dk_lawful::specs::CheckpointSchema::sidecar_group))]
fn sidecar_nodes(alloc: Global) -> Result<Vec<Node>, AllocError>
    ensures { IfOk result (λ v. map field_of v.items ≡ sidecar_group) }
{
    let nodes = and(alloc, Vec::new(alloc), "path", Holds::Text)?;
    let nodes = and(alloc, nodes, "sizeInBytes", Holds::Number)?;
    let nodes = and(alloc, nodes, "modificationTime", Holds::Number)?;
    Ok(nodes)
}

/// The groups, one for each key of an action that checkpoints have, by the fields of an add.
fn groups_with(alloc: Global, adds: Vec<Node>) -> Result<Vec<Node>, AllocError>
    ensures { IfOk result (λ v. fields_of v.items ≡ action_groups (map field_of adds.items)) }
{
    let nodes = Vec::new(alloc);
    let nodes = and_kind(alloc, nodes, ActionKey::Txn, txn_nodes(alloc)?)?;
    let nodes = and_kind(alloc, nodes, ActionKey::Add, adds)?;
    let nodes = and_kind(alloc, nodes, ActionKey::Remove, remove_nodes(alloc)?)?;
    let nodes = and_kind(alloc, nodes, ActionKey::Metadata, metadata_nodes(alloc)?)?;
    let nodes = and_kind(alloc, nodes, ActionKey::Protocol, protocol_nodes(alloc)?)?;
    let nodes = and_kind(alloc, nodes, ActionKey::Domain, domain_nodes(alloc)?)?;
    let nodes = and_kind(
        alloc,
        nodes,
        ActionKey::CheckpointMeta,
        checkpoint_nodes(alloc)?,
    )?;
    let nodes = and_kind(alloc, nodes, ActionKey::Sidecar, sidecar_nodes(alloc)?)?;
    Ok(nodes)
}

/// The groups, and that of one more kind of action.
fn and_kind(
    alloc: Global,
    nodes: Vec<Node>,
    key: ActionKey,
    inner: Vec<Node>,
) -> Result<Vec<Node>, AllocError>
    ensures { IfOk result (λ v. map field_of v.items ≡ map field_of nodes.items ++ keyed_group key (map field_of inner.items) ∷ []) }
{
    and_group(alloc, nodes, key.name(), inner)
}

/// The schema of a checkpoint as it is written (Delta Lake's PROTOCOL.md, "Checkpoint Schema"): a group for each kind of action,
/// with all fields optional but the key of a map. `Err` says that memory was wanted and not had.
pub fn written_schema(alloc: Global) -> Result<Schema, AllocError>
    ensures { IfOk result (λ s. fields_in s ≡ written_fields) }
{
    let adds = add_nodes(alloc)?;
    let nodes = groups_with(alloc, adds)?;
    Ok(Schema::new(nodes))
}

/// The schema that a checkpoint is read by (Delta Lake's PROTOCOL.md, "Checkpoint Schema"): the written one, and beside an
/// add's fields the storage type of its deletion vector. `Err` says that memory was wanted and not had.
pub fn read_schema(alloc: Global) -> Result<Schema, AllocError>
    ensures { IfOk result (λ s. fields_in s ≡ read_fields) }
{
    let adds = read_add_nodes(alloc)?;
    let nodes = groups_with(alloc, adds)?;
    Ok(Schema::new(nodes))
}
