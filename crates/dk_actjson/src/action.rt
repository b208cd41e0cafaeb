//! The action that a JSON value of an action means.

ghost use Rattle.std.specs.Prelude.{◌≡◌, [], Some, option_map, unwrap_or};
ghost use Rattle.serde_json.specs.View.{view};
ghost use Rattle.dk_model.specs.ProtocolObject.{protocol_of};
ghost use Rattle.dk_model.specs.MetadataObject.{format_of, metadata_of};
ghost use Rattle.dk_model.specs.AddObject.{add_of};
ghost use Rattle.dk_model.specs.RemoveObject.{remove_of};
ghost use Rattle.dk_model.specs.TxnObject.{txn_of};
ghost use Rattle.dk_model.specs.DomainObject.{domain_of};
ghost use Rattle.dk_model.specs.InfoObject.{info_of};
ghost use Rattle.dk_model.specs.CheckpointObjects.{checkpoint_meta_of, sidecar_of};
ghost use Rattle.dk_model.specs.ActionKeys.{name_of};
ghost use Rattle.dk_model.specs.Fields.{needed as needed_of};
ghost use Rattle.dk_model.specs.ActionObject.{one_key, action_under, content_form, keyed, action_of as action_in};
ghost use Rattle.dk_actjson.specs.Faults.{Gives, GivesBy};

use crate::fault::ActionFault;
use crate::field::{lenient, needed, needed_group, optional, optional_group};
use crate::tree::Tree;
use dk_model::{
    Action, ActionKey, AddFile, CheckpointMeta, CommitInfo, Domain, Metadata, Names, Pairs,
    Protocol, RemoveFile, SidecarRef, Text, Txn,
};
use serde_json::Value;
use std::alloc::Global;

#[tactic(auto, unfolding(dk_model::specs::ProtocolObject::protocol_of))]
fn read_protocol<T: Tree>(alloc: Global, object: T) -> Result<Protocol, ActionFault>
    ensures { Gives result (protocol_of (T.meant object)) }
{
    let min_reader = needed(alloc, object, "minReaderVersion")?;
    let min_writer = needed(alloc, object, "minWriterVersion")?;
    let reader_features = optional(alloc, object, "readerFeatures")?;
    let writer_features = optional(alloc, object, "writerFeatures")?;
    Ok(Protocol {
        min_reader,
        min_writer,
        reader_features,
        writer_features,
    })
}

#[tactic(auto, unfolding(dk_model::specs::MetadataObject::format_of))]
fn read_format<T: Tree>(alloc: Global, format: Option<T>) -> Result<(Text, Pairs), ActionFault>
    ensures { Gives result (format_of (option_map T.meant format)) }
{
    let Some(object) = format else {
        return Ok((Text::from_str(alloc, "parquet")?, Pairs::empty(alloc)));
    };
    let provider = optional(alloc, object, "provider")?;
    let options = optional(alloc, object, "options")?;
    let provider = text_or(alloc, provider, "parquet")?;
    Ok((provider, pairs_or_none(alloc, options)))
}

fn text_or(alloc: Global, text: Option<Text>, default: &str) -> Result<Text, ActionFault>
    ensures { Gives result (Some (unwrap_or text default.now)) }
{
    match text {
        Some(text) => Ok(text),
        None => Ok(Text::from_str(alloc, default)?),
    }
}

fn pairs_or_none(alloc: Global, pairs: Option<Pairs>) -> Pairs
    ensures { result ≡ unwrap_or pairs [] }
{
    match pairs {
        Some(pairs) => pairs,
        None => Pairs::empty(alloc),
    }
}

fn names_or_none(alloc: Global, names: Option<Names>) -> Names
    ensures { result ≡ unwrap_or names [] }
{
    match names {
        Some(names) => names,
        None => Names::new(Vec::new(alloc)),
    }
}

#[tactic(auto, unfolding(dk_model::specs::MetadataObject::metadata_of))]
fn read_metadata<T: Tree>(alloc: Global, object: T) -> Result<Metadata, ActionFault>
    ensures { Gives result (metadata_of (T.meant object)) }
{
    let id = needed(alloc, object, "id")?;
    let name = optional(alloc, object, "name")?;
    let description = optional(alloc, object, "description")?;
    let given = optional_group(object, "format")?;
    let (provider, options) = read_format(alloc, given)?;
    let schema_string = needed(alloc, object, "schemaString")?;
    let columns = optional(alloc, object, "partitionColumns")?;
    let created_time = optional(alloc, object, "createdTime")?;
    let configuration = optional(alloc, object, "configuration")?;
    Ok(Metadata {
        id,
        name,
        description,
        provider,
        options,
        schema_string,
        partition_columns: names_or_none(alloc, columns),
        created_time,
        configuration: pairs_or_none(alloc, configuration),
    })
}

#[tactic(auto, unfolding(dk_model::specs::AddObject::add_of))]
fn read_add<T: Tree>(alloc: Global, object: T) -> Result<AddFile, ActionFault>
    ensures { Gives result (add_of (T.meant object)) }
{
    let path = needed(alloc, object, "path")?;
    let values = optional(alloc, object, "partitionValues")?;
    let size = needed(alloc, object, "size")?;
    let modification_time = needed(alloc, object, "modificationTime")?;
    let change = optional::<bool, T>(alloc, object, "dataChange")?;
    let stats = optional(alloc, object, "stats")?;
    let tags = optional(alloc, object, "tags")?;
    let base_row_id = optional(alloc, object, "baseRowId")?;
    let default_row_commit_version = optional(alloc, object, "defaultRowCommitVersion")?;
    let clustering_provider = optional(alloc, object, "clusteringProvider")?;
    Ok(AddFile {
        path,
        partition_values: pairs_or_none(alloc, values),
        size,
        modification_time,
        data_change: change.unwrap_or(true),
        stats,
        tags,
        base_row_id,
        default_row_commit_version,
        clustering_provider,
        vector: object.field("deletionVector").is_some(),
    })
}

#[tactic(auto, unfolding(dk_model::specs::RemoveObject::remove_of))]
fn read_remove<T: Tree>(alloc: Global, object: T) -> Result<RemoveFile, ActionFault>
    ensures { Gives result (remove_of (T.meant object)) }
{
    let path = needed(alloc, object, "path")?;
    let time = optional::<i64, T>(alloc, object, "deletionTimestamp")?;
    let changed = optional::<bool, T>(alloc, object, "dataChange")?;
    Ok(RemoveFile {
        path,
        deletion_timestamp: time.unwrap_or(0),
        data_change: changed.unwrap_or(true),
    })
}

#[tactic(auto, unfolding(dk_model::specs::TxnObject::txn_of))]
fn read_txn<T: Tree>(alloc: Global, object: T) -> Result<Txn, ActionFault>
    ensures { Gives result (txn_of (T.meant object)) }
{
    let app_id = needed(alloc, object, "appId")?;
    let version = needed(alloc, object, "version")?;
    let last_updated = optional(alloc, object, "lastUpdated")?;
    Ok(Txn {
        app_id,
        version,
        last_updated,
    })
}

#[tactic(auto, unfolding(dk_model::specs::DomainObject::domain_of))]
fn read_domain<T: Tree>(alloc: Global, object: T) -> Result<Domain, ActionFault>
    ensures { Gives result (domain_of (T.meant object)) }
{
    let domain = needed(alloc, object, "domain")?;
    let configuration = needed(alloc, object, "configuration")?;
    let removed = needed(alloc, object, "removed")?;
    Ok(Domain {
        domain,
        configuration,
        removed,
    })
}

/// What is said of a commit. A field of another form counts as absent.
#[tactic(auto, unfolding(dk_model::specs::InfoObject::info_of))]
fn read_info<T: Tree>(alloc: Global, object: T) -> Result<CommitInfo, ActionFault>
    ensures { Gives result (Some (info_of (T.meant object))) }
{
    let in_commit_timestamp = lenient(alloc, object, "inCommitTimestamp")?;
    let txn_id = lenient(alloc, object, "txnId")?;
    Ok(CommitInfo {
        in_commit_timestamp,
        txn_id,
    })
}

#[tactic(auto, unfolding(dk_model::specs::CheckpointObjects::checkpoint_meta_of))]
fn read_checkpoint_meta<T: Tree>(alloc: Global, object: T) -> Result<CheckpointMeta, ActionFault>
    ensures { Gives result (checkpoint_meta_of (T.meant object)) }
{
    let version = needed(alloc, object, "version")?;
    Ok(CheckpointMeta { version })
}

#[tactic(auto, unfolding(dk_model::specs::CheckpointObjects::sidecar_of))]
fn read_sidecar<T: Tree>(alloc: Global, object: T) -> Result<SidecarRef, ActionFault>
    ensures { Gives result (sidecar_of (T.meant object)) }
{
    let path = needed(alloc, object, "path")?;
    let size = needed(alloc, object, "sizeInBytes")?;
    let stamp = needed(alloc, object, "modificationTime")?;
    Ok(SidecarRef { path, size, stamp })
}

/// The one key of these that the object has.
fn read_key<T: Tree>(object: T, keys: &[ActionKey]) -> Result<Option<ActionKey>, ActionFault>
    ensures { Gives result (one_key (T.meant object) keys.now) }
{
    let mut found = None;
    'keys: for key in keys {
        let is_there = object.field(key.name()).is_some();
        found = match (is_there, found) {
            (false, found) => found,
            (true, None) => Some(*key),
            (true, Some(_)) => return Err(ActionFault::Bad),
        };
    }
    Ok(found)
}

/// The action under a key.
fn read_under<T: Tree>(alloc: Global, key: ActionKey, object: T) -> Result<Action, ActionFault>
    ensures { Gives result (action_under key (T.meant object)) }
{
    match key {
        ActionKey::Protocol => Ok(Action::Protocol(read_protocol(alloc, object)?)),
        ActionKey::Metadata => Ok(Action::Metadata(read_metadata(alloc, object)?)),
        ActionKey::Add => Ok(Action::Add(read_add(alloc, object)?)),
        ActionKey::Remove => Ok(Action::Remove(read_remove(alloc, object)?)),
        ActionKey::Txn => Ok(Action::Txn(read_txn(alloc, object)?)),
        ActionKey::Domain => Ok(Action::Domain(read_domain(alloc, object)?)),
        ActionKey::Info => Ok(Action::Info(read_info(alloc, object)?)),
        ActionKey::Cdc => Ok(Action::Cdc),
        ActionKey::CheckpointMeta => {
            let meta = read_checkpoint_meta(alloc, object)?;
            Ok(Action::CheckpointMeta(meta))
        }
        ActionKey::Sidecar => Ok(Action::Sidecar(read_sidecar(alloc, object)?)),
    }
}

/// The value under a key: an object, but for changed rows, whose value may be any but null.
fn content<T: Tree>(key: ActionKey, object: T) -> Result<T, ActionFault>
    ensures { GivesBy T.meant result
        (needed_of (content_form key) (name_of key) (T.meant object)) }
{
    match key {
        ActionKey::Cdc => object.field(key.name()).ok_or(ActionFault::Bad),
        _ => needed_group(object, key.name()),
    }
}

fn read_keyed<T: Tree>(
    alloc: Global,
    key: Option<ActionKey>,
    object: T,
) -> Result<Option<Action>, ActionFault>
    ensures { Gives result (keyed (T.meant object) key) }
{
    let Some(key) = key else {
        return Ok(None);
    };
    let inner = content(key, object)?;
    Ok(Some(read_under(alloc, key, inner)?))
}

/// The action of a tree (Delta Lake's PROTOCOL.md, "Actions"), or none where there is nothing to do, with the faults that
/// [`action_of`] has for a value.
pub fn read_action<T: Tree>(alloc: Global, tree: T) -> Result<Option<Action>, ActionFault>
    ensures { Gives result (action_in (T.meant tree)) }
{
    if !tree.is_object() {
        return Err(ActionFault::Bad);
    }
    let key = read_key(tree, ActionKey::all())?;
    read_keyed(alloc, key, tree)
}

/// The action of a value (Delta Lake's PROTOCOL.md, "Actions"), or none where there is nothing to do: it has no known key.
/// `Bad` where it is no object, has two keys of actions, or a field of another form than that of its action; `OutOfMemory`
/// is want of memory.
pub fn action_of(alloc: Global, value: &Value) -> Result<Option<Action>, ActionFault>
    ensures { Gives result (action_in (view value.now)) }
{
    read_action(alloc, value)
}
