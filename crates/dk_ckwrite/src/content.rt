//! The actions of a checkpoint, made of a state.

ghost use Rattle.std.specs.Prelude.{◌≡◌, ◌++◌, [], ◌∷◌, IfOk, OnOk, map, filter, if◌then◌else◌};
ghost use Rattle.std.specs.FinMap as maps;
ghost use Rattle.std.specs.List.{AllByRecursion};
ghost use Rattle.std.specs.Option.{option_to_list};
ghost use Rattle.dk_features.specs.InForce.{has_feature};
ghost use Rattle.dk_features.specs.Names.{v2_checkpoint};
ghost use Rattle.dk_lawful.specs.Agree.{Stands};
ghost use Rattle.dk_lawful.specs.Contents.{classic_content, has_v2, mark};
ghost use Rattle.dk_model.specs.Contents.{configured, heads, is_later, live_file, named_actions, recorded, removal, removals};
ghost use Rattle.dk_model.specs.WellKept.{IsWellKept};

use dk_features::is_in_force;
use dk_model::{
    Action, AddFile, Application, CheckpointMeta, Domain, Metadata, Protocol, RemoveFile,
    TableState, Text, TextMap, Txn,
};
use std::alloc::{AllocError, Global};

/// The feature of tables whose checkpoints say their version.
const V2_CHECKPOINT: &str = "v2Checkpoint";

/// The actions of a classic checkpoint of this version (Delta Lake's PROTOCOL.md, "Checkpoints", "Action
/// Reconciliation"): where `v2Checkpoint` is in force a checkpointMetadata, then the protocol, the metadata, the files by
/// path, by path the tombstones whose time is later than `cut`, in milliseconds since 1970-01-01T00:00:00Z, the
/// applications and the domains by name. Replayed from nothing they lead back to the state, but for tombstones up to the
/// cut.
pub fn classic_actions(
    alloc: Global,
    state: &TableState,
    version: u64,
    cut: i64,
) -> Result<Vec<Action>, AllocError>
    ensures content { IfOk result (λ actions. actions.items ≡ classic_content state.now version cut) }
    ensures stands { IsWellKept state.now → IfOk result (λ actions. Stands actions.items state.now cut) }
{
    let mut out = Vec::new(alloc);
    push_mark(&mut out, &state.protocol, version)?;
    push_heads(alloc, &mut out, state)?;
    push_files(alloc, &mut out, &state.files)?;
    push_tombstones(alloc, &mut out, &state.tombstones, cut)?;
    push_names(alloc, &mut out, state)?;
    Ok(out)
}

/// Whether the table has checkpoints that say their version.
#[tactic(auto, unfolding(dk_features::specs::InForce::has_feature))]
fn says_version(protocol: &Option<Protocol>) -> bool
    ensures { result ≡ has_feature protocol.now v2_checkpoint }
{
    match protocol {
        Some(protocol) => is_in_force(protocol, V2_CHECKPOINT),
        None => false,
    }
}

/// The version, where the table has checkpoints that say it.
fn push_mark(
    out: &mut Vec<Action>,
    protocol: &Option<Protocol>,
    version: u64,
) -> Result<(), AllocError>
    ensures { OnOk result (out.new.items ≡ out.old.items ++ (if has_feature protocol.now v2_checkpoint then mark version ∷ [] else [])) }
{
    if says_version(protocol) {
        out.push(Action::CheckpointMeta(CheckpointMeta { version }))?;
    }
    Ok(())
}

/// The protocol, if there is one.
fn push_protocol(
    alloc: Global,
    out: &mut Vec<Action>,
    protocol: &Option<Protocol>,
) -> Result<(), AllocError>
    ensures { OnOk result (out.new.items ≡ out.old.items ++ map (λ p. Action.Protocol p) (option_to_list protocol.now)) }
{
    if let Some(protocol) = protocol {
        out.push(Action::Protocol(protocol.copy(alloc)?))?;
    }
    Ok(())
}

/// The metadata, if there are any.
fn push_metadata(
    alloc: Global,
    out: &mut Vec<Action>,
    metadata: &Option<Metadata>,
) -> Result<(), AllocError>
    ensures { OnOk result (out.new.items ≡ out.old.items ++ map (λ m. Action.Metadata m) (option_to_list metadata.now)) }
{
    if let Some(metadata) = metadata {
        out.push(Action::Metadata(metadata.copy(alloc)?))?;
    }
    Ok(())
}

/// The protocol and the metadata.
fn push_heads(alloc: Global, out: &mut Vec<Action>, state: &TableState) -> Result<(), AllocError>
    ensures { OnOk result (out.new.items ≡ out.old.items ++ heads state.now) }
{
    push_protocol(alloc, out, &state.protocol)?;
    push_metadata(alloc, out, &state.metadata)
}

/// The files, by path.
fn push_files(
    alloc: Global,
    out: &mut Vec<Action>,
    files: &TextMap<AddFile>,
) -> Result<(), AllocError>
    ensures { OnOk result (out.new.items ≡ out.old.items ++ map live_file (maps.entries files.now)) }
{
    for (_path, file) in files.iter() {
        out.push(Action::Add(file.copy(alloc)?))?;
    }
    Ok(())
}

/// The tombstone, if it is later than the cut.
fn push_unexpired(
    alloc: Global,
    out: &mut Vec<Action>,
    path: &str,
    time: i64,
    cut: i64,
) -> Result<(), AllocError>
    ensures { OnOk result (out.new.items ≡ out.old.items ++ map removal (filter (is_later cut) ((path.now, time) ∷ []))) }
{
    if cut < time {
        let path = Text::from_str(alloc, path)?;
        out.push(Action::Remove(RemoveFile {
            path,
            deletion_timestamp: time,
            data_change: false,
        }))?;
    }
    Ok(())
}

/// The tombstones that are later than the cut, by path.
fn push_tombstones(
    alloc: Global,
    out: &mut Vec<Action>,
    tombstones: &TextMap<i64>,
    cut: i64,
) -> Result<(), AllocError>
    ensures { OnOk result (out.new.items ≡ out.old.items ++ map removal (filter (is_later cut) (maps.entries tombstones.now))) }
{
    for (path, time) in tombstones.iter() {
        push_unexpired(alloc, out, path, *time, cut)?;
    }
    Ok(())
}

/// What an application has recorded.
fn push_application(
    alloc: Global,
    out: &mut Vec<Action>,
    name: &str,
    application: &Application,
) -> Result<(), AllocError>
    ensures { OnOk result (out.new.items ≡ out.old.items ++ (recorded (name.now, application.now) ∷ [])) }
{
    let app_id = Text::from_str(alloc, name)?;
    out.push(Action::Txn(Txn {
        app_id,
        version: application.version,
        last_updated: application.last_updated,
    }))?;
    Ok(())
}

/// The applications, by name.
fn push_applications(
    alloc: Global,
    out: &mut Vec<Action>,
    applications: &TextMap<Application>,
) -> Result<(), AllocError>
    ensures { OnOk result (out.new.items ≡ out.old.items ++ map recorded (maps.entries applications.now)) }
{
    for (name, application) in applications.iter() {
        push_application(alloc, out, name, application)?;
    }
    Ok(())
}

/// The configuration of a domain.
fn push_domain(
    alloc: Global,
    out: &mut Vec<Action>,
    name: &str,
    configuration: &Text,
) -> Result<(), AllocError>
    ensures { OnOk result (out.new.items ≡ out.old.items ++ (configured (name.now, configuration.now) ∷ [])) }
{
    let domain = Text::from_str(alloc, name)?;
    let configuration = configuration.copy(alloc)?;
    out.push(Action::Domain(Domain {
        domain,
        configuration,
        removed: false,
    }))?;
    Ok(())
}

/// The domains, by name.
fn push_domains(
    alloc: Global,
    out: &mut Vec<Action>,
    domains: &TextMap<Text>,
) -> Result<(), AllocError>
    ensures { OnOk result (out.new.items ≡ out.old.items ++ map configured (maps.entries domains.now)) }
{
    for (name, configuration) in domains.iter() {
        push_domain(alloc, out, name, configuration)?;
    }
    Ok(())
}

/// The applications and the domains.
fn push_names(alloc: Global, out: &mut Vec<Action>, state: &TableState) -> Result<(), AllocError>
    ensures { OnOk result (out.new.items ≡ out.old.items ++ named_actions state.now) }
{
    push_applications(alloc, out, &state.applications)?;
    push_domains(alloc, out, &state.domains)
}
