//! The text of `show`.
ghost use Rattle.std.specs.Prelude.{◌≡◌, ◌++◌, [], ◌∷◌, IfOk, OnOk, map, filter};
ghost use Rattle.std.specs.FinMap as maps;
ghost use Rattle.std.specs.Option.{option_to_list};
ghost use Rattle.dk_model.specs.Written.{text_of};
ghost use Rattle.dk_cli.specs.Commit.{committed_line};
ghost use Rattle.dk_model.specs.Contents.{adds, configured, heads, is_later, live_file, named_actions, recorded, removal, removals};
ghost use Rattle.dk_cli.specs.Shown.{snapshot_line, shown};

use dk_actjson::{
    append_add, append_application, append_domain, append_metadata, append_protocol,
    append_tombstone,
};
use dk_model::{Action, AddFile, Application, Metadata, Protocol, TableState, Text, TextMap};
use serde_json::{Map, Value};
use std::alloc::{AllocError, Global};

/// `{"snapshot":{"version":V}}` and a newline.
#[tactic(auto, unfolding(crate::specs::Shown::snapshot_data, dk_model::specs::Shown::object_with))]
fn append_snapshot(alloc: Global, out: &mut Vec<u8>, version: u64) -> Result<(), AllocError>
    ensures { OnOk result (out.new.items ≡ out.old.items ++ snapshot_line version) }
{
    let mut snapshot = Map::new(alloc);
    serde_json::put(&mut snapshot, alloc, "version", Value::from(version))?;
    let mut line = Map::new(alloc);
    serde_json::put(&mut line, alloc, "snapshot", Value::from(snapshot))?;
    out.extend_from_slice(&Value::from(line).to_vec(alloc)?)?;
    out.push(b'\n')?;
    Ok(())
}

/// `{"committed":{"version":V}}` and a newline.
#[tactic(auto, unfolding(crate::specs::Commit::committed_data, dk_model::specs::Shown::object_with))]
pub(crate) fn committed_text(alloc: Global, version: u64) -> Result<Vec<u8>, AllocError>
    ensures { IfOk result (λ text. text.items ≡ committed_line version) }
{
    let mut committed = Map::new(alloc);
    serde_json::put(&mut committed, alloc, "version", Value::from(version))?;
    let mut line = Map::new(alloc);
    serde_json::put(&mut line, alloc, "committed", Value::from(committed))?;
    let mut text = Value::from(line).to_vec(alloc)?;
    text.push(b'\n')?;
    Ok(text)
}

/// A line for each file, by path.
fn append_files(
    alloc: Global,
    out: &mut Vec<u8>,
    files: &TextMap<AddFile>,
) -> Result<(), AllocError>
    ensures { OnOk result (out.new.items ≡ out.old.items ++ text_of (map live_file (maps.entries files.now))) }
{
    for (_path, file) in files.iter() {
        append_add(alloc, out, file)?;
    }
    Ok(())
}

/// A line for the tombstone, if it is later than the cut.
fn append_unexpired(
    alloc: Global,
    out: &mut Vec<u8>,
    path: &str,
    time: i64,
    cut: i64,
) -> Result<(), AllocError>
    ensures { OnOk result (out.new.items ≡ out.old.items ++ text_of (map removal (filter (is_later cut) ((path.now, time) ∷ [])))) }
{
    if cut < time {
        append_tombstone(alloc, out, path, time)
    } else {
        Ok(())
    }
}

/// A line for each tombstone that is later than the cut, by path.
fn append_tombstones(
    alloc: Global,
    out: &mut Vec<u8>,
    tombstones: &TextMap<i64>,
    cut: i64,
) -> Result<(), AllocError>
    ensures { OnOk result (out.new.items ≡ out.old.items ++ text_of (map removal (filter (is_later cut) (maps.entries tombstones.now)))) }
{
    for (path, time) in tombstones.iter() {
        append_unexpired(alloc, out, path, *time, cut)?;
    }
    Ok(())
}

/// The line of the protocol, if there is one.
fn append_if_protocol(
    alloc: Global,
    out: &mut Vec<u8>,
    protocol: &Option<Protocol>,
) -> Result<(), AllocError>
    ensures { OnOk result (out.new.items ≡ out.old.items ++ text_of (map (λ p. Action.Protocol p) (option_to_list protocol.now))) }
{
    match protocol {
        Some(protocol) => append_protocol(alloc, out, protocol),
        None => Ok(()),
    }
}

/// The line of the metadata, if there are any.
fn append_if_metadata(
    alloc: Global,
    out: &mut Vec<u8>,
    metadata: &Option<Metadata>,
) -> Result<(), AllocError>
    ensures { OnOk result (out.new.items ≡ out.old.items ++ text_of (map (λ m. Action.Metadata m) (option_to_list metadata.now))) }
{
    match metadata {
        Some(metadata) => append_metadata(alloc, out, metadata),
        None => Ok(()),
    }
}

/// The lines of the version, its protocol and its metadata.
fn append_head(
    alloc: Global,
    out: &mut Vec<u8>,
    version: u64,
    state: &TableState,
) -> Result<(), AllocError>
    ensures { OnOk result (out.new.items ≡ out.old.items ++ (snapshot_line version ++ text_of (heads state.now))) }
{
    append_snapshot(alloc, out, version)?;
    append_if_protocol(alloc, out, &state.protocol)?;
    append_if_metadata(alloc, out, &state.metadata)?;
    Ok(())
}

/// The lines of the files and of the unexpired tombstones.
fn append_paths(
    alloc: Global,
    out: &mut Vec<u8>,
    state: &TableState,
    cut: i64,
) -> Result<(), AllocError>
    ensures { OnOk result (out.new.items ≡ out.old.items ++ text_of (adds (maps.entries state.now.files) ++ removals state.now (is_later cut))) }
{
    append_files(alloc, out, &state.files)?;
    append_tombstones(alloc, out, &state.tombstones, cut)
}

/// A line for each application, by name.
fn append_applications(
    alloc: Global,
    out: &mut Vec<u8>,
    applications: &TextMap<Application>,
) -> Result<(), AllocError>
    ensures { OnOk result (out.new.items ≡ out.old.items ++ text_of (map recorded (maps.entries applications.now))) }
{
    for (name, application) in applications.iter() {
        append_application(alloc, out, name, application)?;
    }
    Ok(())
}

/// A line for each domain, by name.
fn append_domains(
    alloc: Global,
    out: &mut Vec<u8>,
    domains: &TextMap<Text>,
) -> Result<(), AllocError>
    ensures { OnOk result (out.new.items ≡ out.old.items ++ text_of (map configured (maps.entries domains.now))) }
{
    for (name, configuration) in domains.iter() {
        append_domain(alloc, out, name, configuration.as_str())?;
    }
    Ok(())
}

/// The lines of the applications and of the domains.
fn append_names(alloc: Global, out: &mut Vec<u8>, state: &TableState) -> Result<(), AllocError>
    ensures { OnOk result (out.new.items ≡ out.old.items ++ text_of (named_actions state.now)) }
{
    append_applications(alloc, out, &state.applications)?;
    append_domains(alloc, out, &state.domains)
}

/// The text of a version by its state.
pub(crate) fn shown_text(
    alloc: Global,
    version: u64,
    state: &TableState,
    cut: i64,
) -> Result<Vec<u8>, AllocError>
    ensures { IfOk result (λ text. text.items ≡ shown version state.now cut) }
{
    let mut out = Vec::new(alloc);
    append_head(alloc, &mut out, version, state)?;
    append_paths(alloc, &mut out, state, cut)?;
    append_names(alloc, &mut out, state)?;
    Ok(out)
}
