//! The text of actions: one compact line each, with the keys of every object in byte order.

ghost use Rattle.std.specs.Prelude.{◌≡◌, ◌++◌, ◌∷◌, [], Some, IfOk, OnOk, false};
ghost use Rattle.std.specs.List.{AllByRecursion};
ghost use Rattle.std.specs.Str.{IsUtf8};
ghost use Rattle.json.specs.Print.{print};
ghost use Rattle.dk_model.specs.CommitText.{commit_of};
ghost use Rattle.dk_model.specs.ActionKeys.{name_of};
ghost use Rattle.dk_actjson.specs.Tokens.{object_line};
ghost use Rattle.dk_model.specs.ReadBack.{IsSound, IsReadable, written_of};
ghost use Rattle.dk_model.specs.Written.{line_of, written_line, text_of, own_info_line};

use crate::object::{Object, object_field};
use crate::shown::{close_object, open_object};
use crate::written::{OwnInfo, Recorded, Removal, Settings};
use dk_model::{
    Action, ActionKey, AddFile, Application, Domain, Metadata, Protocol, RemoveFile, Txn,
};
use json::Writer;
use std::alloc::{AllocError, Global};
use std::mem;

/// A writer that goes on behind what `out` holds, and takes it.
fn start_line(alloc: Global, out: &mut Vec<u8>) -> Writer
    ensures before { result.before ≡ out.old.items }
    ensures tokens { result.tokens ≡ [] }
{
    Writer::new(mem::replace(out, Vec::new(alloc)))
}

/// Gives `out` what the writer holds, and a newline.
fn end_line(out: &mut Vec<u8>, writer: Writer) -> Result<(), AllocError>
    ensures text { OnOk result (out.new.items ≡ (writer.before ++ print writer.tokens) ++ 10 ∷ []) }
    ensures utf8 { IsUtf8 (print writer.tokens) }
{
    *out = writer.into_inner();
    out.push(b'\n')?;
    Ok(())
}

/// Appends the line of an object under the key of its action.
fn append_line<O: Object>(
    alloc: Global,
    out: &mut Vec<u8>,
    key: ActionKey,
    object: &O,
) -> Result<(), AllocError>
    ensures text { OnOk result (out.new.items ≡ out.old.items ++ object_line (name_of key) (O.fields object.now)) }
    ensures utf8 { OnOk result (IsUtf8 (object_line (name_of key) (O.fields object.now))) }
{
    let mut writer = start_line(alloc, out);
    open_object(&mut writer)?;
    object_field(&mut writer, key.name(), object)?;
    close_object(&mut writer)?;
    end_line(out, writer)?;
    Ok(())
}

fn removal_of(file: &RemoveFile) -> Removal<'_>
    ensures path { result.path.now ≡ file.now.path }
    ensures time { result.time ≡ file.now.deletion_timestamp }
    ensures change { result.change ≡ file.now.data_change }
{
    Removal {
        path: file.path.as_str(),
        time: file.deletion_timestamp,
        change: file.data_change,
    }
}

fn remove_line(alloc: Global, out: &mut Vec<u8>, file: &RemoveFile) -> Result<(), AllocError>
    ensures text { OnOk result (out.new.items ≡ out.old.items ++ line_of (Action.Remove file.now)) }
    ensures utf8 { OnOk result (IsUtf8 (line_of (Action.Remove file.now))) }
{
    append_line(alloc, out, ActionKey::Remove, &removal_of(file))
}

fn txn_line(alloc: Global, out: &mut Vec<u8>, txn: &Txn) -> Result<(), AllocError>
    ensures text { OnOk result (out.new.items ≡ out.old.items ++ line_of (Action.Txn txn.now)) }
    ensures utf8 { OnOk result (IsUtf8 (line_of (Action.Txn txn.now))) }
{
    let application = Application {
        version: txn.version,
        last_updated: txn.last_updated,
    };
    let recorded = Recorded {
        app_id: txn.app_id.as_str(),
        application: &application,
    };
    append_line(alloc, out, ActionKey::Txn, &recorded)
}

fn domain_line(alloc: Global, out: &mut Vec<u8>, domain: &Domain) -> Result<(), AllocError>
    ensures text { OnOk result (out.new.items ≡ out.old.items ++ line_of (Action.Domain domain.now)) }
    ensures utf8 { OnOk result (IsUtf8 (line_of (Action.Domain domain.now))) }
{
    let settings = Settings {
        domain: domain.domain.as_str(),
        configuration: domain.configuration.as_str(),
        removed: domain.removed,
    };
    append_line(alloc, out, ActionKey::Domain, &settings)
}

/// The line of an action, where it has one.
fn action_line(alloc: Global, out: &mut Vec<u8>, action: &Action) -> Result<(), AllocError>
    ensures text { OnOk result (out.new.items ≡ out.old.items ++ written_line action.now) }
    ensures utf8 { OnOk result (IsUtf8 (written_line action.now)) }
{
    match action {
        Action::Protocol(protocol) => append_line(alloc, out, ActionKey::Protocol, protocol),
        Action::Metadata(metadata) => append_line(alloc, out, ActionKey::Metadata, metadata),
        Action::Add(file) => append_line(alloc, out, ActionKey::Add, file),
        Action::Remove(file) => remove_line(alloc, out, file),
        Action::Txn(txn) => txn_line(alloc, out, txn),
        Action::Domain(domain) => domain_line(alloc, out, domain),
        Action::Info(_) | Action::Cdc => Ok(()),
        Action::CheckpointMeta(meta) => { append_line(alloc, out, ActionKey::CheckpointMeta, meta) }
        Action::Sidecar(sidecar) => append_line(alloc, out, ActionKey::Sidecar, sidecar),
    }
}

/// Appends the line of an action to what `out` holds (Delta Lake's PROTOCOL.md, "Actions"): a compact JSON object with the keys
/// of every object in byte order, and a newline. What is said of another commit has no line, since a transaction speaks of
/// its own (`append_own_info`), and neither has a file of changed rows, whose content isn't kept. `Err` says that memory was
/// wanted and not had; nothing is said of `out` then. So it is with all calls that append.
pub fn append_action(alloc: Global, out: &mut Vec<u8>, action: &Action) -> Result<(), AllocError>
    ensures { OnOk result (out.new.items ≡ out.old.items ++ written_line action.now) }
{
    action_line(alloc, out, action)
}

/// Appends the line of a protocol to what `out` holds ("Protocol Evolution").
/// `Err` is want of memory.
pub fn append_protocol(
    alloc: Global,
    out: &mut Vec<u8>,
    protocol: &Protocol,
) -> Result<(), AllocError>
    ensures { OnOk result (out.new.items ≡ out.old.items ++ line_of (Action.Protocol protocol.now)) }
{
    append_line(alloc, out, ActionKey::Protocol, protocol)
}

/// Appends the line of a metaData to what `out` holds ("Change Metadata"). `Err` is want of memory.
pub fn append_metadata(
    alloc: Global,
    out: &mut Vec<u8>,
    metadata: &Metadata,
) -> Result<(), AllocError>
    ensures { OnOk result (out.new.items ≡ out.old.items ++ line_of (Action.Metadata metadata.now)) }
{
    append_line(alloc, out, ActionKey::Metadata, metadata)
}

/// Appends the line of a file that is added to what `out` holds ("Add File and Remove File").
/// `Err` is want of memory.
pub fn append_add(alloc: Global, out: &mut Vec<u8>, file: &AddFile) -> Result<(), AllocError>
    ensures { OnOk result (out.new.items ≡ out.old.items ++ line_of (Action.Add file.now)) }
{
    append_line(alloc, out, ActionKey::Add, file)
}

/// Appends the line of a file that is removed to what `out` holds ("Add File and Remove File").
/// `Err` is want of memory.
pub fn append_remove(alloc: Global, out: &mut Vec<u8>, file: &RemoveFile) -> Result<(), AllocError>
    ensures { OnOk result (out.new.items ≡ out.old.items ++ line_of (Action.Remove file.now)) }
{
    remove_line(alloc, out, file)
}

/// Appends the line of a tombstone to what `out` holds: a file that was removed at that time, in milliseconds since
/// 1970-01-01T00:00:00Z, which changes no data. `Err` is want of memory.
pub fn append_tombstone(
    alloc: Global,
    out: &mut Vec<u8>,
    path: &str,
    time: i64,
) -> Result<(), AllocError>
    ensures { OnOk result (out.new.items ≡ out.old.items ++ line_of (Action.Remove
        (record { path = path.now; deletion_timestamp = time; data_change = false }))) }
{
    let removal = Removal {
        path,
        time,
        change: false,
    };
    append_line(alloc, out, ActionKey::Remove, &removal)
}

/// Appends the line of what an application has recorded last to what `out` holds ("Transaction Identifiers").
/// `Err` is want of memory.
pub fn append_application(
    alloc: Global,
    out: &mut Vec<u8>,
    app_id: &str,
    application: &Application,
) -> Result<(), AllocError>
    ensures { OnOk result (out.new.items ≡ out.old.items ++ line_of (Action.Txn
        (record { app_id = app_id.now; version = application.now.version; last_updated = application.now.last_updated }))) }
{
    let recorded = Recorded {
        app_id,
        application,
    };
    append_line(alloc, out, ActionKey::Txn, &recorded)
}

/// Appends the line of a domain that stands, with its configuration, to what `out` holds ("Domain Metadata").
/// `Err` is want of memory.
pub fn append_domain(
    alloc: Global,
    out: &mut Vec<u8>,
    domain: &str,
    configuration: &str,
) -> Result<(), AllocError>
    ensures { OnOk result (out.new.items ≡ out.old.items ++ line_of (Action.Domain
        (record { domain = domain.now; configuration = configuration.now; removed = false }))) }
{
    let settings = Settings {
        domain,
        configuration,
        removed: false,
    };
    append_line(alloc, out, ActionKey::Domain, &settings)
}

/// Appends the line in which a transaction speaks of its own commit to what `out` holds ("Commit Provenance Information"): its
/// id, and the moment in milliseconds since 1970-01-01T00:00:00Z. `Err` is want of memory.
pub fn append_own_info(
    alloc: Global,
    out: &mut Vec<u8>,
    txn_id: &str,
    timestamp: i64,
) -> Result<(), AllocError>
    ensures { OnOk result (out.new.items ≡ out.old.items ++ own_info_line txn_id.now timestamp) }
{
    let info = OwnInfo { txn_id, timestamp };
    append_line(alloc, out, ActionKey::Info, &info)
}

/// Appends the line of an action, and says what the types of its parts keep.
fn sound_line(alloc: Global, out: &mut Vec<u8>, action: &Action) -> Result<(), AllocError>
    ensures text { OnOk result (out.new.items ≡ out.old.items ++ written_line action.now) }
    ensures sound { OnOk result (IsSound action.now) }
{
    action.note_kept();
    action_line(alloc, out, action)
}

/// The text of the actions, one line each as `append_action` has it; what is said of other commits is left out, and so are
/// files of changed rows. `Err` says that memory was wanted and not had.
pub fn write_actions(alloc: Global, actions: &[Action]) -> Result<Vec<u8>, AllocError>
    ensures text { IfOk result (λ v. v.items ≡ text_of actions.now) }
    ensures sound { OnOk result (AllByRecursion IsSound actions.now) }
    ensures reads_back { IfOk result (λ v. AllByRecursion IsReadable actions.now
        → commit_of v.items ≡ Some (written_of actions.now)) }
{
    let mut text = Vec::new(alloc);
    'actions: for action in actions {
        sound_line(alloc, &mut text, action)?;
    }
    Ok(text)
}
