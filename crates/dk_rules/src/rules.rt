//! The rules of a commit.
ghost use Rattle.std.specs.Prelude.{◌≡◌, ◌≢◌, ℕ, List, ◌∷◌, IfOk, is_none, length, option_map};
ghost use Rattle.std.specs.List.{filter_map, list_all, list_any};
ghost use Rattle.std.specs.Option.{option_copied};
ghost use Rattle.dk_features.specs.Forms.{is_each_once};
ghost use Rattle.dk_features.specs.InForce.{has_feature};
ghost use Rattle.dk_rules.specs.Walks.{key_in, stands_behind_own};
ghost use Rattle.dk_model.specs.ReadBack.{own_info};
ghost use Rattle.dk_model.specs.State.{steps};
ghost use Rattle.dk_lawful.specs.Rules.{is_count_allowed, keeps_heads, keeps_kinds, keeps_paths_apart, keeps_names_apart, is_not_lower, may_follow, is_protocol_kept, keeps_protocol, begins_unenabled, is_append_only, keeps_rows, is_domain, keeps_domains, is_plain_add, keeps_adds};
ghost use Rattle.dk_model.specs.Changes.{protocol_in, metadata_in};
ghost use Rattle.dk_model.specs.Rows.{removes_rows};
ghost use Rattle.dk_lawful.specs.SoFar.{first_broken_so_far, is_written_so_far};
ghost use Rattle.dk_lawful.specs.Timestamps.{entry_under, is_enabled_from_start, is_set};

use dk_features::{FeatureFault, can_write_with, has_form, is_in_force, keeps_features};
use dk_model::{Action, Metadata, Protocol, TableState, Text};
use std::alloc::{AllocError, Global};
use std::collections::BTreeSet;

/// The setting by which rows are only appended.
const APPEND_ONLY_KEY: &str = "delta.appendOnly";

/// The settings of the version and of the moment from which on commits say their time.
const ENABLEMENT_VERSION_KEY: &str = "delta.inCommitTimestampEnablementVersion";

const ENABLEMENT_TIMESTAMP_KEY: &str = "delta.inCommitTimestampEnablementTimestamp";

fn count_protocols(actions: &[Action]) -> usize
    ensures { result ≡ length (filter_map protocol_in actions.now) }
{
    let mut count = 0;
    for action in actions {
        if let Action::Protocol(_) = action {
            count += 1;
        }
    }
    count
}

fn count_metadata(actions: &[Action]) -> usize
    ensures { result ≡ length (filter_map metadata_in actions.now) }
{
    let mut count = 0;
    for action in actions {
        if let Action::Metadata(_) = action {
            count += 1;
        }
    }
    count
}

fn is_count_allowed(version: u64, count: usize) -> bool
    ensures { result ≡ is_count_allowed version count }
{
    if version == 0 { count == 1 } else { count <= 1 }
}

fn keeps_heads(version: u64, actions: &[Action]) -> bool
    ensures { result ≡ keeps_heads version actions.now }
{
    is_count_allowed(version, count_protocols(actions))
        && is_count_allowed(version, count_metadata(actions))
}

/// Whether an action may stand behind the line in which a commit speaks of itself.
fn stands_behind_own(action: &Action) -> bool
    ensures { result ≡ stands_behind_own action.now }
{
    match action {
        Action::Info(_) | Action::Cdc | Action::CheckpointMeta(_) | Action::Sidecar(_) => false,
        _ => true,
    }
}

fn all_stand_behind_own(actions: &[Action]) -> bool
    ensures { result ≡ list_all stands_behind_own actions.now }
{
    for action in actions {
        if !stands_behind_own(action) {
            return false;
        }
    }
    true
}

/// Whether there is no commitInfo beside the commit's own, and none of cdc, checkpointMetadata and sidecar.
fn keeps_kinds(actions: &[Action]) -> bool
    ensures { (txn_id : List ℕ) → result ≡ keeps_kinds (own_info txn_id ∷ actions.now) }
{
    all_stand_behind_own(actions)
}

/// What no two actions of a commit may share.
#[derive(Clone, Copy)]
pub(crate) enum Key {
    /// The path of a file action.
    Path,
    /// The application of a txn.
    Application,
    /// The domain of a domainMetadata.
    Domain,
}

/// What an action has of this kind.
fn key_of(key: Key, action: &Action) -> Option<&Text>
    ensures { option_map (λ text. text.now) result ≡ key_in key action.now }
{
    match (key, action) {
        (Key::Path, Action::Add(file)) => Some(&file.path),
        (Key::Path, Action::Remove(file)) => Some(&file.path),
        (Key::Application, Action::Txn(txn)) => Some(&txn.app_id),
        (Key::Domain, Action::Domain(domain)) => Some(&domain.domain),
        _ => None,
    }
}

/// Whether no two actions have the same of this kind.
fn are_apart(alloc: Global, key: Key, actions: &[Action]) -> Result<bool, AllocError>
    ensures { IfOk result (λ apart. apart ≡ is_each_once (filter_map (key_in key) actions.now)) }
{
    let mut seen: BTreeSet<&str> = BTreeSet::new(alloc);
    for action in actions {
        if let Some(text) = key_of(key, action) {
            if !seen.insert(text.as_str())? {
                return Ok(false);
            }
        }
    }
    Ok(true)
}

fn keeps_paths_apart(alloc: Global, actions: &[Action]) -> Result<bool, AllocError>
    ensures { IfOk result (λ apart. apart ≡ keeps_paths_apart actions.now) }
{
    are_apart(alloc, Key::Path, actions)
}

fn keeps_names_apart(alloc: Global, actions: &[Action]) -> Result<bool, AllocError>
    ensures { IfOk result (λ apart. apart ≡ keeps_names_apart actions.now) }
{
    Ok(are_apart(alloc, Key::Application, actions)? && are_apart(alloc, Key::Domain, actions)?)
}

fn is_not_lower(before: &Protocol, protocol: &Protocol) -> bool
    ensures { result ≡ is_not_lower before.now protocol.now }
{
    before.min_reader <= protocol.min_reader && before.min_writer <= protocol.min_writer
}

/// Whether a protocol may replace the one before it.
fn may_follow(
    alloc: Global,
    before: &Option<Protocol>,
    protocol: &Protocol,
) -> Result<bool, AllocError>
    ensures { IfOk result (λ may. may ≡ may_follow before.now protocol.now) }
{
    match before {
        None => Ok(true),
        Some(before) => {
            Ok(is_not_lower(before, protocol) && keeps_features(alloc, before, protocol)?)
        }
    }
}

fn is_protocol_kept(
    alloc: Global,
    before: &Option<Protocol>,
    protocol: &Protocol,
) -> Result<bool, AllocError>
    ensures { IfOk result (λ kept. kept ≡ is_protocol_kept before.now protocol.now) }
{
    Ok(has_form(alloc, protocol)? && may_follow(alloc, before, protocol)?)
}

fn keeps_protocol(
    alloc: Global,
    before: &TableState,
    actions: &[Action],
) -> Result<bool, AllocError>
    ensures { IfOk result (λ keeps. keeps ≡ keeps_protocol before.now actions.now) }
{
    for action in actions {
        if let Action::Protocol(protocol) = action {
            if !is_protocol_kept(alloc, &before.protocol, protocol)? {
                return Ok(false);
            }
        }
    }
    Ok(true)
}

/// The protocol after some actions.
pub(crate) fn protocol_after<'a>(
    before: &'a TableState,
    actions: &'a [Action],
) -> Option<&'a Protocol>
    ensures { option_copied result ≡ (steps before.now actions.now).protocol }
{
    let mut after = before.protocol.as_ref();
    for action in actions {
        if let Action::Protocol(protocol) = action {
            after = Some(protocol);
        }
    }
    after
}

/// The metadata after some actions.
fn metadata_after<'a>(before: &'a TableState, actions: &'a [Action]) -> Option<&'a Metadata>
    ensures { option_copied result ≡ (steps before.now actions.now).metadata }
{
    let mut after = before.metadata.as_ref();
    for action in actions {
        if let Action::Metadata(metadata) = action {
            after = Some(metadata);
        }
    }
    after
}

/// Lets each fault but want of memory pass.
fn pass_unsupported(fault: FeatureFault) -> Result<(), AllocError>
    ensures { IfOk result (λ u. fault ≢ FeatureFault.OutOfMemory) }
{
    match fault {
        FeatureFault::OutOfMemory => Err(AllocError),
        _ => Ok(()),
    }
}

/// Whether tables of this protocol and metadata are written.
fn is_written(alloc: Global, protocol: &Protocol, metadata: &Metadata) -> Result<bool, AllocError>
    ensures { IfOk result (λ written. written ≡ is_written_so_far (Some protocol.now) (Some metadata.now)) }
{
    match can_write_with(alloc, protocol, metadata) {
        Ok(()) => Ok(true),
        Err(fault) => {
            pass_unsupported(fault)?;
            Ok(false)
        }
    }
}

#[tactic(auto, unfolding(dk_lawful::specs::SoFar::is_written_so_far))]
fn keeps_writer(alloc: Global, before: &TableState, actions: &[Action]) -> Result<bool, AllocError>
    ensures { IfOk result (λ keeps. keeps ≡ is_written_so_far (steps before.now actions.now).protocol (steps before.now actions.now).metadata) }
{
    match (
        protocol_after(before, actions),
        metadata_after(before, actions),
    ) {
        (Some(protocol), Some(metadata)) => is_written(alloc, protocol, metadata),
        _ => Ok(false),
    }
}

#[tactic(auto, unfolding(dk_features::specs::InForce::has_feature))]
fn has_feature(protocol: Option<&Protocol>, name: &str) -> bool
    ensures { result ≡ has_feature (option_copied protocol.entry) name.now }
{
    match protocol {
        None => false,
        Some(protocol) => is_in_force(protocol, name),
    }
}

/// Whether a setting stands and is set to `true`.
fn is_set(text: Option<&Text>) -> bool
    ensures { result ≡ is_set (option_copied text.entry) }
{
    match text {
        None => false,
        Some(text) => text.as_str() == "true",
    }
}

/// Whether rows are only appended.
#[tactic(auto, unfolding(dk_lawful::specs::Rules::is_append_only))]
fn is_append_only(protocol: Option<&Protocol>, metadata: Option<&Metadata>) -> bool
    ensures { result ≡ is_append_only (option_copied protocol.entry) (option_copied metadata.entry) }
{
    match metadata {
        None => false,
        Some(metadata) => {
            has_feature(protocol, "appendOnly") && is_set(metadata.setting(APPEND_ONLY_KEY))
        }
    }
}

fn remove_rows(actions: &[Action]) -> bool
    ensures { result ≡ list_any removes_rows actions.now }
{
    for action in actions {
        if action.removes_rows() {
            return true;
        }
    }
    false
}

fn keeps_rows(before: &TableState, actions: &[Action]) -> bool
    ensures { result ≡ keeps_rows before.now actions.now }
{
    !(is_append_only(before.protocol.as_ref(), before.metadata.as_ref()) && remove_rows(actions))
}

fn is_domain(action: &Action) -> bool
    ensures { result ≡ is_domain action.now }
{
    match action {
        Action::Domain(_) => true,
        _ => false,
    }
}

fn have_domain(actions: &[Action]) -> bool
    ensures { result ≡ list_any is_domain actions.now }
{
    for action in actions {
        if is_domain(action) {
            return true;
        }
    }
    false
}

fn keeps_domains(before: &TableState, actions: &[Action]) -> bool
    ensures { result ≡ keeps_domains before.now actions.now }
{
    !have_domain(actions) || has_feature(protocol_after(before, actions), "domainMetadata")
}

/// Whether a key has no entry, set or null.
fn lacks(metadata: &Metadata, key: &str) -> bool
    ensures { result ≡ is_none (entry_under key.now (Some metadata.now)) }
{
    'entries: for pair in metadata.configuration.as_slice() {
        if pair.0.as_str() == key {
            return false;
        }
    }
    true
}

/// Whether no moment is set from which on commits say their time.
fn is_enabled_from_start(metadata: Option<&Metadata>) -> bool
    ensures { result ≡ is_enabled_from_start (option_copied metadata.entry) }
{
    match metadata {
        None => true,
        Some(metadata) => {
            lacks(metadata, ENABLEMENT_VERSION_KEY) && lacks(metadata, ENABLEMENT_TIMESTAMP_KEY)
        }
    }
}

/// Whether version 0 begins without such a moment.
fn begins_unenabled(version: u64, metadata: Option<&Metadata>) -> bool
    ensures { result ≡ begins_unenabled version (option_copied metadata.entry) }
{
    if version == 0 {
        is_enabled_from_start(metadata)
    } else {
        true
    }
}

fn is_plain_add(action: &Action) -> bool
    ensures { result ≡ is_plain_add action.now }
{
    match action {
        Action::Add(file) => 0 <= file.size && !file.vector,
        _ => true,
    }
}

fn keeps_adds(actions: &[Action]) -> bool
    ensures { result ≡ keeps_adds actions.now }
{
    for action in actions {
        if !is_plain_add(action) {
            return false;
        }
    }
    true
}

/// The least number of a rule that a commit breaks as this version after this state, where the commit speaks of itself first and
/// then has these actions (Delta Lake's PROTOCOL.md, "Requirements for Writers"). The rules are those of tables whose commits say no
/// time and that no catalogue manages, before and after.
pub fn first_broken(
    alloc: Global,
    before: &TableState,
    version: u64,
    actions: &[Action],
) -> Result<Option<u8>, AllocError>
    ensures { IfOk result (λ rule. (txn_id : List ℕ) → rule ≡ first_broken_so_far before.now version (own_info txn_id ∷ actions.now)) }
{
    if !keeps_heads(version, actions) {
        return Ok(Some(1));
    }
    if !keeps_kinds(actions) {
        return Ok(Some(2));
    }
    if !keeps_paths_apart(alloc, actions)? {
        return Ok(Some(3));
    }
    if !keeps_names_apart(alloc, actions)? {
        return Ok(Some(4));
    }
    if !keeps_protocol(alloc, before, actions)? {
        return Ok(Some(5));
    }
    if !keeps_writer(alloc, before, actions)? {
        return Ok(Some(6));
    }
    if !keeps_rows(before, actions) {
        return Ok(Some(7));
    }
    if !keeps_domains(before, actions) {
        return Ok(Some(8));
    }
    if !begins_unenabled(version, metadata_after(before, actions)) {
        return Ok(Some(9));
    }
    if !keeps_adds(actions) {
        return Ok(Some(11));
    }
    Ok(None)
}
