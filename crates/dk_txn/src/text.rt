//! The text of a commit.
ghost use Rattle.std.specs.Prelude.{◌≡◌, ◌≤◌, ◌∷◌, Some, IfOk, OnOk, length, string_bytes};
ghost use Rattle.std.specs.List.{AllByRecursion};
ghost use Rattle.std.specs.Str.{IsUtf8};
ghost use Rattle.dk_model.specs.CommitText.{commit_of};
ghost use Rattle.dk_model.specs.Ranges.{IsWhole};
ghost use Rattle.dk_model.specs.ReadBack.{IsReadable, IsSound, own_info, written_of};
ghost use Rattle.dk_model.specs.Written.{own_info_line, text_of};
ghost use Rattle.dk_paths.specs.Numbers.{id_text};
ghost use Rattle.dk_txn.specs.Attempt.{commit_text};

use dk_actjson::append_own_info;
use dk_engine::JsonHandler;
use dk_model::Action;
use std::alloc::{AllocError, Global};
use uuid::Uuid;

/// Writes an id in lower case with hyphens to the start of `buffer`, and returns it.
fn spelled_id(id: u128, buffer: &mut [u8]) -> &str
    requires { 36 ≤ length buffer.old }
    ensures { result.now ≡ id_text id }
{
    Uuid::from_u128(id).hyphenated().encode_lower(buffer)
}

/// The id in lower case with hyphens.
pub(crate) fn txn_id(alloc: Global, id: u128) -> Result<String, AllocError>
    ensures { IfOk result (λ text. string_bytes text ≡ id_text id) }
{
    let mut buffer = Uuid::encode_buffer();
    String::from_str(alloc, spelled_id(id, &mut buffer))
}

/// The line in which the transaction of this id speaks of its commit.
fn own_line(alloc: Global, id: u128, now: i64) -> Result<Vec<u8>, AllocError>
    ensures text { IfOk result (λ line. line.items ≡ own_info_line (id_text id) now) }
    ensures utf8 { IfOk result (λ line. IsUtf8 (id_text id)) }
    ensures range { IsWhole now }
{
    let txn_id = txn_id(alloc, id)?;
    let mut line = Vec::new(alloc);
    append_own_info(alloc, &mut line, txn_id.as_str(), now)?;
    Ok(line)
}

/// The lines of the actions.
fn action_lines(
    alloc: Global,
    json: &mut dyn JsonHandler,
    actions: &[Action],
) -> Result<Vec<u8>, AllocError>
    ensures text { IfOk result (λ text. text.items ≡ text_of actions.now) }
    ensures sound { OnOk result (AllByRecursion IsSound actions.now) }
{
    json.write_actions(alloc, actions)
}

/// The whole text of a commit: the transaction's own line, and then those of the actions.
pub(crate) fn commit_text(
    alloc: Global,
    json: &mut dyn JsonHandler,
    actions: &[Action],
    now: i64,
    id: u128,
) -> Result<Vec<u8>, AllocError>
    ensures text { IfOk result (λ text. text.items ≡ commit_text id now actions.now) }
    ensures reads_back { IfOk result (λ text. AllByRecursion IsReadable actions.now
        → commit_of text.items ≡ Some (own_info (id_text id) ∷ written_of actions.now)) }
{
    let mut text = own_line(alloc, id, now)?;
    let lines = action_lines(alloc, json, actions)?;
    text.extend_from_slice(&lines)?;
    Ok(text)
}
