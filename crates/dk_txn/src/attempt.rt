//! What a commit is to write.
ghost use Rattle.std.specs.Prelude.{◌≡◌, ℕ, Some, IfOk};
ghost use Rattle.dk_engine.specs.Answers.{AnswersMeant};
ghost use Rattle.dk_lawful.specs.History.{By_file};
ghost use Rattle.dk_txn.specs.Attempt.{allowed, if_within, unbuilt, unsupported};
ghost use Rattle.dk_txn.specs.Refusals.{TestsOnly};
ghost use Rattle.dk_txn.specs.Transactions.{by_file_writing};

use crate::start::Start;
use dk_engine::{Refusal, Which};
use dk_features::unwritten_name;
use dk_model::{Action, TableState, Text};
use dk_rules::{awaited_after, first_broken};
use dk_snapshot::unreadable;
use std::alloc::{AllocError, Global};

/// What a commit is to write.
#[derive(Drop)]
pub(crate) struct Writing {
    /// The version that the commit is to be.
    pub version: u64,
    /// The whole text of the commit.
    pub text: Vec<u8>,
}

/// What of the table isn't supported, by its name: what isn't read, then what isn't written. A table that hasn't begun
/// asks for nothing.
fn unsupported(alloc: Global, before: &TableState) -> Result<Option<Text>, AllocError>
    ensures { IfOk result (λ name. name ≡ unsupported before.now) }
{
    match (&before.protocol, &before.metadata) {
        (Some(protocol), Some(metadata)) => match unreadable(alloc, protocol, &before.files)? {
            Some(name) => Ok(Some(name)),
            None => unwritten_name(alloc, protocol, metadata),
        },
        _ => Ok(None),
    }
}

/// What of the table isn't supported, and then what of it as the commit leaves it isn't written so far, by its name.
fn unbuilt(
    alloc: Global,
    before: &TableState,
    actions: &[Action],
) -> Result<Option<Text>, AllocError>
    ensures { IfOk result (λ name. name ≡ unbuilt before.now actions.now) }
{
    match unsupported(alloc, before)? {
        Some(name) => Ok(Some(name)),
        None => match awaited_after(before, actions) {
            None => Ok(None),
            Some(name) => Ok(Some(Text::from_str(alloc, name.as_str())?)),
        },
    }
}

/// Tests whether a commit may come there: that the table is read and written, and then the rules.
pub(crate) fn check(alloc: Global, from: &Start, actions: &[Action]) -> Result<(), Refusal>
    ensures means { (id : ℕ) → AnswersMeant (λ u. u) result (allowed from.now actions.now id) }
    ensures tests { TestsOnly result }
{
    if let Some(name) = unbuilt(alloc, &from.before, actions)? {
        return Err(Refusal::Unsupported { name });
    }
    match first_broken(alloc, &from.before, from.version, actions)? {
        Some(rule) => Err(Refusal::Invalid { rule }),
        None => Ok(()),
    }
}

/// A text to write, unless it is greater than an object may be, in bytes.
pub(crate) fn within(limit: u64, version: u64, text: Vec<u8>) -> Result<Writing, Refusal>
    ensures means { AnswersMeant by_file_writing result (if_within limit (record { version = version; way = By_file; text = text.items })) }
    ensures version { IfOk result (λ w. w.version ≡ version) }
    ensures text { IfOk result (λ w. w.text.items ≡ text.items) }
    ensures tests { TestsOnly result }
{
    let size = text.len() as u64;
    if limit < size {
        return Err(Refusal::Limit {
            which: Which::Object,
            value: size,
        });
    }
    Ok(Writing { version, text })
}
