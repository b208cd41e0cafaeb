//! The call of a row.

use crate::actions::{hex_answer, own_answer, text_answer, value_answer};
use crate::conflicts::conflict_answer;
use crate::features::{force_answer, keeps_answer, support_answer};
use crate::hints::hint_answer;
use crate::names::{
    commit_answer, interval_answer, name_answer, own_sidecar_answer, sidecar_answer, staged_answer,
};
use crate::row::{number_at, text_at, value_at};
use crate::states::state_answer;
use crate::sums::sum_answer;
use crate::trouble::Trouble;
use serde_json::Value;
use std::alloc::Global;

/// The answer of a call that is given a text.
fn named_answer(alloc: Global, call: &str, text: &str) -> Result<String, Trouble> {
    match call {
        "name" => name_answer(alloc, text),
        "staged" => staged_answer(alloc, text),
        "sidecar" => sidecar_answer(alloc, text),
        "interval" => interval_answer(alloc, text),
        "text" => text_answer(alloc, text),
        "hex" => hex_answer(alloc, text),
        "hint" => hint_answer(alloc, text),
        _ => Err(Trouble::Row),
    }
}

/// The answer of the call of a row.
pub(crate) fn answer(alloc: Global, row: &Value) -> Result<String, Trouble> {
    match text_at(row, "call")? {
        "commit path" => commit_answer(alloc, number_at(row, "given")?),
        "own sidecar" => own_sidecar_answer(alloc, number_at(row, "given")?),
        "value" => value_answer(alloc, value_at(row, "given")?),
        "own" => own_answer(alloc, row),
        "state" => state_answer(alloc, row),
        "sum" => sum_answer(alloc, row),
        "support" => support_answer(alloc, row),
        "force" => force_answer(alloc, row),
        "keeps" => keeps_answer(alloc, row),
        "conflict" => conflict_answer(alloc, row),
        call => named_answer(alloc, call, text_at(row, "given")?),
    }
}
