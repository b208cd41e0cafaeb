//! Answers as short texts.

use dk_engine::{Refusal, Which};
use std::alloc::{AllocError, Global};

fn limit_text(alloc: Global, which: Which, value: u64) -> Result<String, AllocError> {
    match which {
        Which::Version => format!(in alloc; "no version after {value}"),
        _ => format!(in alloc; "over the limit: {value}"),
    }
}

fn refusal_text(alloc: Global, refusal: &Refusal) -> Result<String, AllocError> {
    match refusal {
        Refusal::Store => String::from_str(alloc, "store"),
        Refusal::Missing { path } => format!(in alloc; "missing {}", path.as_str()),
        Refusal::Unsupported { name } => format!(in alloc; "unsupported {}", name.as_str()),
        Refusal::Damaged { path, place } => format!(in alloc; "damaged {} {place}", path.as_str()),
        Refusal::Limit { which, value } => limit_text(alloc, *which, *value),
        Refusal::Invalid { rule } => format!(in alloc; "rule {rule}"),
        Refusal::Taken { path } => format!(in alloc; "taken {}", path.as_str()),
        Refusal::WinnersGone { path } => format!(in alloc; "gone {}", path.as_str()),
        Refusal::Conflict { version, kind } => format!(in alloc; "{} {version}", kind.name()),
        _ => String::from_str(alloc, "another refusal"),
    }
}

/// A version as `version 3`, or a refusal by a word and what it tells.
pub fn answer_text(alloc: Global, answer: &Result<u64, Refusal>) -> Result<String, AllocError> {
    match answer {
        Ok(version) => format!(in alloc; "version {version}"),
        Err(refusal) => refusal_text(alloc, refusal),
    }
}
