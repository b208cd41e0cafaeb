//! Which version is opened.
ghost use Rattle.std.specs.Prelude.{◌≡◌, ◌<◌, ◌^◌, Err, IfErr, IfOk, IfSome, None, Some};
ghost use Rattle.dk_engine.specs.Answers.{AnswersMeant};
ghost use Rattle.dk_paths.specs.Names.{commit_path};
ghost use Rattle.dk_snapshot.specs.Asked.{version_asked};
ghost use Rattle.dk_snapshot.specs.Refusals.{OpenRefuses};

use dk_engine::Refusal;
use dk_model::Text;
use dk_paths::commit_path;
use std::alloc::{AllocError, Global};

/// An empty log lacks its first commit.
fn missing_first(alloc: Global) -> Result<Refusal, AllocError>
    ensures { IfOk result (λ refusal. refusal ≡ Refusal.Missing (commit_path 0)) }
{
    Ok(Refusal::Missing {
        path: Text::new(commit_path(alloc, 0)?),
    })
}

/// The asked version, or the latest one.
pub(crate) fn asked_version(
    alloc: Global,
    latest: Option<u64>,
    at: Option<u64>,
) -> Result<u64, Refusal>
    requires { IfSome latest (λ version. version < 2 ^ 63) }
    ensures means { AnswersMeant (λ version. version) result (version_asked at latest) }
    ensures small { IfOk result (λ version. version < 2 ^ 63) }
    ensures latest { at ≡ None → IfOk result (λ version. Some version ≡ latest) }
    ensures store { result ≡ Err Refusal.Store → ⊥ }
    ensures refusals { IfErr result (OpenRefuses at) }
{
    let Some(latest) = latest else {
        return Err(missing_first(alloc)?);
    };
    match at {
        None => Ok(latest),
        Some(version) if version <= latest => Ok(version),
        Some(_) => Err(Refusal::NoVersion { latest }),
    }
}
