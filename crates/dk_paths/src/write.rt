//! From a meaning to its name.

ghost use Rattle.std.specs.Prelude.{◌≡◌, ◌++◌, ◌^◌, ◌<◌, IfOk, codes};
ghost use Rattle.std.specs.String.{string_bytes};
ghost use Rattle.dk_paths.specs.Names.{IsName, spelling, commit_path};

use crate::LogName;
use std::alloc::{AllocError, Global};

/// The name of a meaning (Delta Lake's PROTOCOL.md, "Delta Log Entries"), whose numbers a name may have, and which isn't
/// `Other`. `Err` says that memory was wanted and not had.
pub fn write_name(alloc: Global, name: &LogName) -> Result<String, AllocError>
    requires { IsName name.now }
    ensures { IfOk result (λ text. string_bytes text ≡ spelling name.now) }
{
    format!(in alloc; "{name}")
}

/// The path of a name in the log's folder from the table's folder (Delta Lake's PROTOCOL.md, "Delta Log Entries"). `Err` says
/// that memory was wanted and not had.
pub fn write_path(alloc: Global, name: &LogName) -> Result<String, AllocError>
    requires { IsName name.now }
    ensures { IfOk result (λ text. string_bytes text ≡ codes "_delta_log/" ++ spelling name.now) }
{
    format!(in alloc; "_delta_log/{name}")
}

/// The path of a version's commit from the table's folder (Delta Lake's PROTOCOL.md, "Delta Log Entries"). `Err` says that
/// memory was wanted and not had.
pub fn commit_path(alloc: Global, version: u64) -> Result<String, AllocError>
    requires { version < 2 ^ 63 }
    ensures { IfOk result (λ text. string_bytes text ≡ commit_path version) }
{
    write_path(alloc, &LogName::Commit { version })
}
