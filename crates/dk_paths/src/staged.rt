//! The names of staged commits, both ways.

ghost use Rattle.std.specs.Prelude.{◌≡◌, ◌++◌, ◌^◌, ◌<◌, IfOk, codes};
ghost use Rattle.std.specs.String.{string_bytes};
ghost use Rattle.dk_paths.specs.Staged.{IsStagedNameOf, IsStagedReadBack, staged_name, staged_of};

use crate::ids::read_id;
use crate::numbers::split_version;
use crate::read::{DOT, JSON};
use crate::spelling::{Id, Version};
use crate::strip::{strip_end, strip_front};
use std::alloc::{AllocError, Global};

/// The version and the UUID of a staged commit's name, `v.u.json` (Delta Lake's PROTOCOL.md, "Staged Commits"); `None` for any
/// other name. It takes no memory.
pub fn read_staged(name: &str) -> Option<(u64, u128)>
    ensures named { result ≡ staged_of name.now }
    ensures exact { IsStagedNameOf name.now result }
    ensures back { IsStagedReadBack name.now result }
{
    named(name.as_bytes())
}

fn named(text: &[u8]) -> Option<(u64, u128)>
    ensures { IsStagedNameOf text.now result }
{
    let Some((version, rest)) = split_version(text) else {
        return None;
    };
    let Some(rest) = strip_front(rest, DOT) else {
        return None;
    };
    let Some(id) = strip_end(rest, JSON) else {
        return None;
    };
    match read_id(id) {
        Some(id) => Some((version, id)),
        None => None,
    }
}

/// The name of a staged commit (Delta Lake's PROTOCOL.md, "Staged Commits"), `v.u.json`. `Err` says that memory was wanted and
/// not had.
pub fn write_staged(alloc: Global, version: u64, id: u128) -> Result<String, AllocError>
    requires { version < 2 ^ 63 }
    ensures { IfOk result (λ text. string_bytes text ≡ staged_name version id) }
{
    let (version, id) = (Version(version), Id(id));
    format!(in alloc; "{version}.{id}.json")
}

/// The path of a staged commit from the table's folder (Delta Lake's PROTOCOL.md, "Staged Commits"). `Err` says that memory was
/// wanted and not had.
pub fn staged_path(alloc: Global, version: u64, id: u128) -> Result<String, AllocError>
    requires { version < 2 ^ 63 }
    ensures { IfOk result (λ text. string_bytes text ≡ codes "_delta_log/_staged_commits/" ++ staged_name version id) }
{
    let (version, id) = (Version(version), Id(id));
    format!(in alloc; "_delta_log/_staged_commits/{version}.{id}.json")
}
