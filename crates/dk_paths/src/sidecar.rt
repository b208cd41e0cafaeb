//! The names of sidecars.

ghost use Rattle.std.specs.Prelude.{◌≡◌, IfOk, true};
ghost use Rattle.std.specs.String.{string_bytes};
ghost use Rattle.dk_paths.specs.Places.{Sidecar, ends_in_parquet, is_sidecar_name, place_path, sidecar_name};

use crate::read::PARQUET;
use crate::spelling::Id;
use std::alloc::{AllocError, Global};

/// Whether a name is that of a sidecar (Delta Lake's PROTOCOL.md, "Sidecar Files"): it lies directly in its folder and ends in
/// `.parquet`.
pub fn is_sidecar(name: &str) -> bool
    ensures { result ≡ is_sidecar_name name.now }
{
    let bytes = name.as_bytes();
    !bytes.contains(&b'/') && ends_in_parquet(bytes)
}

fn ends_in_parquet(name: &[u8]) -> bool
    ensures { result ≡ ends_in_parquet name.now }
{
    name.ends_with(PARQUET)
}

/// The name of the sidecar of a UUID, `u.parquet` (Delta Lake's PROTOCOL.md, "Sidecar Files"). `Err` says that memory was
/// wanted and not had.
pub fn write_sidecar(alloc: Global, id: u128) -> Result<String, AllocError>
    ensures written { IfOk result (λ text. string_bytes text ≡ sidecar_name id) }
    ensures sidecar { is_sidecar_name (sidecar_name id) ≡ true }
{
    let id = Id(id);
    format!(in alloc; "{id}.parquet")
}

/// The path of the sidecar of that name, from the table's folder (Delta Lake's PROTOCOL.md, "Sidecar Files"). `Err` says that
/// memory was wanted and not had.
pub fn sidecar_path(alloc: Global, name: &str) -> Result<String, AllocError>
    requires { is_sidecar_name name.now ≡ true }
    ensures { IfOk result (λ text. string_bytes text ≡ place_path (Sidecar name.now)) }
{
    format!(in alloc; "_delta_log/_sidecars/{name}")
}
