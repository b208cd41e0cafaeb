//! Classic checkpoints of a table's folder.

ghost use Rattle.std.specs.Prelude.{◌<◌, ◌^◌, IfOk};
ghost use Rattle.dk_snapshot.specs.Support.{IsComplete};

use crate::calls::Trouble;
use dk_ckread::read_classic;
use dk_ckwrite::classic;
use dk_dir::DirStore;
use dk_engine::Limits;
use dk_handlers::{PlainParquet, SerdeJson};
use dk_lawful::{Checkpoints, Choice};
use dk_snapshot::{OpenOptions, Snapshot, open_at};

/// Where the checkpoint stands in the table's folder.
const PATH: &str = "_delta_log/00000000000000000000.checkpoint.parquet";

fn table(rt: &HostRuntime, folder: &str) -> Result<DirStore<HostRuntime>, Trouble> {
    let folder = String::from_str(rt.alloc(), folder)?;
    Ok(DirStore::reading(rt.clone()?, folder))
}

/// Reads the checkpoint's actions so many times, and counts them.
pub(crate) fn read_checkpoints(rt: &HostRuntime, folder: &str, times: u32) -> Result<u64, Trouble> {
    let mut store = table(rt, folder)?;
    let limit = Limits::usual().object;
    let mut total = 0u64;
    for _ in 0..times {
        let actions = read_classic(
            rt.alloc(),
            &mut store,
            &mut PlainParquet::new(),
            PATH,
            None,
            limit,
        )?;
        total = total.wrapping_add(actions.len() as u64);
    }
    Ok(total)
}

/// The latest version, from its commits alone.
fn open(rt: &HostRuntime, folder: &str) -> Result<Snapshot, Trouble>
    ensures complete { IfOk result (λ snapshot. IsComplete snapshot.state) }
    ensures small { IfOk result (λ snapshot. snapshot.version < 2 ^ 63) }
{
    let mut store = table(rt, folder)?;
    let options = OpenOptions {
        limits: Limits::usual(),
        now: 0,
        choice: Choice {
            checkpoints: Checkpoints::No,
            compacted: false,
            staged_first: false,
        },
    };
    let snapshot = open_at(rt.alloc(), &mut store, &mut SerdeJson::new(), None, options)?;
    Ok(snapshot)
}

/// Writes the checkpoint of the latest version so many times, and counts the bytes.
pub(crate) fn write_checkpoints(
    rt: &HostRuntime,
    folder: &str,
    times: u32,
) -> Result<u64, Trouble> {
    let Snapshot {
        version,
        state,
        cut,
        ..
    } = open(rt, folder)?;
    let mut total = 0u64;
    for _ in 0..times {
        let bytes = classic(
            rt.alloc(),
            &mut PlainParquet::new(),
            &Limits::usual(),
            &state,
            version,
            cut,
        )?;
        total = total.wrapping_add(bytes.len() as u64);
    }
    Ok(total)
}
