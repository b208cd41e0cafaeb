//! The words, and the calls that they name.

use crate::checkpoints::{read_checkpoints, write_checkpoints};
use crate::conflicts::find_conflicts;
use crate::rows::{read_files, rewrite, write_files};
use dk_engine::Refusal;
use dk_hybrid::{HybridFault, decode};
use dk_model::LineFault;
use dk_pages::next_page;
use dk_pqmeta::read_footer;
use dk_pqmodel::PqFault;
use std::alloc::{AllocError, AllocGlobal, Global};
use std::rt::Env;
use std::{env, fs, io};

/// Why there is nothing to print.
#[derive(Drop, Debug)]
pub(crate) enum Trouble {
    /// The words are no call.
    Usage,
    /// A file can't be read, or the line can't be written.
    Io(io::Error),
    /// The bytes aren't runs of so many values.
    Runs(HybridFault),
    /// The bytes have no footer of a Parquet file, or no pages.
    Parquet(PqFault),
    /// The rows can't be written.
    Unwritable,
    /// A line of the text is no action.
    Line(LineFault),
    /// The table isn't opened, or its checkpoint isn't read or written.
    Table(Refusal),
    /// There is no memory for the call.
    OutOfMemory,
}

impl From<io::Error> for Trouble {
    fn from(error: io::Error) -> Self {
        Trouble::Io(error)
    }
}

impl From<HybridFault> for Trouble {
    fn from(fault: HybridFault) -> Self {
        Trouble::Runs(fault)
    }
}

impl From<PqFault> for Trouble {
    fn from(fault: PqFault) -> Self {
        Trouble::Parquet(fault)
    }
}

impl From<Refusal> for Trouble {
    fn from(refusal: Refusal) -> Self {
        Trouble::Table(refusal)
    }
}

impl From<LineFault> for Trouble {
    fn from(fault: LineFault) -> Self {
        Trouble::Line(fault)
    }
}

impl From<AllocError> for Trouble {
    fn from(_: AllocError) -> Self {
        Trouble::OutOfMemory
    }
}

/// What the words ask for.
#[derive(Drop)]
struct Wanted {
    call: String,
    width: u8,
    count: usize,
    times: u32,
    file: String,
}

/// The words behind the program's name.
fn read_words<R: Env + AllocGlobal>(rt: &R) -> Result<Wanted, Trouble> {
    let mut words = env::args(rt)?.skip(1);
    let call = words.next().ok_or(Trouble::Usage)?;
    let width = words.next().ok_or(Trouble::Usage)?;
    let count = words.next().ok_or(Trouble::Usage)?;
    let times = words.next().ok_or(Trouble::Usage)?;
    let file = words.next().ok_or(Trouble::Usage)?;
    let (Ok(width), Ok(count), Ok(times)) = (width.parse(), count.parse(), times.parse()) else {
        return Err(Trouble::Usage);
    };
    Ok(Wanted {
        call,
        width,
        count,
        times,
        file,
    })
}

/// Decodes the runs so many times, and counts the values.
fn decode_runs(alloc: Global, bytes: &[u8], wanted: &Wanted) -> Result<u64, Trouble> {
    let mut total = 0u64;
    for _ in 0..wanted.times {
        let (values, _used) = decode(alloc, bytes, wanted.width, wanted.count)?;
        total = total.wrapping_add(values.len() as u64);
    }
    Ok(total)
}

/// Reads the file's footer so many times, and counts the row groups.
fn read_footers(alloc: Global, bytes: &[u8], wanted: &Wanted) -> Result<u64, Trouble> {
    let mut total = 0u64;
    for _ in 0..wanted.times {
        let footer = read_footer(alloc, bytes)?;
        total = total.wrapping_add(footer.groups.len() as u64);
    }
    Ok(total)
}

/// Walks so many pages that stand one behind another from the front on, as those of a column with definition levels alone,
/// and counts the bytes of their values.
fn walk_pages(bytes: &[u8], count: usize) -> Result<u64, Trouble> {
    let mut total = 0u64;
    let mut at = 0;
    for _ in 0..count {
        let page = next_page(bytes, at)?;
        let parts = page.split(0, 1)?;
        total = total.wrapping_add(parts.values.len() as u64);
        at = page.next;
    }
    Ok(total)
}

/// Walks the pages so many times.
fn read_pages(bytes: &[u8], wanted: &Wanted) -> Result<u64, Trouble> {
    let mut total = 0u64;
    for _ in 0..wanted.times {
        total = total.wrapping_add(walk_pages(bytes, wanted.count)?);
    }
    Ok(total)
}

/// Puts the file that its rows are written as in its place, and counts the bytes.
fn replace(
    rt: &HostRuntime,
    bytes: &[u8],
    dictionary: bool,
    wanted: &Wanted,
) -> Result<u64, Trouble> {
    let written = rewrite(rt.alloc(), bytes, dictionary)?;
    fs::write(rt, wanted.file.as_str(), written.as_slice())?;
    Ok(written.len() as u64)
}

/// Makes the call over the bytes of the file, and answers what it counts.
fn over_file(rt: &HostRuntime, wanted: &Wanted) -> Result<u64, Trouble> {
    let bytes = fs::read(rt, wanted.file.as_str())?;
    match wanted.call.as_str() {
        "runs" => decode_runs(rt.alloc(), &bytes, wanted),
        "footer" => read_footers(rt.alloc(), &bytes, wanted),
        "pages" => read_pages(&bytes, wanted),
        "rows" => read_files(rt.alloc(), &bytes, wanted.times),
        "write" => write_files(rt.alloc(), &bytes, false, wanted.times),
        "write_coded" => write_files(rt.alloc(), &bytes, true, wanted.times),
        "rewrite" => replace(rt, &bytes, false, wanted),
        "rewrite_coded" => replace(rt, &bytes, true, wanted),
        "conflicts" => find_conflicts(rt.alloc(), &bytes, wanted.count, wanted.times),
        _ => Err(Trouble::Usage),
    }
}

fn try_call(rt: &HostRuntime) -> Result<(), Trouble> {
    let wanted = read_words(rt)?;
    let total = match wanted.call.as_str() {
        "checkpoint" => read_checkpoints(rt, wanted.file.as_str(), wanted.times)?,
        "classic" => write_checkpoints(rt, wanted.file.as_str(), wanted.times)?,
        _ => over_file(rt, &wanted)?,
    };
    println!(rt; "{total}")?;
    Ok(())
}

/// Makes the call that the words ask for, and answers the exit status: 1 where there is nothing to print.
pub fn exit_status(rt: &HostRuntime) -> u8 {
    match try_call(rt) {
        Ok(()) => 0,
        Err(trouble) => {
            let _ = eprintln!(rt; "dk_bench: {trouble:?}");
            1
        }
    }
}
