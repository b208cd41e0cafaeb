//! One run as it stands in the bytes.

ghost use Rattle.std.specs.Prelude.{◌≡◌, ℕ, ◌+◌, ◌-◌, ◌*◌, ◌/◌, ◌%◌, ◌^◌, ◌<◌, ◌≤◌, ◌++◌, length, take, drop, min, vec_len, MatchOption, OnOk};
ghost use Rattle.dk_grammar.specs.Digits.{number_of};
ghost use Rattle.dk_grammar.specs.Runs.{bytes_for, BeginRun};
ghost use Rattle.dk_hybrid.specs.Runs.{kept_values, HasWholeGroups, KeepsRun, KeepsValue, KeepsGroups};

use crate::header::{Header, read_header};
use crate::unpacking::{number_in, unpack};
use std::alloc::AllocError;

/// A run whose bytes are whole.
#[derive(Clone, Copy)]
pub(crate) enum Run<'a> {
    /// So many copies of one value.
    Repeated { copies: u64, value: u32 },
    /// Groups of eight values, packed least bit first.
    Packed { groups: usize, body: &'a [u8] },
}

/// The run at the front, and the bytes behind it. `None` where the bytes end inside it.
pub(crate) fn read_run(bytes: &[u8], width: u8) -> Option<(Run<'_>, &[u8])>
    requires { width ≤ 32 }
    ensures { MatchOption result (BeginRun width bytes.now) (λ x. KeepsRun width bytes.now x.0 x.1.now) }
{
    let (header, rest) = read_header(bytes)?;
    match header {
        Header::Copies(copies) => read_repeated(copies, rest, width),
        Header::Groups(groups) => read_packed(groups, rest, width),
    }
}

fn read_repeated(copies: u64, bytes: &[u8], width: u8) -> Option<(Run<'_>, &[u8])>
    requires { width ≤ 32 }
    ensures { MatchOption result (length bytes.now < bytes_for width) (λ x. KeepsValue width copies bytes.now x.0 x.1.now) }
{
    let len = usize::from(width).div_ceil(8);
    if bytes.len() < len {
        return None;
    }
    let (body, rest) = bytes.split_at(len);
    let value = number_in(body) as u32;
    Some((Run::Repeated { copies, value }, rest))
}

fn read_packed(groups: u64, bytes: &[u8], width: u8) -> Option<(Run<'_>, &[u8])>
    requires { length bytes.now < 2 ^ 64 - 1 }
    ensures { MatchOption result (length bytes.now < groups * width) (λ x. KeepsGroups width groups bytes.now x.0 x.1.now) }
{
    if width == 0 {
        let copies = groups.saturating_mul(8);
        return Some((Run::Repeated { copies, value: 0 }, bytes));
    }
    let width = u64::from(width);
    if groups > bytes.len() as u64 / width {
        return None;
    }
    let (body, rest) = bytes.split_at((groups * width) as usize);
    let groups = groups as usize;
    Some((Run::Packed { groups, body }, rest))
}

/// Adds the first values of the run, at most so many.
pub(crate) fn append(
    values: &mut Vec<u32>,
    run: Run<'_>,
    width: u8,
    most: usize,
) -> Result<(), AllocError>
    requires narrow { width ≤ 32 }
    requires whole { HasWholeGroups width run }
    requires room { vec_len values.old + most < 2 ^ 64 }
    ensures { OnOk result (values.new.items ≡ values.old.items ++ take most (kept_values width run.entry)) }
{
    match run {
        Run::Repeated { copies, value } => {
            let count = copies.min(most as u64) as usize;
            values.resize(values.len() + count, value)
        }
        Run::Packed { groups, body } => {
            let count = groups.saturating_mul(8).min(most);
            unpack(values, body, width, count)
        }
    }
}
