//! The program's input, read to its end under its limits.
ghost use Rattle.std.specs.Prelude.{◌≡◌, ◌≤◌, ◌<◌, ◌^◌, ◌+◌, [], None, Err, IfOk, IfErr, IfSome, OnOk};
ghost use Rattle.dk_store.specs.Causes.{Rose};
ghost use Rattle.dk_cli.specs.declared.input.Unread.TheVariants.{OutOfMemory};
ghost use Rattle.dk_cli.specs.Input.{first_passed};
ghost use Rattle.dk_cli.specs.Reading.{StopsReading, TakesAtMost};

use crate::scan::Scan;
use dk_engine::{Limits, Which};
use dk_store::Source;
use std::alloc::{AllocError, Global};

/// Why the input was not read to its end.
#[derive(Clone, Copy)]
pub(crate) enum Unread {
    /// The source failed, and counted that.
    Source,
    /// The input passes this limit first, byte by byte.
    Limit { which: Which },
    /// There was no memory for the bytes.
    OutOfMemory,
}

impl From<AllocError> for Unread {
    ghost from_gives = { λ _ e. e ≡ OutOfMemory };

    fn from(_: AllocError) -> Self {
        Unread::OutOfMemory
    }
}

/// The whole input, where it passes no limit. Each turn takes at least one byte, or ends; at most one byte past the limit on
/// all bytes is taken.
pub(crate) fn read_input<I: Source>(
    alloc: Global,
    input: &mut I,
    limits: Limits,
) -> Result<Vec<u8>, Unread>
    requires { limits.input < 2 ^ 62 }
    ensures all { IfOk result (λ bytes. IfSome (I.source_seen input.old).left (λ left. bytes.items ≡ left)) }
    ensures within { IfOk result (λ bytes. first_passed limits bytes.items ≡ None) }
    ensures stops { IfErr result (λ unread. IfSome (I.source_seen input.old).left (λ left. StopsReading limits unread left)) }
    ensures at_end { OnOk result (IfSome (I.source_seen input.new).left (λ left. left ≡ [])) }
    ensures most { (result ≡ Err Unread.Source → ⊥) → TakesAtMost (limits.input + 1) (I.source_seen input.old).left (I.source_seen input.new).left }
    ensures later { (I.source_seen input.old).faults ≤ (I.source_seen input.new).faults }
    ensures source { result ≡ Err Unread.Source → Rose (I.source_seen input.old).faults (I.source_seen input.new).faults }
{
    let mut bytes = Vec::new(alloc);
    let mut scan = Scan::new();
    let mut buf = [0u8; 4096];
    'reading: loop {
        let room = (limits.input as usize - bytes.len()).min(4095) + 1;
        match input.take(&mut buf[..room]) {
            Err(_) => return Err(Unread::Source),
            Ok(0) => return Ok(bytes),
            Ok(count) => {
                if let Some(which) = scan.look(limits, &buf[..count]) {
                    return Err(Unread::Limit { which });
                }
                bytes.extend_from_slice(&buf[..count])?;
            }
        }
    }
}
