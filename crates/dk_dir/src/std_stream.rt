//! The standard input as a source, and the standard output as a sink.
ghost use Rattle.std.specs.Prelude.{◌≡◌, ◌≤◌, IfOk, length};

use dk_store::{Failed, Sink, Source};
use std::io;
use std::io::{ErrorKind, Input, Print, Read};

/// The standard input. It tells no bytes.
#[derive(Drop)]
pub struct StdSource<R: Input> {
    reader: R::Reader,
    faults: u64,
}

impl<R: Input> StdSource<R> {
    ghost use Rattle.std.specs.Prelude.{◌≡◌};
    ghost use Rattle.dk_dir.specs.Counts.{std_source_faults};

    /// A source over the standard input, which has not failed.
    pub fn new(rt: &R) -> Self
        ensures { std_source_faults result ≡ 0 }
    {
        StdSource {
            reader: rt.reader(),
            faults: 0,
        }
    }
}

impl<R: Input> Source for StdSource<R> {
    ghost use Rattle.dk_dir.specs.Counts.{std_source_seen};

    ghost source_seen = { λ s. std_source_seen s };

    fn take(&mut self, buf: &mut [u8]) -> Result<usize, Failed> {
        if let Ok(count) = read_some(&mut self.reader, buf) {
            return Ok(count);
        }
        self.faults = self.faults.saturating_add(1);
        Err(Failed)
    }
}

// Reads some bytes. A call that a signal cuts off is made again.
fn read_some<T: Read>(reader: &mut T, buf: &mut [u8]) -> io::Result<usize>
    ensures most { IfOk result (λ n. n ≤ length buf.old) }
    ensures len { length buf.new ≡ length buf.old }
{
    for _ in 0..1000u32 {
        match reader.read(buf) {
            Err(error) if error.kind() == ErrorKind::Interrupted => {}
            answer => return answer,
        }
    }
    Err(io::Error::from(ErrorKind::Interrupted))
}

/// The standard output. It tells no bytes, and keeps none back.
#[derive(Drop)]
pub struct StdSink<R: Print + Drop> {
    rt: R,
    faults: u64,
}

impl<R: Print + Drop> StdSink<R> {
    ghost use Rattle.std.specs.Prelude.{◌≡◌};
    ghost use Rattle.dk_dir.specs.Counts.{std_sink_faults};

    /// A sink over the standard output, which has not failed.
    pub fn new(rt: R) -> Self
        ensures { std_sink_faults result ≡ 0 }
    {
        StdSink { rt, faults: 0 }
    }
}

impl<R: Print + Drop> Sink for StdSink<R> {
    ghost use Rattle.dk_dir.specs.Counts.{std_sink_seen};

    ghost sink_seen = { λ s. std_sink_seen s };

    fn give(&mut self, piece: &[u8]) -> Result<usize, Failed> {
        match write_some(&self.rt, piece) {
            Ok(count) if count > 0 || piece.is_empty() => Ok(count),
            _ => {
                self.faults = self.faults.saturating_add(1);
                Err(Failed)
            }
        }
    }
}

// Writes some bytes. A call that a signal cuts off is made again.
fn write_some<P: Print>(rt: &P, piece: &[u8]) -> io::Result<usize>
    ensures { IfOk result (λ n. n ≤ length piece.now) }
{
    for _ in 0..1000u32 {
        match rt.write_some(piece) {
            Err(error) if error.kind() == ErrorKind::Interrupted => {}
            answer => return answer,
        }
    }
    Err(io::Error::from(ErrorKind::Interrupted))
}
