//! A source over bytes in memory, which tells them, and fails where that was planned.
ghost use Rattle.std.specs.Prelude.{◌≡◌, ◌≤◌, length};

use crate::stream::{Failed, Source};

/// A source over bytes in memory.
#[derive(Drop)]
pub struct MemSource {
    bytes: Vec<u8>,
    at: usize,
    fails: Vec<u64>,
    calls: u64,
    faults: u64,
    ghost within: { at ≤ length bytes.items },
}

impl MemSource {
    ghost use Rattle.std.specs.Prelude.{◌≡◌};
    ghost use Rattle.dk_store.specs.Streams.{source_left, mem_source_faults};

    /// A source of these bytes. `fails` has the numbers of the calls that fail, counted from 1; such a call leaves the
    /// bytes as they were.
    pub fn new(bytes: Vec<u8>, fails: Vec<u64>) -> Self
        ensures left { source_left result ≡ bytes.items }
        ensures faults { mem_source_faults result ≡ 0 }
    {
        MemSource {
            bytes,
            at: 0,
            fails,
            calls: 0,
            faults: 0,
        }
    }
}

impl Source for MemSource {
    ghost use Rattle.dk_store.specs.Streams.{mem_source_seen};

    ghost source_seen = { λ s. mem_source_seen s };

    fn take(&mut self, buf: &mut [u8]) -> Result<usize, Failed> {
        self.calls = self.calls.saturating_add(1);
        if self.fails.contains(&self.calls) {
            self.faults = self.faults.saturating_add(1);
            return Err(Failed);
        }
        let rest = &self.bytes[self.at..];
        let count = rest.len().min(buf.len());
        buf[..count].copy_from_slice(&rest[..count]);
        self.at += count;
        Ok(count)
    }
}
