//! A sink into memory, which tells its bytes, and fails where that was planned.
ghost use Rattle.std.specs.Prelude.{◌≡◌};
ghost use Rattle.dk_store.specs.Streams.{mem_sink_seen};

use crate::stream::{Failed, Sink};
use std::alloc::Global;

/// A sink into memory.
#[derive(Drop)]
pub struct MemSink {
    taken: Vec<u8>,
    fails: Vec<u64>,
    calls: u64,
    faults: u64,
}

impl MemSink {
    ghost use Rattle.std.specs.Prelude.{◌≡◌, []};
    ghost use Rattle.dk_store.specs.Streams.{sink_taken, mem_sink_faults};

    /// An empty sink. `fails` has the numbers of the calls that fail, counted from 1; such a call takes nothing. A call
    /// that has no memory for its bytes fails too.
    pub fn new(alloc: Global, fails: Vec<u64>) -> Self
        ensures taken { sink_taken result ≡ [] }
        ensures faults { mem_sink_faults result ≡ 0 }
    {
        MemSink {
            taken: Vec::new(alloc),
            fails,
            calls: 0,
            faults: 0,
        }
    }

    /// The bytes taken so far.
    pub fn taken(&self) -> &[u8]
        ensures { result.now ≡ sink_taken self.now }
    {
        &self.taken
    }
}

impl Sink for MemSink {
    ghost sink_seen = { λ s. mem_sink_seen s };

    fn give(&mut self, piece: &[u8]) -> Result<usize, Failed> {
        self.calls = self.calls.saturating_add(1);
        if self.fails.contains(&self.calls) || self.taken.extend_from_slice(piece).is_err() {
            self.faults = self.faults.saturating_add(1);
            return Err(Failed);
        }
        Ok(piece.len())
    }
}
