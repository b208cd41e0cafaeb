//! A source of bytes and a sink for them, each known by its bytes where it tells them.
ghost use Rattle.std.specs.Prelude.{◌≡◌, ◌≤◌, length, IfOk};
ghost use Rattle.dk_store.specs.Stream.{SourceSeen, SinkSeen, TakesFrom, GivesTo, GivesWhole};

use thiserror::Error;

/// That a source or a sink failed, and counted that.
#[derive(Clone, Copy, Debug, Error)]
#[error("the stream failed")]
pub struct Failed;

/// A source of bytes.
pub trait Source {
    /// The bytes that are left, where the source tells them, and its count of faults, which never falls.
    ghost source_seen: { Self → SourceSeen };

    /// Fills the first n bytes of the buffer with the first n of the bytes left, which are then left no more, and answers n.
    ///
    /// A source that gives nothing into a buffer that isn't empty is at its end. After `Failed`, which comes only where
    /// the count rose, some of the first bytes left may be gone.
    fn take(&mut self, buf: &mut [u8]) -> Result<usize, Failed>
        ensures most { IfOk result (λ n. n ≤ length buf.old) }
        ensures len { length buf.new ≡ length buf.old }
        ensures takes { TakesFrom (source_seen self.old) (source_seen self.new) result buf.old buf.new };
}

/// A sink for bytes.
pub trait Sink {
    /// The bytes that were taken, where the sink tells them, and its count of faults, which never falls.
    ghost sink_seen: { Self → SinkSeen };

    /// Adds the first n bytes of the piece to the bytes taken, and answers n.
    ///
    /// A sink that takes nothing of a piece that isn't empty has failed too. After `Failed`, which comes only where the
    /// count rose, some of the first bytes of the piece may have been taken.
    fn give(&mut self, piece: &[u8]) -> Result<usize, Failed>
        ensures most { IfOk result (λ n. n ≤ length piece.now) }
        ensures gives { GivesTo (sink_seen self.old) (sink_seen self.new) result piece.now };
}

/// Gives a whole text to a sink: each turn gives at least one byte, or the sink has failed.
///
/// `Failed` comes only where the sink's count rose; the sink then took a beginning of the text.
pub fn give_all<O: Sink>(out: &mut O, text: &[u8]) -> Result<(), Failed>
    ensures gives { GivesWhole (O.sink_seen out.old) (O.sink_seen out.new) result text.now }
{
    let mut at = 0;
    while at < text.len() {
        match out.give(&text[at..]) {
            Err(failed) => return Err(failed),
            Ok(0) => return Err(Failed),
            Ok(count) => at += count,
        }
    }
    Ok(())
}
