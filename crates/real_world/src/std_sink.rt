//! Standard output and standard error.
ghost use Rattle.std.specs.Prelude.{◌≡◌, ℕ, ◌+◌, ◌<◌, ◌≤◌, length, IfOk, OnOk, OnErr};
ghost use Rattle.outside.specs.View.{next_count};

use outside::sink::{Sink, SinkFault};
use std::io::Write;

/// A stream of this process. It tells nothing of what was written. A write that fails, or that takes nothing of a piece, is a
/// fault.
#[derive(Drop)]
pub struct StdSink<W: Write + Drop> {
    writer: W,
    faults: u64,
}

impl<W: Write + Drop> StdSink<W> {
    ghost use Rattle.real_world.specs.View.{sink_faults};

    /// The stream, which has not failed yet.
    pub fn new(writer: W) -> StdSink<W>
        ensures { sink_faults result ≡ 0 }
    {
        StdSink { writer, faults: 0 }
    }
}

impl<W: Write + Drop> Sink for StdSink<W> {
    ghost use Rattle.real_world.specs.View.{sink_faults, sink_view};

    ghost view = { sink_view };

    fn put(&mut self, piece: &[u8]) -> Result<usize, SinkFault>
        ensures within { IfOk result (λ n. n ≤ length piece.now) }
        ensures some { IfOk result (λ n. 0 < length piece.now → 0 < n) }
        ensures ok { OnOk result (sink_faults self.new ≡ sink_faults self.old) }
        ensures err { OnErr result (sink_faults self.new ≡ next_count (sink_faults self.old)) }
        ensures later { sink_faults self.old ≤ sink_faults self.new }
    {
        if piece.is_empty() {
            return Ok(0);
        }
        match self.writer.write(piece) {
            Ok(written) if written > 0 => Ok(written),
            _ => {
                let before = self.faults;
                self.faults = before.saturating_add(1);
                Err(SinkFault)
            }
        }
    }
}
