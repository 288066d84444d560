//! Standard output and standard error: the trusted edge.
ghost use Rattle.std.specs.Prelude.{◌≡◌, None};

use crate::sinks::{Failed, Sink};
use std::io::Write;

/// A writer of the system. It tells contracts no bytes. A write of nothing is a fault.
#[derive(Drop)]
pub struct RealSink<W: Write + Drop> {
    writer: W,
    faults: u64,
}

impl<W: Write + Drop> RealSink<W> {
    /// A sink that writes to `writer`, as to standard output. Takes no memory.
    pub fn new(writer: W) -> RealSink<W>
        ensures { (⟦<RealSink<W> as Sink>⟧.state result).faults ≡ 0 }
    {
        RealSink { writer, faults: 0 }
    }
}

impl<W: Write + Drop> Sink for RealSink<W> {
    ghost state = { λ s. record { written = None; faults = s.faults } };

    fn write(&mut self, piece: &[u8]) -> Result<usize, Failed> {
        if piece.is_empty() {
            return Ok(0);
        }
        match self.writer.write(piece) {
            Ok(count) if count > 0 => Ok(count),
            _ => {
                self.faults = self.faults.saturating_add(1);
                Err(Failed)
            }
        }
    }
}
