//! The reading of a whole graph file that lies in memory.
ghost use Rattle.std.specs.Prelude.{◌≡◌, ◌<◌, ◌≤◌, length, IfOk};
ghost use Rattle.jul_base.specs.Graph.{IsLawful};
ghost use Rattle.jul_adj.specs.Reading.{reads, Gives};

use crate::faults::{Fault, FaultKind, ReadError};
use crate::intakes::Intake;
use jul_base::RawGraph;
use std::alloc::Global;

/// Reads the graph of a file in the text format of PBBS, or tells the first fault.
///
/// A file longer than `limit` bytes has the fault `TooLong`, whatever else it has. Otherwise the
/// first token that has a fault decides, and where none has one and tokens are missing, the fault is
/// `Truncated`. Takes memory for the graph and for the marks of 64 KiB of text; the error `Memory` says nothing of
/// the file.
pub fn read_graph(alloc: Global, bytes: &[u8], limit: u64) -> Result<RawGraph, ReadError>
    ensures exact { Gives result (reads bytes.now limit) }
    ensures lawful { IfOk result IsLawful }
{
    if bytes.len() as u64 > limit {
        return Err(ReadError::Bad(Fault {
            kind: FaultKind::TooLong,
            token: 0,
            at: limit,
        }));
    }
    let mut intake = Intake::new(alloc);
    intake.feed_pieces(bytes)?;
    intake.finish()
}
