//! The reading of a graph file from a shelf, in blocks.
ghost use Rattle.std.specs.Prelude.{◌≡◌, ◌+◌, ◌<◌, ◌≤◌, ◌^◌, length, Ok, IfOk, IfErr};
ghost use Rattle.jul_base.specs.Graph.{IsLawful};
ghost use Rattle.jul_adj.specs.Streaming.{IsStreamed, IsUnread};

use crate::faults::{Fault, FaultKind, ReadError, StreamError};
use crate::pipelines::Pipeline;
use jul_base::{Gate, MAX_BYTES, RawGraph, Shelf};
use jul_pool::Team;
use std::alloc::Global;
use std::thread::Threads;

/// The most bytes of a block.
pub const MAX_BLOCK: usize = 4_194_304;

/// Reads the graph of the file of this name, or tells its first fault, as `read_graph` does, in blocks of at most
/// `block` bytes.
///
/// Other workers of the team read the numbers between the first and the last white byte of a block, where it is long
/// enough, while the calling thread takes those of the block before and reads the next block; no token is ever cut. The
/// file is read to its end, also behind a fault, or until `limit + 1` bytes were read, which is the fault `TooLong`.
/// Takes memory for the graph, two blocks and their numbers. After `Failed` or `Memory` a part of the file may have been
/// read.
pub fn read_stream<R: Threads + Sync, F: Shelf, G: Gate>(
    rt: &R,
    alloc: Global,
    team: &Team<'_, G>,
    files: &mut F,
    name: &str,
    limit: u64,
    block: usize,
) -> Result<RawGraph, StreamError>
    requires limit { limit ≤ MAX_BYTES }
    requires some { 1 ≤ block }
    requires most { block ≤ MAX_BLOCK }

    ensures graph { IfOk result (λ g.
        IsStreamed (F.state files.old) (F.state files.new) name.now limit (Ok g)) }
    ensures lawful { IfOk result IsLawful }

    ensures refused { IfErr result (IsUnread (F.state files.old) (F.state files.new) name.now limit) }
    ensures faults { (F.state files.old).faults ≤ (F.state files.new).faults }
{
    files.open(name)?;
    let mut pipeline = Pipeline::new(alloc);
    let mut read: u64 = 0;
    while read <= limit {
        pipeline.advance(rt, alloc, team, files, left(block, limit - read))?;
        let count = pipeline.last_count();
        if count == 0 {
            return Ok(pipeline.finish()?);
        }
        read += count as u64;
    }
    Err(StreamError::Bad(Fault {
        kind: FaultKind::TooLong,
        token: 0,
        at: limit,
    }))
}

// How many bytes to ask for: a block, or one more than a file may still have.
fn left(block: usize, more: u64) -> usize
    requires { more ≤ MAX_BYTES }

    ensures some { 1 ≤ block → 1 ≤ result }
    ensures block { result ≤ block }
    ensures few { result ≤ more + 1 }
{
    block.min(more as usize + 1)
}
