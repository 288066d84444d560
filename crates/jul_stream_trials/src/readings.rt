//! The reading of a file that is held in memory, in blocks.
ghost use Rattle.std.specs.Prelude.{◌≡◌, ◌≤◌, codes, Some, IfOk, IfSome};
ghost use Rattle.jul_base.specs.declared.limits.TheConstants.{MAX_BYTES};
ghost use Rattle.jul_base.specs.Shelves.{contents};
ghost use Rattle.jul_base.specs.MemoryShelves.{shelf_state};
ghost use Rattle.jul_adj.specs.declared.streaming.TheConstants.{MAX_BLOCK};
ghost use Rattle.jul_stream_trials.specs.Readings.{said_of};

use crate::errors::TrialError;
use jul_adj::{Fault, MAX_BLOCK, StreamError, read_stream};
use jul_base::{MemShelf, OpenGate, RawGraph};
use jul_pool::Team;
use std::alloc::{AllocError, Global};
use std::thread::Threads;

/// The name of the only file of a shelf.
const NAME: &str = "g";

// A shelf whose only file has these bytes, and gives as many of them as it is asked for.
fn shelf_of(alloc: Global, file: &[u8]) -> Result<MemShelf, AllocError>
    ensures { IfOk result (λ s. IfSome (shelf_state s).told (λ t.
        contents t.files (codes "g") ≡ Some file.now)) }
{
    let mut files = Vec::new(alloc);
    files.push((
        String::from_str(alloc, NAME)?,
        Vec::from_slice(alloc, file)?,
    ))?;
    Ok(MemShelf::new(files, MAX_BLOCK, Vec::new(alloc)))
}

/// What a file says, read in blocks of at most so many bytes by at most so many workers.
pub fn read_in_blocks<R: Threads + Sync>(
    rt: &R,
    alloc: Global,
    file: &[u8],
    limit: u64,
    block: usize,
    workers: u32,
) -> Result<Result<RawGraph, Fault>, TrialError>
    requires limit { limit ≤ MAX_BYTES }
    requires some { 1 ≤ block }
    requires most { block ≤ MAX_BLOCK }
    requires some_workers { 1 ≤ workers }
    requires few_workers { workers ≤ 64 }

    ensures { IfOk result (λ said. said ≡ said_of file.now limit) }
{
    let mut shelf = shelf_of(alloc, file)?;
    let team = Team {
        workers,
        chunk: 256,
        gate: &OpenGate,
    };
    match read_stream(rt, alloc, &team, &mut shelf, NAME, limit, block) {
        Ok(graph) => Ok(Ok(graph)),
        Err(StreamError::Bad(fault)) => Ok(Err(fault)),
        Err(StreamError::Failed) => Err(TrialError::Unread),
        Err(StreamError::Memory) => Err(TrialError::Memory),
    }
}
