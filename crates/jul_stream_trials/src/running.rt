//! The whole run, over any shelf and any sink.
ghost use Rattle.std.specs.Prelude.{OnOk};
ghost use Rattle.jul_stream_trials.specs.Running.{HasReported};

use crate::errors::TrialError;
use crate::reports::report;
use jul_base::{MAX_BYTES, Shelf, Sink, load_all, write_whole};
use std::alloc::Global;
use std::thread::Threads;

/// The name of standard input.
const INPUT: &str = "-";

/// Reads the input, and writes the lines about its cases.
pub fn run<R: Threads + Sync, F: Shelf, S: Sink>(
    rt: &R,
    alloc: Global,
    files: &mut F,
    out: &mut S,
) -> Result<(), TrialError>
    ensures { OnOk result (HasReported (F.state files.old) (F.state files.new)
        (S.state out.old) (S.state out.new)) }
{
    let input = load_all(alloc, files, INPUT, MAX_BYTES)?;
    let text = report(rt, alloc, input.as_slice())?;
    write_whole(out, text.as_bytes())?;
    Ok(())
}
