//! The lines about all cases of an input.
ghost use Rattle.std.specs.Prelude.{◌≡◌, ◌++◌, ◌≤◌, All, string_bytes, Some, OnOk, IfOk};
ghost use Rattle.std.specs.List.{flat_map};
ghost use Rattle.jul_base.specs.declared.limits.TheConstants.{MAX_BYTES};
ghost use Rattle.jul_adj.specs.declared.streaming.TheConstants.{MAX_BLOCK};
ghost use Rattle.jul_stream_trials.specs.Cases.{IsWithin};
ghost use Rattle.jul_stream_trials.specs.Lines.{line_of};
ghost use Rattle.jul_stream_trials.specs.Readings.{said_of};
ghost use Rattle.jul_stream_trials.specs.Reports.{file_lines, case_lines, report_of};

use crate::cases::{Case, read_cases};
use crate::errors::TrialError;
use crate::lines::line;
use crate::readings::read_in_blocks;
use jul_adj::MAX_BLOCK;
use std::alloc::Global;
use std::thread::Threads;

/// So many workers may share a block that is long enough.
const WORKERS: u32 = 4;

// Puts the line about one reading of a file behind the text.
fn put_line<R: Threads + Sync>(
    rt: &R,
    alloc: Global,
    file: &[u8],
    limit: u64,
    block: usize,
    workers: u32,
    text: &mut String,
) -> Result<(), TrialError>
    requires limit { limit ≤ MAX_BYTES }
    requires some { 1 ≤ block }
    requires most { block ≤ MAX_BLOCK }
    requires some_workers { 1 ≤ workers }
    requires few_workers { workers ≤ 64 }

    ensures { OnOk result (string_bytes text.new
        ≡ string_bytes text.old ++ line_of block workers (said_of file.now limit)) }
{
    let said = read_in_blocks(rt, alloc, file, limit, block, workers)?;
    let line = line(alloc, block, workers, &said)?;
    text.push_str(line.as_str())?;
    Ok(())
}

// Puts the lines about the readings of a file behind the text.
fn put_lines<R: Threads + Sync>(
    rt: &R,
    alloc: Global,
    file: &[u8],
    limit: u64,
    text: &mut String,
) -> Result<(), TrialError>
    requires { limit ≤ MAX_BYTES }

    ensures { OnOk result (string_bytes text.new
        ≡ string_bytes text.old ++ file_lines (said_of file.now limit)) }
{
    put_line(rt, alloc, file, limit, 1, 1, text)?;
    put_line(rt, alloc, file, limit, 3, 1, text)?;
    put_line(rt, alloc, file, limit, MAX_BLOCK, 1, text)?;
    put_line(rt, alloc, file, limit, MAX_BLOCK, WORKERS, text)
}

// Puts the lines about cases behind the text, in order.
fn put_cases<R: Threads + Sync>(
    rt: &R,
    alloc: Global,
    input: &[u8],
    cases: &[Case],
    text: &mut String,
) -> Result<(), TrialError>
    requires { All (IsWithin input.now) cases.now }

    ensures { OnOk result (string_bytes text.new
        ≡ string_bytes text.old ++ flat_map (case_lines input.now) cases.now) }
{
    for case in cases {
        put_lines(rt, alloc, &input[case.start..case.end], case.limit, text)?;
    }
    Ok(())
}

/// The lines about the cases of an input, in order. `Malformed` says that it isn't a list of cases.
pub fn report<R: Threads + Sync>(rt: &R, alloc: Global, input: &[u8]) -> Result<String, TrialError>
    ensures { IfOk result (λ text. report_of input.now ≡ Some (string_bytes text)) }
{
    let cases = read_cases(alloc, input)?;
    let mut text = String::new(alloc);
    put_cases(rt, alloc, input, cases.as_slice(), &mut text)?;
    Ok(text)
}
