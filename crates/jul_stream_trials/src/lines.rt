//! The line about a reading.
ghost use Rattle.std.specs.Prelude.{◌≡◌, string_bytes, IfOk};
ghost use Rattle.jul_stream_trials.specs.Lines.{form_of, graph_line, fault_line, line_of};

use crate::checksums::checksum;
use jul_adj::Fault;
use jul_base::RawGraph;
use std::alloc::{AllocError, Global};

// The word for the form of a graph.
fn form(graph: &RawGraph) -> &'static str
    ensures { result.now ≡ form_of graph.now }
{
    if graph.weighted { "weighted" } else { "plain" }
}

// The sizes of a block and of a team, and the graph by its form, its sizes and its checksum.
fn line_of_graph(
    alloc: Global,
    block: usize,
    workers: u32,
    graph: &RawGraph,
) -> Result<String, AllocError>
    ensures { IfOk result (λ line. string_bytes line ≡ graph_line block workers graph.now) }
{
    let form = form(graph);
    let n = graph.offsets.len();
    let m = graph.targets.len();
    let sum = checksum(graph);
    format!(in alloc; "{block} {workers} {form} {n} {m} {sum}\n")
}

// The sizes of a block and of a team, and the fault by its kind and its place.
fn line_of_fault(
    alloc: Global,
    block: usize,
    workers: u32,
    fault: Fault,
) -> Result<String, AllocError>
    ensures { IfOk result (λ line. string_bytes line ≡ fault_line block workers fault) }
{
    let Fault { kind, token, at } = fault;
    format!(in alloc; "{block} {workers} {kind} {token} {at}\n")
}

/// The line about a file that was read in blocks of at most so many bytes by at most so many workers.
pub fn line(
    alloc: Global,
    block: usize,
    workers: u32,
    said: &Result<RawGraph, Fault>,
) -> Result<String, AllocError>
    ensures { IfOk result (λ line. string_bytes line ≡ line_of block workers said.now) }
{
    match said {
        Ok(graph) => line_of_graph(alloc, block, workers, graph),
        Err(fault) => line_of_fault(alloc, block, workers, *fault),
    }
}
