//! The writing of a graph as a file.
ghost use Rattle.std.specs.Prelude.{◌≡◌, ◌++◌, ◌≤◌, ℕ, length, decimal, OnOk, OnErr, Ok};
ghost use Rattle.jul_base.specs.declared.limits.TheConstants.{MAX_BYTES};
ghost use Rattle.jul_base.specs.Graph.{IsLawful};
ghost use Rattle.jul_base.specs.Sinks.{Appended, FailedWriting, IsSent};
ghost use Rattle.jul_text.specs.Lines.{line_of};
ghost use Rattle.jul_adj.specs.Reading.{reads};
ghost use Rattle.jul_adj.specs.Texts.{header_word, size_lines, number_lines, graph_text};

use jul_base::{Failed, RawGraph, Sink, TextBlock};

/// Writes a graph in the text format of PBBS, each token followed by LF.
///
/// The text is read back as the same graph. After `Failed` a part of it was written that isn't the
/// whole. The sink gets some thousand bytes at a time. Takes no memory.
#[tactic(auto, using(crate::proofs::ReadBackLaws::written_texts))]
pub fn write_graph<S: Sink>(sink: &mut S, graph: &RawGraph) -> Result<(), Failed>
    requires { IsLawful graph.now }

    ensures ok { OnOk result (Appended (S.state sink.old) (S.state sink.new)
        (graph_text graph.now)) }
    ensures err { OnErr result (FailedWriting (S.state sink.old) (S.state sink.new)
        (graph_text graph.now)) }
    ensures faults { (S.state sink.old).faults ≤ (S.state sink.new).faults }

    // The text says the graph, and is no longer than a file may be.
    ensures read_back { (limit : ℕ) → length (graph_text graph.now) ≤ limit →
        reads (graph_text graph.now) limit ≡ Ok graph.now }
    ensures short { length (graph_text graph.now) ≤ MAX_BYTES }
{
    let mut block = TextBlock::new();
    put_graph(&mut block, sink, graph)?;
    block.flush(sink)
}

// Puts the whole text.
fn put_graph<S: Sink>(block: &mut TextBlock, sink: &mut S, graph: &RawGraph) -> Result<(), Failed>
    ensures ok { OnOk result (IsSent (S.state sink.old) (S.state sink.new) block.new
        (block.old ++ graph_text graph.now)) }
    ensures err { OnErr result (FailedWriting (S.state sink.old) (S.state sink.new)
        (block.old ++ graph_text graph.now)) }
    ensures faults { (S.state sink.old).faults ≤ (S.state sink.new).faults }
{
    put_sizes(block, sink, graph)?;
    put_numbers(block, sink, graph.offsets.as_slice())?;
    put_numbers(block, sink, graph.targets.as_slice())?;
    put_numbers(block, sink, graph.weights.as_slice())
}

// Puts the header and the numbers of vertices and places.
fn put_sizes<S: Sink>(block: &mut TextBlock, sink: &mut S, graph: &RawGraph) -> Result<(), Failed>
    ensures ok { OnOk result (IsSent (S.state sink.old) (S.state sink.new) block.new
        (block.old ++ size_lines graph.now)) }
    ensures err { OnErr result (FailedWriting (S.state sink.old) (S.state sink.new)
        (block.old ++ size_lines graph.now)) }
    ensures faults { (S.state sink.old).faults ≤ (S.state sink.new).faults }
{
    block.put(sink, header_line(graph))?;
    put_number(block, sink, graph.offsets.len() as u64)?;
    put_number(block, sink, graph.targets.len() as u64)
}

fn header_line(graph: &RawGraph) -> &'static [u8]
    ensures { result.now ≡ line_of (header_word graph.now) }
{
    if graph.weighted {
        b"WeightedAdjacencyGraph\n"
    } else {
        b"AdjacencyGraph\n"
    }
}

// Puts each number on a line.
fn put_numbers<S: Sink>(block: &mut TextBlock, sink: &mut S, numbers: &[u32]) -> Result<(), Failed>
    ensures ok { OnOk result (IsSent (S.state sink.old) (S.state sink.new) block.new
        (block.old ++ number_lines numbers.now)) }
    ensures err { OnErr result (FailedWriting (S.state sink.old) (S.state sink.new)
        (block.old ++ number_lines numbers.now)) }
    ensures faults { (S.state sink.old).faults ≤ (S.state sink.new).faults }
{
    for number in numbers {
        put_number(block, sink, *number as u64)?;
    }
    Ok(())
}

// Puts a number and LF.
fn put_number<S: Sink>(block: &mut TextBlock, sink: &mut S, number: u64) -> Result<(), Failed>
    ensures ok { OnOk result (IsSent (S.state sink.old) (S.state sink.new) block.new
        (block.old ++ line_of (decimal number))) }
    ensures err { OnErr result (FailedWriting (S.state sink.old) (S.state sink.new)
        (block.old ++ line_of (decimal number))) }
    ensures faults { (S.state sink.old).faults ≤ (S.state sink.new).faults }
{
    block.put_u64(sink, number)?;
    block.put(sink, b"\n")
}
