//! The parts of a text of a result: its first two lines, that of the sources, and a line for each vertex.
ghost use Rattle.std.specs.Prelude.{◌≡◌, ◌≤◌, [], ◌∷◌, ◌++◌, length, codes, OnOk, OnErr};
ghost use Rattle.jul_base.specs.Sinks.{FailedWriting, IsSent};
ghost use Rattle.jul_text.specs.Lines.{line_of};
ghost use Rattle.jul_witness.specs.Forms.{word_of};
ghost use Rattle.jul_witness.specs.Texts.{value_text, values_line, spaced_value, spaced_values, head_lines, sources_line, vertex_lines};

use crate::forms::Form;
use jul_base::{Failed, NONE, Sink, TextBlock};

/// Puts the word on a line, and the numbers of vertices and places on another.
pub(crate) fn put_head<S: Sink>(
    block: &mut TextBlock,
    sink: &mut S,
    form: Form,
    n: usize,
    m: u32,
) -> Result<(), Failed>
    ensures ok { OnOk result (IsSent (S.state sink.old) (S.state sink.new) block.new
        (block.old ++ head_lines form n m)) }
    ensures err { OnErr result (FailedWriting (S.state sink.old) (S.state sink.new)
        (block.old ++ head_lines form n m)) }
    ensures faults { (S.state sink.old).faults ≤ (S.state sink.new).faults }
{
    block.put(sink, first_line(form))?;
    put_pair(block, sink, n as u64, u64::from(m))
}

fn first_line(form: Form) -> &'static [u8]
    ensures { result.now ≡ line_of (word_of form) }
{
    match form {
        Form::Cores => b"Cores2\n",
        Form::Distances => b"Distances2\n",
        Form::Cover => b"Cover2\n",
    }
}

/// Puts the line of the sources, and behind it a line for each vertex, of its numbers in three columns.
pub(crate) fn put_distances<S: Sink>(
    block: &mut TextBlock,
    sink: &mut S,
    sources: &[u32],
    first: &[u64],
    second: &[u64],
    third: &[u64],
) -> Result<(), Failed>
    requires second { length second.now ≡ length first.now }
    requires third { length third.now ≡ length first.now }

    ensures ok { OnOk result (IsSent (S.state sink.old) (S.state sink.new) block.new
        (block.old ++ (sources_line sources.now
        ++ vertex_lines (first.now ∷ second.now ∷ third.now ∷ []) (length first.now)))) }
    ensures err { OnErr result (FailedWriting (S.state sink.old) (S.state sink.new)
        (block.old ++ (sources_line sources.now
        ++ vertex_lines (first.now ∷ second.now ∷ third.now ∷ []) (length first.now)))) }
    ensures faults { (S.state sink.old).faults ≤ (S.state sink.new).faults }
{
    put_sources(block, sink, sources)?;
    put_triples(block, sink, first, second, third)
}

// Puts the number of sources and the sources on a line.
fn put_sources<S: Sink>(block: &mut TextBlock, sink: &mut S, sources: &[u32]) -> Result<(), Failed>
    ensures ok { OnOk result (IsSent (S.state sink.old) (S.state sink.new) block.new
        (block.old ++ sources_line sources.now)) }
    ensures err { OnErr result (FailedWriting (S.state sink.old) (S.state sink.new)
        (block.old ++ sources_line sources.now)) }
    ensures faults { (S.state sink.old).faults ≤ (S.state sink.new).faults }
{
    put_number(block, sink, sources.len() as u64)?;
    put_rest(block, sink, sources)
}

// Puts the rest of a line: a space and a number for each, and LF.
fn put_rest<S: Sink>(block: &mut TextBlock, sink: &mut S, numbers: &[u32]) -> Result<(), Failed>
    ensures ok { OnOk result (IsSent (S.state sink.old) (S.state sink.new) block.new
        (block.old ++ (spaced_values numbers.now ++ codes "\n"))) }
    ensures err { OnErr result (FailedWriting (S.state sink.old) (S.state sink.new)
        (block.old ++ (spaced_values numbers.now ++ codes "\n"))) }
    ensures faults { (S.state sink.old).faults ≤ (S.state sink.new).faults }
{
    put_each(block, sink, numbers)?;
    block.put(sink, b"\n")
}

// Puts a space and a number for each.
fn put_each<S: Sink>(block: &mut TextBlock, sink: &mut S, numbers: &[u32]) -> Result<(), Failed>
    ensures ok { OnOk result (IsSent (S.state sink.old) (S.state sink.new) block.new
        (block.old ++ spaced_values numbers.now)) }
    ensures err { OnErr result (FailedWriting (S.state sink.old) (S.state sink.new)
        (block.old ++ spaced_values numbers.now)) }
    ensures faults { (S.state sink.old).faults ≤ (S.state sink.new).faults }
{
    for number in numbers {
        put_spaced(block, sink, u64::from(*number))?;
    }
    Ok(())
}

fn put_spaced<S: Sink>(block: &mut TextBlock, sink: &mut S, value: u64) -> Result<(), Failed>
    ensures ok { OnOk result (IsSent (S.state sink.old) (S.state sink.new) block.new
        (block.old ++ spaced_value value)) }
    ensures err { OnErr result (FailedWriting (S.state sink.old) (S.state sink.new)
        (block.old ++ spaced_value value)) }
    ensures faults { (S.state sink.old).faults ≤ (S.state sink.new).faults }
{
    block.put(sink, b" ")?;
    put_number(block, sink, value)
}

/// Puts a line for each vertex, of its numbers in two columns.
pub(crate) fn put_pairs<S: Sink>(
    block: &mut TextBlock,
    sink: &mut S,
    first: &[u64],
    second: &[u64],
) -> Result<(), Failed>
    requires { length second.now ≡ length first.now }

    ensures ok { OnOk result (IsSent (S.state sink.old) (S.state sink.new) block.new
        (block.old ++ vertex_lines (first.now ∷ second.now ∷ []) (length first.now))) }
    ensures err { OnErr result (FailedWriting (S.state sink.old) (S.state sink.new)
        (block.old ++ vertex_lines (first.now ∷ second.now ∷ []) (length first.now))) }
    ensures faults { (S.state sink.old).faults ≤ (S.state sink.new).faults }
{
    for v in 0..first.len() {
        put_pair(block, sink, first[v], second[v])?;
    }
    Ok(())
}

fn put_pair<S: Sink>(
    block: &mut TextBlock,
    sink: &mut S,
    first: u64,
    second: u64,
) -> Result<(), Failed>
    ensures ok { OnOk result (IsSent (S.state sink.old) (S.state sink.new) block.new
        (block.old ++ values_line (first ∷ second ∷ []))) }
    ensures err { OnErr result (FailedWriting (S.state sink.old) (S.state sink.new)
        (block.old ++ values_line (first ∷ second ∷ []))) }
    ensures faults { (S.state sink.old).faults ≤ (S.state sink.new).faults }
{
    put_value(block, sink, first, b" ")?;
    put_value(block, sink, second, b"\n")
}

// Puts a line for each vertex, of its numbers in three columns.
fn put_triples<S: Sink>(
    block: &mut TextBlock,
    sink: &mut S,
    first: &[u64],
    second: &[u64],
    third: &[u64],
) -> Result<(), Failed>
    requires second { length second.now ≡ length first.now }
    requires third { length third.now ≡ length first.now }

    ensures ok { OnOk result (IsSent (S.state sink.old) (S.state sink.new) block.new
        (block.old ++ vertex_lines (first.now ∷ second.now ∷ third.now ∷ []) (length first.now))) }
    ensures err { OnErr result (FailedWriting (S.state sink.old) (S.state sink.new)
        (block.old ++ vertex_lines (first.now ∷ second.now ∷ third.now ∷ []) (length first.now))) }
    ensures faults { (S.state sink.old).faults ≤ (S.state sink.new).faults }
{
    for v in 0..first.len() {
        put_triple(block, sink, first[v], second[v], third[v])?;
    }
    Ok(())
}

fn put_triple<S: Sink>(
    block: &mut TextBlock,
    sink: &mut S,
    first: u64,
    second: u64,
    third: u64,
) -> Result<(), Failed>
    ensures ok { OnOk result (IsSent (S.state sink.old) (S.state sink.new) block.new
        (block.old ++ values_line (first ∷ second ∷ third ∷ []))) }
    ensures err { OnErr result (FailedWriting (S.state sink.old) (S.state sink.new)
        (block.old ++ values_line (first ∷ second ∷ third ∷ []))) }
    ensures faults { (S.state sink.old).faults ≤ (S.state sink.new).faults }
{
    put_value(block, sink, first, b" ")?;
    put_pair(block, sink, second, third)
}

/// Puts a number, or a minus sign for `NONE`, and the bytes behind it.
#[inline]
pub(crate) fn put_value<S: Sink>(
    block: &mut TextBlock,
    sink: &mut S,
    value: u64,
    end: &[u8],
) -> Result<(), Failed>
    ensures ok { OnOk result (IsSent (S.state sink.old) (S.state sink.new) block.new
        (block.old ++ (value_text value ++ end.now))) }
    ensures err { OnErr result (FailedWriting (S.state sink.old) (S.state sink.new)
        (block.old ++ (value_text value ++ end.now))) }
    ensures faults { (S.state sink.old).faults ≤ (S.state sink.new).faults }
{
    put_number(block, sink, value)?;
    block.put(sink, end)
}

#[inline]
fn put_number<S: Sink>(block: &mut TextBlock, sink: &mut S, value: u64) -> Result<(), Failed>
    ensures ok { OnOk result (IsSent (S.state sink.old) (S.state sink.new) block.new
        (block.old ++ value_text value)) }
    ensures err { OnErr result (FailedWriting (S.state sink.old) (S.state sink.new)
        (block.old ++ value_text value)) }
    ensures faults { (S.state sink.old).faults ≤ (S.state sink.new).faults }
{
    if value == NONE {
        block.put(sink, b"-")
    } else {
        block.put_u64(sink, value)
    }
}
