//! Runs over files, sinks and gates in memory, for the tests.
use crate::{Status, run};
use jul_base::{Gate, MemShelf, MemSink, OpenGate};
use std::alloc::{AllocError, Global};
use std::process::Abort;
use std::thread::Threads;

/// Two ways to vertex 1: the edge of weight 5, and by way of 2.
pub const TWO_WAYS: &str = "WeightedAdjacencyGraph\r\n3 3\r\n0 2 2\t1 2 1\n5 1 2";
/// A triangle with one vertex hanging on it.
pub const TRIANGLE: &str = "AdjacencyGraph 4 8 0 2 4 7 1 2 0 2 0 1 3 2";
/// One edge, and a vertex that isn't reached.
pub const APART: &str = "AdjacencyGraph 3 1 0 1 1 1";
/// Two triangles with an edge between them.
pub const TWO_TRIANGLES: &str = "AdjacencyGraph 6 14 0 2 4 7 10 12 1 2 0 2 0 1 3 2 4 5 3 5 3 4";
/// A vertex that is lowered in the bucket that it was drawn from.
pub const LOWERED_TWICE: &str = "WeightedAdjacencyGraph 4 4 0 2 3 4 1 2 3 1 9 1 5 6";
/// Two sets of four elements with three in common.
pub const OVERLAPPING: &str = "AdjacencyGraph 9 8 0 4 8 8 8 8 8 8 8 4 5 6 7 5 6 7 8";
/// Two edges one behind the other, of the greatest weight.
pub const FAR: &str = "WeightedAdjacencyGraph 3 2 0 1 2 1 2 4294967295 4294967295";
/// An edge without the one back.
pub const ONE_WAY: &str = "AdjacencyGraph 2 1 0 1 1";
/// A vertex with an edge to itself.
pub const LOOP: &str = "AdjacencyGraph 1 1 0 0";
/// No vertex.
pub const NOTHING: &str = "AdjacencyGraph\n0\n0\n";
/// Two edges of no weight between 1 and 2, and one of weight 5 from 0.
pub const NO_WEIGHTS: &str = "WeightedAdjacencyGraph 3 3 0 1 2 1 2 1 5 0 0";
/// Two sets of two elements with one in common.
pub const TWO_SETS: &str = "AdjacencyGraph 5 4 0 2 4 4 4 2 3 3 4";
/// The cores of the triangle.
pub const TRIANGLE_CORES: &str = "Cores2\n4 8\n2 1\n2 1\n2 1\n1 0\n";
/// The distances, hops and parents of the two ways.
pub const TWO_WAYS_TREE: &str = "Distances2\n3 3\n1 0\n0 0 -\n3 2 2\n1 1 0\n";
/// The cores of the two triangles.
pub const TWO_TRIANGLES_CORES: &str = "Cores2\n6 14\n2 0\n2 0\n2 1\n2 1\n2 0\n2 0\n";
/// The distances, hops and parents where a vertex is lowered twice.
pub const LOWERED_TWICE_TREE: &str = "Distances2\n4 4\n1 0\n0 0 -\n7 2 2\n1 1 0\n12 3 1\n";
/// The same from the sources 0 and 2.
pub const LOWERED_FROM_TWO: &str = "Distances2\n4 4\n2 0 2\n0 0 -\n6 1 2\n0 0 -\n11 2 1\n";
/// The cover by the sets that overlap.
pub const OVERLAPPING_COVER: &str = "Cover2\n9 8\n0 -\n1 -\n- -\n- -\n- 0\n- 0\n- 0\n- 0\n- 1\n";
/// The cover by the two sets.
pub const TWO_SETS_COVER: &str = "Cover2\n5 4\n0 -\n0 -\n- 0\n- 0\n- 1\n";

/// The most bytes that a read of a trial moves.
pub const READ_MOST: usize = 5;

/// A run over a shelf of a graph `g` and a witness `w`, and over objects that fail at the calls named, 0 for none.
#[derive(Clone, Copy)]
pub struct Trial<'w, 'g, 't> {
    /// The words of the command line, with a space between each two.
    pub words: &'w str,
    /// The text of the file `g`.
    pub graph: &'g str,
    /// The text of the file `w`.
    pub witness: &'t str,
    /// The call of the shelf that fails.
    pub read_fails: u64,
    /// The most bytes that a write takes.
    pub write_most: usize,
    /// How many bytes are taken in all.
    pub room: usize,
    /// The write of the answer that fails.
    pub write_fails: u64,
    /// The write of the message that fails.
    pub message_fails: u64,
}

/// What a run left.
#[derive(Drop)]
pub struct Outcome {
    /// How it ended.
    pub status: Status,
    /// What was written to standard output.
    pub out: Vec<u8>,
    /// What was written to standard error.
    pub err: Vec<u8>,
}

/// A run on a graph file and a witness file in which nothing fails.
pub fn trial_of<'w, 'g, 't>(words: &'w str, graph: &'g str, witness: &'t str) -> Trial<'w, 'g, 't> {
    Trial {
        words,
        graph,
        witness,
        read_fails: 0,
        write_most: 4,
        room: 100,
        write_fails: 0,
        message_fails: 0,
    }
}

/// The outcome of a trial.
pub fn outcome_of<R: Threads + Sync>(
    rt: &R,
    alloc: Global,
    trial: &Trial<'_, '_, '_>,
) -> Result<Outcome, AllocError> {
    outcome_with(rt, alloc, trial, &OpenGate)
}

/// The outcome of a trial whose workers pass a gate.
pub fn outcome_with<R: Threads + Sync, G: Gate>(
    rt: &R,
    alloc: Global,
    trial: &Trial<'_, '_, '_>,
    gate: &G,
) -> Result<Outcome, AllocError> {
    let mut stored = Vec::new(alloc);
    stored.push((
        String::from_str(alloc, "g")?,
        Vec::from_slice(alloc, trial.graph.as_bytes())?,
    ))?;
    stored.push((
        String::from_str(alloc, "w")?,
        Vec::from_slice(alloc, trial.witness.as_bytes())?,
    ))?;
    let mut words = Vec::new(alloc);
    for word in trial.words.split_whitespace() {
        words.push(String::from_str(alloc, word)?)?;
    }
    let fails = Vec::from_slice(alloc, &[trial.read_fails])?;
    let mut files = MemShelf::new(stored, READ_MOST, fails);
    let mut out = sink_of(alloc, trial.room, trial.write_most, trial.write_fails)?;
    let mut err = sink_of(alloc, 200, 200, trial.message_fails)?;
    let status = run(
        rt,
        alloc,
        words.as_slice(),
        &mut files,
        &mut out,
        &mut err,
        gate,
    );
    Ok(Outcome {
        status,
        out: out.bytes,
        err: err.bytes,
    })
}

// A sink with so much room that fails at one write.
fn sink_of(alloc: Global, room: usize, most: usize, fails: u64) -> Result<MemSink, AllocError> {
    let fails = Vec::from_slice(alloc, &[fails])?;
    Ok(MemSink::new(Vec::with_capacity(alloc, room)?, most.max(1), fails))
}

/// Ends the test where a trial leaves another code or other bytes.
pub fn expect_answer<R: Threads + Sync + Abort>(
    rt: &R,
    alloc: Global,
    trial: &Trial<'_, '_, '_>,
    code: u8,
    out: &str,
    err: &str,
) -> Result<(), AllocError> {
    let outcome = outcome_of(rt, alloc, trial)?;
    assert_eq!(rt; outcome.status.code(), code, "{out}{err}");
    assert_eq!(rt; outcome.out.as_slice(), out.as_bytes(), "{err}");
    assert_eq!(rt; outcome.err.as_slice(), err.as_bytes(), "{out}");
    Ok(())
}
