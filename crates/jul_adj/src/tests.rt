//! Reading and writing with ample memory, on files whose answers were found by hand.
ghost use Rattle.std.specs.Prelude.{◌≤◌};

use crate::{
    Fault, FaultKind, MAX_BLOCK, ReadError, StreamError, generate, generate_by, read_graph,
    read_stream, write_graph,
};
use jul_base::{MemShelf, MemSink, OpenGate};
use jul_pool::Team;
use std::alloc::{AllocError, Global};
use std::test::Fail;
use std::thread::Threads;

#[test]
fn a_file_of_18_bytes_is_too_long_for_17(rt: HostRuntime) {
    let file = b"AdjacencyGraph 0 0";
    let too_long = Fault {
        kind: FaultKind::TooLong,
        token: 0,
        at: 17,
    };
    match read_graph(rt.alloc(), file, 17) {
        Ok(_) => panic!(rt; "it was read"),
        Err(e) => assert_eq!(rt; e, ReadError::Bad(too_long)),
    }
    match read_graph(rt.alloc(), file, 18) {
        Ok(graph) => assert_eq!(rt; graph.offsets.len() + graph.targets.len(), 0),
        Err(e) => panic!(rt; "{e}"),
    }
}

#[test]
fn a_weighted_file_in_any_lines_is_read(rt: HostRuntime) {
    let file = b"WeightedAdjacencyGraph\r\n3 3\r\n0 2 2\t1 2 1\n5 1 2";
    match read_graph(rt.alloc(), file, 1000) {
        Ok(graph) => {
            assert!(rt; graph.weighted);
            assert_eq!(rt; graph.offsets.as_slice(), [0, 2, 2].as_slice());
            assert_eq!(rt; graph.targets.as_slice(), [1, 2, 1].as_slice());
            assert_eq!(rt; graph.weights.as_slice(), [5, 1, 2].as_slice());
        }
        Err(e) => panic!(rt; "{e}"),
    }
}

#[test]
fn a_graph_is_written_one_token_a_line(rt: HostRuntime) -> Result<(), Fail> {
    let files = [
        ("AdjacencyGraph 0 0", "AdjacencyGraph\n0\n0\n"),
        (
            "WeightedAdjacencyGraph\r\n3 3\r\n0 02 2\t1 2 1\n5 1 2",
            "WeightedAdjacencyGraph\n3\n3\n0\n2\n2\n1\n2\n1\n5\n1\n2\n",
        ),
    ];
    for (file, text) in files {
        let room = Vec::with_capacity(rt.alloc(), 100)?;
        let mut sink = MemSink::new(room, 7, Vec::new(rt.alloc()));
        let graph = read_graph(rt.alloc(), file.as_bytes(), 1000)?;
        assert!(rt; write_graph(&mut sink, &graph).is_ok());
        assert_eq!(rt; sink.bytes.as_slice(), text.as_bytes());
    }
    Ok(())
}

#[test]
fn a_failed_write_is_told(rt: HostRuntime) -> Result<(), Fail> {
    let room = Vec::with_capacity(rt.alloc(), 100)?;
    let fails = [2].to_vec(rt.alloc())?;
    let mut sink = MemSink::new(room, 7, fails);
    let graph = read_graph(rt.alloc(), b"AdjacencyGraph 0 0", 1000)?;
    assert!(rt; write_graph(&mut sink, &graph).is_err());
    assert_eq!(rt; sink.bytes.as_slice(), b"Adjacen".as_slice());
    Ok(())
}

// The values were found by another implementation.
#[test]
fn a_seed_gives_its_graph(rt: HostRuntime) -> Result<(), Fail> {
    let graph = generate(rt.alloc(), 4, 3, 7)?;
    assert!(rt; graph.weighted);
    assert_eq!(rt; graph.offsets.as_slice(), [0, 1, 1, 4].as_slice());
    assert_eq!(rt; graph.targets.as_slice(), [3, 3, 2, 2, 0, 2].as_slice());
    assert_eq!(rt; graph.weights.as_slice(), [47, 6, 86, 86, 47, 6].as_slice());
    // Its vertices are in two parts of the rows.
    let graph = generate(rt.alloc(), 5000, 6, 1)?;
    let targets = [
        3761, 2045, 1522, 784, 1950, 1737, 533, 3519, 2465, 235, 4739, 4555,
    ];
    assert_eq!(rt; graph.targets.as_slice(), targets.as_slice());
    Ok(())
}

#[test]
fn workers_make_the_same_graph(rt: HostRuntime) -> Result<(), Fail> {
    for (n, pairs, seed) in [
        (1, 3, 7),
        (5000, 6, 1),
        (20_000, 30_001, u64::MAX),
        (9, 40_000, 2),
    ] {
        let alone = generate(rt.alloc(), n, pairs, seed)?;
        for workers in [1, 3, 4] {
            let team = Team {
                workers,
                chunk: 256,
                gate: &OpenGate,
            };
            let graph = generate_by(&rt, rt.alloc(), &team, n, pairs, seed)?;
            assert_eq!(rt; graph.offsets.as_slice(), alone.offsets.as_slice());
            assert_eq!(rt; graph.targets.as_slice(), alone.targets.as_slice());
            assert_eq!(rt; graph.weights.as_slice(), alone.weights.as_slice());
        }
    }
    Ok(())
}

/// Files with their first faults: the kind, the token and the byte place.
const FAULTY: [(&str, FaultKind, u64, u64); 22] = [
    ("", FaultKind::Truncated, 0, 0),
    ("adjacencygraph 1 0 0", FaultKind::Header, 0, 0),
    ("AdjacencyGraph -1 0", FaultKind::BadNumber, 1, 15),
    (
        "AdjacencyGraph 16777217 0",
        FaultKind::TooManyVertices,
        1,
        15,
    ),
    (
        "AdjacencyGraph 1 134217729 0",
        FaultKind::TooManyEdges,
        2,
        17,
    ),
    ("AdjacencyGraph 1 0 5", FaultKind::FirstOffset, 3, 19),
    (
        "AdjacencyGraph 3 2 0 9 1 0 0",
        FaultKind::OffsetRange,
        4,
        21,
    ),
    (
        "AdjacencyGraph 3 2 0 2 1 0 0",
        FaultKind::OffsetOrder,
        5,
        23,
    ),
    ("AdjacencyGraph 2 1 0 1 2", FaultKind::TargetRange, 5, 23),
    (
        "WeightedAdjacencyGraph 2 1 0 1 1 -3",
        FaultKind::NegativeWeight,
        6,
        33,
    ),
    (
        "WeightedAdjacencyGraph 2 1 0 1 1 -0",
        FaultKind::NegativeWeight,
        6,
        33,
    ),
    (
        "WeightedAdjacencyGraph 2 1 0 1 1 4294967296",
        FaultKind::WeightRange,
        6,
        33,
    ),
    (
        "WeightedAdjacencyGraph 2 1 0 1 1",
        FaultKind::Truncated,
        6,
        32,
    ),
    ("AdjacencyGraph 2 1 0 1 1 7", FaultKind::Trailing, 6, 25),
    ("AdjacencyGraph 1 1 0 0 x", FaultKind::Trailing, 5, 23),
    ("AdjacencyGraph 2 1 0 1 x", FaultKind::BadNumber, 5, 23),
    ("AdjacencyGraph 2 1 0 1 -1 ", FaultKind::BadNumber, 5, 23),
    (
        "AdjacencyGraph 2 1 0 1 18446744073709551616",
        FaultKind::TargetRange,
        5,
        23,
    ),
    ("AdjacencyGraph 0 1 0", FaultKind::TargetRange, 3, 19),
    (
        "AdjacencyGraph 3 2 0 2 1 x 0",
        FaultKind::OffsetOrder,
        5,
        23,
    ),
    (
        "AdjacencyGraph 2 3 0 1 1 1 2 9",
        FaultKind::TargetRange,
        7,
        27,
    ),
    (
        "WeightedAdjacencyGraph 1 2 0 0 0 7 00000000000000000000004294967296",
        FaultKind::WeightRange,
        7,
        35,
    ),
];

/// A shelf with a file `g` that gives at most so many bytes a read.
fn shelf_of(alloc: Global, file: &[u8], most: usize) -> Result<MemShelf, AllocError>
    requires { 1 ≤ most }
{
    let mut files = Vec::new(alloc);
    files.push((String::from_str(alloc, "g")?, Vec::from_slice(alloc, file)?))?;
    Ok(MemShelf::new(files, most, Vec::new(alloc)))
}

/// What is wrong with a file that is read in blocks by two workers; None where nothing is.
fn refusal_of<R: Threads + Sync>(
    rt: &R,
    alloc: Global,
    file: &[u8],
    most: usize,
    block: usize,
    limit: u64,
) -> Result<Option<StreamError>, AllocError>
    requires most { 1 ≤ most }
    requires limit { limit ≤ 4294967296 }
    requires some { 1 ≤ block }
    requires few { block ≤ MAX_BLOCK }
{
    let mut shelf = shelf_of(alloc, file, most)?;
    let team = Team {
        workers: 2,
        chunk: 256,
        gate: &OpenGate,
    };
    match read_stream(rt, alloc, &team, &mut shelf, "g", limit, block) {
        Ok(_) => Ok(None),
        Err(e) => Ok(Some(e)),
    }
}

#[test]
fn a_fault_is_the_same_however_the_file_is_cut(rt: HostRuntime) -> Result<(), Fail> {
    for (file, kind, token, at) in FAULTY {
        for (most, block) in [(1, 1), (5, 3), (1, 4_194_304), (5, 4_194_304), (5, 1)] {
            assert!(rt; 1 <= most && 1 <= block && block <= MAX_BLOCK);
            let fault = Fault { kind, token, at };
            let refusal = refusal_of(&rt, rt.alloc(), file.as_bytes(), most, block, 1000)?;
            assert_eq!(rt; refusal, Some(StreamError::Bad(fault)), "{file} by {block}");
        }
        match read_graph(rt.alloc(), file.as_bytes(), 1000) {
            Ok(_) => panic!(rt; "{file} was read"),
            Err(e) => assert_eq!(rt; e, ReadError::Bad(Fault { kind, token, at }), "{file}"),
        }
    }
    Ok(())
}

#[test]
fn a_long_file_is_read_by_two_workers(rt: HostRuntime) -> Result<(), Fail> {
    let mut text = String::from_str(rt.alloc(), "AdjacencyGraph 1 99999 0")?;
    for _ in 0..99_998 {
        text.push_str(" 0")?;
    }
    text.push_str(" 00")?;
    let whole = refusal_of(
        &rt,
        rt.alloc(),
        text.as_bytes(),
        1_000_000,
        400_000,
        1_000_000,
    )?;
    assert!(rt; whole.is_none());
    text.push_str("1")?;
    let refusal = refusal_of(
        &rt,
        rt.alloc(),
        text.as_bytes(),
        1_000_000,
        150_000,
        1_000_000,
    )?;
    let fault = Fault {
        kind: FaultKind::TargetRange,
        token: 100_002,
        at: 200_021,
    };
    assert_eq!(rt; refusal, Some(StreamError::Bad(fault)));
    Ok(())
}

#[test]
fn a_file_that_is_too_long_has_no_other_fault(rt: HostRuntime) -> Result<(), Fail> {
    let too_long = Fault {
        kind: FaultKind::TooLong,
        token: 0,
        at: 17,
    };
    for file in ["AdjacencyGraph 0 0", "adjacencygraph 0 0 "] {
        let refusal = refusal_of(&rt, rt.alloc(), file.as_bytes(), 5, 4, 17)?;
        assert_eq!(rt; refusal, Some(StreamError::Bad(too_long)));
    }
    let read = refusal_of(&rt, rt.alloc(), b"AdjacencyGraph 0 0", 5, 4, 18)?;
    assert!(rt; read.is_none());
    Ok(())
}
