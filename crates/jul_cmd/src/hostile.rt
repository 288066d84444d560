//! Objects that fail at each of their calls in turn, files that are cut, workers that are held, and long numbers.
use crate::trials::{
    FAR, LOWERED_FROM_TWO, LOWERED_TWICE, LOWERED_TWICE_TREE, ONE_WAY, OVERLAPPING,
    OVERLAPPING_COVER, READ_MOST, TRIANGLE, TRIANGLE_CORES, TWO_SETS, TWO_SETS_COVER,
    TWO_TRIANGLES, TWO_TRIANGLES_CORES, TWO_WAYS, TWO_WAYS_TREE, Trial, expect_answer, outcome_of,
    outcome_with, trial_of,
};
use crate::{Status, Which};
use jul_base::Gate;
use std::alloc::{AllocError, Global};
use std::process::Abort;
use std::sync::atomic::{AtomicU64, Ordering};
use std::test::Fail;
use std::thread;
use std::thread::Threads;

/// Tasks: the words, the graph file and the witness file, the whole text that is written, and how many calls of the shelf
/// read the files.
const ROWS: [(&str, &str, &str, &str, u64); 11] = [
    ("kcore g --workers=1", TRIANGLE, "", TRIANGLE_CORES, 11),
    ("kcore g --workers=2", TRIANGLE, "", TRIANGLE_CORES, 11),
    ("kcore g --workers=7", TRIANGLE, "", TRIANGLE_CORES, 11),
    ("wbfs g --workers=1", TWO_WAYS, "", TWO_WAYS_TREE, 12),
    ("wbfs g --workers=2", TWO_WAYS, "", TWO_WAYS_TREE, 12),
    ("wbfs g --workers=7", TWO_WAYS, "", TWO_WAYS_TREE, 12),
    ("cover g --workers=1", TWO_SETS, "", TWO_SETS_COVER, 10),
    ("cover g --workers=2", TWO_SETS, "", TWO_SETS_COVER, 10),
    ("cover g --workers=7", TWO_SETS, "", TWO_SETS_COVER, 10),
    ("check g w", TRIANGLE, TRIANGLE_CORES, "yes\n", 19),
    ("upgrade g w", TRIANGLE, TRIANGLE_CORES, TRIANGLE_CORES, 19),
];

/// More calls than any of the rows makes.
const MANY_CALLS: u64 = 100;

// So many calls open a file of this text and read it to its end.
fn calls_of(text: &str) -> u64 {
    (text.len().div_ceil(READ_MOST) as u64).saturating_add(2)
}

/// Ends the test where a call of the shelf that fails isn't told, with the file that is being read.
fn expect_read_faults<R: Threads + Sync + Abort>(
    rt: &R,
    alloc: Global,
    mut trial: Trial<'_, '_, '_>,
    text: &str,
    calls: u64,
) -> Result<(), AllocError> {
    for call in 1..MANY_CALLS {
        trial.read_fails = call;
        let outcome = outcome_of(rt, alloc, &trial)?;
        if outcome.status == Status::Done {
            assert_eq!(rt; outcome.out.as_slice(), text.as_bytes());
            assert_eq!(rt; call - 1, calls, "{call}");
            return Ok(());
        }
        let (file, line) = if call <= calls_of(trial.graph) {
            (Which::Graph, "read fault: graph\n")
        } else {
            (Which::Witness, "read fault: witness\n")
        };
        assert_eq!(rt; outcome.status, Status::ReadFault { file }, "{call}");
        assert_eq!(rt; outcome.out.len(), 0, "{call}");
        assert_eq!(rt; outcome.err.as_slice(), line.as_bytes(), "{call}");
    }
    assert!(rt; false, "no run of {MANY_CALLS} comes to its end");
    Ok(())
}

#[test]
fn each_failing_read_is_told(rt: HostRuntime) -> Result<(), Fail> {
    for (words, graph, witness, text, calls) in ROWS {
        let trial = trial_of(words, graph, witness);
        expect_read_faults(&rt, rt.alloc(), trial, text, calls)?;
    }
    Ok(())
}

/// Ends the test where a write of the answer that fails isn't told, or where other bytes stand before it.
fn expect_write_faults<R: Threads + Sync + Abort>(
    rt: &R,
    alloc: Global,
    mut trial: Trial<'_, '_, '_>,
    text: &str,
) -> Result<(), AllocError> {
    trial.write_most = 3;
    for call in 1..MANY_CALLS {
        trial.write_fails = call;
        let outcome = outcome_of(rt, alloc, &trial)?;
        let out = outcome.out.as_slice();
        if outcome.status == Status::Done {
            assert_eq!(rt; out, text.as_bytes());
            return Ok(());
        }
        assert_eq!(rt; outcome.status, Status::WriteFault, "{call}");
        assert_eq!(rt; out.len() as u64, 3 * (call - 1), "{call}");
        assert!(rt;
            out.len() < text.len() && text.as_bytes().starts_with(out),
            "{call}"
        );
        assert_eq!(rt;
            outcome.err.as_slice(),
            b"write fault\n".as_slice(),
            "{call}"
        );
    }
    assert!(rt; false, "no run of {MANY_CALLS} comes to its end");
    Ok(())
}

#[test]
fn each_failing_write_is_told(rt: HostRuntime) -> Result<(), Fail> {
    for (words, graph, witness, text, _) in ROWS {
        let trial = trial_of(words, graph, witness);
        expect_write_faults(&rt, rt.alloc(), trial, text)?;
    }
    Ok(())
}

/// Ends the test where an object that fails isn't told, by words for a file that is there and words for one that isn't.
fn expect_failing_objects<'w, R: Threads + Sync + Abort>(
    rt: &R,
    alloc: Global,
    here: &'w str,
    elsewhere: &'w str,
) -> Result<(), AllocError> {
    let cores = trial_of(here, TRIANGLE, "");
    let missing = trial_of(elsewhere, TRIANGLE, "");
    let one_way = trial_of(here, ONE_WAY, "");
    let full = Trial {
        write_most: 1,
        room: 10,
        ..cores
    };
    let unwritten = Trial {
        write_fails: 2,
        ..cores
    };
    let silent = Trial {
        message_fails: 1,
        ..unwritten
    };
    let unheard = Trial {
        message_fails: 1,
        ..one_way
    };
    for (trial, code, out, err) in [
        (missing, 5, "", "read fault: graph\n"),
        (full, 6, "Cores2\n4 8", "write fault\n"),
        (unwritten, 6, "Core", "write fault\n"),
        (silent, 6, "Core", ""),
        (one_way, 4, "", "asymmetric at place 0\n"),
        (unheard, 4, "", ""),
    ] {
        expect_answer(rt, alloc, &trial, code, out, err)?;
    }
    Ok(())
}

#[test]
fn other_failing_objects_are_told(rt: HostRuntime) -> Result<(), Fail> {
    for (here, elsewhere) in [
        ("kcore g --workers=1", "kcore x --workers=1"),
        ("kcore g --workers=2", "kcore x --workers=2"),
        ("kcore g --workers=7", "kcore x --workers=7"),
    ] {
        expect_failing_objects(&rt, rt.alloc(), here, elsewhere)?;
    }
    Ok(())
}

/// Ends the test where a file that ends behind so many tokens isn't refused as cut there.
fn expect_truncated<R: Threads + Sync + Abort>(
    rt: &R,
    alloc: Global,
    trial: &Trial<'_, '_, '_>,
    file: &str,
    token: usize,
    at: usize,
) -> Result<(), AllocError> {
    let line = format!(in alloc; "{file}: Truncated at token {token}, byte {at}\n")?;
    expect_answer(rt, alloc, trial, 3, "", line.as_str())
}

/// Ends the test where one of the cuts of a text, with a space between each two tokens, isn't refused.
fn expect_cuts<R: Threads + Sync + Abort>(
    rt: &R,
    alloc: Global,
    words: &str,
    file: Which,
    text: &str,
) -> Result<(), AllocError> {
    let mut cut = String::new(alloc);
    for (token, word) in text.split_whitespace().enumerate() {
        let at = cut.len();
        match file {
            Which::Graph => {
                let trial = trial_of(words, cut.as_str(), TRIANGLE_CORES);
                expect_truncated(rt, alloc, &trial, "graph", token, at)?;
            }
            Which::Witness => {
                let trial = trial_of(words, TRIANGLE, cut.as_str());
                expect_truncated(rt, alloc, &trial, "witness", token, at)?;
            }
        }
        if token > 0 {
            cut.push_str(" ")?;
        }
        cut.push_str(word)?;
    }
    Ok(())
}

/// Words, and a file of theirs that is cut.
const CUT: [(&str, Which, &str); 12] = [
    ("kcore g --workers=1", Which::Graph, TRIANGLE),
    ("kcore g --workers=2", Which::Graph, TRIANGLE),
    ("kcore g --workers=7", Which::Graph, TRIANGLE),
    ("wbfs g --workers=1", Which::Graph, TWO_WAYS),
    ("wbfs g --workers=2", Which::Graph, TWO_WAYS),
    ("wbfs g --workers=7", Which::Graph, TWO_WAYS),
    ("cover g --workers=1", Which::Graph, FAR),
    ("cover g --workers=2", Which::Graph, FAR),
    ("cover g --workers=7", Which::Graph, FAR),
    ("check g w", Which::Graph, TRIANGLE),
    ("check g w", Which::Witness, TRIANGLE_CORES),
    ("upgrade g w", Which::Witness, LOWERED_FROM_TWO),
];

#[test]
fn each_cut_of_a_file_is_told(rt: HostRuntime) -> Result<(), Fail> {
    for (words, file, text) in CUT {
        expect_cuts(&rt, rt.alloc(), words, file, text)?;
    }
    Ok(())
}

/// So many turns a held worker waits at a pass.
const TURNS: u64 = 1000;

/// So many turns the held workers wait in all: some are left once a graph is made.
const ALL_TURNS: u64 = 10_000;

/// Holds the workers below a number for the first turns.
#[derive(Drop)]
struct HoldGate {
    held: u32,
    turns: AtomicU64,
}

impl Gate for HoldGate {
    fn pass(&self, worker: u32, _chunk: u32) {
        if worker >= self.held {
            return;
        }
        for _ in 0..TURNS {
            if self.turns.fetch_add(1, Ordering::SeqCst) >= ALL_TURNS {
                return;
            }
            thread::yield_now();
        }
    }
}

/// Tasks: the words, the graph file and the whole text that is written. The rounds of the files are so small that worker 0
/// runs them alone, whatever the words say; those of the demos aren't.
const HELD: [(&str, &str, &str); 6] = [
    (
        "delta g --delta=10 --chunk=1",
        LOWERED_TWICE,
        LOWERED_TWICE_TREE,
    ),
    ("kcore g --chunk=1", TWO_TRIANGLES, TWO_TRIANGLES_CORES),
    ("cover g --chunk=1", OVERLAPPING, OVERLAPPING_COVER),
    (
        "demo delta --n=20000 --pairs=60000 --seed=7 --delta=10",
        "",
        "delta n 20000 m 120000 reached 19956 max 329\n",
    ),
    (
        "demo kcore --n=20000 --pairs=60000 --seed=7",
        "",
        "kcore n 20000 m 120000 max 4 top 15774\n",
    ),
    (
        "demo cover --n=20000 --pairs=60000 --seed=7",
        "",
        "cover n 20000 m 120000 chosen 5097 covered 19956\n",
    ),
];

/// Ends the test where the text of a task changes because those of so many workers that are below a number are held.
fn expect_unchanged<R: Threads + Sync + Abort>(
    rt: &R,
    alloc: Global,
    task: (&str, &str, &str),
    workers: u32,
    held: u32,
) -> Result<(), AllocError> {
    let (words, graph, text) = task;
    let words = format!(in alloc; "{words} --workers={workers}")?;
    let gate = HoldGate {
        held,
        turns: AtomicU64::new(0),
    };
    let outcome = outcome_with(rt, alloc, &trial_of(words.as_str(), graph, ""), &gate)?;
    assert_eq!(rt; outcome.status, Status::Done, "{text}");
    assert_eq!(rt; outcome.out.as_slice(), text.as_bytes(), "{held}");
    Ok(())
}

// Worker 0, and every worker but the last.
#[test]
fn held_workers_change_nothing(rt: HostRuntime) -> Result<(), Fail> {
    for (workers, held) in [(1, 1), (2, 1), (7, 1), (7, 6)] {
        for task in HELD {
            expect_unchanged(&rt, rt.alloc(), task, workers, held)?;
        }
    }
    Ok(())
}

#[test]
fn a_weight_may_have_many_zeros(rt: HostRuntime) -> Result<(), Fail> {
    let mut text = String::from_str(rt.alloc(), "WeightedAdjacencyGraph 2 1 0 1 1 ")?;
    for _ in 0..100_000 {
        text.push_str("0000000000")?;
    }
    text.push_str("7")?;
    let trial = trial_of("wbfs g --bare", text.as_str(), "");
    expect_answer(&rt, rt.alloc(), &trial, 0, "0\n7\n", "")?;
    Ok(())
}
