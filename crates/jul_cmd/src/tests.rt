//! Whole runs on small graphs. Distances, verdicts and the places of faults were worked out by hand.
use crate::Status;
use crate::trials::{
    APART, FAR, LOOP, LOWERED_FROM_TWO, LOWERED_TWICE, LOWERED_TWICE_TREE, NO_WEIGHTS, NOTHING,
    OVERLAPPING, OVERLAPPING_COVER, TRIANGLE, TRIANGLE_CORES, TWO_SETS, TWO_SETS_COVER,
    TWO_TRIANGLES, TWO_TRIANGLES_CORES, TWO_WAYS, TWO_WAYS_TREE, expect_answer, outcome_of,
    outcome_with, trial_of,
};
use jul_base::CountGate;
use std::alloc::{AllocError, Global};
use std::test::Fail;
use std::thread::Threads;

/// Words, the graph file, and the text that is written.
const RESULTS: [(&str, &str, &str); 24] = [
    ("wbfs --bare --source 0 g", TWO_WAYS, "0\n3\n1\n"),
    (
        "wbfs --bare --source 0 g",
        "WeightedAdjacencyGraph 3 3 0 1 2 1 2 1 0 0 0",
        "0\n0\n0\n",
    ),
    ("wbfs --bare --source 0 g", APART, "0\n1\n-\n"),
    (
        "wbfs --bare --source 0 g",
        FAR,
        "0\n4294967295\n8589934590\n",
    ),
    // The width of buckets changes no distance.
    ("delta --bare --source 0 --delta 1 g", TWO_WAYS, "0\n3\n1\n"),
    ("delta --bare --source 0 --delta 3 g", TWO_WAYS, "0\n3\n1\n"),
    (
        "delta --bare --source 0 --delta 4294967295 g",
        TWO_WAYS,
        "0\n3\n1\n",
    ),
    ("kcore g", TRIANGLE, TRIANGLE_CORES),
    ("kcore g", TWO_TRIANGLES, TWO_TRIANGLES_CORES),
    ("kcore g --bare", TRIANGLE, "2\n2\n2\n1\n"),
    ("kcore g", LOOP, "Cores2\n1 1\n1 0\n"),
    ("wbfs g --source=0", TWO_WAYS, TWO_WAYS_TREE),
    (
        "wbfs g",
        APART,
        "Distances2\n3 1\n1 0\n0 0 -\n1 1 0\n- - -\n",
    ),
    ("--delta 10 delta g", LOWERED_TWICE, LOWERED_TWICE_TREE),
    ("wbfs g --source 2,0,2", LOWERED_TWICE, LOWERED_FROM_TWO),
    ("cover g", NOTHING, "Cover2\n0 0\n"),
    (
        "cover g",
        "AdjacencyGraph 2 0 0 0",
        "Cover2\n2 0\n- -\n- -\n",
    ),
    ("cover g", LOOP, "Cover2\n1 1\n0 0\n"),
    ("cover g", TWO_SETS, TWO_SETS_COVER),
    ("cover g", OVERLAPPING, OVERLAPPING_COVER),
    ("cover g --bare", OVERLAPPING, "-\n-\n-\n-\n0\n0\n0\n0\n1\n"),
    (
        "demo kcore --n 1 --pairs 3 --seed 7",
        "",
        "kcore n 1 m 6 max 6 top 1\n",
    ),
    (
        "demo wbfs --n 5 --pairs 0 --seed 0",
        "",
        "wbfs n 5 m 0 reached 1 max 0\n",
    ),
    (
        "demo cover --n 1 --pairs 3 --seed 7",
        "",
        "cover n 1 m 6 chosen 1 covered 1\n",
    ),
];

#[test]
fn results_are_written_whole_and_bare(rt: HostRuntime) -> Result<(), Fail> {
    for (words, file, text) in RESULTS {
        expect_answer(&rt, rt.alloc(), &trial_of(words, file, ""), 0, text, "")?;
    }
    Ok(())
}

/// Words, the graph file, the witness file, the exit code and the verdict, or the text of an upgrade.
const VERDICTS: [(&str, &str, &str, u8, &str); 20] = [
    ("check g w --source 0", TRIANGLE, TRIANGLE_CORES, 0, "yes\n"),
    (
        "check g w --source 0",
        TRIANGLE,
        "Cores 4 2 1 2 1 2 1 2 0",
        1,
        "no 3 LowerBound\n",
    ),
    (
        "check g w --source 0",
        TRIANGLE,
        "Cores 4 0 0 0 0 0 0 0 0",
        1,
        "no 0 UpperBound\n",
    ),
    ("check g w --source 9", LOOP, "Cores 1 1 7", 0, "yes\n"),
    (
        "check g w --source 0",
        NO_WEIGHTS,
        "Distances 3 0 0 - 3 1 2 3 2 1",
        1,
        "no 1 Parent\n",
    ),
    (
        "check g w --source 0",
        APART,
        "Distances 3 0 0 - 1 1 0 - - 1",
        1,
        "no 2 Unreached\n",
    ),
    (
        "check g w --source 1",
        TWO_WAYS,
        "Distances 3 - - - 0 0 - - - -",
        0,
        "yes\n",
    ),
    ("check g w --source 0", TWO_SETS, TWO_SETS_COVER, 0, "yes\n"),
    (
        "check g w --source 0",
        TWO_SETS,
        "Cover 5 0 - 0 - - 0 - 0 - 0",
        1,
        "no 4 NotHeld\n",
    ),
    ("check g w --source 0", NOTHING, "Cover 0", 0, "yes\n"),
    // A sum that exceeds 2^64 - 1 isn't wrapped.
    (
        "check g w --source 2",
        "WeightedAdjacencyGraph 3 1 0 1 1 1 4294967295",
        "Distances 3 18446744073709551614 1 2 18446744073709551614 1 2 0 0 -",
        1,
        "no 0 Parent\n",
    ),
    ("check g w", LOWERED_TWICE, LOWERED_FROM_TWO, 0, "yes\n"),
    (
        "check g w --source=2,00,2",
        LOWERED_TWICE,
        LOWERED_FROM_TWO,
        0,
        "yes\n",
    ),
    (
        "upgrade g w",
        TRIANGLE,
        "Cores 4 2 1 2 1 2 1 1 0",
        0,
        TRIANGLE_CORES,
    ),
    (
        "upgrade g w",
        TRIANGLE,
        "Cores 4 2 1 2 1 2 1 2 0",
        1,
        "no 3 LowerBound\n",
    ),
    // Levels are taken as they are where they bear the cores out.
    ("upgrade g w", LOOP, "Cores 1 1 7", 0, "Cores2\n1 1\n1 7\n"),
    (
        "upgrade g w",
        TWO_WAYS,
        "Distances 3 0 0 - 3 2 2 1 1 0",
        0,
        TWO_WAYS_TREE,
    ),
    (
        "upgrade g w --source 2,0",
        LOWERED_TWICE,
        "Distances 4 0 0 - 6 1 2 0 0 - 11 2 1",
        0,
        LOWERED_FROM_TWO,
    ),
    (
        "upgrade g w",
        LOWERED_TWICE,
        LOWERED_FROM_TWO,
        0,
        LOWERED_FROM_TWO,
    ),
    (
        "upgrade g w",
        TWO_SETS,
        "Cover 5 0 - 0 - - 0 - 0 - 1",
        0,
        TWO_SETS_COVER,
    ),
];

#[test]
fn witnesses_are_judged_and_upgraded(rt: HostRuntime) -> Result<(), Fail> {
    for (words, graph, witness, code, text) in VERDICTS {
        let trial = trial_of(words, graph, witness);
        expect_answer(&rt, rt.alloc(), &trial, code, text, "")?;
    }
    Ok(())
}

/// Words, the graph file, the witness file, the exit code and the line on standard error.
const REFUSALS: [(&str, &str, &str, u8, &str); 19] = [
    (
        "wbfs --bare --source 3 g",
        TWO_WAYS,
        "",
        4,
        "source 3 is not below 3\n",
    ),
    (
        "wbfs --bare --source 007 g",
        TWO_WAYS,
        "",
        4,
        "source 7 is not below 3\n",
    ),
    (
        "wbfs --bare --source 9,0,7 g",
        LOWERED_TWICE,
        "",
        4,
        "source 7 is not below 4\n",
    ),
    (
        "wbfs --bare --source 0 g",
        "",
        "",
        3,
        "graph: Truncated at token 0, byte 0\n",
    ),
    (
        "wbfs --bare --source 0 g",
        "AdjacencyGraph 2 1 0 1 1 7",
        "",
        3,
        "graph: Trailing at token 6, byte 25\n",
    ),
    (
        "check g w",
        LOOP,
        "Cores 1 x 0",
        3,
        "witness: Number at token 2, byte 8\n",
    ),
    (
        "check g w",
        LOOP,
        "Cores 1 - 0",
        3,
        "witness: Number at token 2, byte 8\n",
    ),
    (
        "check g w",
        TRIANGLE,
        "Cores 0",
        4,
        "witness size 0, graph size 4\n",
    ),
    (
        "check g w",
        NOTHING,
        "Distances 0",
        4,
        "source 0 is not below 0\n",
    ),
    (
        "check g g",
        LOOP,
        "",
        3,
        "witness: Header at token 0, byte 0\n",
    ),
    ("check g x", LOOP, "", 5, "read fault: witness\n"),
    (
        "check g x",
        "AdjacencyGraph 1 0",
        "",
        3,
        "graph: Truncated at token 3, byte 18\n",
    ),
    (
        "check g w --source 0",
        LOWERED_TWICE,
        LOWERED_FROM_TWO,
        4,
        "sources differ at entry 1\n",
    ),
    (
        "check g w --source 1,0",
        LOWERED_TWICE,
        LOWERED_FROM_TWO,
        4,
        "sources differ at entry 1\n",
    ),
    (
        "upgrade g w --source 0,2,3",
        LOWERED_TWICE,
        LOWERED_FROM_TWO,
        4,
        "sources differ at entry 2\n",
    ),
    (
        "check g w",
        TRIANGLE,
        "Cores2 4 7 2 1 2 1 2 1 1 0",
        4,
        "witness places 7, graph places 8\n",
    ),
    (
        "check g w --source 1",
        LOOP,
        "Distances2 1 2 1 0 0 0 -",
        4,
        "witness places 2, graph places 1\n",
    ),
    (
        "check g w",
        LOOP,
        "Distances2 1 1 2 0 7 0 0 -",
        4,
        "source 7 is not below 1\n",
    ),
    (
        "check g w",
        LOWERED_TWICE,
        "Distances2 4 4 2 2 2",
        3,
        "witness: SourceOrder at token 5, byte 19\n",
    ),
];

#[test]
fn each_refusal_has_its_line(rt: HostRuntime) -> Result<(), Fail> {
    for (words, graph, witness, code, line) in REFUSALS {
        let trial = trial_of(words, graph, witness);
        expect_answer(&rt, rt.alloc(), &trial, code, "", line)?;
    }
    Ok(())
}

const OTHER_WORDS: [&str; 13] = [
    "check - -",
    "check g --source",
    "check g w --bare",
    "upgrade g",
    "upgrade - -",
    "wbfs --bare --source 4294967296 g",
    "wbfs g --source 0,,1",
    "wbfs --bare --source 0 g w",
    "delta --bare --source 0 --delta 0 g",
    "kcore g --source 0",
    "kcore g --chunk 1 --chunk 1",
    "demo peel --n 1 --pairs 0 --seed 0",
    "delta --bare --source 0 g",
];

#[test]
fn other_words_are_not_taken(rt: HostRuntime) -> Result<(), Fail> {
    for words in OTHER_WORDS {
        let outcome = outcome_of(&rt, rt.alloc(), &trial_of(words, TWO_WAYS, ""))?;
        assert_eq!(rt; outcome.status, Status::Usage, "{words}");
        assert!(rt;
            outcome
                .err
                .as_slice()
                .starts_with(b"usage: julienne TASK GRAPH [WITNESS] "),
            "{words}"
        );
    }
    Ok(())
}

/// How many chunks of a run on a graph file passed the gate.
fn passes_of<R: Threads + Sync>(
    rt: &R,
    alloc: Global,
    words: &str,
    file: &str,
) -> Result<u64, AllocError> {
    let gate = CountGate::new();
    outcome_with(rt, alloc, &trial_of(words, file, ""), &gate)?;
    Ok(gate.take())
}

#[test]
fn the_engines_work_through_the_pool(rt: HostRuntime) -> Result<(), Fail> {
    for (words, file, least) in [
        ("kcore g --workers 2 --chunk 1", TWO_TRIANGLES, 6),
        ("delta g --delta 10 --workers 2 --chunk=1", LOWERED_TWICE, 5),
        ("cover g --workers 2 --chunk 1", OVERLAPPING, 3),
    ] {
        let passes = passes_of(&rt, rt.alloc(), words, file)?;
        assert!(rt; passes >= least, "{file}");
    }
    Ok(())
}

#[test]
fn trees_are_made_for_whole_texts_alone(rt: HostRuntime) -> Result<(), Fail> {
    let words = "delta g --delta=10 --workers=2 --chunk=1";
    let whole = passes_of(&rt, rt.alloc(), words, LOWERED_TWICE)?;
    let words = "delta g --delta=10 --workers=2 --chunk=1 --bare";
    let bare = passes_of(&rt, rt.alloc(), words, LOWERED_TWICE)?;
    assert!(rt; whole >= bare && whole - bare >= 3);
    Ok(())
}

#[test]
fn a_large_demo_works_through_the_pool(rt: HostRuntime) -> Result<(), Fail> {
    let words = "demo kcore --n 100000 --pairs 500000 --seed 7 --chunk 1";
    let passes = passes_of(&rt, rt.alloc(), words, "")?;
    assert!(rt; passes >= 90_000);
    let line = "kcore n 100000 m 1000000 max 7 top 74449\n";
    expect_answer(&rt, rt.alloc(), &trial_of(words, "", ""), 0, line, "")?;
    Ok(())
}
