//! Worked lists of words, run.
use crate::{Form, Input, Problem, Purpose, Query, Settings, Task, Work, parse_words};
use std::alloc::{AllocError, Global};
use std::test::Fail;

const USUAL: Settings = Settings {
    open_buckets: 128,
    workers: 4,
    chunk: 256,
};

// Whether the words ask for what is wanted.
fn asks(alloc: Global, words: &[&str], wanted: Option<Query<'_>>) -> Result<bool, AllocError> {
    let mut texts = Vec::new(alloc);
    for word in words {
        texts.push(String::from_str(alloc, word)?)?;
    }
    Ok(parse_words(alloc, texts.as_slice())? == wanted)
}

fn run_of(graph: &str, problem: Problem, form: Form) -> Option<Query<'_>> {
    Some(Query {
        input: Input::GraphFile(graph),
        work: Work::Solve(problem, form),
        settings: USUAL,
    })
}

// Least distances by buckets 1 wide.
fn distances(alloc: Global, sources: &[u32]) -> Result<Problem, AllocError> {
    Ok(Problem::Distances {
        sources: sources.to_vec(alloc)?,
        delta: 1,
    })
}

fn judge_of<'a>(
    purpose: Purpose,
    graph: &'a str,
    witness: &'a str,
    sources: Option<Vec<u32>>,
) -> Option<Query<'a>> {
    Some(Query {
        input: Input::GraphFile(graph),
        work: Work::Judge {
            purpose,
            witness,
            sources,
        },
        settings: USUAL,
    })
}

// Whether the least distances are asked for, from these sources, by words with this text of `--source`.
fn lists(alloc: Global, text: &str, sources: &[u32]) -> Result<bool, AllocError> {
    let wanted = run_of("g", distances(alloc, sources)?, Form::Whole);
    asks(alloc, &["wbfs", "g", "--source", text], wanted)
}

// The numbers from 0 up, in falling order, with a comma between each two.
fn falling(alloc: Global, count: u32) -> Result<String, AllocError> {
    let mut text = String::new(alloc);
    for number in (1..count).rev() {
        text.push_str(format!(in alloc; "{number},")?.as_str())?;
    }
    text.push_str("0")?;
    Ok(text)
}

#[test]
fn options_and_positionals_are_mixed(rt: HostRuntime) -> Result<(), Fail> {
    let alloc = rt.alloc();
    let wanted = Some(Query {
        input: Input::GraphFile("g"),
        work: Work::Solve(Problem::Cores, Form::Whole),
        settings: Settings {
            open_buckets: 128,
            workers: 2,
            chunk: 1,
        },
    });
    let words = ["--workers=2", "kcore", "g", "--chunk", "1"];
    assert!(rt; asks(alloc, &words, wanted)?);
    let zero = distances(alloc, &[0])?;
    assert!(rt; asks(alloc, &["wbfs", "g"], run_of("g", zero, Form::Whole))?);
    let words = ["--bare", "cover", "-"];
    assert!(rt; asks(alloc, &words, run_of("-", Problem::Cover, Form::Bare))?);
    let words = ["kcore", ""];
    assert!(rt; asks(alloc, &words, run_of("", Problem::Cores, Form::Whole))?);
    Ok(())
}

#[test]
fn sources_are_the_distinct_numbers_of_a_list(rt: HostRuntime) -> Result<(), Fail> {
    let alloc = rt.alloc();
    assert!(rt; lists(alloc, "007", &[7])?);
    assert!(rt; lists(alloc, "2,0,2,4294967295,00", &[0, 2, 4_294_967_295])?);
    for text in [
        "",
        ",",
        "0,,1",
        "0,",
        ",0",
        "0, 1",
        "0,+1",
        "0,4294967296",
        "1;2",
    ] {
        assert!(rt; asks(alloc, &["wbfs", "g", "--source", text], None)?);
    }
    Ok(())
}

#[test]
fn a_list_has_at_most_1024_numbers(rt: HostRuntime) -> Result<(), Fail> {
    let alloc = rt.alloc();
    let all: Vec<u32> = (0..1_024).collect(alloc)?;
    let text = falling(alloc, 1_024)?;
    assert!(rt; lists(alloc, text.as_str(), all.as_slice())?);
    let text = falling(alloc, 1_025)?;
    assert!(rt; asks(alloc, &["wbfs", "g", "--source", text.as_str()], None)?);
    // They are counted before repeats are dropped.
    let text = "7,".repeat(alloc, 1_024)?;
    let text = format!(in alloc; "{text}7")?;
    assert!(rt; asks(alloc, &["wbfs", "g", "--source", text.as_str()], None)?);
    Ok(())
}

#[test]
fn a_check_has_two_files_and_maybe_sources(rt: HostRuntime) -> Result<(), Fail> {
    let alloc = rt.alloc();
    let words = ["check", "--", "--bare", "-g"];
    let wanted = judge_of(Purpose::Check, "--bare", "-g", None);
    assert!(rt; asks(alloc, &words, wanted)?);
    let words = ["check", "-", "w", "--source", "3,1"];
    let sources = [1, 3].to_vec(alloc)?;
    let wanted = judge_of(Purpose::Check, "-", "w", Some(sources));
    assert!(rt; asks(alloc, &words, wanted)?);
    assert!(rt; asks(alloc, &["check", "-", "-"], None)?);
    assert!(rt; asks(alloc, &["check", "g", "w", "x"], None)?);
    assert!(rt; asks(alloc, &["check", "g", "w", "--workers", "4"], None)?);
    Ok(())
}

#[test]
fn an_upgrade_has_the_words_of_a_check(rt: HostRuntime) -> Result<(), Fail> {
    let alloc = rt.alloc();
    let wanted = judge_of(Purpose::Upgrade, "g", "-", None);
    assert!(rt; asks(alloc, &["upgrade", "g", "-"], wanted)?);
    let sources = [0, 5].to_vec(alloc)?;
    let wanted = judge_of(Purpose::Upgrade, "-", "w", Some(sources));
    assert!(rt; asks(alloc, &["upgrade", "-", "--source=5,0", "w"], wanted)?);
    assert!(rt; asks(alloc, &["upgrade", "-", "-"], None)?);
    assert!(rt; asks(alloc, &["upgrade", "g"], None)?);
    assert!(rt; asks(alloc, &["upgrade", "g", "w", "--bare"], None)?);
    assert!(rt; asks(alloc, &["upgrade", "g", "w", "--delta", "1"], None)?);
    assert!(rt; asks(alloc, &["upgrade", "g", "w", "--source", "0,,1"], None)?);
    Ok(())
}

#[test]
fn a_demo_names_its_graph(rt: HostRuntime) -> Result<(), Fail> {
    let alloc = rt.alloc();
    let words = [
        "demo", "delta", "--delta", "5", "--n", "5", "--pairs", "0", "--seed", "0",
    ];
    let problem = Problem::Distances {
        sources: [0].to_vec(alloc)?,
        delta: 5,
    };
    let wanted = Some(Query {
        input: Input::Generated {
            n: 5,
            pairs: 0,
            seed: 0,
        },
        work: Work::Solve(problem, Form::Summary(Task::Delta)),
        settings: USUAL,
    });
    assert!(rt; asks(alloc, &words, wanted)?);
    let words = ["demo", "peel", "--n", "1", "--pairs", "0", "--seed", "0"];
    assert!(rt; asks(alloc, &words, None)?);
    let words = ["kcore", "g", "--n", "1"];
    assert!(rt; asks(alloc, &words, None)?);
    Ok(())
}

#[test]
fn other_words_are_refused(rt: HostRuntime) -> Result<(), Fail> {
    let alloc = rt.alloc();
    assert!(rt; asks(alloc, &[], None)?);
    assert!(rt; asks(alloc, &["kcore", "g", "--chunk", "1", "--chunk", "1"], None)?);
    assert!(rt; asks(alloc, &["wbfs", "g", "--source", "-1"], None)?);
    assert!(rt; asks(alloc, &["wbfs", "g", "--source=+1"], None)?);
    assert!(rt; asks(alloc, &["wbfs", "g", "--source", "--"], None)?);
    assert!(rt; asks(alloc, &["wbfs", "g", "--sour", "0"], None)?);
    assert!(rt; asks(alloc, &["--bare=true", "cover", "-"], None)?);
    assert!(rt; asks(alloc, &["--help"], None)?);
    assert!(rt; asks(alloc, &["kcore", "g", "--workers", "65"], None)?);
    Ok(())
}
