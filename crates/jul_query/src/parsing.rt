//! What the words ask for.
ghost use Rattle.std.specs.Prelude.{◌≡◌, ◌&&◌, ◌≤◌, not, map, string_bytes, option_map, IfOk, IfSome, Option, Some, None};
ghost use Rattle.jul_query.specs.CommandLines.{split_by, text_of};
ghost use Rattle.jul_query.specs.Words.{task_of, has_no_source, problem_asked, has_no_generator, form_asked};
ghost use Rattle.jul_query.specs.Words.{asked_run, is_plain_check, are_two_files, asked_judgement, asked_check};
ghost use Rattle.jul_query.specs.Words.{generated_asked, asked_named, asked_demo, asked_as, asked_split, asked};
ghost use Rattle.jul_query.specs.Asking.{IsAsked, input_of, problem_of, form_of, purpose_of, asked_of, asked_by};
ghost use Rattle.jul_query.specs.Ranges.{IsInputInRange, IsProblemInRange, IsWorkInRange, IsInRange, AreSourcesOf};
ghost use Rattle.jul_query.specs.Settings.{HasWidth, HasWidthOf, HasSettings, HasSettingsOf};

use crate::command_line::{CommandLine, split_words};
use crate::counting::is_counted_twice;
use crate::numbers::{number, wide_number};
use crate::queries::{Form, Input, Problem, Purpose, Query, Task, Work};
use crate::settings::{has_no_settings, read_settings};
use crate::sources::{if_named, read_sources};
use jul_base::MAX_N;
use std::alloc::{AllocError, Global};

const MAX_DELTA: u32 = u32::MAX;

const MAX_PAIRS: u32 = 67_108_864;

const MAX_SEED: u64 = u64::MAX;

// ---- the problem

fn task_of(name: &str) -> Option<Task>
    ensures { result ≡ task_of name.now }
{
    match name {
        "wbfs" => Some(Task::Wbfs),
        "delta" => Some(Task::Delta),
        "kcore" => Some(Task::Kcore),
        "cover" => Some(Task::Cover),
        _ => None,
    }
}

// The buckets of the weighted breadth-first search are 1 wide.
fn wbfs_problem(line: &CommandLine<'_>, sources: Vec<u32>) -> Option<Problem>
    requires { AreSourcesOf (split_by line.now) sources.items }

    ensures asked { option_map problem_of result ≡ problem_asked Task.Wbfs (split_by line.now) }
    ensures width { IfSome result (HasWidth (split_by line.now)) }
    ensures ranges { IfSome result IsProblemInRange }
{
    if line.delta.is_some() {
        return None;
    }
    Some(Problem::Distances { sources, delta: 1 })
}

fn delta_problem(line: &CommandLine<'_>, sources: Vec<u32>) -> Option<Problem>
    requires { AreSourcesOf (split_by line.now) sources.items }

    ensures asked { option_map problem_of result ≡ problem_asked Task.Delta (split_by line.now) }
    ensures width { IfSome result (HasWidth (split_by line.now)) }
    ensures ranges { IfSome result IsProblemInRange }
{
    let delta = number(line.delta, 1, MAX_DELTA)?;
    Some(Problem::Distances { sources, delta })
}

fn has_no_source(line: &CommandLine<'_>) -> bool
    ensures { result ≡ has_no_source (split_by line.now) }
{
    line.source.is_none() && line.delta.is_none()
}

// What is to be found for a task. `--delta` is for the task delta alone, which requires it.
fn read_problem(task: Task, line: &CommandLine<'_>, sources: Vec<u32>) -> Option<Problem>
    requires { AreSourcesOf (split_by line.now) sources.items }

    ensures asked { option_map problem_of result ≡ problem_asked task (split_by line.now) }
    ensures width { IfSome result (HasWidth (split_by line.now)) }
    ensures ranges { IfSome result IsProblemInRange }
{
    match task {
        Task::Wbfs => wbfs_problem(line, sources),
        Task::Delta => delta_problem(line, sources),
        Task::Kcore if has_no_source(line) => Some(Problem::Cores),
        Task::Cover if has_no_source(line) => Some(Problem::Cover),
        Task::Kcore | Task::Cover => None,
    }
}

// ---- a run over a graph file

fn has_no_generator(line: &CommandLine<'_>) -> bool
    ensures { result ≡ has_no_generator (split_by line.now) }
{
    line.n.is_none() && line.pairs.is_none() && line.seed.is_none()
}

fn read_form(line: &CommandLine<'_>) -> Form
    ensures { form_of result ≡ form_asked (split_by line.now) }
{
    if line.bare { Form::Bare } else { Form::Whole }
}

fn read_run<'a>(
    task: Task,
    graph: &'a str,
    line: &CommandLine<'a>,
    sources: Vec<u32>,
) -> Option<(Input<'a>, Work<'a>)>
    requires { AreSourcesOf (split_by line.now) sources.items }

    ensures asked { option_map asked_of result ≡ asked_run task graph.entry.now (split_by line.now) }
    ensures width { IfSome result (λ r. HasWidthOf (split_by line.now) r.1) }
    ensures ranges { IfSome result (λ r. IsInputInRange r.0 × IsWorkInRange r.1) }
{
    if line.witness.is_some() || !has_no_generator(line) {
        return None;
    }
    let problem = read_problem(task, line, sources)?;
    Some((
        Input::GraphFile(graph),
        Work::Solve(problem, read_form(line)),
    ))
}

// A run of the task that a word names.
fn read_named_run<'a>(
    name: &str,
    graph: &'a str,
    line: &CommandLine<'a>,
    sources: Vec<u32>,
) -> Option<(Input<'a>, Work<'a>)>
    requires { AreSourcesOf (split_by line.now) sources.items }

    ensures asked { option_map asked_of result ≡ asked_named name.now graph.entry.now (split_by line.now) }
    ensures width { IfSome result (λ r. HasWidthOf (split_by line.now) r.1) }
    ensures ranges { IfSome result (λ r. IsInputInRange r.0 × IsWorkInRange r.1) }
{
    read_run(task_of(name)?, graph, line, sources)
}

// ---- a check, and an upgrade

// Whether nothing but sources is said of a check or an upgrade.
fn is_plain_check(line: &CommandLine<'_>) -> bool
    ensures { result ≡ is_plain_check (split_by line.now) }
{
    line.delta.is_none() && !line.bare && has_no_settings(line) && has_no_generator(line)
}

fn read_files<'a>(
    purpose: Purpose,
    graph: &'a str,
    line: &CommandLine<'a>,
    witness: &'a str,
    sources: Vec<u32>,
) -> Option<(Input<'a>, Work<'a>)>
    requires { AreSourcesOf (split_by line.now) sources.items }

    ensures asked { option_map asked_of result ≡
        asked_judgement (purpose_of purpose) graph.entry.now (split_by line.now) witness.entry.now }
    ensures width { IfSome result (λ r. HasWidthOf (split_by line.now) r.1) }
    ensures ranges { IfSome result (λ r. IsInputInRange r.0 × IsWorkInRange r.1) }
{
    // Standard input can be read once only.
    if graph == "-" && witness == "-" {
        return None;
    }
    let sources = if_named(line, sources);
    Some((
        Input::GraphFile(graph),
        Work::Judge {
            purpose,
            witness,
            sources,
        },
    ))
}

fn read_check<'a>(
    purpose: Purpose,
    graph: &'a str,
    line: &CommandLine<'a>,
    sources: Vec<u32>,
) -> Option<(Input<'a>, Work<'a>)>
    requires { AreSourcesOf (split_by line.now) sources.items }

    ensures asked { option_map asked_of result ≡
        asked_check (purpose_of purpose) graph.entry.now (split_by line.now) }
    ensures width { IfSome result (λ r. HasWidthOf (split_by line.now) r.1) }
    ensures ranges { IfSome result (λ r. IsInputInRange r.0 × IsWorkInRange r.1) }
{
    if !is_plain_check(line) {
        return None;
    }
    read_files(purpose, graph, line, line.witness?, sources)
}

// ---- a demo

// The graph that is to be made.
fn read_generated<'a>(line: &CommandLine<'_>) -> Option<Input<'a>>
    ensures asked { option_map input_of result ≡ generated_asked (split_by line.now) }
    ensures ranges { IfSome result IsInputInRange }
{
    let n = number(line.n, 1, MAX_N)?;
    let pairs = number(line.pairs, 0, MAX_PAIRS)?;
    let seed = wide_number(line.seed, 0, MAX_SEED)?;
    Some(Input::Generated { n, pairs, seed })
}

// The second positional names the task of the demo.
fn read_demo<'a>(
    name: &str,
    line: &CommandLine<'_>,
    sources: Vec<u32>,
) -> Option<(Input<'a>, Work<'a>)>
    requires { AreSourcesOf (split_by line.now) sources.items }

    ensures asked { option_map asked_of result ≡ asked_demo name.now (split_by line.now) }
    ensures width { IfSome result (λ r. HasWidthOf (split_by line.now) r.1) }
    ensures ranges { IfSome result (λ r. IsInputInRange r.0 × IsWorkInRange r.1) }
{
    if line.witness.is_some() || line.bare {
        return None;
    }
    let task = task_of(name)?;
    let problem = read_problem(task, line, sources)?;
    let input = read_generated(line)?;
    Some((input, Work::Solve(problem, Form::Summary(task))))
}

// ---- the words

fn read_task<'a>(
    task: &str,
    graph: &'a str,
    line: &CommandLine<'a>,
    sources: Vec<u32>,
) -> Option<(Input<'a>, Work<'a>)>
    requires { AreSourcesOf (split_by line.now) sources.items }

    ensures asked { option_map asked_of result ≡ asked_as task.now graph.entry.now (split_by line.now) }
    ensures width { IfSome result (λ r. HasWidthOf (split_by line.now) r.1) }
    ensures ranges { IfSome result (λ r. IsInputInRange r.0 × IsWorkInRange r.1) }
{
    match task {
        "check" => read_check(Purpose::Check, graph, line, sources),
        "upgrade" => read_check(Purpose::Upgrade, graph, line, sources),
        "demo" => read_demo(graph, line, sources),
        _ => read_named_run(task, graph, line, sources),
    }
}

// What a command line of these sources asks for.
#[tactic(auto, unfolding(crate::specs::Words::asked_split))]
fn read_query<'a>(line: &CommandLine<'a>, sources: Vec<u32>) -> Option<Query<'a>>
    requires { AreSourcesOf (split_by line.now) sources.items }

    ensures asked { option_map asked_by result ≡ asked_split (split_by line.now) }
    ensures settings { IfSome result (λ q. HasSettings q (split_by line.now)) }
    ensures ranges { IfSome result IsInRange }
{
    let settings = read_settings(line)?;
    let (input, work) = read_task(line.task?, line.graph?, line, sources)?;
    Some(Query {
        input,
        work,
        settings,
    })
}

// What a command line asks for. The sources are read first, whatever the task: where they are no list, no task is taken.
fn read_line<'a>(alloc: Global, line: &CommandLine<'a>) -> Result<Option<Query<'a>>, AllocError>
    ensures asked { IfOk result (λ query. option_map asked_by query ≡ asked_split (split_by line.now)) }
    ensures settings { IfOk result (λ query. IfSome query (λ q. HasSettings q (split_by line.now))) }
    ensures ranges { IfOk result (λ query. IfSome query IsInRange) }
{
    match read_sources(alloc, line)? {
        Some(sources) => Ok(read_query(line, sources)),
        None => Ok(None),
    }
}

/// What the words after the program's name ask for, or None where they aren't taken. An Err is want of memory.
///
/// `clap` splits the words; an option or flag given twice is refused before. A number is digits alone, a value that begins
/// with a minus sign is none, and neither `check` nor `upgrade` of standard input against itself is taken. Sources are the
/// distinct numbers of a list, increasing.
pub fn parse_words<'a>(alloc: Global, words: &'a [String]) -> Result<Option<Query<'a>>, AllocError>
    ensures asked { IfOk result (λ query. IsAsked query (asked (map string_bytes words.entry.now))) }
    ensures settings { IfOk result (λ query. IfSome query (HasSettingsOf (map string_bytes words.entry.now))) }
    ensures ranges { IfOk result (λ query. IfSome query IsInRange) }
{
    if is_counted_twice(words) {
        return Ok(None);
    }
    match split_words(alloc, words)? {
        Some(line) => read_line(alloc, &line),
        None => Ok(None),
    }
}
