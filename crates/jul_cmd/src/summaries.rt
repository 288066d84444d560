//! The line that sums a result up.
ghost use Rattle.std.specs.Prelude.{◌≡◌, ◌+◌, ◌≤◌, ◌++◌, length, IfOk, IfErr, OnOk, IsTrue};
ghost use Rattle.jul_base.specs.Symmetry.{IsSymmetric};
ghost use Rattle.jul_base.specs.Graph.{vertices, places};
ghost use Rattle.jul_base.specs.Sources.{AreNamedSources};
ghost use Rattle.jul_witness.specs.Summaries.{named_number, summary_line};
ghost use Rattle.jul_query.specs.Words.{task_name};
ghost use Rattle.jul_query.specs.Queries.{distances, cores, cover, summary};
ghost use Rattle.jul_query.specs.Asking.{problem_of};
ghost use Rattle.jul_cmd.specs.Suited.{IsSuited};
ghost use Rattle.jul_cmd.specs.Solving.{IsSummary};
ghost use Rattle.jul_cmd.specs.Parts.{IsPosed, Solves, IsWritable, IsUnsolved};

use crate::cores::find_cores;
use crate::covers::find_cover;
use crate::distances::find_distances;
use crate::lines::Line;
use crate::replies::{Reply, Text};
use crate::resources::Resources;
use crate::statuses::Status;
use jul_base::Gate;
use jul_query::{Problem, Task};
use jul_rows::Rows;
use jul_witness::{greatest_number, greatest_value, number_count, times_in};
use std::thread::Threads;

// Puts a name and its number behind what is there.
fn put_named(line: &mut Line, name: &[u8], value: u64)
    requires room { length line.old + (length name.now + 22) ≤ 256 }

    ensures text { line.new ≡ line.old ++ named_number name.now value }
    ensures len { length line.new ≤ length line.old + (length name.now + 22) }
{
    line.put(b" ");
    line.put(name);
    line.put(b" ");
    line.put_number(value);
}

// The name of a task, the sizes of the graph, and two numbers with their names.
fn line_of(task: Task, n: u32, m: u32, first: &[u8], a: u64, second: &[u8], b: u64) -> Line
    requires first { length first.now ≤ 8 }
    requires second { length second.now ≤ 8 }

    ensures { result ≡ summary_line (task_name task) n m first.now a second.now b }
{
    let mut line = Line::of(task.name().as_bytes());
    put_named(&mut line, b"n", u64::from(n));
    put_named(&mut line, b"m", u64::from(m));
    put_named(&mut line, first, a);
    put_named(&mut line, second, b);
    line.put(b"\n");
    line
}

// How many vertices are reached from the sources, and the greatest distance of these.
fn sum_distances<R: Threads + Sync, G: Gate>(
    resources: &Resources<'_, '_, R, G>,
    rows: &Rows,
    task: Task,
    sources: &[u32],
    delta: u32,
) -> Result<Line, Status>
    requires sources { AreNamedSources sources.now }
    requires delta { 1 ≤ delta }

    ensures suited { OnOk result (IsSuited rows.now (distances sources.now)) }
    ensures summed { IfOk result (IsSummary rows.now (distances sources.now) (task_name task)) }
    ensures refused { IfErr result (IsUnsolved rows.now (distances sources.now)) }
{
    let dist = find_distances(resources, rows, sources, delta)?;
    let reached = number_count(&dist);
    let most = greatest_number(&dist);
    let (n, m) = (rows.n(), rows.m());
    Ok(line_of(task, n, m, b"reached", reached, b"max", most))
}

// The greatest core, and how many vertices have it.
fn sum_cores<R: Threads + Sync, G: Gate>(
    resources: &Resources<'_, '_, R, G>,
    rows: &Rows,
    is_symmetric: bool,
    task: Task,
) -> Result<Line, Status>
    requires { IsTrue is_symmetric → IsSymmetric rows.now }

    ensures suited { OnOk result (IsSuited rows.now cores) }
    ensures summed { IfOk result (IsSummary rows.now cores (task_name task)) }
    ensures refused { IfErr result (IsUnsolved rows.now cores) }
{
    let found = find_cores(resources, rows, is_symmetric)?;
    let most = greatest_value(&found.core);
    let top = times_in(&found.core, most);
    let (n, m) = (rows.n(), rows.m());
    Ok(line_of(task, n, m, b"max", most, b"top", top))
}

// How many sets are chosen, and how many elements there are.
fn sum_cover<R: Threads + Sync, G: Gate>(
    resources: &Resources<'_, '_, R, G>,
    rows: Rows,
    task: Task,
) -> Result<Line, Status>
    ensures suited { OnOk result (IsSuited rows cover) }
    ensures summed { IfOk result (IsSummary rows cover (task_name task)) }
    ensures refused { IfErr result (IsUnsolved rows cover) }
{
    let (n, m) = (rows.n(), rows.m());
    let found = find_cover(resources, rows)?;
    let chosen = number_count(&found.round);
    let covered = number_count(&found.by);
    Ok(line_of(task, n, m, b"chosen", chosen, b"covered", covered))
}

// The line of a problem's result.
fn sum_up<R: Threads + Sync, G: Gate>(
    resources: &Resources<'_, '_, R, G>,
    rows: Rows,
    is_symmetric: bool,
    problem: &Problem,
    task: Task,
) -> Result<Line, Status>
    requires { IsPosed rows is_symmetric problem.now }

    ensures suited { OnOk result (IsSuited rows (problem_of problem.now)) }
    ensures summed { IfOk result (IsSummary rows (problem_of problem.now) (task_name task)) }
    ensures refused { IfErr result (IsUnsolved rows (problem_of problem.now)) }
{
    match problem {
        Problem::Distances { sources, delta } => {
            sum_distances(resources, &rows, task, sources.as_slice(), *delta)
        }
        Problem::Cores => sum_cores(resources, &rows, is_symmetric, task),
        Problem::Cover => sum_cover(resources, rows, task),
    }
}

/// The result of a problem as one line that begins with the name of the task, or why there is none.
pub fn solve_summary<R: Threads + Sync, G: Gate>(
    resources: &Resources<'_, '_, R, G>,
    rows: Rows,
    is_symmetric: bool,
    problem: &Problem,
    task: Task,
) -> Result<Reply, Status>
    requires { IsPosed rows is_symmetric problem.now }

    ensures done { IfOk result (Solves rows (problem_of problem.now) (summary (task_name task))) }
    ensures writable { IfOk result (λ reply. IsWritable reply.text) }
    ensures refused { IfErr result (IsUnsolved rows (problem_of problem.now)) }
{
    let line = sum_up(resources, rows, is_symmetric, problem, task)?;
    Ok(Reply {
        status: Status::Done,
        text: Text::Line(line),
    })
}
