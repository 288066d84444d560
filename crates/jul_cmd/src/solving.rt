//! The tasks that solve a problem: a module each, which finds the columns of a result.
ghost use Rattle.std.specs.Prelude.{◌≡◌, IfOk, IfErr, OnOk};
ghost use Rattle.jul_base.specs.Sources.{AreNamedSources};
ghost use Rattle.jul_witness.specs.Lawful.{IsLawful};
ghost use Rattle.jul_query.specs.Queries.{whole, bare};
ghost use Rattle.jul_query.specs.Asking.{problem_of, form_of};
ghost use Rattle.jul_query.specs.Ranges.{IsProblemInRange};
ghost use Rattle.jul_cmd.specs.Suited.{IsSuited};
ghost use Rattle.jul_cmd.specs.Solving.{AreValues, IsResult, sources_of};
ghost use Rattle.jul_cmd.specs.Parts.{IsPosed, Solves, IsWritable, IsUnsolved};

use crate::cores::find_cores;
use crate::covers::find_cover;
use crate::distances::{find_distances, find_tree};
use crate::replies::{Reply, Text};
use crate::resources::Resources;
use crate::sources::meant;
use crate::statuses::Status;
use crate::summaries::solve_summary;
use jul_base::{Column, Gate, Ids};
use jul_query::{Form, Problem};
use jul_rows::Rows;
use jul_witness::Columns;
use std::alloc::{AllocError, Global};
use std::thread::Threads;

// The first column of the result of a problem.
fn find_column<R: Threads + Sync, G: Gate>(
    resources: &Resources<'_, '_, R, G>,
    rows: Rows,
    is_symmetric: bool,
    problem: &Problem,
) -> Result<Column, Status>
    requires { IsPosed rows is_symmetric problem.now }

    ensures suited { OnOk result (IsSuited rows (problem_of problem.now)) }
    ensures found { IfOk result (AreValues rows (problem_of problem.now)) }
    ensures refused { IfErr result (IsUnsolved rows (problem_of problem.now)) }
{
    match problem {
        Problem::Distances { sources, delta } => {
            find_distances(resources, &rows, sources.as_slice(), *delta)
        }
        Problem::Cores => {
            let found = find_cores(resources, &rows, is_symmetric)?;
            Ok(found.core)
        }
        Problem::Cover => {
            let found = find_cover(resources, rows)?;
            Ok(found.by)
        }
    }
}

// All columns of the result of a problem.
fn find_result<R: Threads + Sync, G: Gate>(
    resources: &Resources<'_, '_, R, G>,
    rows: Rows,
    is_symmetric: bool,
    problem: &Problem,
) -> Result<Columns, Status>
    requires { IsPosed rows is_symmetric problem.now }

    ensures suited { OnOk result (IsSuited rows (problem_of problem.now)) }
    ensures found { IfOk result (IsResult rows (problem_of problem.now)) }
    ensures lawful { IfOk result IsLawful }
    ensures refused { IfErr result (IsUnsolved rows (problem_of problem.now)) }
{
    match problem {
        Problem::Distances { sources, delta } => {
            let found = find_tree(resources, &rows, sources.as_slice(), *delta)?;
            Ok(Columns::Distances(found))
        }
        Problem::Cores => {
            let found = find_cores(resources, &rows, is_symmetric)?;
            Ok(Columns::Cores(found))
        }
        Problem::Cover => {
            let found = find_cover(resources, rows)?;
            Ok(Columns::Cover(found))
        }
    }
}

// The first column alone.
fn solve_bare<R: Threads + Sync, G: Gate>(
    resources: &Resources<'_, '_, R, G>,
    rows: Rows,
    is_symmetric: bool,
    problem: &Problem,
) -> Result<Reply, Status>
    requires { IsPosed rows is_symmetric problem.now }

    ensures done { IfOk result (Solves rows (problem_of problem.now) bare) }
    ensures writable { IfOk result (λ reply. IsWritable reply.text) }
    ensures refused { IfErr result (IsUnsolved rows (problem_of problem.now)) }
{
    let column = find_column(resources, rows, is_symmetric, problem)?;
    Ok(Reply {
        status: Status::Done,
        text: Text::Bare(column),
    })
}

// The sources of a problem, and vertex 0 alone where it has none.
fn problem_sources(alloc: Global, problem: Problem) -> Result<Ids, AllocError>
    requires { IsProblemInRange problem }
    ensures sources { IfOk result (λ sources. sources ≡ sources_of (problem_of problem)) }
    ensures named { IfOk result AreNamedSources }
{
    match problem {
        Problem::Distances { sources, .. } => meant(alloc, Some(sources)),
        Problem::Cores | Problem::Cover => meant(alloc, None),
    }
}

// All columns, which a check accepts.
fn solve_whole<R: Threads + Sync, G: Gate>(
    resources: &Resources<'_, '_, R, G>,
    rows: Rows,
    is_symmetric: bool,
    problem: Problem,
) -> Result<Reply, Status>
    requires { IsPosed rows is_symmetric problem }

    ensures done { IfOk result (Solves rows (problem_of problem) whole) }
    ensures writable { IfOk result (λ reply. IsWritable reply.text) }
    ensures refused { IfErr result (IsUnsolved rows (problem_of problem)) }
{
    let places = rows.m();
    let columns = find_result(resources, rows, is_symmetric, &problem)?;
    let sources = problem_sources(resources.alloc, problem)?;
    columns.is_read_back(places, sources.as_slice());
    Ok(Reply {
        status: Status::Done,
        text: Text::Whole {
            places,
            sources,
            columns,
        },
    })
}

/// The result of a problem in its form, ready to be written, or why there is none. `is_symmetric` says that the graph is known to
/// be symmetric.
pub fn solve<R: Threads + Sync, G: Gate>(
    resources: &Resources<'_, '_, R, G>,
    rows: Rows,
    is_symmetric: bool,
    problem: Problem,
    form: Form,
) -> Result<Reply, Status>
    requires { IsPosed rows is_symmetric problem }

    ensures done { IfOk result (Solves rows (problem_of problem) (form_of form)) }
    ensures writable { IfOk result (λ reply. IsWritable reply.text) }
    ensures refused { IfErr result (IsUnsolved rows (problem_of problem)) }
{
    match form {
        Form::Whole => solve_whole(resources, rows, is_symmetric, problem),
        Form::Bare => solve_bare(resources, rows, is_symmetric, &problem),
        Form::Summary(task) => solve_summary(resources, rows, is_symmetric, &problem, task),
    }
}
