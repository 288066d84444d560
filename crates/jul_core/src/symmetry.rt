//! Whether a graph is found symmetric, by several workers.
//!
//! The vertices are cut into windows, one for each worker, which compares the vertices of its window with the lesser ones,
//! and first sorts the rows of its window where need be. A window reads the rows before its end alone, and a vertex has the
//! more lesser ones the greater it is, so the first window is the widest.
ghost use Rattle.std.specs.Prelude.{◌≡◌, ◌+◌, ◌<◌, ◌≤◌, length, slice_index, All, IfOk, IsTrue};
ghost use Rattle.jul_base.specs.declared.limits.TheConstants.{MAX_N};
ghost use Rattle.jul_pool.specs.declared.teams.TheConstants.{MAX_WORKERS};
ghost use Rattle.jul_base.specs.Graph.{vertices};
ghost use Rattle.jul_base.specs.Symmetry.{IsSymmetric};
ghost use Rattle.jul_rows.specs.Mirrors.{AreMirrored};
ghost use Rattle.jul_core.specs.Windows.{AreWindows};

use jul_base::{Free, Gate, MAX_N};
use jul_pool::{Job, Team, run_all};
use jul_rows::Rows;
use std::alloc::{AllocError, Global};
use std::thread::Threads;

/// Windows of vertices, from each bound up to but not including the next; each is a chunk.
#[derive(Drop)]
struct WindowJob<'a, 'b> {
    rows: &'a Rows,
    bounds: &'b [u32],
}

impl<'a, 'b> Job for WindowJob<'a, 'b> {
    type Token = Free;

    type Out = bool;

    ghost can_run = { λ j chunk _. (chunk + 1 < length j.bounds.now)
        × (slice_index j.bounds.now chunk ≤ slice_index j.bounds.now (chunk + 1))
        × (slice_index j.bounds.now (chunk + 1) ≤ vertices j.rows.now) };

    ghost gives = { λ j chunk out added. IsTrue out
        → AreMirrored j.rows.now (slice_index j.bounds.now chunk) (slice_index j.bounds.now (chunk + 1)) };

    fn run(&self, chunk: u32, _token: &mut Free) -> Result<bool, AllocError> {
        let from = self.bounds[chunk as usize];
        let to = self.bounds[chunk as usize + 1];
        self.rows.is_window_mirrored(from, to)
    }
}

/// Whether the graph was found symmetric. A yes implies that it is. A symmetric graph is found so; that a no implies that it
/// isn't is not claimed, and `first_asymmetry_by_tallies` of `Rows` decides.
///
/// Each worker that the places are worth takes memory for a number a vertex of its window, and where rows of the window
/// aren't sorted for a number a place of it.
pub fn is_found_symmetric<R: Threads + Sync, G: Gate>(
    rt: &R,
    alloc: Global,
    team: &Team<'_, G>,
    rows: &Rows,
) -> Result<bool, AllocError>
    ensures { IfOk result (λ found. IsTrue found → IsSymmetric rows.now) }
{
    let team = team.for_work(u64::from(rows.m()));
    are_windows_mirrored(rt, alloc, &team, rows)
}

/// The same by a window for each worker of the team.
pub(crate) fn are_windows_mirrored<R: Threads + Sync, G: Gate>(
    rt: &R,
    alloc: Global,
    team: &Team<'_, G>,
    rows: &Rows,
) -> Result<bool, AllocError>
    ensures { IfOk result (λ found. IsTrue found → IsSymmetric rows.now) }
{
    prove!(rows.n() <= MAX_N);
    let bounds = bounds_of(alloc, rows.n(), team.workers)?;
    let job = WindowJob {
        rows,
        bounds: bounds.as_slice(),
    };
    let done = run_all(rt, alloc, team, team.workers, &job, Free::root())?;
    Ok(are_all_mirrored(done.outs.as_slice()))
}

/// Whether each window was found mirrored.
fn are_all_mirrored(found: &[bool]) -> bool
    ensures { IsTrue result → All (λ one. IsTrue one) found.now }
{
    found.iter().all(|one| *one)
}

/// The bounds of so many windows of `n` vertices.
fn bounds_of(alloc: Global, n: u32, windows: u32) -> Result<Vec<u32>, AllocError>
    requires vertices { n ≤ MAX_N }
    requires some { 1 ≤ windows }
    requires few { windows ≤ MAX_WORKERS }

    ensures { IfOk result (λ bounds. AreWindows windows n bounds.items) }
{
    let mut bounds = Vec::with_capacity(alloc, windows as usize + 1)?;
    let mut end = 0;
    bounds.push(end)?;
    for i in 0..windows - 1 {
        end = even_bound(n, i + 1, windows).max(end).min(n);
        bounds.push(end)?;
    }
    bounds.push(n)?;
    Ok(bounds)
}

/// Where window `i` of `windows` ends: halfway between the end of an even share of the vertices, whose rows are to be sorted,
/// and that of an even share of their pairs, which are to be compared.
fn even_bound(n: u32, i: u32, windows: u32) -> u32
    requires vertices { n ≤ MAX_N }
    requires some { 1 ≤ windows }
    requires few { i ≤ MAX_WORKERS }
{
    let share = u64::from(n) * u64::from(i) / u64::from(windows);
    let pairs = u64::from(n) * u64::from(n) * u64::from(i) / u64::from(windows);
    ((share + pairs.isqrt()) / 2) as u32
}
