//! What the engines of a run work with.
ghost use Rattle.std.specs.Prelude.{◌≡◌, ◌≤◌};
ghost use Rattle.jul_query.specs.Ranges.{AreSettingsInRange};

use jul_base::Gate;
use jul_pool::Team;
use jul_query::{Query, Work};
use std::alloc::Global;
use std::thread::Threads;

/// What the engines of a run work with: threads, memory, how the work is shared, and how many buckets are open.
#[derive(Drop)]
pub struct Resources<'r, 'g, R: Threads + Sync, G: Gate> {
    /// What permits threads.
    pub rt: &'r R,
    /// Where memory is taken.
    pub alloc: Global,
    /// The threads that share the work.
    pub team: Team<'g, G>,
    /// How many buckets are open, from 1 to 65,536.
    pub open_buckets: u32,
    ghost some_open: { 1 ≤ open_buckets },
    ghost few_open: { open_buckets ≤ 65536 },
}

impl<'r, 'g, R: Threads + Sync, G: Gate> Resources<'r, 'g, R, G> {
    /// What the words say of how to work. One worker judges a witness.
    pub fn of(rt: &'r R, alloc: Global, gate: &'g G, query: &Query<'_>) -> Resources<'r, 'g, R, G>
        requires { AreSettingsInRange query.now.settings }
    {
        let settings = query.settings;
        Resources {
            rt,
            alloc,
            team: Team {
                workers: workers_of(query),
                chunk: settings.chunk,
                gate,
            },
            open_buckets: settings.open_buckets,
        }
    }
}

// How many workers read the graph and work on it.
fn workers_of(query: &Query<'_>) -> u32
    requires { AreSettingsInRange query.now.settings }

    ensures { (1 ≤ result) × (result ≤ 64) }
{
    match query.work {
        Work::Solve(_, _) => query.settings.workers,
        Work::Judge { .. } => 1,
    }
}
