//! The members of a subset that a test keeps, by several threads.
ghost use Rattle.std.specs.Prelude.{◌≡◌, ℕ, ◌*◌, ◌<◌, [], false, IfOk, length, All};
ghost use Rattle.std.specs.List.{filter};
ghost use Rattle.jul_subset.specs.Subsets.{Subset, IsSubset};
ghost use Rattle.jul_subset.specs.Chunks.{chunk_of};

use crate::chunks::{chunk_at, joined};
use crate::functions::VertexTest;
use crate::subsets::VertexSubset;
use jul_base::{Free, Gate};
use jul_pool::{Job, Team, run_all};
use std::alloc::{AllocError, Global};
use std::thread::Threads;

/// A test that is asked about the members of a subset, so many in a chunk.
#[derive(Drop)]
struct FilterJob<'a, T: VertexTest> {
    alloc: Global,
    members: &'a [u32],
    size: u32,
    test: &'a T,
}

impl<'a, T: VertexTest> Job for FilterJob<'a, T> {
    type Token = Free;

    type Out = Vec<u32>;

    ghost can_run = { λ j chunk _.
        (chunk * j.size < length j.members.now) × All (T.can_test j.test.now) j.members.now };

    ghost gives = { λ j chunk out added.
        (out.items ≡ filter (T.kept j.test.now) (chunk_of j.members.now j.size chunk)) × (added ≡ []) };

    fn run(&self, chunk: u32, _token: &mut Free) -> Result<Vec<u32>, AllocError> {
        let mut kept = Vec::new(self.alloc);
        for v in chunk_at(self.members, self.size as usize, chunk as usize) {
            if self.test.keeps(*v) {
                kept.push(*v)?;
            }
        }
        Ok(kept)
    }
}

/// The members of `from` that the test keeps. They are cut into chunks of at most `team.chunk`.
pub fn vertex_filter<R: Threads + Sync, T: VertexTest, G: Gate>(
    rt: &R,
    alloc: Global,
    team: &Team<'_, G>,
    from: &VertexSubset,
    test: &T,
) -> Result<VertexSubset, AllocError>
    requires condition { (v : ℕ) → v < from.now.n → T.can_test test.now v }

    ensures members { IfOk result (λ s. s.members ≡ filter (T.kept test.now) from.now.members) }
    ensures n { IfOk result (λ s. s.n ≡ from.now.n) }
    ensures sparse { IfOk result (λ s. s.dense ≡ false) }
    ensures subset { IfOk result IsSubset }
{
    match from.as_slice() {
        Some(members) => filter_members(rt, alloc, team, from.n(), members, test),
        None => {
            let members = from.ids()?;
            filter_members(rt, alloc, team, from.n(), members.as_slice(), test)
        }
    }
}

/// The same over an increasing list of vertices below `n`.
fn filter_members<R: Threads + Sync, T: VertexTest, G: Gate>(
    rt: &R,
    alloc: Global,
    team: &Team<'_, G>,
    n: u32,
    members: &[u32],
    test: &T,
) -> Result<VertexSubset, AllocError>
    requires members { IsSubset (record { n = n; members = members.now; dense = false }) }
    requires condition { (v : ℕ) → v < n → T.can_test test.now v }

    ensures members { IfOk result (λ s. s.members ≡ filter (T.kept test.now) members.now) }
    ensures n { IfOk result (λ s. s.n ≡ n) }
    ensures sparse { IfOk result (λ s. s.dense ≡ false) }
    ensures subset { IfOk result IsSubset }
{
    let chunks = members.len().div_ceil(team.chunk as usize) as u32;
    let job = FilterJob {
        alloc,
        members,
        size: team.chunk,
        test,
    };
    let done = run_all(rt, alloc, team, chunks, &job, Free::root())?;
    let kept = joined(alloc, &done.outs)?;
    Ok(VertexSubset::from_increasing(alloc, n, kept))
}
