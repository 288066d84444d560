//! A function applied to each member of a subset, by several threads.
ghost use Rattle.std.specs.Prelude.{◌≡◌, ℕ, ◌*◌, ◌<◌, [], List, true, false, IfOk, length, All};
ghost use Rattle.jul_subset.specs.Subsets.{Subset, IsSubset};
ghost use Rattle.jul_subset.specs.Chunks.{chunk_of};
ghost use Rattle.jul_subset.specs.Applications.{Done, AppliedInOrder, AppliedOnce, answered_true};

use crate::chunks::{chunk_at, joined};
use crate::functions::VertexFn;
use crate::subsets::VertexSubset;
use jul_base::{Gate, Share};
use jul_pool::{Job, Team, run_all};
use std::alloc::{AllocError, Global};
use std::thread::Threads;

/// A function that is applied to the members of a subset, so many in a chunk.
#[derive(Drop)]
struct MapJob<'a, F: VertexFn> {
    alloc: Global,
    members: &'a [u32],
    size: u32,
    f: &'a F,
}

impl<'a, F: VertexFn> Job for MapJob<'a, F> {
    type Token = F::Token;

    type Out = Vec<u32>;

    ghost can_run = { λ j chunk home.
        (chunk * j.size < length j.members.now) × All (λ v. F.can_apply j.f.now v home) j.members.now };

    ghost gives = { λ j chunk out added. (done : List (Done ℕ))
        × AppliedInOrder (F.gives j.f.now) (chunk_of j.members.now j.size chunk) [] added done
        × (out.items ≡ answered_true (λ v. v) done) };

    fn run(&self, chunk: u32, token: &mut F::Token) -> Result<Vec<u32>, AllocError> {
        let mut hit = Vec::new(self.alloc);
        for v in chunk_at(self.members, self.size as usize, chunk as usize) {
            if self.f.apply(token, *v) {
                hit.push(*v)?;
            }
        }
        Ok(hit)
    }
}

/// Applies `f` once to each member of `from`, and gives the members for which it answered true.
///
/// The members are cut into chunks of at most `team.chunk`. The root token comes back with what every application
/// added to its log. After an error it is gone, with its parts.
pub fn vertex_map<R: Threads + Sync, F: VertexFn, G: Gate>(
    rt: &R,
    alloc: Global,
    team: &Team<'_, G>,
    from: &VertexSubset,
    f: &F,
    token: F::Token,
) -> Result<(VertexSubset, F::Token), AllocError>
    requires root { F.Token.is_root token ≡ true }
    requires none_out { F.Token.out token ≡ 0 }
    requires condition { All (λ v. F.can_apply f.now v (F.Token.home token)) from.now.members }

    ensures applied { IfOk result (λ r. AppliedOnce (F.gives f.now) (λ v. v)
        from.now.members (F.Token.log token) (F.Token.log r.1) r.0.members) }
    ensures n { IfOk result (λ r. r.0.n ≡ from.now.n) }
    ensures sparse { IfOk result (λ r. r.0.dense ≡ false) }
    ensures subset { IfOk result (λ r. IsSubset r.0) }
    ensures root { IfOk result (λ r. F.Token.is_root r.1 ≡ true) }
    ensures none_out { IfOk result (λ r. F.Token.out r.1 ≡ 0) }
    ensures home { IfOk result (λ r. F.Token.home r.1 ≡ F.Token.home token) }
{
    match from.as_slice() {
        Some(members) => map_members(rt, alloc, team, from.n(), members, f, token),
        None => {
            let members = from.ids()?;
            map_members(rt, alloc, team, from.n(), members.as_slice(), f, token)
        }
    }
}

/// The same over an increasing list of vertices below `n`.
fn map_members<R: Threads + Sync, F: VertexFn, G: Gate>(
    rt: &R,
    alloc: Global,
    team: &Team<'_, G>,
    n: u32,
    members: &[u32],
    f: &F,
    token: F::Token,
) -> Result<(VertexSubset, F::Token), AllocError>
    requires members { IsSubset (record { n = n; members = members.now; dense = false }) }
    requires root { F.Token.is_root token ≡ true }
    requires none_out { F.Token.out token ≡ 0 }
    requires condition { All (λ v. F.can_apply f.now v (F.Token.home token)) members.now }

    ensures applied { IfOk result (λ r. AppliedOnce (F.gives f.now) (λ v. v)
        members.now (F.Token.log token) (F.Token.log r.1) r.0.members) }
    ensures n { IfOk result (λ r. r.0.n ≡ n) }
    ensures sparse { IfOk result (λ r. r.0.dense ≡ false) }
    ensures subset { IfOk result (λ r. IsSubset r.0) }
    ensures root { IfOk result (λ r. F.Token.is_root r.1 ≡ true) }
    ensures none_out { IfOk result (λ r. F.Token.out r.1 ≡ 0) }
    ensures home { IfOk result (λ r. F.Token.home r.1 ≡ F.Token.home token) }
{
    let chunks = members.len().div_ceil(team.chunk as usize) as u32;
    let job = MapJob {
        alloc,
        members,
        size: team.chunk,
        f,
    };
    let done = run_all(rt, alloc, team, chunks, &job, token)?;
    let hit = joined(alloc, &done.outs)?;
    Ok((VertexSubset::from_increasing(alloc, n, hit), done.token))
}
