//! Where the vertices go that lost places: groups of moves, a group for each chunk of vertices.
ghost use Rattle.std.specs.Prelude.{◌≡◌, ℕ, ◌*◌, ◌<◌, ◌≤◌, ◌^◌, [], length, IfOk, OnOk};
ghost use Rattle.std.specs.List.{flat_map};
ghost use Rattle.jul_subset.specs.Chunks.{chunk_of};
ghost use Rattle.jul_core.specs.PeelMoves.{move_of, moves_of, CanLower};

use jul_base::{Free, Gate, NONE};
use jul_bucket::{Buckets, Dest};
use jul_pool::{Job, Team, run_all};
use jul_subset::{chunk_at, joined};
use std::alloc::{AllocError, Global};
use std::thread::Threads;

/// The moves of vertices that are counted, so many in a chunk.
#[derive(Drop)]
struct MoveJob<'a> {
    alloc: Global,
    counts: &'a [(u32, u64)],
    size: u32,
    bucket: u64,
    buckets: &'a Buckets,
}

impl<'a> Job for MoveJob<'a> {
    type Token = Free;

    type Out = Vec<(u32, u64)>;

    ghost can_run = { λ j chunk _. (chunk * j.size < length j.counts.now)
        × CanLower j.buckets.now j.bucket j.counts.now };

    ghost gives = { λ j chunk out added.
        (out.items ≡ flat_map (move_of j.buckets.now.places j.bucket) (chunk_of j.counts.now j.size chunk))
        × (added ≡ []) };

    fn run(&self, chunk: u32, _token: &mut Free) -> Result<Vec<(u32, u64)>, AllocError> {
        let group = chunk_at(self.counts, self.size as usize, chunk as usize);
        let mut moves = Vec::new(self.alloc);
        moves_among(group, self.bucket, self.buckets, &mut moves)?;
        Ok(moves)
    }
}

/// The moves of some vertices, in order, in place of what `moves` held. A vertex that is in no bucket isn't moved.
fn moves_among(
    counts: &[(u32, u64)],
    bucket: u64,
    buckets: &Buckets,
    moves: &mut Vec<(u32, u64)>,
) -> Result<(), AllocError>
    requires can { CanLower buckets.now bucket counts.now }

    ensures { OnOk result (moves.new.items ≡ flat_map (move_of buckets.now.places bucket) counts.now) }
{
    moves.clear();
    for (v, count) in counts {
        let place = buckets.place(*v);
        if place == NONE {
            continue;
        }
        let next = bucket.max(place.saturating_sub(*count));
        match buckets.get_bucket(place, next) {
            Dest::Null => {}
            Dest::Open(_) | Dest::Overflow => moves.push((*v, next))?,
        }
    }
    Ok(())
}

/// The move of each vertex that is counted and in a bucket, in place of what `moves` held: down by its count, but not below
/// the bucket drawn.
///
/// Workers make a group of moves for each chunk of at most `team.chunk` vertices. Few vertices start no thread, and take
/// no memory beyond what `moves` has.
pub(crate) fn moves_down<R: Threads + Sync, G: Gate>(
    rt: &R,
    alloc: Global,
    team: &Team<'_, G>,
    counts: &[(u32, u64)],
    bucket: u64,
    buckets: &Buckets,
    moves: &mut Vec<(u32, u64)>,
) -> Result<(), AllocError>
    requires few { length counts.now < 2 ^ 32 }
    requires can { CanLower buckets.now bucket counts.now }

    ensures { OnOk result (moves.new.items ≡ moves_of buckets.now.places bucket counts.now) }
{
    let chunks = counts.len().div_ceil(team.chunk as usize) as u32;
    let team = team.for_work(counts.len() as u64);
    if team.workers.min(chunks) > 1 {
        *moves = moves_in_groups(rt, alloc, &team, chunks, counts, bucket, buckets)?;
        return Ok(());
    }
    team.pass_each(chunks);
    moves_among(counts, bucket, buckets, moves)
}

/// The moves are made by several workers, a group for each chunk.
fn moves_in_groups<R: Threads + Sync, G: Gate>(
    rt: &R,
    alloc: Global,
    team: &Team<'_, G>,
    chunks: u32,
    counts: &[(u32, u64)],
    bucket: u64,
    buckets: &Buckets,
) -> Result<Vec<(u32, u64)>, AllocError>
    requires chunks { (length counts.now ≤ chunks * team.now.chunk)
        × ((chunk : ℕ) → chunk < chunks → chunk * team.now.chunk < length counts.now) }
    requires can { CanLower buckets.now bucket counts.now }

    ensures { IfOk result (λ moves. moves.items ≡ moves_of buckets.now.places bucket counts.now) }
{
    let job = MoveJob {
        alloc,
        counts,
        size: team.chunk,
        bucket,
        buckets,
    };
    let done = run_all(rt, alloc, team, chunks, &job, Free::root())?;
    joined(alloc, &done.outs)
}
