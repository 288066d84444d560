//! Where drawn sets go that weren't chosen: groups of moves, a group for each chunk of sets.
ghost use Rattle.std.specs.Prelude.{◌≡◌, ℕ, ◌*◌, ◌<◌, ◌^◌, [], length, All, IfOk};
ghost use Rattle.std.specs.List.{flat_map};
ghost use Rattle.jul_subset.specs.Chunks.{chunk_of};
ghost use Rattle.jul_cover.specs.PackedSets.{pack_at, ArePacked};
ghost use Rattle.jul_cover.specs.CoverMoves.{next_place, move_of, moves_of, CanMove};
ghost use Rattle.jul_cover.specs.KeptTurns.{leaving_of};

use crate::columns::Columns;
use crate::packed_sets::PackedSets;
use crate::packing::size_of;
use crate::sizes::{STEPS_FOR_A_SHARE, place_of};
use jul_base::{Free, Gate, NONE};
use jul_bucket::{Buckets, Dest};
use jul_pool::{Job, Team, run_all};
use jul_subset::{chunk_at, joined};
use std::alloc::{AllocError, Global};
use std::thread::Threads;

/// The moves of drawn sets to the buckets of what is left of them, so many sets in a chunk.
#[derive(Drop)]
struct MoveJob<'a> {
    alloc: Global,
    drawn: &'a [u32],
    size: u32,
    packs: &'a PackedSets,
    columns: &'a Columns,
    buckets: &'a Buckets,
}

impl<'a> Job for MoveJob<'a> {
    type Token = Free;

    type Out = Vec<(u32, u64)>;

    ghost can_run = { λ j chunk _. (chunk * j.size < length j.drawn.now) × ArePacked j.packs.now
        × (length j.columns.now.round.items ≡ j.packs.now.n) × (length j.buckets.now.places ≡ j.packs.now.n)
        × All (CanMove j.buckets.now j.packs.now.n (pack_at j.packs.now) j.columns.now.round.items) j.drawn.now };

    ghost gives = { λ j chunk out added.
        (out.items ≡ moves_of (pack_at j.packs.now) j.columns.now.round.items
        (chunk_of j.drawn.now j.size chunk)) × (added ≡ []) };

    fn run(&self, chunk: u32, _token: &mut Free) -> Result<Vec<(u32, u64)>, AllocError> {
        let group = chunk_at(self.drawn, self.size as usize, chunk as usize);
        moves_among(self.alloc, group, self.packs, self.columns, self.buckets)
    }
}

/// The moves of some drawn sets, in order.
fn moves_among(
    alloc: Global,
    group: &[u32],
    packs: &PackedSets,
    columns: &Columns,
    buckets: &Buckets,
) -> Result<Vec<(u32, u64)>, AllocError>
    requires packed { ArePacked packs.now }
    requires round { length columns.now.round.items ≡ packs.now.n }
    requires places { length buckets.now.places ≡ packs.now.n }
    requires can { All (CanMove buckets.now packs.now.n (pack_at packs.now) columns.now.round.items) group.now }

    ensures { IfOk result (λ moves.
        moves.items ≡ moves_of (pack_at packs.now) columns.now.round.items group.now) }
{
    let mut moves = Vec::with_capacity(alloc, group.len())?;
    for s in group {
        let next = next_of(packs, columns, *s);
        match buckets.get_bucket(buckets.place(*s), next) {
            Dest::Null => {}
            Dest::Open(_) | Dest::Overflow => moves.push((*s, next))?,
        }
    }
    Ok(moves)
}

/// The bucket of what is left of a set, `NONE` where nothing is left or the set was chosen.
fn next_of(packs: &PackedSets, columns: &Columns, s: u32) -> u64
    requires packed { ArePacked packs.now }
    requires round { length columns.now.round.items ≡ packs.now.n }
    requires in_range { s < packs.now.n }

    ensures { result ≡ next_place (pack_at packs.now) columns.now.round.items s }
{
    if columns.round[s as usize] == NONE {
        place_of(size_of(packs, s))
    } else {
        NONE
    }
}

/// The move of each drawn set that wasn't chosen and has elements left to the bucket of its size.
///
/// Workers make a group of moves for each chunk of at most `team.chunk` sets. Few sets start no thread, and one worker makes one group.
pub(crate) fn moves_after<R: Threads + Sync, G: Gate>(
    rt: &R,
    alloc: Global,
    team: &Team<'_, G>,
    drawn: &[u32],
    packs: &PackedSets,
    columns: &Columns,
    buckets: &Buckets,
) -> Result<Vec<(u32, u64)>, AllocError>
    requires few { length drawn.now < 2 ^ 32 }
    requires packed { ArePacked packs.now }
    requires round { length columns.now.round.items ≡ packs.now.n }
    requires places { length buckets.now.places ≡ packs.now.n }
    requires can { All (CanMove buckets.now packs.now.n (pack_at packs.now) columns.now.round.items) drawn.now }

    ensures { IfOk result (λ moves.
        moves.items ≡ moves_of (pack_at packs.now) columns.now.round.items drawn.now) }
{
    let crew = team.for_work(drawn.len() as u64 / STEPS_FOR_A_SHARE);
    if crew.workers == 1 {
        return moves_among(alloc, drawn, packs, columns, buckets);
    }
    let chunks = drawn.len().div_ceil(team.chunk as usize) as u32;
    let job = MoveJob {
        alloc,
        drawn,
        size: team.chunk,
        packs,
        columns,
        buckets,
    };
    let done = run_all(rt, alloc, &crew, chunks, &job, Free::root())?;
    joined(alloc, &done.outs)
}

/// The moves of those of the listed sets that are in this bucket and belong elsewhere: to the bucket of what is left of
/// them, or into none where they were chosen or nothing is left.
pub(crate) fn moves_from(
    alloc: Global,
    listed: &[u32],
    bucket: u64,
    packs: &PackedSets,
    columns: &Columns,
    buckets: &Buckets,
) -> Result<Vec<(u32, u64)>, AllocError>
    requires packed { ArePacked packs.now }
    requires round { length columns.now.round.items ≡ packs.now.n }
    requires places { length buckets.now.places ≡ packs.now.n }
    requires in_range { All (λ s. s < packs.now.n) listed.now }

    ensures { IfOk result (λ moves.
        moves.items ≡ leaving_of (pack_at packs.now) columns.now.round.items
        buckets.now.places bucket listed.now) }
{
    let mut moves = Vec::new(alloc);
    for s in listed {
        if buckets.place(*s) == bucket {
            let next = next_of(packs, columns, *s);
            if next != bucket {
                moves.push((*s, next))?;
            }
        }
    }
    Ok(moves)
}
