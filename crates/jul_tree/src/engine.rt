//! Hops and parents from a list of sources.
ghost use Rattle.std.specs.Prelude.{◌≡◌, ℕ, ◌<◌, IfOk, IfSome, replicate};
ghost use Rattle.jul_base.specs.declared.limits.TheConstants.{NONE};
ghost use Rattle.jul_base.specs.Graph.{vertices};
ghost use Rattle.jul_base.specs.InRows.{IsFlip};
ghost use Rattle.jul_base.specs.Sources.{AreSources};
ghost use Rattle.jul_base.specs.Distances.{AreDistances};
ghost use Rattle.jul_base.specs.Trees.{AreTree};
ghost use Rattle.jul_words.specs.Seats.{IsAlone, home, rooted};
ghost use Rattle.jul_words.specs.Least.{word_of};
ghost use Rattle.jul_edge.specs.EdgeMaps.{CanStamp};
ghost use Rattle.jul_tree.specs.Hooking.{HasKeys};

use crate::growing::grow;
use crate::parents::parents_of;
use crate::setting::first_hops;
use jul_base::{Column, Gate, NONE};
use jul_pool::Team;
use jul_rows::{InRows, Rows};
use jul_words::{MinSeat, MinWords, StampSeat, StampWords, ZeroFloors};
use std::alloc::{AllocError, Global};
use std::thread::Threads;

/// What `tree` gives.
#[derive(Drop)]
pub struct TreeOut {
    /// The least number of places of a walk of least sum from a source, `NONE` where there is no walk.
    pub hops: Column,
    /// The least vertex from which the last place of such a walk leads, `NONE` for sources and where there is no walk.
    pub parent: Column,
    /// The root of the table of keys, with none out.
    pub key_seat: MinSeat,
    /// The root of the stamp table, with none out.
    pub stamp_seat: StampSeat,
}

// The tree, with tables that are handed in and with in-rows or without.
fn grow_tree<R: Threads + Sync, G: Gate>(
    rt: &R,
    alloc: Global,
    team: &Team<'_, G>,
    rows: &Rows,
    in_rows: Option<&InRows>,
    sources: &[u32],
    dist: &[u64],
    keys: &MinWords,
    key_seat: MinSeat,
    stamps: &StampWords,
    stamp_seat: StampSeat,
) -> Result<TreeOut, AllocError>
    requires flip { IfSome in_rows (λ r. IsFlip rows.now r.now) }
    requires sources { AreSources (vertices rows.now) sources.now }
    requires dist { AreDistances rows.now sources.now dist.now }
    requires keys { key_seat ≡ rooted (home keys.now
        (replicate (vertices rows.now) NONE) (replicate (vertices rows.now) 0)) }
    requires stamps { CanStamp (vertices rows.now) stamps.now 1 stamp_seat }

    ensures tree { IfOk result (λ r. AreTree rows.now sources.now dist.now r.hops r.parent) }

    // The key word of each vertex that was reached and is no source.
    ensures keys { IfOk result (λ r.
        HasKeys (vertices rows.now) sources.now (word_of r.key_seat) r.hops r.parent) }
    ensures key_seat { IfOk result (λ r. IsAlone r.key_seat × (r.key_seat.home ≡ key_seat.home)) }
    ensures stamp_seat { IfOk result (λ r. IsAlone r.stamp_seat × (r.stamp_seat.home ≡ stamp_seat.home)) }
    ensures stamps { IfOk result (λ r. (round : ℕ) → vertices rows.now < round →
        CanStamp (vertices rows.now) stamps.now round r.stamp_seat) }
{
    let n = rows.n();
    let mut hops = first_hops(alloc, n, sources)?;
    let first = Vec::from_slice(alloc, sources)?;
    let mut grown = grow(
        rt,
        alloc,
        team,
        rows,
        in_rows,
        sources,
        dist,
        keys,
        key_seat,
        stamps,
        stamp_seat,
        first,
        hops.as_mut_slice(),
    )?;
    let parent = parents_of(alloc, n, keys, &mut grown.seat)?;
    Ok(TreeOut {
        hops: Column::from_vec(hops),
        parent: Column::from_vec(parent),
        key_seat: grown.seat,
        stamp_seat: grown.stamp_seat,
    })
}

/// Hops and parent of each vertex, by rounds over tight places.
///
/// The hops of a vertex are the least number of places of a walk of least sum from a source to it. Its parent is the least
/// vertex from which the last place of such a walk leads. A source has 0 and `NONE`, and a vertex that isn't reached has
/// `NONE` in both.
///
/// `sources` is an increasing list, and `dist` the least distances from it. The key words start at `NONE`, without floors,
/// and nothing was logged in either table. At the end the key word of each other vertex that was reached is
/// `hops * 2^32 + parent`, and the stamps may go on above `n`.
///
/// Memory that runs out is the only refusal. Then the seats are gone, and the tables aren't used again.
pub fn tree<R: Threads + Sync, G: Gate>(
    rt: &R,
    alloc: Global,
    team: &Team<'_, G>,
    rows: &Rows,
    in_rows: &InRows,
    sources: &[u32],
    dist: &[u64],
    keys: &MinWords,
    key_seat: MinSeat,
    stamps: &StampWords,
    stamp_seat: StampSeat,
) -> Result<TreeOut, AllocError>
    requires flip { IsFlip rows.now in_rows.now }
    requires sources { AreSources (vertices rows.now) sources.now }
    requires dist { AreDistances rows.now sources.now dist.now }
    requires keys { key_seat ≡ rooted (home keys.now
        (replicate (vertices rows.now) NONE) (replicate (vertices rows.now) 0)) }
    requires stamps { CanStamp (vertices rows.now) stamps.now 1 stamp_seat }

    ensures tree { IfOk result (λ r. AreTree rows.now sources.now dist.now r.hops r.parent) }

    // The key word of each vertex that was reached and is no source.
    ensures keys { IfOk result (λ r.
        HasKeys (vertices rows.now) sources.now (word_of r.key_seat) r.hops r.parent) }
    ensures key_seat { IfOk result (λ r. IsAlone r.key_seat × (r.key_seat.home ≡ key_seat.home)) }
    ensures stamp_seat { IfOk result (λ r. IsAlone r.stamp_seat × (r.stamp_seat.home ≡ stamp_seat.home)) }
    ensures stamps { IfOk result (λ r. (round : ℕ) → vertices rows.now < round →
        CanStamp (vertices rows.now) stamps.now round r.stamp_seat) }
{
    grow_tree(
        rt,
        alloc,
        team,
        rows,
        Some(in_rows),
        sources,
        dist,
        keys,
        key_seat,
        stamps,
        stamp_seat,
    )
}

/// The same with tables of its own: the hops and the parents of the vertices. Without in-rows each round pushes: to make
/// them costs more than the few pulls save. Memory that runs out is the only refusal.
pub fn hops_and_parents<R: Threads + Sync, G: Gate>(
    rt: &R,
    alloc: Global,
    team: &Team<'_, G>,
    rows: &Rows,
    in_rows: Option<&InRows>,
    sources: &[u32],
    dist: &[u64],
) -> Result<(Column, Column), AllocError>
    requires flip { IfSome in_rows (λ r. IsFlip rows.now r.now) }
    requires sources { AreSources (vertices rows.now) sources.now }
    requires dist { AreDistances rows.now sources.now dist.now }

    ensures { IfOk result (λ r. AreTree rows.now sources.now dist.now r.0 r.1) }
{
    let start = vec![in alloc; NONE; rows.n() as usize]?;
    let floors = ZeroFloors { count: rows.n() };
    let (keys, key_seat) = MinWords::open(alloc, start.as_slice(), &floors)?;
    let (stamps, stamp_seat) = StampWords::open(alloc, rows.n())?;
    let out = grow_tree(
        rt, alloc, team, rows, in_rows, sources, dist, &keys, key_seat, &stamps, stamp_seat,
    )?;
    Ok((out.hops, out.parent))
}
