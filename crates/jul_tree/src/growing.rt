//! Round after round, till a round reaches no vertex.
ghost use Rattle.std.specs.Prelude.{◌≡◌, ℕ, length, IfOk, IfSome};
ghost use Rattle.jul_base.specs.Graph.{vertices};
ghost use Rattle.jul_base.specs.InRows.{IsFlip};
ghost use Rattle.jul_base.specs.Sources.{AreSources};
ghost use Rattle.jul_base.specs.Distances.{AreDistances};
ghost use Rattle.jul_tree.specs.Growing.{IsSearching};

use crate::rounds::hook_round;
use crate::setting::set_hops;
use jul_base::Gate;
use jul_pool::Team;
use jul_rows::{InRows, Rows, reach_of};
use jul_subset::VertexSubset;
use jul_words::{MinSeat, MinWords, StampSeat, StampWords};
use std::alloc::{AllocError, Global};
use std::thread::Threads;

/// The last members, of which there are none, the two roots, with none out, and how often a round was made, and one.
#[derive(Drop)]
pub(crate) struct Grown {
    pub(crate) members: Vec<u32>,
    pub(crate) seat: MinSeat,
    pub(crate) stamp_seat: StampSeat,
    pub(crate) hop: u64,
}

/// Breadth first over tight places, from all sources.
pub(crate) fn grow<R: Threads + Sync, G: Gate>(
    rt: &R,
    alloc: Global,
    team: &Team<'_, G>,
    rows: &Rows,
    in_rows: Option<&InRows>,
    sources: &[u32],
    dist: &[u64],
    words: &MinWords,
    mut seat: MinSeat,
    stamps: &StampWords,
    mut stamp_seat: StampSeat,
    first: Vec<u32>,
    hops: &mut [u64],
) -> Result<Grown, AllocError>
    requires flip { IfSome in_rows (λ r. IsFlip rows.now r.now) }
    requires sources { AreSources (vertices rows.now) sources.now }
    requires dist { AreDistances rows.now sources.now dist.now }
    requires searching { IsSearching rows.now sources.now dist.now words.now stamps.now
        seat.home stamp_seat.home hops.old first.items seat stamp_seat 1 }

    ensures searching { IfOk result (λ r. IsSearching rows.now sources.now dist.now words.now stamps.now
        seat.home stamp_seat.home hops.new r.members.items r.seat r.stamp_seat r.hop) }
    ensures empty { IfOk result (λ r. length r.members.items ≡ 0) }
{
    let n = rows.n();
    let mut members = first;
    let mut hop = 1;
    'rounds: while members.len() > 0 {
        let reach = reach_of(rows, members.as_slice());
        let frontier = VertexSubset::from_increasing(alloc, n, members);
        let out = hook_round(
            rt, alloc, team, rows, in_rows, &frontier, reach, dist, hops, hop, words, seat, stamps,
            stamp_seat,
        )?;
        seat = out.seat;
        stamp_seat = out.stamp_seat;
        prove!(out.hit.n() == n);
        members = out.hit.ids()?;
        set_hops(hops, members.as_slice(), hop);
        hop += 1;
    }
    Ok(Grown {
        members,
        seat,
        stamp_seat,
        hop,
    })
}
