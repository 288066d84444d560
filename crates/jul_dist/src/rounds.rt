//! One round of relaxations.
ghost use Rattle.std.specs.Prelude.{◌≡◌, ℕ, ◌<◌, ◌≤◌, length, All, IfOk, IfSome, slice_index};
ghost use Rattle.jul_base.specs.Graph.{vertices};
ghost use Rattle.jul_base.specs.InRows.{IsFlip};
ghost use Rattle.jul_words.specs.Seats.{IsSeatOf, IsAlone};
ghost use Rattle.jul_subset.specs.Subsets.{IsSubset};
ghost use Rattle.jul_edge.specs.declared.functions.Direction.TheVariants.{Push};
ghost use Rattle.jul_edge.specs.EdgeMaps.{listed};
ghost use Rattle.jul_dist.specs.Relaxing.{HasRelaxed, AreAboveFloors};

use crate::relaxing::Relax;
use jul_base::Gate;
use jul_edge::edge_notes_by_reach;
use jul_pool::Team;
use jul_rows::{InRows, Rows};
use jul_words::{MinHand, MinSeat, MinWords};
use std::alloc::{AllocError, Global};
use std::thread::Threads;

/// A place weighs as much as so many steps of those that a further worker is started for: it is a far read and mostly a
/// locked step.
const STEPS_FOR_A_PLACE: u64 = 2;

/// Offers the target of each place from a vertex of `from` the value of its source and its weight together, and gives the
/// root back. The vertices that some application found greater than what it offered stand in place of what `lowered` held.
///
/// By `reach`, the vertices and their places, it is chosen how many work and how the places are walked.
/// Numbers above `MAX_SUM` are left out. Memory that runs out is the only refusal; then the seat is gone.
pub(crate) fn relax_round<R: Threads + Sync, G: Gate>(
    rt: &R,
    alloc: Global,
    team: &Team<'_, G>,
    rows: &Rows,
    in_rows: Option<&InRows>,
    from: &[u32],
    reach: u64,
    values: &[u64],
    least: u64,
    words: &MinWords,
    seat: MinSeat,
    lowered: &mut Vec<u32>,
) -> Result<MinSeat, AllocError>
    requires some { 0 < vertices rows.now }
    requires from { IsSubset (listed Push (vertices rows.now) from.now) }
    requires flip { IfSome in_rows (λ r. IsFlip rows.now r.now) }
    requires values { length values.now ≡ vertices rows.now }
    requires least { All (λ u. least ≤ slice_index values.now u) from.now }
    requires table { IsSeatOf words.now seat }
    requires words { length seat.home.starts ≡ vertices rows.now }
    requires alone { IsAlone seat }
    requires floors { AreAboveFloors rows.now from.now values.now seat.home }

    ensures relaxed { IfOk result (λ new.
        HasRelaxed rows.now from.now values.now least seat new lowered.new.items) }
{
    prove!(rows.n() > 0);
    // Where each round pushes, only the word of a target is looked at. A pull walks all places that lead to what is wanted.
    let f = Relax {
        values,
        least,
        every: in_rows.is_none(),
        words,
    };
    let hand = MinHand { words, seat };
    let team = team.for_work(reach.saturating_mul(STEPS_FOR_A_PLACE));
    let out = edge_notes_by_reach(
        rt, alloc, &team, rows, in_rows, from, reach, &f, hand, lowered,
    )?;
    let MinHand { words: _, mut seat } = out.token;
    // By this step the root learns what the rule says of its log, now that none is out.
    let _ = words.load(&mut seat, 0);
    Ok(seat)
}
