//! The counting edge map in no order, with lists that are filled again.
ghost use Rattle.std.specs.Prelude.{false, IfOk};
ghost use Rattle.jul_base.specs.Graph.{vertices};
ghost use Rattle.jul_subset.specs.Subsets.{IsSubset};
ghost use Rattle.jul_count.specs.Counts.{AreNotedCounts};
ghost use Rattle.jul_count.specs.Adds.{CanCount, AreZero, HasCounted};

use crate::draining::drain_each;
use crate::edge_counts::add_round;
use jul_base::Gate;
use jul_pool::Team;
use jul_rows::Rows;
use jul_words::{CountSeat, CountWords};
use std::alloc::{AllocError, Global};
use std::thread::Threads;

/// Puts each vertex that a place from the members leads to, with the number of such places, in place of what `list` held,
/// each once and in no order. The members are increasing.
///
/// It is `edge_map_count` without a sort: words, seat and chunks are as there. `noted` is filled with the same vertices
/// on the way. The time depends on the members and their places alone, and one worker takes no memory beyond what the
/// two lists have.
///
/// Memory that runs out is the only refusal. Then the seat is gone, and the table isn't used again.
pub fn edge_counts_noted<R: Threads + Sync, G: Gate>(
    rt: &R,
    alloc: Global,
    team: &Team<'_, G>,
    rows: &Rows,
    members: &[u32],
    counts: &CountWords,
    seat: CountSeat,
    noted: &mut Vec<u32>,
    list: &mut Vec<(u32, u64)>,
) -> Result<CountSeat, AllocError>
    requires members { IsSubset (record { n = vertices rows.now; members = members.now; dense = false }) }
    requires words { CanCount (vertices rows.now) counts.now seat }

    ensures counts { IfOk result (λ _. AreNotedCounts rows.now members.now list.new.items) }
    ensures counted { IfOk result (λ r. HasCounted rows.now members.now seat r) }
    ensures zero { IfOk result (λ r. AreZero r) }
{
    // With the count comes what is true of every graph: it is lawful.
    prove!(rows.n() <= u32::MAX);
    let mut seat = add_round(rt, alloc, team, rows, members, counts, seat, noted)?;
    drain_each(counts, &mut seat, noted.as_slice(), list)?;
    Ok(seat)
}
