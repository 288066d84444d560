//! The counting edge map.
ghost use Rattle.std.specs.Prelude.{◌≡◌, false, IfOk};
ghost use Rattle.jul_base.specs.Graph.{vertices, IsLawful};
ghost use Rattle.jul_subset.specs.Subsets.{IsSubset};
ghost use Rattle.jul_count.specs.Counts.{AreCounts};
ghost use Rattle.jul_count.specs.Adds.{CanCount, AreZero, HasCounted};
ghost use Rattle.jul_count.specs.Counting.{HasAddedRound};

use crate::adding::add_places;
use crate::draining::{drain_each, learn};
use jul_base::Gate;
use jul_pool::Team;
use jul_rows::Rows;
use jul_subset::VertexSubset;
use jul_words::{CountHand, CountSeat, CountWords};
use std::alloc::{AllocError, Global};
use std::thread::Threads;

/// Each vertex that a place from `from` leads to, in increasing order, with the number of such places.
///
/// `counts` has a word for each vertex, all of them 0, and `seat` is its root with none out. Each place makes one add
/// at its target, and the root drains each target that was added to, so all words are 0 again. The work is cut into
/// chunks of at most `team.chunk` members. The time depends on the members and their places, and on no other vertex
/// unless the targets are more than a share of all vertices.
///
/// Memory that runs out is the only refusal. Then the seat is gone, and the table isn't used again.
pub fn edge_map_count<R: Threads + Sync, G: Gate>(
    rt: &R,
    alloc: Global,
    team: &Team<'_, G>,
    rows: &Rows,
    from: &VertexSubset,
    counts: &CountWords,
    seat: CountSeat,
) -> Result<(Vec<(u32, u64)>, CountSeat), AllocError>
    requires n { from.now.n ≡ vertices rows.now }
    requires words { CanCount (vertices rows.now) counts.now seat }

    ensures counts { IfOk result (λ r. AreCounts rows.now from.now.members r.0.items) }
    ensures counted { IfOk result (λ r. HasCounted rows.now from.now.members seat r.1) }
    ensures zero { IfOk result (λ r. AreZero r.1) }
{
    prove!(from.n() == rows.n());
    match from.as_slice() {
        Some(members) => count_list(rt, alloc, team, rows, members, counts, seat),
        None => {
            let members = from.ids()?;
            count_list(rt, alloc, team, rows, members.as_slice(), counts, seat)
        }
    }
}

/// The same for an increasing list of vertices.
fn count_list<R: Threads + Sync, G: Gate>(
    rt: &R,
    alloc: Global,
    team: &Team<'_, G>,
    rows: &Rows,
    members: &[u32],
    counts: &CountWords,
    seat: CountSeat,
) -> Result<(Vec<(u32, u64)>, CountSeat), AllocError>
    requires lawful { IsLawful rows.now }
    requires members { IsSubset (record { n = vertices rows.now; members = members.now; dense = false }) }
    requires words { CanCount (vertices rows.now) counts.now seat }

    ensures counts { IfOk result (λ r. AreCounts rows.now members.now r.0.items) }
    ensures counted { IfOk result (λ r. HasCounted rows.now members.now seat r.1) }
    ensures zero { IfOk result (λ r. AreZero r.1) }
{
    let mut noted = Vec::new(alloc);
    let mut seat = add_round(rt, alloc, team, rows, members, counts, seat, &mut noted)?;
    let touched = VertexSubset::from_unordered(alloc, rows.n(), noted)?;
    let Some(ids) = touched.as_slice() else {
        unreachable!()
    };
    let mut list = Vec::with_capacity(alloc, ids.len())?;
    drain_each(counts, &mut seat, ids, &mut list)?;
    Ok((list, seat))
}

/// The adds for the places of an increasing list of vertices. The root learns what the words are before and after.
pub(crate) fn add_round<R: Threads + Sync, G: Gate>(
    rt: &R,
    alloc: Global,
    team: &Team<'_, G>,
    rows: &Rows,
    members: &[u32],
    counts: &CountWords,
    seat: CountSeat,
    noted: &mut Vec<u32>,
) -> Result<CountSeat, AllocError>
    requires lawful { IsLawful rows.now }
    requires members { IsSubset (record { n = vertices rows.now; members = members.now; dense = false }) }
    requires words { CanCount (vertices rows.now) counts.now seat }

    ensures added { IfOk result (λ r. HasAddedRound rows.now members.now seat r noted.new.items) }
{
    let mut seat = seat;
    learn(counts, &mut seat);
    let hand = CountHand {
        words: counts,
        seat,
    };
    let hand = add_places(rt, alloc, team, rows, members, hand, noted)?;
    let mut seat = hand.seat;
    learn(counts, &mut seat);
    Ok(seat)
}
