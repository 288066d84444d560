//! An add for each place from the members, by threads.
ghost use Rattle.std.specs.Prelude.{◌≡◌, ℕ, ◌*◌, ◌<◌, ◌≤◌, ◌^◌, [], ◌∷◌, true, List, length, IfOk};
ghost use Rattle.jul_subset.specs.Chunks.{chunk_of};
ghost use Rattle.jul_subset.specs.Applications.{Done, AppliedInOrder, answered_true};
ghost use Rattle.jul_rows.specs.Visits.{Step};
ghost use Rattle.jul_words.specs.Seats.{IsAlone};
ghost use Rattle.jul_count.specs.Counting.{AddsOne, VisitAdds, MayCount, AddedAll, all_wanted, steps_of};

use jul_base::Gate;
use jul_pool::{Job, Team, run_all};
use jul_rows::{Rows, Visit, push_members};
use jul_subset::{chunk_at, joined};
use jul_words::{CountHand, CountWords};
use std::alloc::{AllocError, Global};
use std::marker::PhantomData;
use std::thread::Threads;

/// Adds 1 at the target of a place, and notes the target where its count was 0.
#[derive(Drop)]
struct AddVisit<'a> {
    marker: PhantomData<&'a CountWords>,
}

impl<'a> Visit for AddVisit<'a> {
    type State = CountHand<'a>;

    ghost can_want = { λ _ _. Unit {0} };

    ghost wanted = { λ _. all_wanted };

    ghost can_visit = { λ _ s hand. s.target < length hand.seat.home.starts };

    ghost visits = { λ _. VisitAdds (λ hand. hand.seat.log ∷ []) };

    ghost home = { λ hand. hand.seat.home ∷ [] };

    ghost is_root = { λ hand. hand.seat.root };

    ghost out = { λ hand. hand.seat.out };

    fn wants(&self, _v: u32) -> bool {
        true
    }

    fn touch(&self, hand: &CountHand<'a>, _u: u32, _place: u32, v: u32) {
        hand.words.touch(&hand.seat, v);
    }

    fn visit(&self, hand: &mut CountHand<'a>, _u: u32, place: u32, v: u32) -> bool {
        hand.words.add(&mut hand.seat, v, place) == 0
    }
}

/// The adds of all members, cut into chunks of members.
#[derive(Drop)]
struct AddJob<'a> {
    alloc: Global,
    rows: &'a Rows,
    members: &'a [u32],
    size: u32,
}

impl<'a> Job for AddJob<'a> {
    type Token = CountHand<'a>;

    type Out = Vec<u32>;

    ghost can_run = { λ j chunk home. (chunk * j.size < length j.members.now)
        × MayCount j.rows.now j.members.now home };

    ghost gives = { λ j chunk out added. (done : List (Done Step))
        × AppliedInOrder AddsOne (steps_of j.rows.now (chunk_of j.members.now j.size chunk)) [] added done
        × (out.items ≡ answered_true (λ s. s.target) done) };

    fn run(&self, chunk: u32, hand: &mut CountHand<'a>) -> Result<Vec<u32>, AllocError> {
        let members = chunk_at(self.members, self.size as usize, chunk as usize);
        let visit = AddVisit {
            marker: PhantomData,
        };
        let mut noted = Vec::new(self.alloc);
        push_members(self.rows, &visit, members, hand, &mut noted)?;
        Ok(noted)
    }
}

/// Adds 1 at the target of each place from the members, and puts the targets that were 0 at an add in place of what
/// `noted` held. One worker walks all members at once and takes no memory beyond what `noted` has; several take chunks.
pub(crate) fn add_places<'a, R: Threads + Sync, G: Gate>(
    rt: &R,
    alloc: Global,
    team: &Team<'_, G>,
    rows: &'a Rows,
    members: &'a [u32],
    hand: CountHand<'a>,
    noted: &mut Vec<u32>,
) -> Result<CountHand<'a>, AllocError>
    requires few { length members.now ≤ 2 ^ 24 }
    requires may { MayCount rows.now members.now (hand.seat.home ∷ []) }
    requires alone { IsAlone hand.seat }

    ensures added { IfOk result (λ r. AddedAll rows.now members.now hand.entry.seat r.seat noted.new.items) }
{
    let chunks = members.len().div_ceil(team.chunk as usize) as u32;
    if team.workers.min(chunks) > 1 {
        return add_chunks(rt, alloc, team, chunks, rows, members, hand, noted);
    }
    team.pass_each(chunks);
    add_members(rows, members, hand, noted)
}

/// All members are walked by the thread that calls.
fn add_members<'a>(
    rows: &Rows,
    members: &[u32],
    hand: CountHand<'a>,
    noted: &mut Vec<u32>,
) -> Result<CountHand<'a>, AllocError>
    requires may { MayCount rows.now members.now (hand.seat.home ∷ []) }

    ensures added { IfOk result (λ r. AddedAll rows.now members.now hand.entry.seat r.seat noted.new.items) }
{
    let mut hand = hand;
    let visit = AddVisit {
        marker: PhantomData,
    };
    noted.clear();
    push_members(rows, &visit, members, &mut hand, noted)?;
    Ok(hand)
}

/// The members are walked in chunks by several workers.
fn add_chunks<'a, R: Threads + Sync, G: Gate>(
    rt: &R,
    alloc: Global,
    team: &Team<'_, G>,
    chunks: u32,
    rows: &'a Rows,
    members: &'a [u32],
    hand: CountHand<'a>,
    noted: &mut Vec<u32>,
) -> Result<CountHand<'a>, AllocError>
    requires chunks { (length members.now ≤ chunks * team.now.chunk)
        × ((chunk : ℕ) → chunk < chunks → chunk * team.now.chunk < length members.now) }
    requires may { MayCount rows.now members.now (hand.seat.home ∷ []) }
    requires alone { IsAlone hand.seat }

    ensures added { IfOk result (λ r. AddedAll rows.now members.now hand.entry.seat r.seat noted.new.items) }
{
    let job = AddJob {
        alloc,
        rows,
        members,
        size: team.chunk,
    };
    let ran = run_all(rt, alloc, team, chunks, &job, hand)?;
    *noted = joined(alloc, &ran.outs)?;
    Ok(ran.token)
}
