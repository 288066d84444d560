//! Edges walked from the members of a subset.
ghost use Rattle.std.specs.Prelude.{◌≡◌, ℕ, ◌+◌, ◌*◌, ◌<◌, ◌≤◌, ◌^◌, [], ◌∷◌, ◌++◌, true, false, List, length, IfOk, All};
ghost use Rattle.jul_base.specs.Graph.{vertices, places, IsLawful};
ghost use Rattle.jul_subset.specs.Subsets.{IsSubset};
ghost use Rattle.jul_subset.specs.Chunks.{chunk_of};
ghost use Rattle.jul_subset.specs.Applications.{Done, AppliedInOrder, answered_true};
ghost use Rattle.jul_edge.specs.declared.functions.Direction.TheVariants.{Push};
ghost use Rattle.jul_edge.specs.Edges.{Application, IsWanted};
ghost use Rattle.jul_edge.specs.EdgeMaps.{HasMapped, CanStamp, HasStamped};
ghost use Rattle.jul_edge.specs.Covers.{app_of, Applies, WantedGives};
ghost use Rattle.jul_edge.specs.Pushes.{StampedGives, MayPush, PushedAll, pushed_apps};
ghost use Rattle.jul_words.specs.Seats.{IsSeatOf, IsAlone};
ghost use Rattle.jul_words.specs.Stamps.{AllFirsts};
ghost use Rattle.std.specs.List.Sorted.{IsStrictlyIncreasing};

use crate::functions::{Direction, EdgeFn};
use crate::maps::EdgeOut;
use jul_base::{Gate, Share};
use jul_pool::{Job, Team, run_all};
use jul_rows::{Rows, Visit, push_members};
use jul_subset::{VertexSubset, chunk_at, joined};
use jul_words::{Both, StampHand, StampSeat, StampWords};
use std::alloc::{AllocError, Global};
use std::thread::Threads;

/// A function that is applied to places, and then stamps the targets that were answered true.
#[derive(Drop)]
pub(crate) struct PushVisit<'a, F: EdgeFn> {
    rows: &'a Rows,
    f: &'a F,
    round: u64,
}

impl<'a, F: EdgeFn> Visit for PushVisit<'a, F> {
    type State = Both<F::Token, StampHand<'a>>;

    ghost can_want = { λ j. F.can_want j.f.now };

    ghost wanted = { λ j. F.wanted j.f.now };

    ghost can_visit = { λ j s t. (s.place < places j.rows.now) × (s.target < length t.b.seat.home.starts)
        × (1 ≤ j.round) × F.can_apply j.f.now (app_of Push j.rows.now s) (F.Token.home t.a) };

    ghost visits = { λ j. Applies Push j.rows.now (StampedGives (F.gives j.f.now) j.round F.Token.parts)
        (λ t. F.Token.log t.a ++ t.b.seat.log ∷ []) };

    ghost home = { λ t. F.Token.home t.a ++ t.b.seat.home ∷ [] };

    ghost is_root = { λ t. F.Token.is_root t.a };

    ghost out = { λ t. F.Token.out t.a };

    fn wants(&self, v: u32) -> bool {
        self.f.wants(v)
    }

    fn touch(&self, state: &Both<F::Token, StampHand<'a>>, _u: u32, _place: u32, v: u32) {
        self.f.touch(&state.a, v);
    }

    /// Answers whether the function answered true and no other visit stamped `v` first.
    fn visit(&self, state: &mut Both<F::Token, StampHand<'a>>, u: u32, place: u32, v: u32) -> bool {
        let w = self.rows.weight(place);
        if !self.f.apply(&mut state.a, Direction::Push, u, place, v, w) {
            return false;
        }
        let hand = &mut state.b;
        hand.words.stamp(&mut hand.seat, v, self.round)
    }
}

/// A push that is cut into chunks of members.
#[derive(Drop)]
pub(crate) struct PushJob<'a, F: EdgeFn> {
    alloc: Global,
    members: &'a [u32],
    size: u32,
    visit: PushVisit<'a, F>,
}

impl<'a, F: EdgeFn> Job for PushJob<'a, F> {
    type Token = Both<F::Token, StampHand<'a>>;

    type Out = Vec<u32>;

    ghost can_run = { λ j chunk home. (chunk * j.size < length j.members.now)
        × MayPush (F.can_want j.visit.f.now) (F.can_apply j.visit.f.now) j.visit.rows.now j.members.now
        (F.wanted j.visit.f.now) F.Token.parts j.visit.round home };

    ghost gives = { λ j chunk out added. (done : List (Done Application)) × AppliedInOrder
        (WantedGives Push j.visit.rows.now j.members.now (F.wanted j.visit.f.now)
        (StampedGives (F.gives j.visit.f.now) j.visit.round F.Token.parts))
        (pushed_apps j.visit.rows.now (F.wanted j.visit.f.now) (chunk_of j.members.now j.size chunk)) [] added done
        × (out.items ≡ answered_true (λ a. a.target) done) };

    fn run(
        &self,
        chunk: u32,
        token: &mut Both<F::Token, StampHand<'a>>,
    ) -> Result<Vec<u32>, AllocError> {
        let members = chunk_at(self.members, self.size as usize, chunk as usize);
        let mut noted = Vec::new(self.alloc);
        push_members(self.visit.rows, &self.visit, members, token, &mut noted)?;
        Ok(noted)
    }
}

/// Applies `f` once to each place from a member of `from` to a target that `f` wants, walking the rows of the
/// members. The time depends on the members and their places, and on no other vertex.
///
/// A target that was answered true is stamped with `round`, and stands in the subset once. Stamps of earlier calls are
/// below `round`. After an error the tokens are gone.
pub fn edge_push<R: Threads + Sync, F: EdgeFn, G: Gate>(
    rt: &R,
    alloc: Global,
    team: &Team<'_, G>,
    rows: &Rows,
    from: &VertexSubset,
    f: &F,
    token: F::Token,
    stamps: &StampWords,
    stamp_seat: StampSeat,
    round: u64,
) -> Result<EdgeOut<F::Token>, AllocError>
    requires n { from.now.n ≡ vertices rows.now }
    requires root { F.Token.is_root token ≡ true }
    requires none_out { F.Token.out token ≡ 0 }
    requires stamps { CanStamp (vertices rows.now) stamps.now round stamp_seat }
    requires want { (v : ℕ) → v < vertices rows.now → F.can_want f.now v }
    requires apply { (a : Application) → IsWanted Push rows.now from.now.members (F.wanted f.now) a →
        F.can_apply f.now a (F.Token.home token) }

    ensures direction { IfOk result (λ r. r.direction ≡ Push) }
    ensures made { IfOk result (λ r. HasMapped F.Token.log F.Token.home F.Token.is_root F.Token.out
        Push rows.now from.now.members (F.wanted f.now) (F.gives f.now) token r.token r.subset) }
    ensures stamped { IfOk result (λ r. HasStamped Push round stamp_seat r.stamp_seat) }
{
    prove!(from.n() == rows.n());
    match from.as_slice() {
        Some(members) => push_list(
            rt, alloc, team, rows, members, f, token, stamps, stamp_seat, round,
        ),
        None => {
            let members = from.ids()?;
            push_list(
                rt,
                alloc,
                team,
                rows,
                members.as_slice(),
                f,
                token,
                stamps,
                stamp_seat,
                round,
            )
        }
    }
}

/// Pushes along the rows of these members, with the tokens as roots.
pub(crate) fn push_list<R: Threads + Sync, F: EdgeFn, G: Gate>(
    rt: &R,
    alloc: Global,
    team: &Team<'_, G>,
    rows: &Rows,
    members: &[u32],
    f: &F,
    token: F::Token,
    stamps: &StampWords,
    stamp_seat: StampSeat,
    round: u64,
) -> Result<EdgeOut<F::Token>, AllocError>
    requires lawful { IsLawful rows.now }
    requires members { IsSubset (record { n = vertices rows.now; members = members.now; dense = false }) }
    requires root { F.Token.is_root token ≡ true }
    requires none_out { F.Token.out token ≡ 0 }
    requires stamps { CanStamp (vertices rows.now) stamps.now round stamp_seat }
    requires want { (v : ℕ) → v < vertices rows.now → F.can_want f.now v }
    requires apply { (a : Application) → IsWanted Push rows.now members.now (F.wanted f.now) a →
        F.can_apply f.now a (F.Token.home token) }

    ensures direction { IfOk result (λ r. r.direction ≡ Push) }
    ensures made { IfOk result (λ r. HasMapped F.Token.log F.Token.home F.Token.is_root F.Token.out
        Push rows.now members.now (F.wanted f.now) (F.gives f.now) token r.token r.subset) }
    ensures stamped { IfOk result (λ r. HasStamped Push round stamp_seat r.stamp_seat) }
{
    let visit = PushVisit { rows, f, round };
    let hand = StampHand {
        words: stamps,
        seat: stamp_seat,
    };
    let (token, hand, noted) = push_chunks(rt, alloc, team, members, visit, token, hand)?;
    let mut stamp_seat = hand.seat;
    learn(stamps, &mut stamp_seat);
    let subset = VertexSubset::from_unordered(alloc, rows.n(), noted)?;
    Ok(EdgeOut {
        subset,
        direction: Direction::Push,
        token,
        stamp_seat,
    })
}

/// Runs a push in chunks of members, and gives the targets that were noted.
fn push_chunks<'a, R: Threads + Sync, F: EdgeFn, G: Gate>(
    rt: &R,
    alloc: Global,
    team: &Team<'_, G>,
    members: &'a [u32],
    visit: PushVisit<'a, F>,
    token: F::Token,
    hand: StampHand<'a>,
) -> Result<(F::Token, StampHand<'a>, Vec<u32>), AllocError>
    requires few { length members.now ≤ 2 ^ 24 }
    requires increasing { IsStrictlyIncreasing members.now }
    requires root { (F.Token.is_root token ≡ true) × (hand.seat.root ≡ true) }
    requires none_out { (F.Token.out token ≡ 0) × (hand.seat.out ≡ 0) }
    requires may { MayPush (F.can_want visit.f.now) (F.can_apply visit.f.now) visit.rows.now members.now
        (F.wanted visit.f.now) F.Token.parts visit.round (F.Token.home token ++ hand.seat.home ∷ []) }

    ensures pushed { IfOk result (λ r. PushedAll (F.gives visit.entry.f.now) visit.entry.rows.now
        visit.entry.round members.now (F.wanted visit.entry.f.now)
        (F.Token.log token) (F.Token.log r.0) hand.entry.seat r.1.seat r.2.items) }
    ensures root { IfOk result (λ r. (F.Token.is_root r.0 ≡ true) × (r.1.seat.root ≡ true)) }
    ensures none_out { IfOk result (λ r. (F.Token.out r.0 ≡ 0) × (r.1.seat.out ≡ 0)) }
    ensures home { IfOk result (λ r. F.Token.home r.0 ≡ F.Token.home token) }
    ensures seat_home { IfOk result (λ r. r.1.seat.home ≡ hand.entry.seat.home) }
{
    let chunks = members.len().div_ceil(team.chunk as usize) as u32;
    let job = PushJob {
        alloc,
        members,
        size: team.chunk,
        visit,
    };
    let ran = run_all(rt, alloc, team, chunks, &job, Both { a: token, b: hand })?;
    let noted = joined(alloc, &ran.outs)?;
    let Both { a, b } = ran.token;
    Ok((a, b, noted))
}

/// The root with none out learns what is true of the marks in its log. Three loads.
fn learn(stamps: &StampWords, seat: &mut StampSeat)
    requires of_table { IsSeatOf stamps.now seat.old }
    requires alone { IsAlone seat.old }

    ensures same { seat.new ≡ seat.old }
    ensures settled { AllFirsts seat.new.home seat.new.log }
{
    let part = stamps.split(seat);
    stamps.join(seat, part);
}
