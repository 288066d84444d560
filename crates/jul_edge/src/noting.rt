//! Edges walked from the members of a list, with the targets that were answered true listed as they come.
//!
//! No target is stamped. A caller that takes each target over once anyway is spared a word for each, and a sort.
ghost use Rattle.std.specs.Prelude.{◌≡◌, ℕ, ◌*◌, ◌<◌, ◌≤◌, ◌^◌, [], List, true, length, IfOk, All};
ghost use Rattle.jul_base.specs.Graph.{vertices, places, IsLawful};
ghost use Rattle.jul_subset.specs.Subsets.{IsSubset};
ghost use Rattle.jul_subset.specs.Chunks.{chunk_of};
ghost use Rattle.jul_subset.specs.Applications.{Done, AppliedInOrder, answered_true};
ghost use Rattle.jul_edge.specs.declared.functions.Direction.TheVariants.{Push};
ghost use Rattle.jul_edge.specs.Edges.{Application, IsWanted};
ghost use Rattle.jul_edge.specs.EdgeMaps.{HasMapped, listed};
ghost use Rattle.jul_edge.specs.Covers.{app_of, Applies, WantedGives};
ghost use Rattle.jul_edge.specs.Pushes.{MayNote, pushed_apps};

use crate::functions::{Direction, EdgeFn};
use jul_base::{Gate, Share};
use jul_pool::{Job, Team, run_all};
use jul_rows::{Rows, Visit, push_members};
use jul_subset::{chunk_at, joined};
use std::alloc::{AllocError, Global};
use std::thread::Threads;

/// A function that is applied to places.
#[derive(Drop)]
pub(crate) struct NoteVisit<'a, F: EdgeFn> {
    rows: &'a Rows,
    f: &'a F,
}

impl<'a, F: EdgeFn> Visit for NoteVisit<'a, F> {
    type State = F::Token;

    ghost can_want = { λ j. F.can_want j.f.now };

    ghost wanted = { λ j. F.wanted j.f.now };

    ghost can_visit = { λ j s t. (s.place < places j.rows.now)
        × F.can_apply j.f.now (app_of Push j.rows.now s) (F.Token.home t) };

    ghost visits = { λ j. Applies Push j.rows.now (F.gives j.f.now) F.Token.log };

    ghost home = { F.Token.home };

    ghost is_root = { F.Token.is_root };

    ghost out = { F.Token.out };

    fn wants(&self, v: u32) -> bool {
        self.f.wants(v)
    }

    fn touch(&self, state: &F::Token, _u: u32, _place: u32, v: u32) {
        self.f.touch(state, v);
    }

    fn visit(&self, state: &mut F::Token, u: u32, place: u32, v: u32) -> bool {
        let w = self.rows.weight(place);
        self.f.apply(state, Direction::Push, u, place, v, w)
    }
}

/// A push that is cut into chunks of members.
#[derive(Drop)]
pub(crate) struct NoteJob<'a, F: EdgeFn> {
    alloc: Global,
    members: &'a [u32],
    size: u32,
    visit: NoteVisit<'a, F>,
}

impl<'a, F: EdgeFn> Job for NoteJob<'a, F> {
    type Token = F::Token;

    type Out = Vec<u32>;

    ghost can_run = { λ j chunk home. (chunk * j.size < length j.members.now)
        × MayNote (F.can_want j.visit.f.now) (F.can_apply j.visit.f.now) j.visit.rows.now j.members.now
        (F.wanted j.visit.f.now) home };

    ghost gives = { λ j chunk out added. (done : List (Done Application)) × AppliedInOrder
        (WantedGives Push j.visit.rows.now j.members.now (F.wanted j.visit.f.now) (F.gives j.visit.f.now))
        (pushed_apps j.visit.rows.now (F.wanted j.visit.f.now) (chunk_of j.members.now j.size chunk)) [] added done
        × (out.items ≡ answered_true (λ a. a.target) done) };

    fn run(&self, chunk: u32, token: &mut F::Token) -> Result<Vec<u32>, AllocError> {
        let members = chunk_at(self.members, self.size as usize, chunk as usize);
        let mut noted = Vec::new(self.alloc);
        push_members(self.visit.rows, &self.visit, members, token, &mut noted)?;
        Ok(noted)
    }
}

/// Applies `f` once to each place from a member to a target that `f` wants, walking the rows of the members, and puts the
/// targets that were answered true in place of what `noted` held, each as often as it was, in no order.
///
/// The time depends on the members and their places alone, and one worker takes no memory beyond what `noted` has. After
/// an error the token is gone.
pub fn edge_push_noted<R: Threads + Sync, F: EdgeFn, G: Gate>(
    rt: &R,
    alloc: Global,
    team: &Team<'_, G>,
    rows: &Rows,
    members: &[u32],
    f: &F,
    token: F::Token,
    noted: &mut Vec<u32>,
) -> Result<F::Token, AllocError>
    requires members { IsSubset (listed Push (vertices rows.now) members.now) }
    requires root { F.Token.is_root token ≡ true }
    requires none_out { F.Token.out token ≡ 0 }
    requires want { (v : ℕ) → v < vertices rows.now → F.can_want f.now v }
    requires apply { (a : Application) → IsWanted Push rows.now members.now (F.wanted f.now) a →
        F.can_apply f.now a (F.Token.home token) }

    ensures made { IfOk result (λ new. HasMapped F.Token.log F.Token.home F.Token.is_root F.Token.out
        Push rows.now members.now (F.wanted f.now) (F.gives f.now) token new
        (listed Push (vertices rows.now) noted.new.items)) }
{
    // With the count comes what is true of every graph: it is lawful.
    prove!(rows.n() <= u32::MAX);
    let chunks = chunk_count(members.len(), team.chunk);
    let visit = NoteVisit { rows, f };
    if team.workers.min(chunks) > 1 {
        return note_chunks(rt, alloc, team, chunks, members, visit, token, noted);
    }
    team.pass_each(chunks);
    note_members(members, &visit, token, noted)
}

/// How many chunks of this size so many members are cut into.
fn chunk_count(len: usize, size: u32) -> u32
    requires few { len ≤ 2 ^ 24 }
    requires some { 1 ≤ size }

    ensures enough { len ≤ result * size }
    ensures within { (chunk : ℕ) → chunk < result → chunk * size < len }
{
    len.div_ceil(size as usize) as u32
}

/// All members are walked by the thread that calls.
fn note_members<F: EdgeFn>(
    members: &[u32],
    visit: &NoteVisit<'_, F>,
    token: F::Token,
    noted: &mut Vec<u32>,
) -> Result<F::Token, AllocError>
    requires members { IsSubset (listed Push (vertices visit.now.rows.now) members.now) }
    requires root { F.Token.is_root token ≡ true }
    requires none_out { F.Token.out token ≡ 0 }
    requires may { MayNote (F.can_want visit.now.f.now) (F.can_apply visit.now.f.now) visit.now.rows.now members.now
        (F.wanted visit.now.f.now) (F.Token.home token) }

    ensures made { IfOk result (λ new. HasMapped F.Token.log F.Token.home F.Token.is_root F.Token.out
        Push visit.now.rows.now members.now (F.wanted visit.now.f.now) (F.gives visit.now.f.now) token new
        (listed Push (vertices visit.now.rows.now) noted.new.items)) }
{
    let mut state = token;
    noted.clear();
    push_members(visit.rows, visit, members, &mut state, noted)?;
    Ok(state)
}

/// The members are walked in chunks by several workers.
fn note_chunks<R: Threads + Sync, F: EdgeFn, G: Gate>(
    rt: &R,
    alloc: Global,
    team: &Team<'_, G>,
    chunks: u32,
    members: &[u32],
    visit: NoteVisit<'_, F>,
    token: F::Token,
    noted: &mut Vec<u32>,
) -> Result<F::Token, AllocError>
    requires members { IsSubset (listed Push (vertices visit.rows.now) members.now) }
    requires chunks { (length members.now ≤ chunks * team.now.chunk)
        × ((chunk : ℕ) → chunk < chunks → chunk * team.now.chunk < length members.now) }
    requires root { F.Token.is_root token ≡ true }
    requires none_out { F.Token.out token ≡ 0 }
    requires may { MayNote (F.can_want visit.f.now) (F.can_apply visit.f.now) visit.rows.now members.now
        (F.wanted visit.f.now) (F.Token.home token) }

    ensures made { IfOk result (λ new. HasMapped F.Token.log F.Token.home F.Token.is_root F.Token.out
        Push visit.entry.rows.now members.now (F.wanted visit.entry.f.now) (F.gives visit.entry.f.now) token new
        (listed Push (vertices visit.entry.rows.now) noted.new.items)) }
{
    let job = NoteJob {
        alloc,
        members,
        size: team.chunk,
        visit,
    };
    let ran = run_all(rt, alloc, team, chunks, &job, token)?;
    *noted = joined(alloc, &ran.outs)?;
    Ok(ran.token)
}
