//! The workers of one call: what each is lent, and the threads that they run on.
ghost use Rattle.std.specs.Prelude.{◌≡◌, ℕ, ◌<◌, ◌≤◌, [], true, All, IfOk, OnOk, vec_len};
ghost use Rattle.crossbeam_deque.specs.Handles.{worker_view};
ghost use Rattle.jul_pool.specs.Claims.{root_view};
ghost use Rattle.jul_pool.specs.Deques.{MayPush};
ghost use Rattle.jul_pool.specs.Workers.{IsLent, IsWorked};

use crate::claims::Seat;
use crate::deques::Hand;
use crate::jobs::Job;
use crate::rounds::{Lent, Round, Worked};
use crate::workers::work;
use jul_base::{Gate, Share};
use std::alloc::AllocError;
use std::thread;
use std::thread::Threads;

/// Splits the root seat and the root token for each worker, and gives it its deque.
pub fn lend<J: Job, G: Gate>(
    round: &Round<'_, J, G>,
    mut hands: Vec<Hand>,
    seat: &mut Seat,
    token: &mut J::Token,
) -> Result<Vec<Lent<J::Token>>, AllocError>
    requires few { vec_len hands ≤ 64 }
    requires dealt { All (λ h. MayPush h.next (worker_view h.deque)) hands.items }
    requires table { seat.old.table_id ≡ round.now.board.now.table.shared.table_id }
    requires seat { seat.old.me ≡ (root_view, []) }
    requires root { J.Token.is_root token.old ≡ true }
    requires none_out { J.Token.out token.old ≡ 0 }

    ensures count { IfOk result (λ v. vec_len v ≡ vec_len hands) }
    ensures lent { IfOk result (λ v.
        All (IsLent J.Token.log J.Token.home J.Token.is_root round.now (J.Token.home token.old)) v.items) }

    ensures table { OnOk result (seat.new.table_id ≡ seat.old.table_id) }
    ensures root_seat { OnOk result (seat.new.me.0.root ≡ 1) }
    ensures seats_out { OnOk result (seat.new.me.0.out ≡ vec_len hands) }
    ensures none_taken { OnOk result (seat.new.me.0.chunks ≡ []) }

    ensures root { OnOk result (J.Token.is_root token.new ≡ true) }
    ensures out { OnOk result (J.Token.out token.new ≡ vec_len hands) }
    ensures log { OnOk result (J.Token.log token.new ≡ J.Token.log token.old) }
    ensures home { OnOk result (J.Token.home token.new ≡ J.Token.home token.old) }
{
    let mut lent = Vec::with_capacity(round.alloc, hands.len())?;
    while let Some(hand) = hands.pop() {
        let mine = round.board.split(seat);
        let part = token.split();
        lent.push(Lent {
            number: hands.len() as u32,
            seat: mine,
            token: part,
            hand,
        })?;
    }
    Ok(lent)
}

/// Runs each worker, one of them on the thread that calls. Where no thread can be had they run one after another.
///
/// `root` is the token that theirs were split off.
pub fn run_workers<R: Threads + Sync, J: Job, G: Gate>(
    rt: &R,
    round: &Round<'_, J, G>,
    root: &J::Token,
    lent: Vec<Lent<J::Token>>,
) -> Result<Vec<Result<Worked<J::Token, J::Out>, AllocError>>, AllocError>
    requires lent { All
        (IsLent J.Token.log J.Token.home J.Token.is_root round.now (J.Token.home root.now)) lent.items }
    requires condition { (chunk : ℕ) → chunk < round.now.board.now.chunks →
        J.can_run round.now.job.now chunk (J.Token.home root.now) }

    ensures count { IfOk result (λ v. vec_len v ≡ vec_len lent) }
    ensures worked { IfOk result (λ v. All (λ one. IfOk one (IsWorked J.Token.log J.Token.home J.Token.is_root
        round.now (J.Token.home root.now) J.gives)) v.items) }
{
    let run = |one: Lent<J::Token>| -> Result<Worked<J::Token, J::Out>, AllocError>
        requires { IsLent J.Token.log J.Token.home J.Token.is_root round.now (J.Token.home one.token) one
            × ((chunk : ℕ) → chunk < round.now.board.now.chunks →
            J.can_run round.now.job.now chunk (J.Token.home one.token)) }
        ensures { IfOk result
            (IsWorked J.Token.log J.Token.home J.Token.is_root round.entry.now (J.Token.home one.token) J.gives) }
    { work(round, one) };
    thread::map_vec(rt, lent, &run)
}
