//! What one worker does: it fills its own deque, pops the chunks there, and then steals. It runs those that no other
//! seat took.
ghost use Rattle.std.specs.Prelude.{◌≡◌, ◌≢◌, ℕ, ◌+◌, ◌<◌, ◌≤◌, IfOk, OnOk};
ghost use Rattle.jul_base.specs.Times.{times};
ghost use Rattle.jul_pool.specs.Workers.{CanWork, IsLent, IsWorked, HasWorked};

use crate::chunk_runs::run_chunk;
use crate::deques::{Deque, Hand, pop, push_range};
use crate::jobs::Job;
use crate::rounds::{Lent, Round, Worked};
use crate::stealing::run_stolen;
use jul_base::{Gate, Share};
use std::alloc::AllocError;

/// Takes a chunk, and runs it where no other seat had taken it.
pub fn take_and_run<J: Job, G: Gate>(
    round: &Round<'_, J, G>,
    number: u32,
    chunk: u32,
    me: &mut Worked<J::Token, J::Out>,
) -> Result<(), AllocError>
    requires able { CanWork J.Token.home J.can_run round.now me.old }

    ensures worked { OnOk result (HasWorked J.Token.log J.Token.home J.Token.is_root J.Token.out
        (J.gives round.now.job.now) round.now.board.now.chunks me.old me.new) }
    ensures alone { me.old.seat.me.0.root ≡ 1 → me.old.seat.me.0.out ≡ 0 → chunk < round.now.board.now.chunks →
        times chunk me.old.seat.me.0.chunks ≡ 0 → OnOk result (0 < times chunk me.new.seat.me.0.chunks) }
    ensures others { OnOk result ((x : ℕ) → x ≢ chunk →
        times x me.new.seat.me.0.chunks ≡ times x me.old.seat.me.0.chunks) }
{
    if !round.board.take(&mut me.seat, chunk) {
        return Ok(());
    }
    let out = run_chunk(round.gate, number, chunk, round.job, &mut me.token)?;
    me.done.push((chunk, out))?;
    Ok(())
}

/// Pushes the rest of this worker's range, runs the chunks of its own deque, and then those that it steals.
pub fn work<J: Job, G: Gate>(
    round: &Round<'_, J, G>,
    lent: Lent<J::Token>,
) -> Result<Worked<J::Token, J::Out>, AllocError>
    requires lent { IsLent J.Token.log J.Token.home J.Token.is_root round.now (J.Token.home lent.token) lent }
    requires condition { (chunk : ℕ) → chunk < round.now.board.now.chunks →
        J.can_run round.now.job.now chunk (J.Token.home lent.token) }

    ensures { IfOk result
        (IsWorked J.Token.log J.Token.home J.Token.is_root round.now (J.Token.home lent.token) J.gives) }
{
    let Lent {
        number,
        seat,
        token,
        hand,
    } = lent;
    let Hand {
        mut deque,
        next,
        end,
    } = hand;
    push_range(&mut deque, next, end);
    let done = Vec::with_capacity(round.alloc, deque.capacity())?;
    let mut me = Worked { done, seat, token };
    run_own(round, number, &mut deque, &mut me)?;
    run_stolen(round, number, &mut me)?;
    Ok(me)
}

/// Runs the chunks of this worker's own deque until that is empty.
fn run_own<J: Job, G: Gate>(
    round: &Round<'_, J, G>,
    number: u32,
    deque: &mut Deque,
    me: &mut Worked<J::Token, J::Out>,
) -> Result<(), AllocError>
    requires able { CanWork J.Token.home J.can_run round.now me.old }

    ensures { OnOk result (HasWorked J.Token.log J.Token.home J.Token.is_root J.Token.out
        (J.gives round.now.job.now) round.now.board.now.chunks me.old me.new) }
{
    // No more chunks were pushed than there are.
    for _ in 0..round.board.chunks {
        let Some(chunk) = pop(deque) else {
            break;
        };
        take_and_run(round, number, chunk, me)?;
    }
    Ok(())
}
