//! The one call of the pool.
ghost use Rattle.std.specs.Prelude.{◌≡◌, ℕ, ◌<◌, ◌≤◌, true, IfOk};
ghost use Rattle.jul_pool.specs.Runs.{RanEachOnce};

use crate::alone::run_alone;
use crate::claims::Board;
use crate::deques::{deal, thieves_of};
use crate::gathering::gather;
use crate::jobs::{Job, RunOut};
use crate::leftovers::run_rest;
use crate::lending::{lend, run_workers};
use crate::rounds::{Round, Worked};
use crate::settling::settle;
use crate::teams::Team;
use jul_base::{Gate, Ids, Share};
use std::alloc::{AllocError, Global};
use std::thread::Threads;

/// Runs each chunk from 0 to `chunks - 1` once, on at most as many threads as the team has workers.
///
/// Before each chunk the gate is passed once, with the worker's number and the chunk. The thread that calls works
/// too. With one chunk or one worker it works alone, and no thread is started. Where no thread can be had, it does
/// all the work. After an error the token is gone, and so are the tokens that were split off it.
pub fn run_all<R: Threads + Sync, J: Job, G: Gate>(
    rt: &R,
    alloc: Global,
    team: &Team<'_, G>,
    chunks: u32,
    job: &J,
    token: J::Token,
) -> Result<RunOut<J>, AllocError>
    requires root { J.Token.is_root token ≡ true }
    requires none_out { J.Token.out token ≡ 0 }
    requires condition { (chunk : ℕ) → chunk < chunks → J.can_run job.now chunk (J.Token.home token) }

    ensures each_once { IfOk result (λ r. RanEachOnce (J.gives job.now) J.Token.log chunks token r) }
    ensures root { IfOk result (λ r. J.Token.is_root r.token ≡ true) }
    ensures none_out { IfOk result (λ r. J.Token.out r.token ≡ 0) }
    ensures home { IfOk result (λ r. J.Token.home r.token ≡ J.Token.home token) }
{
    let workers = team.workers.min(chunks);
    if workers <= 1 {
        return run_alone(alloc, team, chunks, job, token);
    }
    run_together(rt, alloc, team.gate, workers, chunks, job, token)
}

/// Runs each chunk once, on this many threads where they can be had.
fn run_together<R: Threads + Sync, J: Job, G: Gate>(
    rt: &R,
    alloc: Global,
    gate: &G,
    workers: u32,
    chunks: u32,
    job: &J,
    token: J::Token,
) -> Result<RunOut<J>, AllocError>
    requires some { 1 ≤ workers }
    requires few { workers ≤ 64 }
    requires root { J.Token.is_root token ≡ true }
    requires none_out { J.Token.out token ≡ 0 }
    requires condition { (chunk : ℕ) → chunk < chunks → J.can_run job.now chunk (J.Token.home token) }

    ensures each_once { IfOk result (λ r. RanEachOnce (J.gives job.now) J.Token.log chunks token r) }
    ensures root { IfOk result (λ r. J.Token.is_root r.token ≡ true) }
    ensures none_out { IfOk result (λ r. J.Token.out r.token ≡ 0) }
    ensures home { IfOk result (λ r. J.Token.home r.token ≡ J.Token.home token) }
{
    let mut token = token;
    let (board, mut seat) = Board::open(alloc, chunks)?;
    let hands = deal(alloc, workers, chunks)?;
    let thieves = thieves_of(alloc, &hands)?;
    let round = Round {
        alloc,
        board: &board,
        gate,
        job,
        thieves: thieves.as_slice(),
    };
    let lent = lend(&round, hands, &mut seat, &mut token)?;
    let worked = run_workers(rt, &round, &token, lent)?;
    let done = gather(&round, &mut seat, &mut token, worked)?;
    let mut lead = Worked { done, seat, token };
    run_rest(&round, &mut lead)?;
    let Worked { done, seat, token } = lead;
    board.close(seat);
    let (outs, order) = settle(alloc, chunks, done)?;
    Ok(RunOut {
        outs,
        order: Ids::from_vec(order),
        token,
    })
}
