//! What the workers did, put together: the logs and the chunks in the root, and all results in one list.
ghost use Rattle.std.specs.Prelude.{◌≡◌, ◌+◌, ◌-◌, ◌<◌, ◌++◌, [], true, map, All, IfOk, OnOk, vec_len};
ghost use Rattle.jul_base.specs.Logs.{followed_by};
ghost use Rattle.jul_pool.specs.Runs.{Did};
ghost use Rattle.jul_pool.specs.Workers.{IsWorked};

use crate::claims::Seat;
use crate::jobs::Job;
use crate::rounds::{Round, Worked};
use jul_base::{Gate, Share};
use std::alloc::AllocError;

/// Joins the seat and the token of one worker, and puts its results behind those that are there.
fn take_in<J: Job, G: Gate>(
    round: &Round<'_, J, G>,
    seat: &mut Seat,
    token: &mut J::Token,
    done: &mut Vec<(u32, J::Out)>,
    worked: Worked<J::Token, J::Out>,
) -> Result<(), AllocError>
    requires table { seat.old.table_id ≡ round.now.board.now.table.shared.table_id }
    requires root_seat { seat.old.me.0.root ≡ 1 }
    requires root { J.Token.is_root token.old ≡ true }
    requires some_out { 0 < J.Token.out token.old }
    requires worked { IsWorked J.Token.log J.Token.home J.Token.is_root
        round.now (J.Token.home token.old) J.gives worked }

    ensures table { seat.new.table_id ≡ seat.old.table_id }
    ensures root_seat { seat.new.me.0.root ≡ 1 }
    ensures seats_out { seat.new.me.0.out ≡ seat.old.me.0.out - 1 }
    ensures chunks { seat.new.me.0.chunks ≡ seat.old.me.0.chunks ++ worked.seat.me.0.chunks }

    ensures root { J.Token.is_root token.new ≡ true }
    ensures out { J.Token.out token.new + 1 ≡ J.Token.out token.old }
    ensures log { J.Token.log token.new ≡ followed_by (J.Token.log token.old) (J.Token.log worked.token) }
    ensures home { J.Token.home token.new ≡ J.Token.home token.old }

    ensures done { OnOk result (done.new.items ≡ done.old.items ++ worked.done.items) }
{
    let Worked {
        done: mut theirs,
        seat: other,
        token: part,
    } = worked;
    round.board.join(seat, other);
    token.join(part);
    done.append(&mut theirs)
}

/// Joins what all workers give back. The answer has each chunk that was run with its result, in the order of the log.
pub fn gather<J: Job, G: Gate>(
    round: &Round<'_, J, G>,
    seat: &mut Seat,
    token: &mut J::Token,
    mut worked: Vec<Result<Worked<J::Token, J::Out>, AllocError>>,
) -> Result<Vec<(u32, J::Out)>, AllocError>
    requires table { seat.old.table_id ≡ round.now.board.now.table.shared.table_id }
    requires root_seat { seat.old.me.0.root ≡ 1 }
    requires seats_out { seat.old.me.0.out ≡ vec_len worked }
    requires none_taken { seat.old.me.0.chunks ≡ [] }
    requires root { J.Token.is_root token.old ≡ true }
    requires out { J.Token.out token.old ≡ vec_len worked }
    requires worked { All (λ one. IfOk one (IsWorked J.Token.log J.Token.home J.Token.is_root
        round.now (J.Token.home token.old) J.gives)) worked.items }

    ensures table { OnOk result (seat.new.table_id ≡ seat.old.table_id) }
    ensures root_seat { OnOk result (seat.new.me.0.root ≡ 1) }
    ensures no_seat_out { OnOk result (seat.new.me.0.out ≡ 0) }
    ensures chunks { IfOk result (λ done. seat.new.me.0.chunks ≡ map (λ p. p.0) done.items) }

    ensures root { OnOk result (J.Token.is_root token.new ≡ true) }
    ensures none_out { OnOk result (J.Token.out token.new ≡ 0) }
    ensures home { OnOk result (J.Token.home token.new ≡ J.Token.home token.old) }
    ensures did { IfOk result (λ done. Did (J.gives round.now.job.now) round.now.board.now.chunks
        (J.Token.log token.old) (J.Token.log token.new) done.items) }
{
    let mut done = Vec::with_capacity(round.alloc, round.board.chunks as usize)?;
    while let Some(one) = worked.pop() {
        take_in(round, seat, token, &mut done, one?)?;
    }
    Ok(done)
}
