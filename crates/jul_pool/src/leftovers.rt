//! The chunks for which no worker brought a result, which the thread that calls runs at the end.
ghost use Rattle.std.specs.Prelude.{◌≡◌, ℕ, ◌<◌, false, All, map, length, slice_index_or, nat_lt, IfOk, OnOk};
ghost use Rattle.jul_base.specs.Times.{times};
ghost use Rattle.jul_pool.specs.Workers.{HasWorked};

use crate::jobs::Job;
use crate::rounds::{Round, Worked};
use crate::workers::take_and_run;
use jul_base::{Gate, Share};
use std::alloc::{AllocError, Global};

/// For each chunk whether it has a result.
fn marked<X>(alloc: Global, chunks: u32, done: &[(u32, X)]) -> Result<Vec<bool>, AllocError>
    requires { All (λ p. p.0 < chunks) done.now }

    ensures len { IfOk result (λ v. length v.items ≡ chunks) }
    ensures marks { IfOk result (λ v. (chunk : ℕ) → chunk < chunks →
        slice_index_or v.items chunk false ≡ nat_lt 0 (times chunk (map (λ p. p.0) done.now))) }
{
    let mut marks = vec![in alloc; false; chunks as usize]?;
    for (chunk, _) in done {
        marks[*chunk as usize] = true;
    }
    Ok(marks)
}

/// Takes and runs each chunk without a result, as the root with none out.
pub fn run_rest<J: Job, G: Gate>(
    round: &Round<'_, J, G>,
    lead: &mut Worked<J::Token, J::Out>,
) -> Result<(), AllocError>
    requires table { lead.old.seat.table_id ≡ round.now.board.now.table.shared.table_id }
    requires root { lead.old.seat.me.0.root ≡ 1 }
    requires none_out { lead.old.seat.me.0.out ≡ 0 }
    requires listed { lead.old.seat.me.0.chunks ≡ map (λ p. p.0) lead.old.done.items }
    requires small { All (λ p. p.0 < round.now.board.now.chunks) lead.old.done.items }
    requires condition { (chunk : ℕ) → chunk < round.now.board.now.chunks →
        J.can_run round.now.job.now chunk (J.Token.home lead.old.token) }

    ensures worked { OnOk result (HasWorked J.Token.log J.Token.home J.Token.is_root J.Token.out
        (J.gives round.now.job.now) round.now.board.now.chunks lead.old lead.new) }
    ensures all { OnOk result ((chunk : ℕ) → chunk < round.now.board.now.chunks →
        0 < times chunk lead.new.seat.me.0.chunks) }
{
    let chunks = round.board.chunks;
    let has_result = marked(round.alloc, chunks, lead.done.as_slice())?;
    for chunk in 0..chunks {
        if has_result[chunk as usize] {
            continue;
        }
        take_and_run(round, 0, chunk, lead)?;
    }
    Ok(())
}
