//! Parents, as the key words tell them.
ghost use Rattle.std.specs.Prelude.{◌≡◌, ℕ, ◌<◌, ◌≤◌, length, IfOk, slice_index};
ghost use Rattle.jul_words.specs.Seats.{IsSeatOf, IsAlone};
ghost use Rattle.jul_words.specs.Least.{word_of};
ghost use Rattle.jul_tree.specs.Hooking.{parent_of};

use crate::keys::parent_in;
use jul_words::{MinSeat, MinWords};
use std::alloc::{AllocError, Global};

/// The parent of each vertex below `n`.
pub(crate) fn parents_of(
    alloc: Global,
    n: u32,
    words: &MinWords,
    seat: &mut MinSeat,
) -> Result<Vec<u64>, AllocError>
    requires table { IsSeatOf words.now seat.old }
    requires alone { IsAlone seat.old }
    requires words { n ≤ length seat.old.home.starts }

    ensures same { seat.new ≡ seat.old }
    ensures size { IfOk result (λ parents. length parents.items ≡ n) }
    ensures parents { IfOk result (λ parents. (v : ℕ) → v < n →
        slice_index parents.items v ≡ parent_of (word_of seat.old v)) }
{
    let mut parents = Vec::new(alloc);
    for v in 0..n {
        parents.push(parent_in(words.load(seat, v)))?;
    }
    Ok(parents)
}
