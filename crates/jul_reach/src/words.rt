//! Words, read by the root.
ghost use Rattle.std.specs.Prelude.{◌≡◌, ℕ, ◌<◌, ◌≤◌, length, IfOk, slice_index};
ghost use Rattle.jul_words.specs.Seats.{IsSeatOf, IsAlone};
ghost use Rattle.jul_words.specs.Least.{word_of};

use jul_words::{MinSeat, MinWords};
use std::alloc::{AllocError, Global};

/// The words of the vertices below `n`, by the root with no seat out.
pub(crate) fn numbers_of(
    alloc: Global,
    n: u32,
    words: &MinWords,
    seat: &mut MinSeat,
) -> Result<Vec<u64>, AllocError>
    requires table { IsSeatOf words.now seat.old }
    requires alone { IsAlone seat.old }
    requires words { n ≤ length seat.old.home.starts }

    ensures size { IfOk result (λ numbers. length numbers.items ≡ n) }
    ensures numbers { IfOk result (λ numbers. (v : ℕ) → v < n →
        slice_index numbers.items v ≡ word_of seat.old v) }
{
    let mut numbers = Vec::new(alloc);
    for v in 0..n {
        numbers.push(words.load(seat, v))?;
    }
    Ok(numbers)
}
