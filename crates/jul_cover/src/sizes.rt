//! Powers of two, buckets by size, and bids.
ghost use Rattle.std.specs.Prelude.{◌≡◌, ◌≤◌, ◌*◌, ◌^◌, nat_le, IfOk};
ghost use Rattle.jul_base.specs.declared.limits.TheConstants.{MAX_N};
ghost use Rattle.jul_cover.specs.CoverBids.{bid_base};
ghost use Rattle.jul_cover.specs.CoverMoves.{place_for, AreSizes};

use jul_base::NONE;
use jul_rows::SetRows;
use std::alloc::{AllocError, Global};

/// From one round to the next, in a bid.
const STEP: u64 = 4_294_967_296;

/// So many steps over sets and elements count as one of the shares for which a team has workers. A step takes some
/// nanoseconds, and the start of a thread some ten microseconds.
pub(crate) const STEPS_FOR_A_SHARE: u64 = 4;

/// Whether `x` is at least the `power`-th power of two.
#[inline]
pub(crate) fn reaches(x: u64, power: u64) -> bool
    ensures { result ≡ nat_le (2 ^ power) x }
{
    x > 0 && u64::from(x.ilog2()) >= power
}

/// The bucket of a set of so many elements: the floor of the base-2 logarithm, or `NONE` for none.
#[inline]
pub(crate) fn place_of(size: usize) -> u64
    ensures { result ≡ place_for size }
{
    if size == 0 {
        NONE
    } else {
        u64::from(size.ilog2())
    }
}

/// The bucket of each set.
pub(crate) fn first_places(alloc: Global, sets: &SetRows) -> Result<Vec<u64>, AllocError>
    ensures { IfOk result (λ places. AreSizes sets.now places.items) }
{
    let n = sets.n();
    let mut places = Vec::with_capacity(alloc, n as usize)?;
    for s in 0..n {
        places.push(place_of(sets.set(s).len()))?;
    }
    Ok(places)
}

/// The bid of set 0 in a round.
pub(crate) fn base_of(round: u64) -> u64
    requires few { round ≤ MAX_N }

    ensures base { result ≡ bid_base round }
    ensures small { result ≤ (4294967295 * 4294967296) }
{
    (STEP - 1 - round) * STEP
}
