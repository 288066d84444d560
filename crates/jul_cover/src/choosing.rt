//! Which of the drawn sets are active, and which of these are chosen.
ghost use Rattle.std.specs.Prelude.{◌≡◌, ℕ, ◌+◌, ◌<◌, ◌≤◌, ◌*◌, length, All, IfOk};
ghost use Rattle.jul_words.specs.Seats.{IsSeatOf, IsAlone};
ghost use Rattle.jul_words.specs.Least.{word_of};
ghost use Rattle.jul_cover.specs.PackedSets.{pack_at, ArePacked};
ghost use Rattle.jul_cover.specs.Offers.{IsRootOf};
ghost use Rattle.jul_cover.specs.Choosing.{active_of, held_by, chosen_of};

use crate::packed_sets::PackedSets;
use crate::packing::{pack_of, size_of};
use crate::sizes::reaches;
use jul_words::{MinSeat, MinWords};
use std::alloc::{AllocError, Global};

/// Those of the drawn sets that still have as many elements as their bucket stands for, in order.
pub(crate) fn active_sets(
    alloc: Global,
    packs: &PackedSets,
    drawn: &[u32],
    bucket: u64,
) -> Result<Vec<u32>, AllocError>
    requires packed { ArePacked packs.now }
    requires in_range { All (λ s. s < packs.now.n) drawn.now }

    ensures { IfOk result (λ active. active.items ≡ active_of (pack_at packs.now) bucket drawn.now) }
{
    let mut active = Vec::new(alloc);
    for s in drawn {
        if reaches(size_of(packs, *s) as u64, bucket) {
            active.push(*s)?;
        }
    }
    Ok(active)
}

/// Those of the active sets that hold half of what their bucket stands for, by the words of the bids.
///
/// The root loads: its answers are exact.
pub(crate) fn chosen_sets(
    alloc: Global,
    packs: &PackedSets,
    active: &[u32],
    bucket: u64,
    base: u64,
    words: &MinWords,
    seat: &mut MinSeat,
) -> Result<Vec<u32>, AllocError>
    requires packed { ArePacked packs.now }
    requires in_range { All (λ s. s < packs.now.n) active.now }
    requires small { base ≤ (4294967295 * 4294967296) }
    requires root { IsRootOf packs.now.n words.now seat.old }

    ensures same { seat.new ≡ seat.old }
    ensures chosen { IfOk result (λ chosen.
        chosen.items ≡ chosen_of (pack_at packs.now) (word_of seat.old) base bucket active.now) }
{
    let mut chosen = Vec::new(alloc);
    for s in active {
        let held = count_held(pack_of(packs, *s), base + u64::from(*s), words, seat);
        if reaches(2 * held as u64, bucket) {
            chosen.push(*s)?;
        }
    }
    Ok(chosen)
}

/// How many of the elements have this bid in their words.
fn count_held(elements: &[u32], bid: u64, words: &MinWords, seat: &mut MinSeat) -> usize
    requires table { IsSeatOf words.now seat.old }
    requires alone { IsAlone seat.old }
    requires words { All (λ e. e < length seat.old.home.starts) elements.now }

    ensures same { seat.new ≡ seat.old }
    ensures count { result ≡ held_by (word_of seat.old) bid elements.now }
    ensures few { result ≤ length elements.now }
{
    let mut held: usize = 0;
    for e in elements {
        if words.load(seat, *e) == bid {
            held += 1;
        }
    }
    held
}

/// The sets and their elements, counted: the work of a round over them.
pub(crate) fn work_of(packs: &PackedSets, listed: &[u32]) -> u64
    requires packed { ArePacked packs.now }
    requires in_range { All (λ s. s < packs.now.n) listed.now }
{
    let mut work = listed.len() as u64;
    for s in listed {
        work = work.saturating_add(size_of(packs, *s) as u64);
    }
    work
}
