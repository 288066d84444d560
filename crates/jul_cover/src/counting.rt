//! Which of the active sets are chosen, by workers that count in what the root has read of the words.
ghost use Rattle.std.specs.Prelude.{◌≡◌, ℕ, ◌<◌, ◌≤◌, ◌*◌, false, length, All, IfOk, slice_index};
ghost use Rattle.jul_words.specs.Least.{word_of};
ghost use Rattle.jul_cover.specs.PackedSets.{pack_at, ArePacked};
ghost use Rattle.jul_cover.specs.Offers.{IsRootOf};
ghost use Rattle.jul_cover.specs.Choosing.{held_by, holds_half, chosen_of};

use crate::choosing::chosen_sets;
use crate::packed_sets::PackedSets;
use crate::packing::pack_of;
use crate::sizes::{STEPS_FOR_A_SHARE, reaches};
use jul_base::Gate;
use jul_pool::Team;
use jul_subset::{VertexSubset, VertexTest, vertex_filter};
use jul_words::{MinSeat, MinWords};
use std::alloc::{AllocError, Global};
use std::thread::Threads;

/// Whether a set holds half of what its bucket stands for, by bids that were read before.
#[derive(Drop)]
struct HoldsHalf<'a> {
    packs: &'a PackedSets,
    /// The bid in the word of each element.
    bids: &'a [u64],
    /// The bid of set 0.
    base: u64,
    bucket: u64,
}

impl<'a> VertexTest for HoldsHalf<'a> {
    ghost can_test = { λ t s. ArePacked t.packs.now × (length t.bids.now ≡ t.packs.now.n)
        × (t.base ≤ (4294967295 * 4294967296)) × (s < t.packs.now.n) };

    ghost kept = { λ t s. holds_half (pack_at t.packs.now) (slice_index t.bids.now) t.base t.bucket s };

    fn keeps(&self, s: u32) -> bool {
        let bid = self.base + u64::from(s);
        let held = count_in(pack_of(self.packs, s), bid, self.bids);
        reaches(2 * held as u64, self.bucket)
    }
}

/// How many of the elements have this bid.
fn count_in(elements: &[u32], bid: u64, bids: &[u64]) -> usize
    requires { All (λ e. e < length bids.now) elements.now }

    ensures count { result ≡ held_by (slice_index bids.now) bid elements.now }
    ensures few { result ≤ length elements.now }
{
    let mut held: usize = 0;
    for e in elements {
        if bids[*e as usize] == bid {
            held += 1;
        }
    }
    held
}

/// The words of all elements.
///
/// The root loads: its answers are exact.
fn words_of_all(
    alloc: Global,
    n: u32,
    words: &MinWords,
    seat: &mut MinSeat,
) -> Result<Vec<u64>, AllocError>
    requires root { IsRootOf n words.now seat.old }

    ensures same { seat.new ≡ seat.old }
    ensures size { IfOk result (λ all. length all.items ≡ n) }
    ensures each { IfOk result (λ all. (e : ℕ) → e < n → slice_index all.items e ≡ word_of seat.old e) }
{
    let mut all = Vec::with_capacity(alloc, n as usize)?;
    for e in 0..n {
        all.push(words.load(seat, e))?;
    }
    Ok(all)
}

/// Those of the active sets that hold half of what their bucket stands for, by the words of the bids. The work, elements and
/// members counted, says how many work.
///
/// The root alone learns what a word is. Where there is work for several, and more than the words are, it reads all of them
/// first, and workers count in what it has read.
pub(crate) fn chosen_by<R: Threads + Sync, G: Gate>(
    rt: &R,
    alloc: Global,
    team: &Team<'_, G>,
    packs: &PackedSets,
    members: &VertexSubset,
    work: u64,
    bucket: u64,
    base: u64,
    words: &MinWords,
    seat: &mut MinSeat,
) -> Result<Vec<u32>, AllocError>
    requires packed { ArePacked packs.now }
    requires n { members.now.n ≡ packs.now.n }
    requires sparse { members.now.dense ≡ false }
    requires small { base ≤ (4294967295 * 4294967296) }
    requires root { IsRootOf packs.now.n words.now seat.old }

    ensures same { seat.new ≡ seat.old }
    ensures chosen { IfOk result (λ chosen.
        chosen.items ≡ chosen_of (pack_at packs.now) (word_of seat.old) base bucket members.now.members) }
{
    prove!(members.n() == packs.n);
    let crew = team.for_members(members.len() as usize, work / STEPS_FOR_A_SHARE);
    if crew.workers > 1 && work > u64::from(packs.n) {
        let all = words_of_all(alloc, packs.n, words, seat)?;
        let bids = all.as_slice();
        let test = HoldsHalf {
            packs,
            bids,
            base,
            bucket,
        };
        let chosen = vertex_filter(rt, alloc, &crew, members, &test)?;
        return chosen.ids();
    }
    let Some(active) = members.as_slice() else {
        unreachable!()
    };
    chosen_sets(alloc, packs, active, bucket, base, words, seat)
}
