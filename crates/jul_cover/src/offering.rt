//! Numbers that sets offer to the words of their elements, by workers.
ghost use Rattle.std.specs.Prelude.{◌≡◌, ◌≤◌, ◌*◌, false, IfOk};
ghost use Rattle.jul_cover.specs.PackedSets.{pack_at, ArePacked};
ghost use Rattle.jul_cover.specs.Offers.{CanOffer, Offers, HasOffered, IsRootOf};

use crate::packed_sets::PackedSets;
use crate::packing::pack_of;
use crate::sizes::STEPS_FOR_A_SHARE;
use jul_base::Gate;
use jul_pool::Team;
use jul_subset::{VertexFn, VertexSubset, vertex_map};
use jul_words::{MinHand, MinSeat, MinWords};
use std::alloc::{AllocError, Global};
use std::thread::Threads;

/// Lowers the word of each element of a set to a number of the set.
#[derive(Drop)]
struct Offer<'a> {
    packs: &'a PackedSets,
    /// What set 0 offers. Set s offers s more.
    base: u64,
    words: &'a MinWords,
}

impl<'a> VertexFn for Offer<'a> {
    type Token = MinHand<'a>;

    ghost can_apply = { λ f s homes. CanOffer f.packs.now f.base s homes };

    ghost gives = { λ f s answer added. (answer ≡ false) × Offers f.packs.now f.base s added };

    fn apply(&self, hand: &mut MinHand<'a>, s: u32) -> bool {
        let number = self.base + u64::from(s);
        let pack = pack_of(self.packs, s);

        // Each lowering waits for all reads before it, so the words are read ahead, many at a time.
        for read in pack {
            hand.words.touch(&hand.seat, *read);
        }
        for e in pack {
            let _ = hand.words.lower(&mut hand.seat, *e, number);
        }
        false
    }
}

/// Offers `base + s` to each element of each member `s`. The work, elements and members counted, says how many work.
///
/// Memory that runs out is the only refusal; then the seat is gone.
pub(crate) fn offer_all<R: Threads + Sync, G: Gate>(
    rt: &R,
    alloc: Global,
    team: &Team<'_, G>,
    packs: &PackedSets,
    members: &VertexSubset,
    work: u64,
    base: u64,
    words: &MinWords,
    seat: MinSeat,
) -> Result<MinSeat, AllocError>
    requires packed { ArePacked packs.now }
    requires n { members.now.n ≡ packs.now.n }
    requires small { base ≤ (4294967295 * 4294967296) }
    requires root { IsRootOf packs.now.n words.now seat }

    ensures { IfOk result (HasOffered members.now.members (pack_at packs.now) base seat) }
{
    prove!(members.n() == packs.n);
    let f = Offer { packs, base, words };
    let hand = MinHand { words, seat };
    let crew = team.for_members(members.len() as usize, work / STEPS_FOR_A_SHARE);
    let (_, hand) = vertex_map(rt, alloc, &crew, members, &f, hand)?;
    Ok(hand.seat)
}
