//! What a round does at one edge.
ghost use Rattle.std.specs.Prelude.{◌<◌, length};
ghost use Rattle.jul_dist.specs.Relaxing.{CanRelax, Relaxes, may_fall};

use crate::limits::MAX_SUM;
use jul_edge::{Direction, EdgeFn};
use jul_words::{MinHand, MinWords};

/// Lowers the word of each edge's target to the number of its source and its weight together.
#[derive(Drop)]
pub(crate) struct Relax<'a> {
    /// The numbers of the vertices, as they were before the round.
    pub(crate) values: &'a [u64],
    /// No member has less. Vertices with no more than this can't be lowered.
    pub(crate) least: u64,
    /// Whether every vertex is wanted, so that no target's number is looked at. Else those with more than the least are.
    pub(crate) every: bool,
    /// The words that are lowered.
    pub(crate) words: &'a MinWords,
}

impl<'a> EdgeFn for Relax<'a> {
    type Token = MinHand<'a>;

    ghost can_want = { λ f v. v < length f.values.now };

    ghost wanted = { λ f. may_fall f.every f.least f.values.now };

    ghost can_apply = { λ f a home. CanRelax f.values.now a home };

    ghost gives = { λ f a answer added. Relaxes f.values.now a answer added };

    #[inline]
    fn wants(&self, v: u32) -> bool {
        self.every || self.least < self.values[v as usize]
    }

    #[inline]
    fn touch(&self, hand: &MinHand<'a>, v: u32) {
        hand.words.touch(&hand.seat, v);
    }

    #[inline]
    fn apply(
        &self,
        hand: &mut MinHand<'a>,
        _by: Direction,
        u: u32,
        _place: u32,
        v: u32,
        w: u32,
    ) -> bool {
        let from = self.values[u as usize];
        if from > MAX_SUM {
            return false;
        }
        let c = from + u64::from(w);
        if c > MAX_SUM {
            return false;
        }
        c < hand.words.lower(&mut hand.seat, v, c)
    }
}
