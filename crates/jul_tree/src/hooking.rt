//! What a round does at one edge.
ghost use Rattle.std.specs.Prelude.{ℕ, ◌<◌, length};
ghost use Rattle.jul_tree.specs.Hooking.{CanHook, Hooks, is_free};

use crate::keys::key_of;
use jul_base::NONE;
use jul_edge::{Direction, EdgeFn};
use jul_words::{MinHand, MinWords};

/// Lowers the word of each target of a tight edge to the key of the round and the source.
#[derive(Drop)]
pub(crate) struct Hook<'a> {
    /// The distances.
    pub(crate) dist: &'a [u64],
    /// The hops of the vertices reached before this round, else `NONE`.
    pub(crate) hops: &'a [u64],
    /// The hops of the vertices that this round reaches.
    pub(crate) hop: u64,
    /// The words that are lowered.
    pub(crate) words: &'a MinWords,
}

impl<'a> EdgeFn for Hook<'a> {
    type Token = MinHand<'a>;

    ghost can_want = { λ f v. (v < length f.dist.now) × (v < length f.hops.now) };

    ghost wanted = { λ f v. is_free f.dist.now f.hops.now v };

    ghost can_apply = { λ f a home. CanHook f.dist.now f.hop a home };

    ghost gives = { λ f a answer added. Hooks f.dist.now f.hop a answer added };

    #[inline]
    fn wants(&self, v: u32) -> bool {
        self.hops[v as usize] == NONE && self.dist[v as usize] != NONE
    }

    #[inline]
    fn apply(
        &self,
        hand: &mut MinHand<'a>,
        _by: Direction,
        u: u32,
        _place: u32,
        v: u32,
        w: u32,
    ) -> bool {
        let from = self.dist[u as usize];
        let to = self.dist[v as usize];
        if to < from {
            return false;
        }
        if to - from != u64::from(w) {
            return false;
        }
        let _ = hand.words.lower(&mut hand.seat, v, key_of(self.hop, u));
        true
    }
}
