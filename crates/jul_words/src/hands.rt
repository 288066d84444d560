//! A seat with its table, as a token that can be lent to threads.
ghost use Rattle.std.specs.Prelude.{◌≡◌, [], ◌∷◌, refl};

use crate::count_words::Count;
use crate::min_words::Least;
use crate::stamp_words::Greatest;
use crate::tables::{Meaning, WordSeat, Words};
use jul_base::Share;

/// A seat and the table that it is of. Its log and its home have one part, that of the seat.
#[derive(Drop)]
pub struct Hand<'a, P: Meaning> {
    pub words: &'a Words<P>,
    pub seat: WordSeat<P>,
    ghost of_the_table: { seat.home.table ≡ words.now },
}

/// A hand on words that are lowered.
pub type MinHand<'a> = Hand<'a, Least>;

/// A hand on words that count.
pub type CountHand<'a> = Hand<'a, Count>;

/// A hand on words that are stamped.
pub type StampHand<'a> = Hand<'a, Greatest>;

impl<'a, P: Meaning + Send> Share for Hand<'a, P> {
    ghost parts = { 1 };

    ghost log = { λ hand. hand.seat.log ∷ [] };

    ghost home = { λ hand. hand.seat.home ∷ [] };

    ghost is_root = { λ hand. hand.seat.root };

    ghost out = { λ hand. hand.seat.out };

    ghost log_has_parts = { λ _. refl };

    ghost home_has_parts = { λ _. refl };

    fn split(&mut self) -> Hand<'a, P> {
        let seat = self.words.split(&mut self.seat);
        Hand {
            words: self.words,
            seat,
        }
    }

    fn join(&mut self, other: Hand<'a, P>) {
        let Hand { words: _, seat } = other;
        self.words.take_in(&mut self.seat, seat);
    }
}
