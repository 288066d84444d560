//! Words that are stamped with rounds, each by one fetch-max.
ghost use Rattle.std.specs.Prelude.{◌≡◌, ℕ, ◌+◌, ◌<◌, ◌≤◌, [], true, false, nat_lt, IfOk};
ghost use Rattle.jul_base.specs.declared.limits.TheConstants.{MAX_N};
ghost use Rattle.jul_base.specs.Logs.{STAMP};
ghost use Rattle.jul_words.specs.Weights.{counted};
ghost use Rattle.jul_words.specs.Seats.{IsSeatOf, IsWord, IsAlone, AtMoment, zeros, rooted, beside, lent, joined, logs, entry};
ghost use Rattle.jul_words.specs.Stamps.{IsGreatest, AllFirsts, StampWordsRule, Loads, StampsOn, Met, greatest};
ghost use Rattle.jul_words.specs.Ruled.{StandFor};

use crate::tables::{AfterFirst, Key, Meaning, WordSeat, Words};
use crate::tags::Tag;
use crate::views::View;
use atomic_table::Play;
use std::alloc::{AllocError, Global};

/// Each word is the greatest round with which its vertex was stamped, and 0 before.
pub struct Greatest;

impl Meaning for Greatest {
    ghost holds = { IsGreatest };

    ghost is_settled = { AllFirsts };

    #[inline]
    fn settle() {}
}

/// A table of words that are stamped.
pub type StampWords = Words<Greatest>;

/// A seat of a table of words that are stamped.
pub type StampSeat = WordSeat<Greatest>;

const _: () = prove!(size_of::<StampSeat>() == 0);

struct Load;

impl Play<(), View> for Load {
    ghost then = { Loads };
}

struct Stamp;

impl Play<(), View> for Stamp {
    ghost then = { StampsOn };
}

impl Words<Greatest> {
    /// A table of `count` words that are 0, and its root seat.
    ///
    /// Memory that runs out is the only refusal.
    pub fn open(alloc: Global, count: u32) -> Result<(StampWords, StampSeat), AllocError>
        requires { count ≤ MAX_N }
        ensures root { IfOk result (λ r. r.1 ≡ rooted (zeros r.0 count)) }
        ensures settled { IfOk result (λ r. AllFirsts r.1.home r.1.log) }
    {
        let words = vec![in alloc; 0u64; count as usize + 1]?;
        let key = Key {
            starts: Tag::of::<Vec<u64>, AfterFirst>(&words),
            floors: Tag::of::<Vec<u64>, AfterFirst>(&words),
        };
        Words::begin(alloc, words.as_slice(), &key)
    }

    /// Stamps `v` with a round, and tells whether the word that it met was less. One fetch-max.
    ///
    /// Of all stamps of `v` with one round at most one is told so.
    #[inline]
    pub fn stamp(&self, seat: &mut StampSeat, v: u32, round: u64) -> bool
        requires seat { IsSeatOf self.now seat.old }
        requires word { IsWord seat.old v }
        requires round { 1 ≤ round }
        ensures logged { seat.new ≡ logs seat.old (entry STAMP v round (counted result)) }
        ensures exact { IsAlone seat.old → result ≡ nat_lt (greatest v seat.old.log) round }
        ensures settled { IsAlone seat.new → AllFirsts seat.new.home seat.new.log }
        ensures met { Met seat.old v round result }
    {
        let words = &self.table.shared;
        words.fetch_max::<Stamp>(&mut seat.seat, v as usize + 1, round) < round
    }
    /// What the table keeps between any two steps gives `StampWordsRule` of its live seats, in every schedule.
    ///
    /// It is a law, and does nothing when it runs.
    pub fn stand_for_logs()
        ensures { StandFor IsGreatest StampWordsRule }
    {}
}
