//! Words that count, each by one fetch-add or one swap.
ghost use Rattle.std.specs.Prelude.{◌≡◌, ℕ, ◌+◌, ◌<◌, ◌≤◌, [], true, false, IfOk};
ghost use Rattle.jul_base.specs.declared.limits.TheConstants.{MAX_N};
ghost use Rattle.jul_words.specs.Seats.{IsSeatOf, IsWord, IsAlone, AtMoment, zeros, rooted, beside, lent, joined, logs};
ghost use Rattle.jul_words.specs.Counts.{IsCount, IsFew, AreTallies, CountWordsRule, Loads, Adds, Drains, adding, draining, tally};
ghost use Rattle.jul_words.specs.Ruled.{StandFor};

use crate::tables::{AfterFirst, Key, Meaning, WordSeat, Words};
use crate::tags::Tag;
use crate::views::View;
use atomic_table::Play;
use std::alloc::{AllocError, Global};
use std::marker::{Brand, PhantomData};

/// Each word is the number of adds to its vertex less what was drained.
pub struct Count;

impl Meaning for Count {
    ghost holds = { IsCount };

    ghost is_settled = { AreTallies };

    #[inline]
    fn settle() {}
}

/// A table of words that count.
pub type CountWords = Words<Count>;

/// A seat of a table of words that count.
pub type CountSeat = WordSeat<Count>;

const _: () = prove!(size_of::<CountSeat>() == 0);

struct Load;

impl Play<(), View> for Load {
    ghost then = { Loads };
}

// The place that an add logs, and no argument of its step has.
trait Place {
    ghost place: { ℕ };
}

impl Place for Brand {
    ghost place = { 0 };
}

struct Add<B: Place> {
    marker: PhantomData<B>,
}

impl<B: Place> Play<(), View> for Add<B> {
    ghost then = { Adds B.place };
}

struct Drain;

impl Play<(), View> for Drain {
    ghost then = { Drains };
}

impl Words<Count> {
    /// A table of `count` words that are 0, and its root seat.
    ///
    /// Memory that runs out is the only refusal.
    pub fn open(alloc: Global, count: u32) -> Result<(CountWords, CountSeat), AllocError>
        requires { count ≤ MAX_N }
        ensures root { IfOk result (λ r. r.1 ≡ rooted (zeros r.0 count)) }
        ensures settled { IfOk result (λ r. AreTallies r.1.home r.1.log) }
    {
        let words = vec![in alloc; 0u64; count as usize + 1]?;
        let key = Key {
            starts: Tag::of::<Vec<u64>, AfterFirst>(&words),
            floors: Tag::of::<Vec<u64>, AfterFirst>(&words),
        };
        Words::begin(alloc, words.as_slice(), &key)
    }

    /// The count of `v`. One load.
    #[inline]
    pub fn load(&self, seat: &mut CountSeat, v: u32) -> u64
        requires seat { IsSeatOf self.now seat.old }
        requires word { IsWord seat.old v }
        ensures same { seat.new ≡ seat.old }
        ensures exact { IsAlone seat.old → IsFew v seat.old.log → result ≡ tally v seat.old.log }
        ensures settled { IsAlone seat.new → AreTallies seat.new.home seat.new.log }
        ensures moment { AtMoment CountWordsRule seat.old v result }
    {
        let words = &self.table.shared;
        words.load::<Load>(&mut seat.seat, v as usize + 1)
    }

    /// Adds 1 to the count of `v` on behalf of a place, and answers the old count. One fetch-add.
    ///
    /// The count is that of the adds as long as there are fewer than 2^64 of them.
    #[inline]
    pub fn add(&self, seat: &mut CountSeat, v: u32, place: u32) -> u64
        requires seat { IsSeatOf self.now seat.old }
        requires word { IsWord seat.old v }
        ensures logged { seat.new ≡ logs seat.old (adding v place result) }
        ensures exact { IsAlone seat.old → IsFew v seat.old.log → result ≡ tally v seat.old.log }
        ensures settled { IsAlone seat.new → AreTallies seat.new.home seat.new.log }
        ensures moment { AtMoment CountWordsRule seat.old v result }
    {
        self.add_for::<Brand>(seat, v, place)
    }

    fn add_for<B: Place>(&self, seat: &mut CountSeat, v: u32, place: u32) -> u64
        requires seat { IsSeatOf self.now seat.old }
        requires word { IsWord seat.old v }
        requires picked { place ≡ B.place }
        ensures logged { seat.new ≡ logs seat.old (adding v place result) }
        ensures exact { IsAlone seat.old → IsFew v seat.old.log → result ≡ tally v seat.old.log }
        ensures settled { IsAlone seat.new → AreTallies seat.new.home seat.new.log }
        ensures moment { AtMoment CountWordsRule seat.old v result }
    {
        let _ = place;
        let words = &self.table.shared;
        words.fetch_add::<Add<B>>(&mut seat.seat, v as usize + 1, 1)
    }

    /// Makes the count of `v` 0, and answers what it was. One swap.
    #[inline]
    pub fn drain(&self, seat: &mut CountSeat, v: u32) -> u64
        requires seat { IsSeatOf self.now seat.old }
        requires word { IsWord seat.old v }
        ensures logged { seat.new ≡ logs seat.old (draining v result) }
        ensures exact { IsAlone seat.old → IsFew v seat.old.log → result ≡ tally v seat.old.log }
        ensures settled { IsAlone seat.new → AreTallies seat.new.home seat.new.log }
        ensures moment { AtMoment CountWordsRule seat.old v result }
    {
        let words = &self.table.shared;
        words.swap::<Drain>(&mut seat.seat, v as usize + 1, 0)
    }
    /// What the table keeps between any two steps gives `CountWordsRule` of its live seats, in every schedule.
    ///
    /// It is a law, and does nothing when it runs.
    pub fn stand_for_logs()
        ensures { StandFor IsCount CountWordsRule }
    {}
}
