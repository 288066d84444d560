//! Words that are lowered, each by one fetch-min.
ghost use Rattle.std.specs.Prelude.{◌≡◌, ℕ, ◌+◌, ◌<◌, ◌≤◌, List, [], length, slice_index, drop, replicate, true, false, IfOk};
ghost use Rattle.jul_base.specs.declared.limits.TheConstants.{MAX_N};
ghost use Rattle.jul_words.specs.Seats.{IsSeatOf, IsWord, IsAlone, AtMoment, home, rooted, beside, lent, joined, logs, floor_of, AreFloorsOf};
ghost use Rattle.jul_words.specs.Least.{IsLeast, IsSettled, MinWordsRule, Loads, Lowers, lowering, word_by};
ghost use Rattle.jul_words.specs.Ruled.{StandFor};

use crate::floors::Floors;
use crate::tables::{AfterFirst, Key, Meaning, WordSeat, Words};
use crate::tags::{Names, Tag};
use crate::views::View;
use atomic_table::Play;
use std::alloc::{AllocError, Global};
use std::marker::PhantomData;

/// Each word is the least of its start and of the numbers offered for its vertex.
pub struct Least;

impl Meaning for Least {
    ghost holds = { IsLeast };

    ghost is_settled = { IsSettled };

    #[inline]
    fn settle() {}
}

/// A table of words that are lowered.
pub type MinWords = Words<Least>;

/// A seat of a table of words that are lowered.
pub type MinSeat = WordSeat<Least>;

const _: () = prove!(size_of::<MinSeat>() == 0);

struct Load;

impl Play<(), View> for Load {
    ghost then = { Loads };
}

struct Lower;

impl Play<(), View> for Lower {
    ghost then = { Lowers };
}

struct FloorsOf<F> {
    marker: PhantomData<F>,
}

impl<F: Floors> Names<F> for FloorsOf<F> {
    ghost numbers = { λ floors. F.numbers floors };
}

impl Words<Least> {
    /// A table with a word for each start, and its root seat.
    ///
    /// Each floor is at most its start. Memory that runs out is the only refusal.
    pub fn open<F: Floors>(
        alloc: Global,
        start: &[u64],
        floors: &F,
    ) -> Result<(MinWords, MinSeat), AllocError>
        requires count { length start.now ≤ MAX_N }
        requires floors { AreFloorsOf start.now (F.numbers floors.now) }
        ensures root { IfOk result (λ r. r.1 ≡ rooted (home r.0 start.now (F.numbers floors.now))) }
        ensures settled { IfOk result (λ r. IsSettled r.1.home r.1.log) }
    {
        let mut words = Vec::with_capacity(alloc, start.len() + 1)?;
        words.push_reserved(0);
        words.extend_from_slice(start)?;
        let key = Key {
            starts: Tag::of::<Vec<u64>, AfterFirst>(&words),
            floors: Tag::of::<F, FloorsOf<F>>(floors),
        };
        Words::begin(alloc, words.as_slice(), &key)
    }

    /// The word of `v`. One load.
    #[inline]
    pub fn load(&self, seat: &mut MinSeat, v: u32) -> u64
        requires seat { IsSeatOf self.now seat.old }
        requires word { IsWord seat.old v }
        ensures same { seat.new ≡ seat.old }
        ensures floor { floor_of seat.old.home v ≤ result }
        ensures most { result ≤ word_by seat.old.home seat.old.log v }
        ensures exact { IsAlone seat.old → result ≡ word_by seat.old.home seat.old.log v }
        ensures settled { IsAlone seat.new → IsSettled seat.new.home seat.new.log }
        ensures moment { AtMoment MinWordsRule seat.old v result }
    {
        let words = &self.table.shared;
        words.load::<Load>(&mut seat.seat, v as usize + 1)
    }

    /// Lowers the word of `v` to `c` where it is greater, and answers what it was. One fetch-min.
    #[inline]
    pub fn lower(&self, seat: &mut MinSeat, v: u32, c: u64) -> u64
        requires seat { IsSeatOf self.now seat.old }
        requires word { IsWord seat.old v }
        requires not_below { floor_of seat.old.home v ≤ c }
        ensures logged { seat.new ≡ logs seat.old (lowering v c result) }
        ensures floor { floor_of seat.old.home v ≤ result }
        ensures most { result ≤ word_by seat.old.home seat.old.log v }
        ensures exact { IsAlone seat.old → result ≡ word_by seat.old.home seat.old.log v }
        ensures settled { IsAlone seat.new → IsSettled seat.new.home seat.new.log }
        ensures moment { AtMoment MinWordsRule seat.old v result }
    {
        let words = &self.table.shared;
        words.fetch_min::<Lower>(&mut seat.seat, v as usize + 1, c)
    }
    /// What the table keeps between any two steps gives `MinWordsRule` of its live seats, in every schedule.
    ///
    /// It is a law, and does nothing when it runs.
    pub fn stand_for_logs()
        ensures { StandFor IsLeast MinWordsRule }
    {}
}
