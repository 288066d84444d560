//! A table of words and its seats, whatever the words mean.
//!
//! Word 0 belongs to the table: splits and joins load it. The word of vertex `v` is word `v + 1`.
ghost use Rattle.std.specs.Prelude.{◌≡◌, ℕ, ◌+◌, ◌<◌, ◌≤◌, List, [], ◌∷◌, true, false, length, drop, IfOk};
ghost use Rattle.jul_words.specs.Seats.{IsSeatOf, IsWord, IsAlone, rooted, named, beside, lent, joined};
ghost use Rattle.jul_words.specs.Views.{lives, spent};
ghost use Rattle.jul_words.specs.Ruled.{Ruled, Looks, IsNothing, InAnyTable};
ghost use Rattle.jul_words.specs.Keys.{home_by};

use crate::tags::{Names, Tag};
use crate::views::View;
use atomic_table::{Join, Play, Seat, Split, Table, TableRule};
use std::alloc::{AllocError, Global};
use std::marker::{Model, PhantomData};

/// What the words of a table mean.
pub trait Meaning {
    ghost use Rattle.std.specs.Prelude.{ℕ, List};
    ghost use Rattle.jul_base.specs.Logs.{Entry, Home};
    ghost use Rattle.jul_words.specs.Ruled.{Settles};

    // Of the home, the words and the history, whose newest entry stands first.
    ghost holds: { Home → List ℕ → List Entry → Type 0 };
    // What the log of a root with none out says by itself.
    ghost is_settled: { Home → List Entry → Type 0 };

    /// What the words mean settles a log with the entries of the history. It does nothing when it runs.
    fn settle()
        ensures { Settles holds is_settled };
}

/// The starts and the floors of a table, which contracts alone see.
#[derive(Drop)]
pub struct Key {
    pub starts: Tag,
    pub floors: Tag,
}

// The words after the first, which is the table's own.
pub(crate) struct AfterFirst;

impl Names<Vec<u64>> for AfterFirst {
    ghost numbers = { λ words. drop 1 words.items };
}

/// The rule of a table of words: its words and views mean what `P` says of the log.
pub struct Logged<P: Meaning> {
    marker: PhantomData<P>,
}

impl<P: Meaning> TableRule<(), View, Key> for Logged<P> {
    ghost holds = { λ key s. Ruled P.holds (home_by key) s.words s.views };

    ghost first = { λ key. lives (rooted (home_by key)) };
}

struct Kindred;

impl Split<View> for Kindred {
    ghost left = { λ v. lives (lent v.seat) };

    ghost right = { λ v. lives (beside v.seat) };
}

impl Join<View> for Kindred {
    ghost both = { λ v w. lives (joined v.seat w.seat) };

    ghost spent = { spent };
}

// A load of the table's own word.
struct Glance<P: Meaning> {
    marker: PhantomData<P>,
}

impl<P: Meaning> Play<(), View> for Glance<P> {
    ghost then = { Looks IsNothing (InAnyTable P.is_settled) };
}

/// A table. Contracts see the numbers that no two tables share.
#[derive(Drop)]
pub struct Words<P: Meaning> {
    pub(crate) table: Table<(), View, Key, Logged<P>, Global>,
}

impl<P: Meaning> Model for Words<P> {
    ghost use Rattle.std.specs.Prelude.{ℕ, List};
    ghost use Rattle.jul_words.specs.Seats.{name_of};

    ghost Value = { List ℕ };

    ghost view = { λ words. name_of words.table.shared.table_id };
}

/// A seat of a table, through which one thread makes steps. It has no bytes.
#[derive(Drop)]
pub struct WordSeat<P: Meaning> {
    pub(crate) seat: Seat<(), View>,
    marker: PhantomData<P>,
}

impl<P: Meaning> Model for WordSeat<P> {
    ghost use Rattle.jul_words.specs.Seats.{Seat, named, name_of};
    ghost use Rattle.jul_words.specs.Ruled.{IsSeated};

    ghost Value = { Seat };

    ghost view = { λ s. named (name_of s.seat.table_id) s.seat.me.0.seat };

    ghost invariant = { λ s. IsSeated s.seat.table_id.words s.seat.me };
}

impl<P: Meaning> Words<P> {
    /// A table of these words, of which the first is the table's own, and its root seat.
    pub(crate) fn begin(
        alloc: Global,
        words: &[u64],
        key: &Key,
    ) -> Result<(Words<P>, WordSeat<P>), AllocError>
        requires size { length words.now ≡ length key.now.starts.numbers + 1 }
        requires holds { P.holds (home_by key.now) words.now [] }
        ensures { IfOk result (λ r. r.1 ≡ named r.0 (rooted (home_by key.now))) }
    {
        let (table, seat) = Table::of_words(alloc, words, key)?;
        Ok((
            Words { table },
            WordSeat {
                seat,
                marker: PhantomData,
            },
        ))
    }

    /// A seat of the same table with an empty log, for another thread. Only the root is split.
    ///
    /// One load of word 0.
    #[inline]
    pub fn split(&self, seat: &mut WordSeat<P>) -> WordSeat<P>
        requires seat { IsSeatOf self.now seat.old }
        requires root { seat.old.root ≡ true }
        requires room { seat.old.out < 65536 }
        ensures root { seat.new ≡ lent seat.old }
        ensures part { result ≡ beside seat.old }
    {
        let other = self.table.shared.split_seat::<Kindred>(&mut seat.seat);
        WordSeat {
            seat: other,
            marker: PhantomData,
        }
    }

    /// Reads the word of `v` ahead, so that a cache has it when a step needs it. It tells nothing.
    #[inline]
    pub fn touch(&self, seat: &WordSeat<P>, v: u32)
        requires seat { IsSeatOf self.now seat.now }
        requires word { IsWord seat.now v }
    {
        // The seat's own fields say how many words its table has.
        let _ = &seat.seat;
        let _ = self.table.shared.peek(v as usize + 1);
    }

    /// The other seat's log follows that of the root, and one seat fewer is out.
    ///
    /// Two loads of word 0: the step that joins tells nothing of the words, and the second load does, once no
    /// seat is out.
    #[inline]
    pub fn join(&self, seat: &mut WordSeat<P>, other: WordSeat<P>)
        requires seat { IsSeatOf self.now seat.old }
        requires kin { other.home ≡ seat.old.home }
        requires root { seat.old.root ≡ true }
        requires some_out { 0 < seat.old.out }
        requires part { other.root ≡ false }
        ensures joined { seat.new ≡ joined seat.old other }
        ensures settled { IsAlone seat.new → P.is_settled seat.new.home seat.new.log }
    {
        self.take_in(seat, other);
        P::settle();
        let words = &self.table.shared;
        words.load::<Glance<P>>(&mut seat.seat, 0);
    }

    /// The other seat's log follows that of the root. One load of word 0.
    #[inline]
    pub(crate) fn take_in(&self, seat: &mut WordSeat<P>, other: WordSeat<P>)
        requires seat { IsSeatOf self.now seat.old }
        requires kin { other.home ≡ seat.old.home }
        requires root { seat.old.root ≡ true }
        requires some_out { 0 < seat.old.out }
        requires part { other.root ≡ false }
        ensures { seat.new ≡ joined seat.old other }
    {
        let WordSeat {
            seat: other,
            marker: _,
        } = other;
        let words = &self.table.shared;
        words.join_seat::<Kindred>(&mut seat.seat, other);
    }
}
