//! Worked answers of each table, and four threads at one word.
ghost use Rattle.std.specs.Prelude.{◌≡◌, ◌≤◌, true};
ghost use Rattle.jul_base.specs.Logs.{STAMP};
ghost use Rattle.jul_words.specs.Weights.{counted};
ghost use Rattle.jul_words.specs.Seats.{IsWord, logs, entry};

use crate::four_threads::lower_by_four;
use crate::{Both, CountHand, CountWords, MinHand, MinWords, StampHand, StampWords, ZeroFloors};
use jul_base::{Free, Share};
use std::alloc::{AllocError, Global};
use std::test::Fail;

#[test]
fn a_word_is_lowered_and_answers_what_it_was(rt: HostRuntime) -> Result<(), Fail> {
    let (words, mut seat) = MinWords::open(rt.alloc(), &[10, 10], &ZeroFloors { count: 2 })?;
    assert_eq!(rt; words.lower(&mut seat, 0, 7), 10);
    assert_eq!(rt; words.lower(&mut seat, 0, 9), 7);
    assert_eq!(rt; words.load(&mut seat, 0), 7);
    assert_eq!(rt; words.load(&mut seat, 1), 10);
    Ok(())
}

#[test]
fn a_count_grows_and_is_drained(rt: HostRuntime) -> Result<(), Fail> {
    let (words, mut seat) = CountWords::open(rt.alloc(), 2)?;
    assert_eq!(rt; words.add(&mut seat, 1, 0), 0);
    assert_eq!(rt; words.add(&mut seat, 1, 4), 1);
    assert_eq!(rt; words.load(&mut seat, 1), 2);
    assert_eq!(rt; words.drain(&mut seat, 1), 2);
    assert_eq!(rt; words.drain(&mut seat, 1), 0);
    assert_eq!(rt; words.load(&mut seat, 0), 0);
    Ok(())
}

#[test]
fn a_vertex_is_stamped_once_a_round(rt: HostRuntime) -> Result<(), Fail> {
    let (words, mut seat) = StampWords::open(rt.alloc(), 1)?;
    assert!(rt; words.stamp(&mut seat, 0, 1));
    assert!(rt; !words.stamp(&mut seat, 0, 1));
    assert!(rt; words.stamp(&mut seat, 0, 2));
    assert!(rt; !words.stamp(&mut seat, 0, 1));
    Ok(())
}

#[test]
fn what_a_seat_did_stands_after_its_join(rt: HostRuntime) -> Result<(), Fail> {
    let (words, mut root) = MinWords::open(rt.alloc(), &[9], &ZeroFloors { count: 1 })?;
    let mut seat = words.split(&mut root);
    assert_eq!(rt; words.lower(&mut seat, 0, 4), 9);
    words.join(&mut root, seat);
    assert_eq!(rt; words.load(&mut root, 0), 4);

    let (counts, mut root) = CountWords::open(rt.alloc(), 1)?;
    let mut seat = counts.split(&mut root);
    assert_eq!(rt; counts.add(&mut seat, 0, 3), 0);
    counts.join(&mut root, seat);
    assert_eq!(rt; counts.drain(&mut root, 0), 1);

    let (stamps, mut root) = StampWords::open(rt.alloc(), 1)?;
    let mut seat = stamps.split(&mut root);
    assert!(rt; stamps.stamp(&mut seat, 0, 5));
    stamps.join(&mut root, seat);
    assert!(rt; !stamps.stamp(&mut root, 0, 5));
    Ok(())
}

// What a function on edges does with its hand.
fn stamped(hand: &mut StampHand<'_>, v: u32, round: u64) -> bool
    requires word { IsWord hand.old.seat v }
    requires round { 1 ≤ round }
    ensures seat { hand.new.seat ≡ logs hand.old.seat (entry STAMP v round (counted result)) }
{
    hand.words.stamp(&mut hand.seat, v, round)
}

// The same with a token of two hands.
fn counted_and_stamped(
    both: &mut Both<CountHand<'_>, StampHand<'_>>,
    v: u32,
    place: u32,
    round: u64,
) -> bool
    requires words { IsWord both.old.a.seat v × IsWord both.old.b.seat v }
    requires round { 1 ≤ round }
    ensures home { both.new.a.seat.home ≡ both.old.a.seat.home }
    ensures root { both.new.a.seat.root ≡ both.old.a.seat.root }
    ensures stamped { both.new.b.seat ≡ logs both.old.b.seat (entry STAMP v round (counted result)) }
{
    let count = &mut both.a;
    count.words.add(&mut count.seat, v, place);
    let stamp = &mut both.b;
    stamp.words.stamp(&mut stamp.seat, v, round)
}

// Lends a part of the root and takes it back.
fn lend_once<T: Share>(mut root: T) -> T
    requires root { T.is_root root ≡ true }
    requires none_out { T.out root ≡ 0 }
    ensures home { T.home result ≡ T.home root }
{
    let part = root.split();
    root.join(part);
    root
}

#[test]
fn tokens_of_each_kind_are_lent_and_taken_back(rt: HostRuntime) -> Result<(), Fail> {
    let _free = lend_once(Free::root());
    let (lows, seat) = MinWords::open(rt.alloc(), &[6], &ZeroFloors { count: 1 })?;
    let low = lend_once(MinHand { words: &lows, seat });
    let (counts, seat) = CountWords::open(rt.alloc(), 1)?;
    let count = CountHand {
        words: &counts,
        seat,
    };
    let (stamps, seat) = StampWords::open(rt.alloc(), 1)?;
    let stamp = StampHand {
        words: &stamps,
        seat,
    };
    let mut both = Both { a: count, b: stamp };
    let mut part = both.split();
    assert!(rt; counted_and_stamped(&mut part, 0, 2, 1));
    both.join(part);
    let Both {
        a: mut count,
        b: mut stamp,
    } = both;
    assert_eq!(rt; counts.load(&mut count.seat, 0), 1);
    assert!(rt; !stamped(&mut stamp, 0, 1));
    let mut seat = low.seat;
    assert_eq!(rt; lows.load(&mut seat, 0), 6);
    Ok(())
}

// A hundred numbers from `least` on, in another order.
fn hundred(alloc: Global, least: u64) -> Result<Vec<u64>, AllocError>
    requires { least ≤ 5000 }
{
    let mut numbers = Vec::with_capacity(alloc, 100)?;
    for i in 0..100u64 {
        numbers.push(least + (i * 37) % 100)?;
    }
    Ok(numbers)
}

#[test]
fn four_threads_lower_one_word_to_the_least(rt: HostRuntime) -> Result<(), Fail> {
    let a = hundred(rt.alloc(), 1000)?;
    let b = hundred(rt.alloc(), 700)?;
    let c = hundred(rt.alloc(), 990)?;
    let d = hundred(rt.alloc(), 5000)?;
    let found = lower_by_four(&rt, rt.alloc(), 1_000_000, &a, &b, &c, &d)?;
    assert_eq!(rt; found, 700);
    Ok(())
}
