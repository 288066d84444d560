//! Four threads that lower one word.
ghost use Rattle.std.specs.Prelude.{◌≡◌, ℕ, ◌<◌, ◌++◌, [], true, false, length, IfOk};
ghost use Rattle.jul_words.specs.Seats.{IsSeatOf, IsWord, floor_of};
ghost use Rattle.jul_words.specs.Lowerings.{CanLower, HasLowered, least_of};

use crate::{MinSeat, MinWords, ZeroFloors};
use std::alloc::{AllocError, Global};
use std::thread;
use std::thread::Threads;

// Lowers word 0 to each number.
fn lower_all(words: &MinWords, mut seat: MinSeat, numbers: &[u64]) -> MinSeat
    requires { CanLower words.now seat }
    ensures { HasLowered seat result numbers.now }
{
    for c in numbers {
        words.lower(&mut seat, 0, *c);
    }
    seat
}

fn lower_by_two<R: Threads + Sync>(
    rt: &R,
    words: &MinWords,
    one: MinSeat,
    a: &[u64],
    two: MinSeat,
    b: &[u64],
) -> (MinSeat, MinSeat)
    requires one { CanLower words.now one }
    requires two { CanLower words.now two }
    ensures one { HasLowered one result.0 a.now }
    ensures two { HasLowered two result.1 b.now }
{
    thread::join(
        rt,
        move || -> MinSeat
            requires { CanLower words.now one }
            ensures { HasLowered one result a.entry.now }
        { lower_all(words, one, a) },
        move || -> MinSeat
            requires { CanLower words.now two }
            ensures { HasLowered two result b.entry.now }
        { lower_all(words, two, b) },
    )
}

fn lower_in_threads<R: Threads + Sync>(
    rt: &R,
    words: &MinWords,
    seats: (MinSeat, MinSeat, MinSeat, MinSeat),
    a: &[u64],
    b: &[u64],
    c: &[u64],
    d: &[u64],
) -> ((MinSeat, MinSeat), (MinSeat, MinSeat))
    requires front { CanLower words.now seats.0 × CanLower words.now seats.1 }
    requires back { CanLower words.now seats.2 × CanLower words.now seats.3 }
    ensures first { HasLowered seats.0 result.0.0 a.now }
    ensures second { HasLowered seats.1 result.0.1 b.now }
    ensures third { HasLowered seats.2 result.1.0 c.now }
    ensures fourth { HasLowered seats.3 result.1.1 d.now }
{
    let (first, second, third, fourth) = seats;
    thread::join(
        rt,
        move || -> (MinSeat, MinSeat)
            requires { CanLower words.now first × CanLower words.now second }
            ensures { HasLowered first result.0 a.entry.now × HasLowered second result.1 b.entry.now }
        { lower_by_two(rt, words, first, a, second, b) },
        move || -> (MinSeat, MinSeat)
            requires { CanLower words.now third × CanLower words.now fourth }
            ensures { HasLowered third result.0 c.entry.now × HasLowered fourth result.1 d.entry.now }
        { lower_by_two(rt, words, third, c, fourth, d) },
    )
}

/// Four threads lower one word to the numbers of a list each.
///
/// Then it is the least of its start and of all these numbers.
pub fn lower_by_four<R: Threads + Sync>(
    rt: &R,
    alloc: Global,
    start: u64,
    a: &[u64],
    b: &[u64],
    c: &[u64],
    d: &[u64],
) -> Result<u64, AllocError>
    ensures { IfOk result (λ n. n ≡ least_of start (a.now ++ b.now ++ c.now ++ d.now)) }
{
    let (words, mut root) = MinWords::open(alloc, &[start], &ZeroFloors { count: 1 })?;
    let first = words.split(&mut root);
    let second = words.split(&mut root);
    let third = words.split(&mut root);
    let fourth = words.split(&mut root);
    let ((first, second), (third, fourth)) = lower_in_threads(
        rt,
        &words,
        (first, second, third, fourth),
        a,
        b,
        c,
        d,
    );
    words.join(&mut root, first);
    words.join(&mut root, second);
    words.join(&mut root, third);
    words.join(&mut root, fourth);
    Ok(words.load(&mut root, 0))
}
