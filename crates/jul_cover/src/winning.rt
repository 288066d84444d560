//! Who wins an element, and which sets win half, where all sets are packed: no word is read.
ghost use Rattle.std.specs.Prelude.{◌≡◌, ℕ, ◌<◌, ◌≤◌, ◌++◌, length, All, IfOk, OnOk};
ghost use Rattle.std.specs.List.{find, flat_map};
ghost use Rattle.jul_base.specs.CoverRounds.{is_same};
ghost use Rattle.jul_cover.specs.PackedSets.{pack_at, ArePacked};
ghost use Rattle.jul_cover.specs.Keeping.{AreWithin, is_large, winner_in, listed, winners_of};
ghost use Rattle.jul_cover.specs.Keeping.{won_by, is_winning, winning_of};

use crate::packed_sets::PackedSets;
use crate::packing::{pack_of, size_of};
use crate::sizes::reaches;
use jul_rows::InRows;
use std::alloc::{AllocError, Global};

/// Whether as many elements are left of a set as the bucket stands for.
#[inline]
fn is_still_large(packs: &PackedSets, s: u32, bucket: u64) -> bool
    requires packed { ArePacked packs.now }
    requires in_range { s < packs.now.n }

    ensures { result ≡ is_large (pack_at packs.now) bucket s }
{
    reaches(size_of(packs, s) as u64, bucket)
}

/// The first of these sets that is large.
fn first_large(packs: &PackedSets, sets: &[u32], bucket: u64) -> Option<u32>
    requires packed { ArePacked packs.now }
    requires in_range { All (λ s. s < packs.now.n) sets.now }

    ensures { result ≡ find (is_large (pack_at packs.now) bucket) sets.now }
{
    for s in sets {
        if is_still_large(packs, *s, bucket) {
            return Some(*s);
        }
    }
    None
}

/// The winner of an element: the first large set that holds it.
fn winner_of(packs: &PackedSets, holders: &InRows, e: u32, bucket: u64) -> Option<u32>
    requires packed { ArePacked packs.now }
    requires within { AreWithin packs.now.n holders.now }
    requires in_range { e < packs.now.n }

    ensures { result ≡ winner_in (pack_at packs.now) holders.now bucket e }
{
    first_large(packs, holders.sources(e), bucket)
}

/// Whether a set is the winner of an element.
fn is_winner(packs: &PackedSets, holders: &InRows, s: u32, e: u32, bucket: u64) -> bool
    requires packed { ArePacked packs.now }
    requires within { AreWithin packs.now.n holders.now }
    requires in_range { e < packs.now.n }

    ensures { result ≡ is_same (winner_in (pack_at packs.now) holders.now bucket e) s }
{
    match winner_of(packs, holders, e, bucket) {
        Some(winner) => winner == s,
        None => false,
    }
}

/// How many of these elements a set wins.
fn count_won(packs: &PackedSets, holders: &InRows, s: u32, elements: &[u32], bucket: u64) -> usize
    requires packed { ArePacked packs.now }
    requires within { AreWithin packs.now.n holders.now }
    requires in_range { All (λ e. e < packs.now.n) elements.now }

    ensures count { result ≡ won_by (pack_at packs.now) holders.now bucket s elements.now }
    ensures few { result ≤ length elements.now }
{
    let mut won: usize = 0;
    for e in elements {
        if is_winner(packs, holders, s, *e, bucket) {
            won += 1;
        }
    }
    won
}

/// Whether a set is large and wins half of what the bucket stands for.
fn wins_half(packs: &PackedSets, holders: &InRows, s: u32, bucket: u64) -> bool
    requires packed { ArePacked packs.now }
    requires within { AreWithin packs.now.n holders.now }
    requires in_range { s < packs.now.n }

    ensures { result ≡ is_winning (pack_at packs.now) holders.now bucket s }
{
    is_still_large(packs, s, bucket)
        && reaches(
            2 * count_won(packs, holders, s, pack_of(packs, s), bucket) as u64,
            bucket,
        )
}

/// Those of the candidates that are large and win half, in order.
pub(crate) fn winning_sets(
    alloc: Global,
    packs: &PackedSets,
    holders: &InRows,
    candidates: &[u32],
    bucket: u64,
) -> Result<Vec<u32>, AllocError>
    requires packed { ArePacked packs.now }
    requires within { AreWithin packs.now.n holders.now }
    requires in_range { All (λ s. s < packs.now.n) candidates.now }

    ensures { IfOk result (λ winning.
        winning.items ≡ winning_of (pack_at packs.now) holders.now bucket candidates.now) }
{
    let mut winning = Vec::new(alloc);
    for s in candidates {
        if wins_half(packs, holders, *s, bucket) {
            winning.push(*s)?;
        }
    }
    Ok(winning)
}

/// The winners of all that is left of these sets.
pub(crate) fn winners_among(
    alloc: Global,
    packs: &PackedSets,
    holders: &InRows,
    sets: &[u32],
    bucket: u64,
) -> Result<Vec<u32>, AllocError>
    requires packed { ArePacked packs.now }
    requires within { AreWithin packs.now.n holders.now }
    requires in_range { All (λ s. s < packs.now.n) sets.now }

    ensures { IfOk result (λ winners.
        winners.items ≡ winners_of (pack_at packs.now) holders.now bucket sets.now) }
{
    let mut winners = Vec::new(alloc);
    for s in sets {
        push_winners(&mut winners, packs, holders, pack_of(packs, *s), bucket)?;
    }
    Ok(winners)
}

/// Puts the winner of each of these elements behind others.
fn push_winners(
    winners: &mut Vec<u32>,
    packs: &PackedSets,
    holders: &InRows,
    elements: &[u32],
    bucket: u64,
) -> Result<(), AllocError>
    requires packed { ArePacked packs.now }
    requires within { AreWithin packs.now.n holders.now }
    requires in_range { All (λ e. e < packs.now.n) elements.now }

    ensures { OnOk result (winners.new.items ≡ winners.old.items
        ++ flat_map (λ e. listed (winner_in (pack_at packs.now) holders.now bucket e)) elements.now) }
{
    for e in elements {
        push_listed(winners, winner_of(packs, holders, *e, bucket))?;
    }
    Ok(())
}

/// Puts a set behind others, if there is one.
fn push_listed(sets: &mut Vec<u32>, one: Option<u32>) -> Result<(), AllocError>
    ensures { OnOk result (sets.new.items ≡ sets.old.items ++ listed one) }
{
    if let Some(s) = one {
        sets.push(s)?;
    }
    Ok(())
}
