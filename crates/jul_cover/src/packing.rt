//! Sets packed down to the elements that aren't covered, where they stand.
ghost use Rattle.std.specs.Prelude.{◌≡◌, ◌≢◌, ℕ, ◌-◌, ◌<◌, ◌≤◌, length, take, drop, All, IfOk};
ghost use Rattle.std.specs.List.{filter};
ghost use Rattle.jul_base.specs.declared.limits.TheConstants.{MAX_N};
ghost use Rattle.jul_base.specs.CoverRounds.{set_at};
ghost use Rattle.jul_cover.specs.PackedSets.{pack_at, is_open, ArePacked, AreOpen, HasPacked};

use crate::columns::Columns;
use crate::packed_sets::PackedSets;
use jul_rows::SetRows;
use std::alloc::{AllocError, Global};

/// The sets as they are.
pub(crate) fn packed_sets(alloc: Global, sets: &SetRows) -> Result<PackedSets, AllocError>
    ensures n { IfOk result (λ p. p.n ≡ length sets.now) }
    ensures packed { IfOk result ArePacked }
    ensures sets { IfOk result (λ p. (s : ℕ) → s < length sets.now → pack_at p s ≡ set_at sets.now s) }
{
    let n = sets.n();
    let mut starts = Vec::with_capacity(alloc, n as usize)?;
    let mut lens = Vec::with_capacity(alloc, n as usize)?;
    let mut items = Vec::new(alloc);
    for s in 0..n {
        let set = sets.set(s);
        starts.push(items.len())?;
        lens.push(set.len())?;
        items.extend_from_slice(set)?;
    }
    Ok(PackedSets {
        n,
        starts,
        lens,
        items,
    })
}

/// What is left of a set.
#[inline]
pub(crate) fn pack_of(p: &PackedSets, s: u32) -> &[u32]
    requires packed { ArePacked p.now }
    requires in_range { s < p.now.n }

    ensures pack { result.now ≡ pack_at p.now s }
    ensures within { All (λ e. e < p.now.n) result.now }
{
    let start = p.starts[s as usize];
    let len = p.lens[s as usize];
    let (_, rest) = p.items.as_slice().split_at(start);
    let (pack, _) = rest.split_at(len);
    pack
}

/// How many elements are left of a set.
#[inline]
pub(crate) fn size_of(p: &PackedSets, s: u32) -> usize
    requires packed { ArePacked p.now }
    requires in_range { s < p.now.n }

    ensures { result ≡ length (pack_at p.now s) }
{
    p.lens[s as usize]
}

/// Packs each of these sets down to the elements that nothing covers, by their marks.
pub(crate) fn pack_each(p: &mut PackedSets, listed: &[u32], columns: &Columns)
    requires packed { ArePacked p.old }
    requires marks { AreOpen columns.now.marks.items columns.now.by.items }
    requires by { length columns.now.by.items ≡ p.old.n }
    requires in_range { All (λ s. s < p.old.n) listed.now }

    ensures { HasPacked columns.now.by.items listed.now p.old p.new }
{
    let marks = columns.marks.as_slice();
    let by = columns.by.as_slice();
    for s in listed {
        pack_one(p, *s, marks, by);
    }
}

/// Packs a set down to the elements that nothing covers.
fn pack_one(p: &mut PackedSets, s: u32, marks: &[bool], by: &[u64])
    requires packed { ArePacked p.old }
    requires marks { AreOpen marks.now by.now }
    requires by { length by.now ≡ p.old.n }
    requires in_range { s < p.old.n }

    ensures n { p.new.n ≡ p.old.n }
    ensures packed { ArePacked p.new }
    ensures here { pack_at p.new s ≡ filter (is_open by.now) (pack_at p.old s) }
    ensures other { (r : ℕ) → r < p.old.n → r ≢ s → pack_at p.new r ≡ pack_at p.old r }
{
    let start = p.starts[s as usize];
    let end = start + p.lens[s as usize];
    let kept = keep_part(p.items.as_mut_slice(), start, end, marks, by);
    p.lens[s as usize] = kept;
}

/// Moves the elements from `start` to `end` that nothing covers to the front of that part, in order, and tells how many they
/// are.
fn keep_part(items: &mut [u32], start: usize, end: usize, marks: &[bool], by: &[u64]) -> usize
    requires marks { AreOpen marks.now by.now }
    requires ordered { start ≤ end }
    requires inside { end ≤ length items.old }
    requires within { All (λ e. e < length by.now) (take (end - start) (drop start items.old)) }

    ensures few { result ≤ end - start }
    ensures before { take start items.new ≡ take start items.old }
    ensures behind { drop end items.new ≡ drop end items.old }
    ensures front { take result (drop start items.new)
        ≡ filter (is_open by.now) (take (end - start) (drop start items.old)) }
{
    keep_open(&mut items[start..end], marks, by)
}

/// Moves the elements that nothing covers to the front, in order, and tells how many they are.
///
/// The marks are read, and `by` says what they mean.
fn keep_open(elements: &mut [u32], marks: &[bool], by: &[u64]) -> usize
    requires marks { AreOpen marks.now by.now }
    requires within { All (λ e. e < length by.now) elements.old }

    ensures few { result ≤ length elements.old }
    ensures front { take result elements.new ≡ filter (is_open by.now) elements.old }
{
    let _ = by;
    let mut kept = 0;
    for i in 0..elements.len() {
        let e = elements[i];
        elements[kept] = e;
        kept += usize::from(marks[e as usize]);
    }
    kept
}
