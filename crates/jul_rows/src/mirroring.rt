//! A test that finds a symmetric graph symmetric, with little memory.
//!
//! Each place from `u` to a greater `w` takes the next entry of the row of `w` that wasn't taken yet. Where it is `u` each
//! time, and each entry below `w` is taken at the end, edges lead there as often as back. In a symmetric graph with sorted
//! rows it is so, since the vertices come in order. Where it isn't so and rows aren't sorted, they are copied and sorted, and
//! places take entries there. A no says nothing of the graph.
//!
//! The `w` may be those of a window of vertices alone. Windows share nothing, so each may be tested by a thread of its own.
ghost use Rattle.std.specs.Prelude.{◌≡◌, ℕ, ◌+◌, ◌<◌, ◌≤◌, ◌^◌, true, length, slice_index, All, IfOk, OnOk, IsTrue};
ghost use Rattle.jul_base.specs.declared.limits.TheConstants.{MAX_N};
ghost use Rattle.jul_base.specs.Graph.{vertices, IsLawful};
ghost use Rattle.jul_rows.specs.Mirrors.{IsRearranged, AreStarts, HasTaken, AreUsedUp, AreMirrored};

use crate::out_rows::Rows;
use jul_base::{MAX_M, MAX_N};
use std::alloc::{AllocError, Global};

impl Rows {
    /// Whether each vertex from `from` up to but not including `to` was found in the row of each lesser one as often as that
    /// one in its own. A yes implies that it is so. In a symmetric graph the answer is yes.
    ///
    /// Reads the rows before `to`, and takes memory for a number a vertex of the window, and where rows of the window aren't
    /// sorted for a number a place of it, and gives it back.
    pub fn is_window_mirrored(&self, from: u32, to: u32) -> Result<bool, AllocError>
        requires ordered { from ≤ to }
        requires within { to ≤ vertices self.now }

        ensures { IfOk result (λ found. IsTrue found → AreMirrored self.now from to) }
    {
        if from == to {
            return Ok(true);
        }
        if takes_each(self, own_rows(self, from, to), from, to)? {
            return Ok(true);
        }
        if are_sorted(self, from, to) {
            return Ok(false);
        }
        let sorted = sorted_rows(self, from, to)?;
        takes_each(self, sorted.as_slice(), from, to)
    }
}

// The rows of the window, as they are.
fn own_rows(rows: &Rows, from: u32, to: u32) -> &[u32]
    requires some { from < to }
    requires within { to ≤ vertices rows.now }

    ensures { IsRearranged rows.now from to result.now }
{
    let start = rows.first_place(from) as usize;
    let end = rows.end_place(to - 1) as usize;
    &rows.raw().targets.as_slice()[start..end]
}

// Whether each row of the window is sorted.
fn are_sorted(rows: &Rows, from: u32, to: u32) -> bool
    requires within { to ≤ vertices rows.now }
{
    for v in from..to {
        if !rows.row(v).is_sorted() {
            return false;
        }
    }
    true
}

// The rows of the window, each sorted.
fn sorted_rows(rows: &Rows, from: u32, to: u32) -> Result<Vec<u32>, AllocError>
    requires some { from < to }
    requires within { to ≤ vertices rows.now }

    ensures { IfOk result (λ sorted. IsRearranged rows.now from to sorted.items) }
{
    let alloc = rows.raw().targets.allocator();
    let mut sorted = Vec::with_capacity(alloc, own_rows(rows, from, to).len())?;
    let mut row = Vec::new(alloc);
    for v in from..to {
        put_sorted(rows, from, v, &mut row, &mut sorted)?;
    }
    Ok(sorted)
}

// Puts the sorted row of `v` behind those from `from` on.
fn put_sorted(
    rows: &Rows,
    from: u32,
    v: u32,
    row: &mut Vec<u32>,
    sorted: &mut Vec<u32>,
) -> Result<(), AllocError>
    requires lawful { IsLawful rows.now }
    requires ordered { from ≤ v }
    requires vertex { v < vertices rows.now }
    requires before { IsRearranged rows.now from v sorted.old.items }

    ensures after { OnOk result (IsRearranged rows.now from (v + 1) sorted.new.items) }
{
    row.clear();
    row.extend_from_slice(rows.row(v))?;
    row.sort_unstable();
    sorted.extend_from_slice(row.as_slice())?;
    Ok(())
}

// Whether each place to a greater vertex of the window takes the next entry in the mirror, and none below a row's own vertex
// is left.
fn takes_each(rows: &Rows, mirror: &[u32], from: u32, to: u32) -> Result<bool, AllocError>
    requires some { from < to }
    requires within { to ≤ vertices rows.now }
    requires mirror { IsRearranged rows.now from to mirror.now }

    ensures { IfOk result (λ found. IsTrue found → AreMirrored rows.now from to) }
{
    prove!(rows.n() <= MAX_N);
    prove!(rows.m() <= MAX_M);
    let mut next = starts_of(rows, from, to)?;
    for u in 0..to {
        if !take_row(u, from, rows.row(u), mirror, next.as_mut_slice()) {
            return Ok(false);
        }
    }
    Ok(are_used_up(rows, from, to, mirror, next.as_slice()))
}

// Where each row of the window starts among its rows.
fn starts_of(rows: &Rows, from: u32, to: u32) -> Result<Vec<u32>, AllocError>
    requires some { from < to }
    requires within { to ≤ vertices rows.now }

    ensures { IfOk result (λ starts. AreStarts rows.now from to starts.items) }
{
    let first = rows.first_place(from);
    let mut starts = Vec::with_capacity(rows.raw().targets.allocator(), (to - from) as usize)?;
    for v in from..to {
        starts.push(rows.first_place(v) - first)?;
    }
    Ok(starts)
}

// Whether each entry of the row of `u` that is above `u` and in the window takes an entry `u`. The marks are those of the
// vertices from `from` on: from there the entries of each aren't taken yet.
fn take_row(u: u32, from: u32, row: &[u32], mirror: &[u32], next: &mut [u32]) -> bool
    requires vertex { u < MAX_N }
    requires few { length mirror.now < 2 ^ 32 }
    requires within { (k : ℕ) → k < length next.old → slice_index next.old k ≤ length mirror.now }

    ensures { IsTrue result → HasTaken u from row.now mirror.now next.old next.new }
{
    let least = from.max(u + 1);
    for w in row {
        if *w < least {
            continue;
        }
        let k = (*w - from) as usize;
        if k >= next.len() {
            continue;
        }
        let at = next[k];
        if at as usize >= mirror.len() {
            return false;
        }
        if mirror[at as usize] != u {
            return false;
        }
        next[k] = at + 1;
    }
    true
}

// Whether no mark is past the end of its row, and no entry from a mark on is below its row's vertex.
fn are_used_up(rows: &Rows, from: u32, to: u32, mirror: &[u32], next: &[u32]) -> bool
    requires some { from < to }
    requires within { to ≤ vertices rows.now }
    requires size { from + length next.now ≡ to }
    requires mirror { IsRearranged rows.now from to mirror.now }

    ensures { IsTrue result → AreUsedUp rows.now from mirror.now next.now (length next.now) }
{
    prove!(rows.n() <= MAX_N);
    let first = rows.first_place(from);
    for (k, at) in next.iter().enumerate() {
        let w = from + k as u32;
        let end = rows.end_place(w) - first;
        if *at > end {
            return false;
        }
        if !are_above(w, &mirror[*at as usize..end as usize]) {
            return false;
        }
    }
    true
}

// Whether none of these is below `w`.
fn are_above(w: u32, entries: &[u32]) -> bool
    ensures { IsTrue result → All (λ x. w ≤ x) entries.now }
{
    entries.iter().all(|x| *x >= w)
}
