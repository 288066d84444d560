//! The first place at which a graph is not symmetric.
//!
//! For each vertex two tallies count the targets of its row and the sources of its in-row. At a target
//! that the first has more often than the second, more edges lead there than back. Since each tally is
//! taken back before the next vertex, the work is linear in vertices and places. A graph that is found mirrored
//! needs no tallies.
ghost use Rattle.std.specs.Prelude.{◌≡◌, ℕ, ◌<◌, ◌≤◌, [], length, slice_index};
ghost use Rattle.std.specs.Prelude.{IfOk, IfSome, IfNone, MatchOption};
ghost use Rattle.std.specs.List.{All};
ghost use Rattle.jul_base.specs.Graph.{vertices, IsLawful};
ghost use Rattle.jul_base.specs.InRows.{AreSources, in_places};
ghost use Rattle.jul_base.specs.Symmetry.{IsSymmetric, IsFirstAsymmetricPlace};
ghost use Rattle.jul_rows.specs.Balance.{IsTallyOf, IsBalancedRow, IsFirstOfRow, IsFirstExcess};

use crate::out_rows::Rows;
use crate::tally::Counts;
use std::alloc::AllocError;

impl Rows {
    /// The first asymmetric place: the least one, from some `u` to some `w`, for which the row of `u` has
    /// more entries `w` than the row of `w` has entries `u`. None exactly where the graph is symmetric.
    ///
    /// Takes the memory of a number a vertex and a place, in a graph that isn't symmetric that of `flip` and two numbers a vertex,
    /// and gives it back.
    pub fn first_asymmetry(&self) -> Result<Option<u32>, AllocError>
        ensures first { IfOk result (λ found.
            MatchOption found (IsSymmetric self.now) (IsFirstAsymmetricPlace self.now)) }
    {
        if self.is_window_mirrored(0, self.n())? {
            return Ok(None);
        }
        self.first_asymmetry_by_tallies()
    }

    /// The same without the test that finds a symmetric graph symmetric: the shorter way where the graph isn't.
    ///
    /// Takes the memory of `flip` and two numbers a vertex, and gives it back.
    pub fn first_asymmetry_by_tallies(&self) -> Result<Option<u32>, AllocError>
        ensures first { IfOk result (λ found.
            MatchOption found (IsSymmetric self.now) (IsFirstAsymmetricPlace self.now)) }
    {
        let in_rows = self.flip()?;
        let alloc = self.raw().targets.allocator();
        let mut to = Counts::new(alloc, self.n())?;
        let mut from = Counts::new(alloc, self.n())?;
        for u in 0..self.n() {
            if let Some(place) = first_of_row(self, u, in_rows.sources(u), &mut to, &mut from) {
                return Ok(Some(place));
            }
        }
        Ok(None)
    }
}

/// The first asymmetric place of `u`, where `sources` are those of its in-row. Both tallies are empty
/// before and after.
fn first_of_row(
    rows: &Rows,
    u: u32,
    sources: &[u32],
    to: &mut Counts,
    from: &mut Counts,
) -> Option<u32>
    requires lawful { IsLawful rows.now }
    requires vertex { u < vertices rows.now }
    requires sources { AreSources rows.now sources.now (in_places rows.now u) }
    requires to_size { length to.old ≡ vertices rows.now }
    requires from_size { length from.old ≡ vertices rows.now }
    requires to_none { IsTallyOf [] to.old }
    requires from_none { IsTallyOf [] from.old }

    ensures first { MatchOption result (IsBalancedRow rows.now u) (IsFirstOfRow rows.now u) }
    ensures to_size { length to.new ≡ vertices rows.now }
    ensures from_size { length from.new ≡ vertices rows.now }
    ensures to_none { IsTallyOf [] to.new }
    ensures from_none { IsTallyOf [] from.new }
{
    let row = rows.row(u);
    to.count(row);
    from.count(sources);
    let found = first_excess(row, to, from);
    to.uncount(row);
    from.uncount(sources);
    match found {
        Some(k) => Some(rows.first_place(u) + k as u32),
        None => None,
    }
}

/// The first index of `row` at whose vertex `to` exceeds `from`.
fn first_excess(row: &[u32], to: &Counts, from: &Counts) -> Option<usize>
    requires in_to { All (λ w. w < length to.now) row.now }
    requires in_from { All (λ w. w < length from.now) row.now }

    ensures none { IfNone result ((k : ℕ) → k < length row.now →
        slice_index to.now (slice_index row.now k) ≤ slice_index from.now (slice_index row.now k)) }
    ensures some { IfSome result (IsFirstExcess row.now to.now from.now) }
{
    for (k, w) in row.iter().enumerate() {
        if from.of(*w) < to.of(*w) {
            return Some(k);
        }
    }
    None
}
