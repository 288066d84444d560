//! The sets of a graph: the distinct targets of each row.
//!
//! Each row is copied, sorted and rid of repeats, and goes behind the sets before it.
ghost use Rattle.std.specs.Prelude.{◌≡◌, ℕ, ◌+◌, ◌<◌, ◌≤◌, false, length, All, IfOk, OnOk};
ghost use Rattle.std.specs.List.{slice_index_or};
ghost use Rattle.jul_base.specs.Graph.{vertices, row, IsLawful};
ghost use Rattle.jul_base.specs.Sets.{has, set_of, sets_of};
ghost use Rattle.jul_rows.specs.Gathering.{HasGathered};

use crate::out_rows::Rows;
use crate::set_rows::SetRows;
use std::alloc::{AllocError, Global};

/// The sets of a first part of the vertices, one after another.
#[derive(Drop)]
struct Gathering {
    bounds: Vec<u32>,
    items: Vec<u32>,
    /// The set that comes next.
    set: Vec<u32>,
}

impl Rows {
    /// The set of each vertex: the distinct targets of its row, in increasing order.
    ///
    /// Takes memory for a number a place, and for a number and a mark a vertex.
    pub fn elements(&self) -> Result<SetRows, AllocError>
        ensures sets { IfOk result (λ sets. sets ≡ sets_of self.now) }
    {
        let alloc = self.raw().targets.allocator();
        let gathering = gather_all(alloc, self)?;
        let marks = mark(alloc, gathering.items.as_slice(), self.n())?;
        Ok(SetRows::of(gathering.bounds, gathering.items, marks))
    }
}

/// All sets, one after another.
fn gather_all(alloc: Global, rows: &Rows) -> Result<Gathering, AllocError>
    ensures all { IfOk result (HasGathered rows.now (vertices rows.now)) }
{
    let mut gathering = begin(alloc, rows)?;
    for s in 0..rows.n() {
        gather(rows, s, &mut gathering)?;
    }
    Ok(gathering)
}

/// No set yet, with room for all.
fn begin(alloc: Global, rows: &Rows) -> Result<Gathering, AllocError>
    ensures empty { IfOk result (HasGathered rows.now 0) }
{
    let mut bounds = Vec::with_capacity(alloc, rows.n() as usize + 1)?;
    bounds.push(0)?;
    let items = Vec::with_capacity(alloc, rows.m() as usize)?;
    Ok(Gathering {
        bounds,
        items,
        set: Vec::new(alloc),
    })
}

/// Puts the set of `s` behind those before it.
fn gather(rows: &Rows, s: u32, gathering: &mut Gathering) -> Result<(), AllocError>
    requires lawful { IsLawful rows.now }
    requires vertex { s < vertices rows.now }
    requires before { HasGathered rows.now s gathering.old }

    ensures after { OnOk result (HasGathered rows.now (s + 1) gathering.new) }
{
    distinct_targets(rows, s, &mut gathering.set)?;
    gathering.items.extend_from_slice(gathering.set.as_slice())?;
    gathering.bounds.push(gathering.items.len() as u32)?;
    Ok(())
}

/// Makes `set` the set of `s`.
fn distinct_targets(rows: &Rows, s: u32, set: &mut Vec<u32>) -> Result<(), AllocError>
    requires vertex { s < vertices rows.now }

    ensures set { OnOk result (set.new.items ≡ set_of rows.now s) }
    ensures short { OnOk result (length set.new.items ≤ length (row rows.now s)) }
{
    set.clear();
    set.extend_from_slice(rows.row(s))?;
    set.sort_unstable();
    set.dedup();
    Ok(())
}

/// A mark for each of `n` vertices, set where the vertex stands among the items.
fn mark(alloc: Global, items: &[u32], n: u32) -> Result<Vec<bool>, AllocError>
    requires { All (λ e. e < n) items.now }

    ensures size { IfOk result (λ marks. length marks.items ≡ n) }
    ensures each { IfOk result (λ marks. (v : ℕ) → v < n →
        slice_index_or marks.items v false ≡ has items.now v) }
{
    let mut marks = vec![in alloc; false; n as usize]?;
    for e in items {
        marks[*e as usize] = true;
    }
    Ok(marks)
}
