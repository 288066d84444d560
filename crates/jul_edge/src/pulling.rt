//! In-rows walked from their targets.
ghost use Rattle.std.specs.Prelude.{◌≡◌, ℕ, ◌-◌, ◌<◌, ◌≤◌, [], ◌∷◌, true, OnOk, Contains, length, if◌then◌else◌};
ghost use Rattle.std.specs.List.{flat_map, range_with_len};
ghost use Rattle.jul_base.specs.Sets.{has};
ghost use Rattle.jul_rows.specs.Visits.{Step, step, IsSame};
ghost use Rattle.jul_edge.specs.Pulls.{pull_steps, wanted_steps, IsPulled, HasTried, HasPulled};

use jul_rows::{InRows, Visit};
use jul_subset::VertexSubset;
use std::alloc::AllocError;

/// Visits the place from `u` to `v` if `u` is a member, and answers whether the answer is true.
#[inline]
fn pull_place<V: Visit>(
    from: &VertexSubset,
    visit: &V,
    u: u32,
    place: u32,
    v: u32,
    state: &mut V::State,
) -> bool
    requires can { Contains from.now.members u → V.can_visit visit.now (step u place v) state.old }

    ensures tried { HasTried (V.visits visit.now)
        (if has from.now.members u then step u place v ∷ [] else []) state.old state.new result }
    ensures same { IsSame V.home V.is_root V.out state.old state.new }
    ensures kept { (s : Step) → V.can_visit visit.now s state.old → V.can_visit visit.now s state.new }
{
    if !from.contains(u) {
        return false;
    }
    visit.visit(state, u, place, v)
}

/// Visits each place that leads from a member to `v` in order, and answers whether one of the answers is true.
fn pull_row<V: Visit>(
    in_rows: &InRows,
    from: &VertexSubset,
    visit: &V,
    v: u32,
    state: &mut V::State,
) -> bool
    requires vertex { v < length in_rows.now.places }
    requires can { (s : Step) → IsPulled in_rows.now from.now.members v s → V.can_visit visit.now s state.old }

    ensures tried { HasTried (V.visits visit.now) (pull_steps in_rows.now from.now.members v)
        state.old state.new result }
    ensures same { IsSame V.home V.is_root V.out state.old state.new }
    ensures kept { (s : Step) → V.can_visit visit.now s state.old → V.can_visit visit.now s state.new }
{
    let sources = in_rows.sources(v);
    let mut hit = false;
    for (k, place) in in_rows.places(v).iter().enumerate() {
        hit |= pull_place(from, visit, sources[k], *place, v, state);
    }
    hit
}

/// Visits the places that lead from members to `v` if it is wanted, and notes `v` once where an answer is true.
fn pull_target<V: Visit>(
    in_rows: &InRows,
    from: &VertexSubset,
    visit: &V,
    v: u32,
    state: &mut V::State,
    noted: &mut Vec<u32>,
) -> Result<(), AllocError>
    requires vertex { v < length in_rows.now.places }
    requires want { V.can_want visit.now v }
    requires can { V.wanted visit.now v ≡ true → (s : Step) → IsPulled in_rows.now from.now.members v s →
        V.can_visit visit.now s state.old }

    ensures pulled { OnOk result (HasPulled (V.visits visit.now)
        (wanted_steps in_rows.now from.now.members (V.wanted visit.now) v) (v ∷ [])
        state.old state.new noted.old.items noted.new.items) }
    ensures same { IsSame V.home V.is_root V.out state.old state.new }
    ensures kept { (s : Step) → V.can_visit visit.now s state.old → V.can_visit visit.now s state.new }
{
    if !visit.wants(v) {
        return Ok(());
    }
    if pull_row(in_rows, from, visit, v, state) {
        noted.push(v)?;
    }
    Ok(())
}

/// Visits the places that lead from members to wanted vertices, from `first` up to `last`. The vertices where an answer
/// is true are noted once and in order, behind what was noted before.
pub(crate) fn pull_targets<V: Visit>(
    in_rows: &InRows,
    from: &VertexSubset,
    visit: &V,
    first: u32,
    last: u32,
    state: &mut V::State,
    noted: &mut Vec<u32>,
) -> Result<(), AllocError>
    requires order { first ≤ last }
    requires vertices { last ≤ length in_rows.now.places }
    requires want { (v : ℕ) → v < length in_rows.now.places → V.can_want visit.now v }
    requires can { (v : ℕ) → v < length in_rows.now.places → V.wanted visit.now v ≡ true →
        (s : Step) → IsPulled in_rows.now from.now.members v s → V.can_visit visit.now s state.old }

    ensures pulled { OnOk result (HasPulled (V.visits visit.now)
        (flat_map (wanted_steps in_rows.now from.now.members (V.wanted visit.now))
        (range_with_len first (last - first))) (range_with_len first (last - first))
        state.old state.new noted.old.items noted.new.items) }
    ensures same { IsSame V.home V.is_root V.out state.old state.new }
{
    for v in first..last {
        pull_target(in_rows, from, visit, v, state, noted)?;
    }
    Ok(())
}
