//! Rows walked from their sources.
ghost use Rattle.std.specs.Prelude.{◌≡◌, ℕ, ◌<◌, [], ◌∷◌, true, OnOk, All, if◌then◌else◌};
ghost use Rattle.std.specs.List.{flat_map};
ghost use Rattle.jul_base.specs.Graph.{vertices, IsLawful};
ghost use Rattle.jul_rows.specs.Visits.{Step, step, push_steps, IsSame, IsPushed, HasPushed};

use crate::out_rows::Rows;
use crate::visits::Visit;
use std::alloc::AllocError;

/// Visits the place from `u` to `v` if it is wanted, and notes `v` where the answer is true.
#[inline]
fn push_place<V: Visit>(
    visit: &V,
    u: u32,
    place: u32,
    v: u32,
    state: &mut V::State,
    noted: &mut Vec<u32>,
) -> Result<(), AllocError>
    requires want { V.can_want visit.now v }
    requires can { V.wanted visit.now v ≡ true → V.can_visit visit.now (step u place v) state.old }

    ensures pushed { OnOk result (HasPushed (V.visits visit.now)
        (if V.wanted visit.now v then step u place v ∷ [] else [])
        state.old state.new noted.old.items noted.new.items) }
    ensures same { IsSame V.home V.is_root V.out state.old state.new }
    ensures kept { (s : Step) → V.can_visit visit.now s state.old → V.can_visit visit.now s state.new }
{
    if !visit.wants(v) {
        return Ok(());
    }
    if visit.visit(state, u, place, v) {
        noted.push(v)?;
    }
    Ok(())
}

/// Reads ahead what the visits of the wanted places of `u` will read. No read waits for the one before, as a visit may.
fn touch_row<V: Visit>(rows: &Rows, visit: &V, u: u32, state: &V::State)
    requires lawful { IsLawful rows.now }
    requires vertex { u < vertices rows.now }
    requires want { (v : ℕ) → v < vertices rows.now → V.can_want visit.now v }
    requires can { (s : Step) → IsPushed rows.now (V.wanted visit.now) u s →
        V.can_visit visit.now s state.now }
{
    let mut place = rows.first_place(u);
    for v in rows.row(u) {
        if visit.wants(*v) {
            visit.touch(state, u, place, *v);
        }
        place += 1;
    }
}

/// Visits each wanted place of `u` in order, and notes the targets where the answer is true, behind what was noted
/// before. Linear in the degree of `u`.
pub fn push_row<V: Visit>(
    rows: &Rows,
    visit: &V,
    u: u32,
    state: &mut V::State,
    noted: &mut Vec<u32>,
) -> Result<(), AllocError>
    requires lawful { IsLawful rows.now }
    requires vertex { u < vertices rows.now }
    requires want { (v : ℕ) → v < vertices rows.now → V.can_want visit.now v }
    requires can { (s : Step) → IsPushed rows.now (V.wanted visit.now) u s →
        V.can_visit visit.now s state.old }

    ensures pushed { OnOk result (HasPushed (V.visits visit.now)
        (push_steps rows.now (V.wanted visit.now) u) state.old state.new noted.old.items noted.new.items) }
    ensures same { IsSame V.home V.is_root V.out state.old state.new }
    ensures kept { (s : Step) → V.can_visit visit.now s state.old → V.can_visit visit.now s state.new }
{
    touch_row(rows, visit, u, state);
    let mut place = rows.first_place(u);
    for v in rows.row(u) {
        push_place(visit, u, place, *v, state, noted)?;
        place += 1;
    }
    Ok(())
}

/// Visits each wanted place of each member in order, and notes the targets where the answer is true, behind what was
/// noted before. A target is noted as often as the answer is true. Linear in the members and their places.
pub fn push_members<V: Visit>(
    rows: &Rows,
    visit: &V,
    members: &[u32],
    state: &mut V::State,
    noted: &mut Vec<u32>,
) -> Result<(), AllocError>
    requires lawful { IsLawful rows.now }
    requires vertices { All (λ u. u < vertices rows.now) members.now }
    requires want { (v : ℕ) → v < vertices rows.now → V.can_want visit.now v }
    requires can { All (λ u. (s : Step) → IsPushed rows.now (V.wanted visit.now) u s →
        V.can_visit visit.now s state.old) members.now }

    ensures pushed { OnOk result (HasPushed (V.visits visit.now)
        (flat_map (push_steps rows.now (V.wanted visit.now)) members.now)
        state.old state.new noted.old.items noted.new.items) }
    ensures same { IsSame V.home V.is_root V.out state.old state.new }
{
    for u in members {
        push_row(rows, visit, *u, state, noted)?;
    }
    Ok(())
}
