//! What no clause says: answers where memory is ample, and how work is cut into chunks.
ghost use Rattle.std.specs.Prelude.{◌≡◌, ◌==◌, ◌%◌, [], true};

use super::*;
use jul_base::{CountGate, Free, OpenGate};
use jul_pool::Team;
use std::test::Fail;

/// Answers true at every vertex.
#[derive(Drop)]
struct AlwaysTrue;

impl VertexFn for AlwaysTrue {
    type Token = Free;

    ghost can_apply = { λ _ _ _. Unit {0} };

    ghost gives = { λ _ _ answer added. (answer ≡ true) × (added ≡ []) };

    fn apply(&self, _token: &mut Free, _v: u32) -> bool {
        true
    }
}

/// Answers true at the multiples of a number, and keeps them.
#[derive(Drop)]
struct Multiples {
    of: u32,
}

impl VertexFn for Multiples {
    type Token = Free;

    ghost can_apply = { λ _ _ _. Unit {0} };

    ghost gives = { λ _ _ _ added. added ≡ [] };

    fn apply(&self, _token: &mut Free, v: u32) -> bool {
        v.checked_rem(self.of) == Some(0)
    }
}

/// Keeps one vertex.
#[derive(Drop)]
struct Only {
    v: u32,
}

impl VertexTest for Only {
    ghost can_test = { λ _ _. Unit {0} };

    ghost kept = { λ test v. v == test.v };

    fn keeps(&self, v: u32) -> bool {
        v == self.v
    }
}

#[test]
fn a_list_becomes_a_subset_or_names_its_first_wrong_id(rt: HostRuntime) -> Result<(), Fail> {
    let subset = VertexSubset::from_list(rt.alloc(), 5, &[3, 1])?;
    assert_eq!(rt; subset.ids()?.as_slice(), [1, 3].as_slice());
    assert_eq!(rt; subset.n(), 5);
    assert_eq!(rt; subset.len(), 2);
    assert!(rt; !subset.is_dense());
    let outside = VertexSubset::from_list(rt.alloc(), 5, &[1, 5]).err();
    assert_eq!(rt; outside, Some(SubsetError::Range { at: 1 }));
    let twice = VertexSubset::from_list(rt.alloc(), 5, &[1, 1]).err();
    assert_eq!(rt; twice, Some(SubsetError::Repeat { at: 1 }));
    // Place 3 repeats place 2, place 4 isn't below 5, and place 5 repeats place 0.
    let several = VertexSubset::from_list(rt.alloc(), 5, &[4, 2, 0, 0, 9, 4]).err();
    assert_eq!(rt; several, Some(SubsetError::Repeat { at: 3 }));
    // An id that isn't below n is no repeat, though it stands earlier too.
    let both = VertexSubset::from_list(rt.alloc(), 5, &[2, 7, 7, 2]).err();
    assert_eq!(rt; both, Some(SubsetError::Range { at: 1 }));
    Ok(())
}

#[test]
fn the_empty_list_is_a_subset_of_no_vertices(rt: HostRuntime) -> Result<(), Fail> {
    let mut none = VertexSubset::from_list(rt.alloc(), 0, &[])?;
    assert_eq!(rt; none.len(), 0);
    assert!(rt; !none.contains(0));
    none.to_dense()?;
    assert!(rt; !none.contains(0));
    none.to_sparse()?;
    assert_eq!(rt; none.ids()?.len(), 0);
    Ok(())
}

#[test]
fn changes_of_form_leave_the_members(rt: HostRuntime) -> Result<(), Fail> {
    let mut subset = VertexSubset::from_list(rt.alloc(), 5, &[3, 1])?;
    for _ in 0..2 {
        subset.to_dense()?;
        assert!(rt; subset.is_dense());
        assert!(rt; subset.as_slice().is_none());
        assert_eq!(rt; subset.ids()?.as_slice(), [1, 3].as_slice());
        assert_eq!(rt; subset.len(), 2);
        assert!(rt; subset.contains(3) && !subset.contains(2) && !subset.contains(5));
        subset.to_sparse()?;
        assert!(rt; !subset.is_dense());
        assert_eq!(rt; subset.ids()?.as_slice(), [1, 3].as_slice());
        assert!(rt; subset.contains(3) && !subset.contains(2) && !subset.contains(5));
    }
    let copy = subset.dense_copy()?;
    assert!(rt; copy.is_dense() && !subset.is_dense());
    assert_eq!(rt; copy.ids()?.as_slice(), [1, 3].as_slice());
    Ok(())
}

#[test]
fn unordered_ids_are_put_in_order_once_each(rt: HostRuntime) -> Result<(), Fail> {
    // Two ids of 200 vertices are sorted, three of 5 vertices are marked.
    let few = VertexSubset::from_unordered(rt.alloc(), 200, vec![in rt.alloc(); 150, 7, 150]?)?;
    assert_eq!(rt; few.ids()?.as_slice(), [7, 150].as_slice());
    let many = VertexSubset::from_unordered(rt.alloc(), 5, vec![in rt.alloc(); 4, 0, 4]?)?;
    assert_eq!(rt; many.ids()?.as_slice(), [0, 4].as_slice());
    Ok(())
}

#[test]
fn maps_and_filters_agree_for_every_team_and_form(rt: HostRuntime) -> Result<(), Fail> {
    let gate = OpenGate;
    for workers in [1u32, 2, 7] {
        for chunk in [1u32, 2, 65_536] {
            let team = Team {
                workers,
                chunk,
                gate: &gate,
            };
            let mut from = VertexSubset::from_list(rt.alloc(), 5, &[3, 1])?;
            for _ in 0..2 {
                let kept = vertex_filter(&rt, rt.alloc(), &team, &from, &Only { v: 3 })?;
                assert_eq!(rt;
                    kept.ids()?.as_slice(),
                    [3].as_slice(),
                    "{workers} workers, chunk {chunk}"
                );
                assert_eq!(rt; kept.n(), 5);
                let (all, _) = vertex_map(
                    &rt,
                    rt.alloc(),
                    &team,
                    &from,
                    &AlwaysTrue,
                    Free::root(),
                )?;
                assert_eq!(rt;
                    all.ids()?.as_slice(),
                    [1, 3].as_slice(),
                    "{workers} workers, chunk {chunk}"
                );
                assert!(rt; !all.is_dense() && !kept.is_dense());
                from.to_dense()?;
            }
            let ten = VertexSubset::from_list(
                rt.alloc(),
                20,
                &[0, 19, 2, 17, 4, 15, 6, 13, 8, 11],
            )?;
            let f = Multiples { of: 4 };
            let (fours, _) = vertex_map(&rt, rt.alloc(), &team, &ten, &f, Free::root())?;
            assert_eq!(rt;
                fours.ids()?.as_slice(),
                [0, 4, 8].as_slice(),
                "{workers} workers, chunk {chunk}"
            );
        }
    }
    Ok(())
}

#[test]
fn work_is_cut_into_chunks_of_members(rt: HostRuntime) -> Result<(), Fail> {
    for (chunk, passes) in [(1u32, 5u64), (2, 3), (5, 1), (65_536, 1)] {
        let gate = CountGate::new();
        let team = Team {
            workers: 2,
            chunk,
            gate: &gate,
        };
        let from = VertexSubset::from_list(rt.alloc(), 1000, &[900, 1, 30, 400, 7])?;
        let (all, _) = vertex_map(&rt, rt.alloc(), &team, &from, &AlwaysTrue, Free::root())?;
        assert_eq!(rt; all.len(), 5);
        assert_eq!(rt; gate.take(), passes, "chunk {chunk}");
    }
    Ok(())
}
