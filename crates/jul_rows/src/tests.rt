//! The calls on small graphs, with answers that were worked out by hand.

use crate::{InRows, Rows, SetRows};
use std::alloc::Global;
use std::test::Fail;

/// The rows of the given lists, without weights. Lists that aren't lawful end the test.
fn plain(alloc: Global, offsets: &[u32], targets: &[u32]) -> Result<Rows, Fail> {
    Ok(Rows::of_lists(alloc, offsets, targets, &[])?.ok_or("no lawful graph")?)
}

/// The rows of four vertices and these targets, with weights.
fn weighted(alloc: Global, targets: &[u32]) -> Result<Rows, Fail> {
    let rows = Rows::of_lists(alloc, &[0, 2, 3, 4], targets, &[9, 1, 5, 6])?;
    Ok(rows.ok_or("no lawful graph")?)
}

fn row_is(rows: &Rows, v: u32, first: u32, row: &[u32]) -> bool {
    v < rows.n()
        && rows.first_place(v) == first
        && rows.degree(v) as usize == row.len()
        && rows.row(v) == row
}

fn weight_is(rows: &Rows, place: u32, weight: u32) -> bool {
    place < rows.m() && rows.weight(place) == weight
}

fn in_row_is(in_rows: &InRows, v: u32, sources: &[u32], places: &[u32]) -> bool {
    v < in_rows.n() && in_rows.sources(v) == sources && in_rows.places(v) == places
}

fn set_is(sets: &SetRows, s: u32, set: &[u32]) -> bool {
    s < sets.n() && sets.set(s) == set
}

fn is_element(sets: &SetRows, v: u32) -> bool {
    v < sets.n() && sets.is_element(v)
}

#[test]
fn rows_are_read_in_file_order(rt: HostRuntime) -> Result<(), Fail> {
    let rows = weighted(rt.alloc(), &[2, 1, 3, 1])?;
    assert!(rt; row_is(&rows, 0, 0, &[2, 1]) && row_is(&rows, 3, 4, &[]));
    assert!(rt; weight_is(&rows, 3, 6));
    assert!(rt; weight_is(&plain(rt.alloc(), &[0], &[0])?, 0, 1));
    Ok(())
}

#[test]
fn places_come_back_to_their_targets(rt: HostRuntime) -> Result<(), Fail> {
    let rows = weighted(rt.alloc(), &[1, 2, 3, 1])?;
    let in_rows = rows.flip()?;
    assert!(rt; in_row_is(&in_rows, 1, &[0, 2], &[0, 3]));
    assert!(rt; in_row_is(&in_rows, 0, &[], &[]));
    Ok(())
}

#[test]
fn repeats_and_self_edges_come_back_too(rt: HostRuntime) -> Result<(), Fail> {
    let in_rows = plain(rt.alloc(), &[0, 3], &[1, 0, 1, 0, 0])?.flip()?;
    assert!(rt; in_row_is(&in_rows, 0, &[0, 1, 1], &[1, 3, 4]));
    assert!(rt; in_row_is(&in_rows, 1, &[0, 0], &[0, 2]));
    Ok(())
}

#[test]
fn the_least_asymmetric_place_is_named(rt: HostRuntime) -> Result<(), Fail> {
    let cases: [(&[u32], &[u32], Option<u32>); 6] = [
        (&[0, 1], &[1], Some(0)),
        (&[0, 2, 4, 7], &[1, 2, 0, 2, 0, 1, 3, 2], None),
        (&[], &[], None),
        // Both places there are asymmetric, since there is one back.
        (&[0, 3], &[0, 1, 1, 0], Some(1)),
        (&[0, 1], &[1, 0, 0], Some(1)),
        (&[0], &[0, 0], None),
    ];
    for (offsets, targets, wanted) in cases {
        let rows = plain(rt.alloc(), offsets, targets)?;
        assert_eq!(rt; rows.first_asymmetry()?, wanted);
        assert_eq!(rt; rows.first_asymmetry_by_tallies()?, wanted);
    }
    Ok(())
}

/// Whether the window was found mirrored, or not, as wanted.
fn window_is(rows: &Rows, from: u32, to: u32, mirrored: bool) -> Result<bool, Fail> {
    if from > to || to > rows.n() {
        return Ok(false);
    }
    Ok(rows.is_window_mirrored(from, to)? == mirrored)
}

/// Whether each window of the first four vertices was found mirrored.
fn all_windows_are_mirrored(rows: &Rows) -> Result<bool, Fail> {
    for from in 0..5u32 {
        for to in from..5 {
            if !window_is(rows, from, to, true)? {
                return Ok(false);
            }
        }
    }
    Ok(true)
}

#[test]
fn windows_are_found_mirrored(rt: HostRuntime) -> Result<(), Fail> {
    let rows = plain(rt.alloc(), &[0, 2, 4, 7], &[1, 2, 0, 2, 0, 1, 3, 2])?;
    assert!(rt; all_windows_are_mirrored(&rows)?);
    // 3 leads to 1 twice, and there is one place back; 2 lacks a place back to 3.
    let rows = plain(rt.alloc(), &[0, 1, 3, 3], &[1, 0, 3, 1, 1, 2])?;
    assert!(rt; window_is(&rows, 0, 3, true)? && window_is(&rows, 3, 4, false)?);
    assert!(rt; window_is(&rows, 0, 4, false)?);
    Ok(())
}

#[test]
fn windows_of_rows_in_any_order_are_found_mirrored(rt: HostRuntime) -> Result<(), Fail> {
    let rows = plain(rt.alloc(), &[0, 2, 4, 7], &[2, 1, 2, 0, 3, 0, 1, 2])?;
    assert!(rt; all_windows_are_mirrored(&rows)?);
    // The row of 2 has 1 twice and lacks 0.
    let rows = plain(rt.alloc(), &[0, 2, 4, 7], &[2, 1, 2, 0, 3, 1, 1, 2])?;
    assert!(rt; window_is(&rows, 0, 2, true)? && window_is(&rows, 2, 4, false)?);
    Ok(())
}

#[test]
fn repeats_are_one_element(rt: HostRuntime) -> Result<(), Fail> {
    let sets = plain(rt.alloc(), &[0, 2], &[1, 1, 0, 0])?.elements()?;
    assert!(rt; set_is(&sets, 0, &[1]) && set_is(&sets, 1, &[0]));
    assert!(rt; is_element(&sets, 0) && is_element(&sets, 1));
    Ok(())
}

#[test]
fn sets_are_in_order(rt: HostRuntime) -> Result<(), Fail> {
    let sets = plain(rt.alloc(), &[0, 2, 4, 4, 4], &[2, 3, 3, 4])?.elements()?;
    assert!(rt; set_is(&sets, 0, &[2, 3]) && !is_element(&sets, 0));
    let mixed = plain(rt.alloc(), &[0, 3, 3, 3], &[3, 0, 3])?.elements()?;
    assert!(rt; set_is(&mixed, 0, &[0, 3]) && is_element(&mixed, 0));
    Ok(())
}
