//! Graphs whose walks and places were followed by hand.
use crate::{least_sources, reached_from};
use jul_adj::read_graph;
use jul_base::{NONE, OpenGate};
use jul_pool::Team;
use jul_rows::Rows;
use jul_subset::VertexSubset;
use std::test::Fail;

/// 0 to 1 and 2, 2 to 3, 3 back to 0, 4 to 5: from 0 a walk leads to 0, 1, 2 and 3.
const TWO_PARTS: &[u8; 41] = b"AdjacencyGraph 6 5 0 2 2 3 4 5 1 2 3 0 5 ";

#[test]
fn walks_from_0_stay_in_its_part(rt: HostRuntime) -> Result<(), Fail> {
    let rows = Rows::of(read_graph(rt.alloc(), TWO_PARTS.as_slice(), 1000)?);
    assert_eq!(rt; rows.n(), 6);
    for workers in [1, 2, 7] {
        let gate = OpenGate;
        let team = Team {
            workers,
            chunk: 1,
            gate: &gate,
        };
        let reached = reached_from(&rt, rt.alloc(), &team, &rows, 0)?;
        let wanted = [true, true, true, true, false, false];
        assert_eq!(rt; reached.as_slice(), wanted.as_slice());
    }
    Ok(())
}

/// 0 to 2, 1 to 2 and 3, 3 to 2.
const TO_TWO: &[u8; 35] = b"AdjacencyGraph 4 4 0 1 3 3 2 2 3 2 ";

#[test]
fn the_least_of_1_and_3_is_found(rt: HostRuntime) -> Result<(), Fail> {
    let rows = Rows::of(read_graph(rt.alloc(), TO_TWO.as_slice(), 1000)?);
    assert_eq!(rt; rows.n(), 4);
    let in_rows = rows.flip()?;
    for workers in [1, 2, 7] {
        let gate = OpenGate;
        let team = Team {
            workers,
            chunk: 1,
            gate: &gate,
        };
        let from = VertexSubset::from_increasing(rt.alloc(), 4, vec![in rt.alloc(); 1, 3]?);
        let found = least_sources(&rt, rt.alloc(), &team, &rows, &in_rows, &from)?;
        assert_eq!(rt; found.targets.ids()?.as_slice(), [2, 3].as_slice());
        assert_eq!(rt; found.sources.as_slice(), [NONE, NONE, 1, 1].as_slice());
    }
    Ok(())
}
