//! Reading and writing with ample memory. Texts and the places of faults were worked out by hand.
use crate::{
    Columns, Witness, WitnessError, WitnessFault, WitnessKind, greatest_number, greatest_value,
    number_count, read_witness, times_in, write_bare, write_cores, write_cover, write_distances,
};
use jul_base::{Column, MAX_BYTES, MemSink, NONE};
use std::alloc::{AllocError, Global};
use std::test::Fail;

// A sink with room for small texts, which takes a few bytes at a time.
fn sink_of(alloc: Global) -> Result<MemSink, AllocError> {
    let room = Vec::with_capacity(alloc, 200)?;
    Ok(MemSink::new(room, 7, Vec::new(alloc)))
}

#[test]
fn cores_are_read_and_written(rt: HostRuntime) -> Result<(), Fail> {
    let file = b"Cores 4\t02 1 2 1\r\n2 1 1 0";
    let Ok(witness) = read_witness(rt.alloc(), file, MAX_BYTES) else {
        panic!(rt; "they were not read");
    };
    assert_eq!(rt; witness.places, None);
    let Columns::Cores(cores) = &witness.columns else {
        panic!(rt; "they are no cores");
    };
    assert_eq!(rt; cores.core.as_slice(), [2, 2, 2, 1].as_slice());
    assert_eq!(rt; cores.level.as_slice(), [1, 1, 1, 0].as_slice());
    let mut sink = sink_of(rt.alloc())?;
    assert!(rt; write_cores(&mut sink, 8, cores).is_ok());
    let text = b"Cores2\n4 8\n2 1\n2 1\n2 1\n1 0\n";
    assert_eq!(rt; sink.bytes.as_slice(), text.as_slice());
    Ok(())
}

#[test]
fn distances_are_read_and_written(rt: HostRuntime) -> Result<(), Fail> {
    let file = b" Distances 4 0 0 - 3 2 2 1 1 0 - - - ";
    let Ok(witness) = read_witness(rt.alloc(), file, MAX_BYTES) else {
        panic!(rt; "they were not read");
    };
    assert!(rt; witness.sources.is_none());
    let Columns::Distances(read) = &witness.columns else {
        panic!(rt; "they are no distances");
    };
    assert_eq!(rt; read.dist.as_slice(), [0, 3, 1, NONE].as_slice());
    assert_eq!(rt; read.hops.as_slice(), [0, 2, 1, NONE].as_slice());
    assert_eq!(rt; read.parent.as_slice(), [NONE, 2, 0, NONE].as_slice());
    let mut sink = sink_of(rt.alloc())?;
    assert!(rt; write_distances(&mut sink, 3, &[0], read).is_ok());
    let text = b"Distances2\n4 3\n1 0\n0 0 -\n3 2 2\n1 1 0\n- - -\n";
    assert_eq!(rt; sink.bytes.as_slice(), text.as_slice());
    Ok(())
}

#[test]
fn sources_are_read_and_written(rt: HostRuntime) -> Result<(), Fail> {
    let text = b"Distances2\n4 4\n2 0 2\n0 0 -\n6 1 2\n0 0 -\n11 2 1\n";
    let Ok(witness) = read_witness(rt.alloc(), text, MAX_BYTES) else {
        panic!(rt; "they were not read");
    };
    assert_eq!(rt; witness.places, Some(4));
    let Some(sources) = &witness.sources else {
        panic!(rt; "they have no sources");
    };
    assert_eq!(rt; sources.as_slice(), [0, 2].as_slice());
    let mut sink = sink_of(rt.alloc())?;
    assert!(rt;
        witness
            .columns
            .write(&mut sink, 4, sources.as_slice())
            .is_ok()
    );
    assert_eq!(rt; sink.bytes.as_slice(), text.as_slice());
    Ok(())
}

#[test]
fn a_cover_is_read_and_written(rt: HostRuntime) -> Result<(), Fail> {
    let file = b"Cover2 5 6 0 - 0 - - 0 - 0 - 1";
    let Ok(witness) = read_witness(rt.alloc(), file, MAX_BYTES) else {
        panic!(rt; "it was not read");
    };
    assert_eq!(rt; witness.places, Some(6));
    let Columns::Cover(cover) = &witness.columns else {
        panic!(rt; "it is no cover");
    };
    assert_eq!(rt; cover.round.as_slice(), [0, 0, NONE, NONE, NONE].as_slice());
    assert_eq!(rt; cover.by.as_slice(), [NONE, NONE, 0, 0, 1].as_slice());
    let mut sink = sink_of(rt.alloc())?;
    assert!(rt; write_cover(&mut sink, 6, cover).is_ok());
    let text = b"Cover2\n5 6\n0 -\n0 -\n- 0\n- 0\n- 1\n";
    assert_eq!(rt; sink.bytes.as_slice(), text.as_slice());
    Ok(())
}

#[test]
fn a_column_alone_is_written_a_number_a_line(rt: HostRuntime) -> Result<(), Fail> {
    let mut sink = sink_of(rt.alloc())?;
    assert!(rt; write_bare(&mut sink, &[0, 13, NONE]).is_ok());
    assert_eq!(rt; sink.bytes.as_slice(), b"0\n13\n-\n".as_slice());
    Ok(())
}

#[test]
fn a_failed_write_is_told(rt: HostRuntime) -> Result<(), Fail> {
    let room = Vec::with_capacity(rt.alloc(), 200)?;
    let mut sink = MemSink::new(room, 4, [2].to_vec(rt.alloc())?);
    assert!(rt; write_bare(&mut sink, &[1, 234567]).is_err());
    assert_eq!(rt; sink.bytes.as_slice(), b"1\n23".as_slice());
    Ok(())
}

#[test]
fn each_kind_of_fault_is_named_at_its_token(rt: HostRuntime) {
    let files = [
        ("cores 0", WitnessKind::Header, 0, 0),
        ("Cores 1 - 0", WitnessKind::Number, 2, 8),
        ("Distances 1 0 0", WitnessKind::Truncated, 4, 15),
        ("Cover 1 - 5 6", WitnessKind::Trailing, 4, 12),
        ("Cover 16777216 0 0", WitnessKind::Truncated, 4, 18),
        ("Distances2 4 4 2 2 2", WitnessKind::SourceOrder, 5, 19),
        (
            "Distances 3 0 0 - 1 1 0 - - 1 ",
            WitnessKind::TooLong,
            0,
            29,
        ),
    ];
    for (file, kind, token, at) in files {
        match read_witness(rt.alloc(), file.as_bytes(), 29) {
            Err(WitnessError::Bad(fault)) => {
                assert_eq!(rt; fault, WitnessFault { kind, token, at });
            }
            _ => panic!(rt; "no fault was found"),
        }
    }
}

#[test]
fn the_numbers_of_a_column_are_counted(rt: HostRuntime) -> Result<(), Fail> {
    let column = Column::from_vec([2, 0, NONE, 2].to_vec(rt.alloc())?);
    assert_eq!(rt; number_count(&column), 3);
    assert_eq!(rt; greatest_number(&column), 2);
    assert_eq!(rt; times_in(&column, 2), 2);
    assert_eq!(rt; greatest_value(&column), NONE);
    Ok(())
}
