//! Files and sinks, real ones and failing ones. Expected bytes are written by hand.
use crate::{LoadError, MemShelf, MemSink, RealShelf, RealSink, load_all, write_u64, write_whole};
use std::alloc::{AllocError, Global};
use std::fs::OpenOptions;
use std::test::Fail;

fn one_file(alloc: Global, name: &str, bytes: &[u8]) -> Result<Vec<(String, Vec<u8>)>, AllocError> {
    let mut files = Vec::new(alloc);
    files.push((
        String::from_str(alloc, name)?,
        Vec::from_slice(alloc, bytes)?,
    ))?;
    Ok(files)
}

#[test]
fn a_file_is_loaded_in_pieces_of_two_bytes(rt: HostRuntime) -> Result<(), Fail> {
    let alloc = rt.alloc();
    let mut shelf = MemShelf::new(one_file(alloc, "g", b"abcde")?, 2, Vec::new(alloc));
    let bytes = load_all(alloc, &mut shelf, "g", 5)?;
    assert_eq!(rt; bytes.as_slice(), b"abcde".as_slice());
    let bytes = load_all(alloc, &mut shelf, "g", 3)?;
    assert_eq!(rt; bytes.as_slice(), b"abcd".as_slice());
    assert_eq!(rt;
        load_all(alloc, &mut shelf, "h", 5).err(),
        Some(LoadError::Failed)
    );
    Ok(())
}

#[test]
fn each_call_of_a_shelf_may_fail(rt: HostRuntime) -> Result<(), Fail> {
    let alloc = rt.alloc();
    for call in 1u64..6 {
        let fails = Vec::from_slice(alloc, &[call])?;
        let mut shelf = MemShelf::new(one_file(alloc, "g", b"abcde")?, 2, fails);
        let outcome = load_all(alloc, &mut shelf, "g", 5);
        assert_eq!(rt; outcome.err(), Some(LoadError::Failed), "call {call}");
    }
    Ok(())
}

#[test]
fn a_failing_sink_keeps_what_it_got(rt: HostRuntime) -> Result<(), Fail> {
    let alloc = rt.alloc();
    let mut sink = MemSink::new(
        Vec::with_capacity(alloc, 10)?,
        2,
        Vec::from_slice(alloc, &[3])?,
    );
    assert!(rt; write_whole(&mut sink, b"abcdefg").is_err());
    assert_eq!(rt; sink.bytes.as_slice(), b"abcd".as_slice());
    assert!(rt; write_u64(&mut sink, 907).is_ok());
    assert_eq!(rt; sink.bytes.as_slice(), b"abcd907".as_slice());
    assert!(rt; write_u64(&mut sink, u64::MAX).is_err());
    assert_eq!(rt; sink.bytes.as_slice(), b"abcd90718".as_slice());
    Ok(())
}

#[test]
fn real_files_are_loaded_and_written(rt: HostRuntime) -> Result<(), Fail> {
    let mut shelf = RealShelf::new(rt);
    let bytes = load_all(rt.alloc(), &mut shelf, "/proc/sys/kernel/ostype", 100)?;
    assert_eq!(rt; bytes.as_slice(), b"Linux\n".as_slice());
    let missing = load_all(rt.alloc(), &mut shelf, "/proc/no_such_file", 100);
    assert_eq!(rt; missing.err(), Some(LoadError::Failed));
    let mut sink = RealSink::new(OpenOptions::new().write(true).open(&rt, "/dev/null")?);
    assert!(rt; write_whole(&mut sink, b"one\ntwo\n").is_ok());
    let mut full = RealSink::new(OpenOptions::new().write(true).open(&rt, "/dev/full")?);
    assert!(rt; write_whole(&mut full, b"one\ntwo\n").is_err());
    Ok(())
}
