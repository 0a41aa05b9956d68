//! Stores and sinks: those in memory, of which chosen calls fail, and the real ones.

use sgx_base::{DiskFiles, FileFault, Files, MemFiles, MemSink, Sink, SinkFault, StdSink};
use std::fs;
use std::test::Fail;

#[test]
fn a_file_is_written_and_read_back(rt: HostRuntime) -> Result<(), Fail> {
    let mut files = DiskFiles::new(rt.clone()?);
    files.write(rt.alloc(), "disk_files_test.tmp", b"one".as_slice())?;
    let found = files.read(rt.alloc(), "disk_files_test.tmp")?;
    assert!(rt; found.is_some_and(|bytes| bytes.as_slice() == b"one".as_slice()));
    fs::remove_file(&rt, "disk_files_test.tmp")?;
    assert!(rt; files.read(rt.alloc(), "disk_files_test.tmp")?.is_none());
    Ok(())
}

#[test]
fn the_second_call_fails(rt: HostRuntime) -> Result<(), Fail> {
    let mut files = MemFiles::new(rt.alloc(), [2].as_slice())?;
    files.put("a.edl", b"one".as_slice())?;
    assert_eq!(rt; files.get("a.edl"), Some(b"one".as_slice()));
    let found = files.read(rt.alloc(), "a.edl")?;
    assert!(rt; found.is_some_and(|bytes| bytes.as_slice() == b"one".as_slice()));
    assert!(rt;
        files
            .read(rt.alloc(), "a.edl")
            .is_err_and(|fault| fault == FileFault::Failed)
    );
    assert!(rt; files.read(rt.alloc(), "b.edl")?.is_none());
    Ok(())
}

#[test]
fn a_write_is_read_back(rt: HostRuntime) -> Result<(), Fail> {
    let mut files = MemFiles::new(rt.alloc(), [].as_slice())?;
    files.write(rt.alloc(), "a.edl", b"one".as_slice())?;
    files.write(rt.alloc(), "a.edl", b"two".as_slice())?;
    let found = files.read(rt.alloc(), "a.edl")?;
    assert!(rt; found.is_some_and(|bytes| bytes.as_slice() == b"two".as_slice()));
    Ok(())
}

#[test]
fn the_second_write_fails(rt: HostRuntime) -> Result<(), Fail> {
    let mut sink = MemSink::new(rt.alloc(), [2].as_slice())?;
    sink.write(b"one".as_slice())?;
    assert!(rt;
        sink.write(b"two".as_slice())
            .is_err_and(|fault| fault == SinkFault::Failed)
    );
    sink.write(b"three".as_slice())?;
    assert_eq!(rt; sink.written(), b"onethree".as_slice());
    Ok(())
}

#[test]
fn a_piece_is_written(rt: HostRuntime) -> Result<(), Fail> {
    let mut sink = StdSink::new(rt.clone()?);
    sink.write(b"written by a test\n".as_slice())?;
    Ok(())
}
