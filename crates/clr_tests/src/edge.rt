//! Real files and streams, of which no contract can say what they hold.
use clr_base::{Failed, FetchFault, FileShelf, Shelf, Sink, StreamSink, put_all};
use std::alloc::{AllocError, Global};
use std::fs::File;
use std::test::Fail;
use std::{fs, process};

/// More than what the system's buffers hold.
const MEGABYTE: usize = 1_048_576;

/// One byte more than what is read of a file.
const TOO_LARGE: u64 = 268_435_457;

/// The name of a file that no other test has.
fn own_name(rt: &HostRuntime, alloc: Global, of: &str) -> Result<String, AllocError> {
    let number = process::id(rt.process());
    format!(in alloc; "/tmp/clr_{of}_{number}")
}

/// Bytes that differ from those a power of 2 before them.
fn various(alloc: Global) -> Result<Vec<u8>, AllocError> {
    let mut bytes = Vec::with_capacity(alloc, MEGABYTE)?;
    for k in 0..MEGABYTE {
        bytes.push((k % 251) as u8)?;
    }
    Ok(bytes)
}

/// Whether what a sink wrote into a new file is what a shelf fetches of it.
fn comes_back(rt: &HostRuntime, alloc: Global, name: &str, bytes: &[u8]) -> Result<bool, Fail> {
    let mut sink = StreamSink::new(File::create(rt, name)?);
    let wrote = put_all(&mut sink, bytes).is_ok();
    let fetched = FileShelf::new(rt).fetch(alloc, name)?;
    Ok(wrote && fetched.as_slice() == bytes)
}

#[test]
fn a_megabyte_comes_back(rt: HostRuntime) -> Result<(), Fail> {
    let name = own_name(&rt, rt.alloc(), "megabyte")?;
    let bytes = various(rt.alloc())?;
    let is_same = comes_back(&rt, rt.alloc(), &name, &bytes)?;
    fs::remove_file(&rt, &name)?;
    assert!(rt; is_same);
    Ok(())
}

/// Why a file isn't fetched, if it isn't.
fn fault(rt: &HostRuntime, alloc: Global, name: &str) -> Option<FetchFault> {
    FileShelf::new(rt).fetch(alloc, name).err()
}

#[test]
fn a_file_that_is_too_large_or_not_there(rt: HostRuntime) -> Result<(), Fail> {
    let name = own_name(&rt, rt.alloc(), "large")?;
    File::create(&rt, &name)?.set_len(TOO_LARGE)?;
    let large = fault(&rt, rt.alloc(), &name);
    fs::remove_file(&rt, &name)?;
    let lost = fault(&rt, rt.alloc(), &name);
    let failed = Some(FetchFault::Failed);
    assert!(rt; large == failed && lost == failed);
    Ok(())
}

#[test]
fn a_stream_that_is_full(rt: HostRuntime) -> Result<(), Fail> {
    let full = fs::OpenOptions::new().write(true).open(&rt, "/dev/full")?;
    let mut sink = StreamSink::new(full);
    let nothing = sink.put(b"");
    let piece = sink.put(b"metadata");
    assert!(rt; nothing == Ok(0) && piece == Err(Failed));
    Ok(())
}
