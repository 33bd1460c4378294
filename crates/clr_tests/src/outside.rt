//! What the program answers where a shelf or a sink fails, over memory.
use crate::smallest::smallest_image;
use clr_base::{Bytes, MemFile, MemShelf, MemSink, OpenGate, Text};
use clr_core::{Status, clr};
use std::alloc::{AllocError, Global};
use std::test::Fail;
use std::thread::Threads;

/// A run over one file, `m.dll`: its words, the numbers of the calls that fail, and how it ends. The sinks take at most 3
/// bytes at a time.
#[derive(Clone, Copy)]
struct Case<'a> {
    words: &'a [&'a str],
    fetches: &'a [u64],
    puts: &'a [u64],
    status: Status,
    out: &'a [u8],
    err: &'a [u8],
}

const CASES: [Case<'static>; 5] = [
    Case {
        words: &["names", "m.dll"],
        fetches: &[],
        puts: &[],
        status: Status::Done,
        out: b"m.dll\n  <Module>\n",
        err: b"",
    },
    Case {
        words: &["names", "m.dll"],
        fetches: &[0],
        puts: &[],
        status: Status::ReadFault,
        out: b"",
        err: b"clr: m.dll: read fault\n",
    },
    Case {
        words: &["names", "m.dll", "m.dll"],
        fetches: &[1],
        puts: &[],
        status: Status::ReadFault,
        out: b"",
        err: b"clr: m.dll: read fault\n",
    },
    Case {
        words: &["names", "m.dll", "n.dll"],
        fetches: &[],
        puts: &[],
        status: Status::ReadFault,
        out: b"",
        err: b"clr: n.dll: read fault\n",
    },
    Case {
        words: &["names", "m.dll"],
        fetches: &[],
        puts: &[1],
        status: Status::WriteFault,
        out: b"m.d",
        err: b"clr: write fault\n",
    },
];

fn words(alloc: Global, words: &[&str]) -> Result<Vec<String>, AllocError> {
    let mut list = Vec::new(alloc);
    for word in words {
        list.push(String::from_str(alloc, word)?)?;
    }
    Ok(list)
}

fn shelf(alloc: Global, failing: &[u64]) -> Result<MemShelf, AllocError> {
    let mut files = Vec::new(alloc);
    files.push(MemFile {
        name: Text::from_str(alloc, "m.dll")?,
        bytes: Bytes::from_slice(alloc, &smallest_image(alloc)?)?,
    })?;
    Ok(MemShelf::new(files, Vec::from_slice(alloc, failing)?))
}

fn sink(alloc: Global, failing: &[u64]) -> Result<MemSink, AllocError> {
    MemSink::new(alloc, 1000, 3, Vec::from_slice(alloc, failing)?)
}

/// Whether a run ends as it is to.
fn ends_so<R: Threads + Sync>(rt: &R, alloc: Global, case: &Case<'_>) -> Result<bool, AllocError> {
    let list = words(alloc, case.words)?;
    let mut shelf = shelf(alloc, case.fetches)?;
    let mut out = sink(alloc, case.puts)?;
    let mut err = sink(alloc, &[])?;
    let ran = clr(rt, alloc, &list, &mut shelf, &mut out, &mut err, &OpenGate);
    Ok(
        ran.status == case.status
            && out.bytes.as_slice() == case.out
            && err.bytes.as_slice() == case.err,
    )
}

#[test]
fn runs_whose_outside_fails(rt: HostRuntime) -> Result<(), Fail> {
    let mut are_as_wanted = true;
    for case in &CASES {
        are_as_wanted &= ends_so(&rt, rt.alloc(), case)?;
    }
    assert!(rt; are_as_wanted);
    Ok(())
}
