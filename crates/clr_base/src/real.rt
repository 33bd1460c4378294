//! Real files, and any writer: the trusted edge. They don't tell what they hold.
ghost use Rattle.std.specs.Prelude.{◌≡◌, ◌<◌, ◌≤◌, None, IfOk, length};
ghost use Rattle.std.specs.Io.KnownBytes.{WriteAppends};
ghost use Rattle.clr_base.specs.Causes.{Counts, FetchCounts, GivenCounts, counted};
ghost use Rattle.clr_base.specs.Files.{IsFile};

use crate::outside::{Failed, FetchFault, Shelf, Sink};
use std::alloc::Global;
use std::fs::{File, OpenFile};
use std::io;
use std::io::{ErrorKind, Read, Write};
use std::rt::Files;

/// The greatest length of a file that is read, in bytes.
const GREATEST_FILE: u64 = 268_435_456;

/// The files of the system.
#[derive(Drop)]
pub struct FileShelf<'a, R: Files> {
    files: &'a R,
    calls: u64,
    given_count: u64,
    fault_count: u64,
}

impl<'a, R: Files> FileShelf<'a, R> {
    /// A shelf that wasn't asked for a file, gave none, and hasn't failed.
    pub fn new(files: &'a R) -> FileShelf<'a, R>
        ensures { (result.calls ≡ 0) × (result.given_count ≡ 0) × (result.fault_count ≡ 0) }
    {
        FileShelf {
            files,
            calls: 0,
            given_count: 0,
            fault_count: 0,
        }
    }
}

/// The bytes of a file, or none where it is too large. Room is made for the length that the system tells.
fn read_file<R: Files>(files: &R, alloc: Global, name: &str) -> io::Result<Option<Vec<u8>>> {
    let file = File::open(files, name)?;
    let told = file.metadata()?.len();
    if told > GREATEST_FILE {
        return Ok(None);
    }
    let mut bytes = Vec::with_capacity(alloc, told as usize + 1)?;
    file.take(GREATEST_FILE + 1).read_to_end(&mut bytes)?;
    Ok(if bytes.len() as u64 <= GREATEST_FILE {
        Some(bytes)
    } else {
        None
    })
}

impl<R: Files> Shelf for FileShelf<'_, R> {
    ghost files = { λ _. None };

    ghost calls = { λ s. s.calls };

    ghost given = { λ s. s.given_count };

    ghost faults = { λ s. s.fault_count };

    fn fetch(&mut self, alloc: Global, name: &str) -> Result<Vec<u8>, FetchFault>
        ensures bytes { IfOk result (λ bytes. IsFile None name.now bytes.items) }
        ensures asked { self.new.calls ≡ counted self.old.calls }
        ensures gave { GivenCounts self.old.given_count self.new.given_count result }
        ensures cause { FetchCounts self.old.fault_count self.new.fault_count result }
    {
        self.calls = self.calls.saturating_add(1);
        match read_file(self.files, alloc, name) {
            Ok(Some(bytes)) => {
                self.given_count = self.given_count.saturating_add(1);
                return Ok(bytes);
            }
            Ok(None) => {}
            Err(error) => {
                if error.kind() == ErrorKind::OutOfMemory {
                    return Err(FetchFault::Memory);
                }
            }
        }
        self.fault_count = self.fault_count.saturating_add(1);
        Err(FetchFault::Failed)
    }
}

/// A writer.
#[derive(Drop)]
pub struct StreamSink<W: Write> {
    writer: W,
    fault_count: u64,
}

impl<W: Write> StreamSink<W> {
    /// A sink that hasn't failed.
    pub fn new(writer: W) -> StreamSink<W>
        ensures { (result.writer ≡ writer) × (result.fault_count ≡ 0) }
    {
        StreamSink {
            writer,
            fault_count: 0,
        }
    }
}

impl<W: Write> Sink for StreamSink<W> {
    ghost content = { λ _. None };

    ghost faults = { λ s. s.fault_count };

    fn put(&mut self, piece: &[u8]) -> Result<usize, Failed>
        ensures taken { IfOk result (λ n. (n ≤ length piece.now) × (0 < length piece.now → 0 < n)) }
        ensures wrote { WriteAppends (W.contents self.old.writer) (W.contents self.new.writer) result piece.now }
        ensures cause { Counts self.old.fault_count self.new.fault_count result }
    {
        if piece.is_empty() {
            return Ok(0);
        }
        match self.writer.write(piece) {
            Ok(count) if count > 0 => Ok(count),
            _ => {
                self.fault_count = self.fault_count.saturating_add(1);
                Err(Failed)
            }
        }
    }
}
