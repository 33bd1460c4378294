//! A shelf and a sink in memory, which tell what they hold and fail by a script.
ghost use Rattle.std.specs.Prelude.{◌≡◌, ◌+◌, ◌-◌, ◌<◌, ◌≤◌, ◌↔◌, ◌⊎◌, ℕ, [], Some, None, IfOk, IsErr, IsErrOf, Contains, length, min, vec_len, vec_capacity};
ghost use Rattle.std.specs.Option.{option_copied};
ghost use Rattle.clr_base.specs.Causes.{Counts, FetchCounts, GivenCounts, counted};
ghost use Rattle.clr_base.specs.Content.{Takes};
ghost use Rattle.clr_base.specs.Files.{named, held};

use crate::lists::{Bytes, Text};
use crate::outside::{Failed, FetchFault, Shelf, Sink};
use std::alloc::{AllocError, Global};

/// A file's name and what it holds.
#[derive(Drop)]
pub struct MemFile {
    pub name: Text,
    pub bytes: Bytes,
}

/// Files in memory. Calls of `fetch` are numbered from 0, and those of the list `failing` fail.
#[derive(Drop)]
pub struct MemShelf {
    pub files: Vec<MemFile>,
    pub failing: Vec<u64>,
    pub calls: u64,
    pub given_count: u64,
    pub fault_count: u64,
}

impl MemShelf {
    /// A shelf with no call made. Of two files with one name the first counts.
    pub fn new(files: Vec<MemFile>, failing: Vec<u64>) -> MemShelf
        ensures { result ≡ record { files = files; failing = failing; calls = 0; given_count = 0; fault_count = 0 } }
    {
        MemShelf {
            files,
            failing,
            calls: 0,
            given_count: 0,
            fault_count: 0,
        }
    }
}

/// The first file of that name.
fn find_named<'a>(files: &'a [MemFile], name: &str) -> Option<&'a MemFile>
    ensures { option_copied result ≡ named files.now name.now }
{
    files.iter().find(|file| file.name.as_str() == name)
}

impl Shelf for MemShelf {
    ghost files = { λ s. Some (held s.files.items) };

    ghost calls = { λ s. s.calls };

    ghost given = { λ s. s.given_count };

    ghost faults = { λ s. s.fault_count };

    fn fetch(&mut self, alloc: Global, name: &str) -> Result<Vec<u8>, FetchFault>
        ensures bytes { IfOk result (λ bytes. held self.old.files.items name.now ≡ Some bytes.items) }
        ensures kept { (self.new.files.items ≡ self.old.files.items) × (self.new.failing.items ≡ self.old.failing.items) }
        ensures asked { self.new.calls ≡ counted self.old.calls }
        ensures gave { GivenCounts self.old.given_count self.new.given_count result }
        ensures cause { FetchCounts self.old.fault_count self.new.fault_count result }
        ensures marked { Contains self.old.failing.items self.old.calls → IsErrOf result FetchFault.Failed }
        ensures missing { held self.old.files.items name.now ≡ None → IsErrOf result FetchFault.Failed }
        ensures only { IsErrOf result FetchFault.Failed → Contains self.old.failing.items self.old.calls ⊎ (held self.old.files.items name.now ≡ None) }
    {
        let call = self.calls;
        self.calls = call.saturating_add(1);
        if self.failing.contains(&call) {
            self.fault_count = self.fault_count.saturating_add(1);
            return Err(FetchFault::Failed);
        }
        match find_named(&self.files, name) {
            None => {
                self.fault_count = self.fault_count.saturating_add(1);
                Err(FetchFault::Failed)
            }
            Some(file) => match file.bytes.as_slice().to_vec(alloc) {
                Ok(bytes) => {
                    self.given_count = self.given_count.saturating_add(1);
                    Ok(bytes)
                }
                Err(_) => Err(FetchFault::Memory),
            },
        }
    }
}

/// A sink with room for so many bytes, which takes at most so many of them at a time. Calls of `put` are numbered
/// from 0, and those of the list `failing` fail.
#[derive(Drop)]
pub struct MemSink {
    pub bytes: Vec<u8>,
    pub capacity: usize,
    pub greatest_piece: usize,
    pub failing: Vec<u64>,
    pub calls: u64,
    pub fault_count: u64,
    ghost room: { (vec_len bytes ≤ capacity) × (capacity ≤ vec_capacity bytes) },
    ghost takes_some: { 0 < greatest_piece },
}

impl MemSink {
    /// An empty sink. Its room is taken here, so that no `put` takes memory.
    pub fn new(
        alloc: Global,
        capacity: usize,
        greatest_piece: usize,
        failing: Vec<u64>,
    ) -> Result<MemSink, AllocError>
        requires { 0 < greatest_piece }
        ensures empty { IfOk result (λ sink. sink.bytes.items ≡ []) }
        ensures limits { IfOk result (λ sink. (sink.capacity ≡ capacity) × (sink.greatest_piece ≡ greatest_piece)) }
        ensures script { IfOk result (λ sink. (sink.failing ≡ failing) × (sink.calls ≡ 0) × (sink.fault_count ≡ 0)) }
    {
        Ok(MemSink {
            bytes: Vec::with_capacity(alloc, capacity)?,
            capacity,
            greatest_piece,
            failing,
            calls: 0,
            fault_count: 0,
        })
    }
}

impl Sink for MemSink {
    ghost content = { λ s. Some s.bytes.items };

    ghost faults = { λ s. s.fault_count };

    fn put(&mut self, piece: &[u8]) -> Result<usize, Failed>
        ensures taken { Takes (Some self.old.bytes.items) (Some self.new.bytes.items) result piece.now }
        ensures cause { Counts self.old.fault_count self.new.fault_count result }
        ensures marked { Contains self.old.failing.items self.old.calls → IsErr result }
        ensures full { vec_len self.old.bytes ≡ self.old.capacity → IsErr result }
        ensures only { IsErr result → Contains self.old.failing.items self.old.calls ⊎ (vec_len self.old.bytes ≡ self.old.capacity) }
        ensures most { IfOk result (λ n. n ≡ min (min (length piece.now) self.old.greatest_piece) (self.old.capacity - vec_len self.old.bytes)) }
        ensures counts { self.new.calls ≡ counted self.old.calls }
        ensures kept { (self.new.capacity ≡ self.old.capacity) × (self.new.greatest_piece ≡ self.old.greatest_piece) × (self.new.failing.items ≡ self.old.failing.items) }
    {
        let call = self.calls;
        self.calls = call.saturating_add(1);
        let room = self.capacity - self.bytes.len();
        if self.failing.contains(&call) || room == 0 {
            self.fault_count = self.fault_count.saturating_add(1);
            return Err(Failed);
        }
        let taken = piece.len().min(self.greatest_piece).min(room);
        self.bytes.extend_from_slice(&piece[..taken]).unwrap();
        Ok(taken)
    }
}
