//! `clr`: reads .NET assemblies. All that it does is `clr_core::clr` over real files and streams.
#![tactic(auto)]

use clr_base::{FileShelf, OpenGate, StreamSink, put_all};
use clr_core::{Status, clr};
use std::alloc::Global;
use std::io::ErrorKind;
use std::process::ExitCode;
use std::{env, io};

/// The words behind the program's name.
fn words(rt: &HostRuntime, alloc: Global) -> io::Result<Vec<String>> {
    let mut words = Vec::new(alloc);
    for word in env::args(rt)?.skip(1) {
        words.push(word)?;
    }
    Ok(words)
}

fn main(rt: HostRuntime) -> ExitCode {
    let alloc = rt.alloc();
    let mut shelf = FileShelf::new(&rt);
    let mut out = StreamSink::new(rt.stdout());
    let mut err = StreamSink::new(rt.stderr());
    let words = match words(&rt, alloc) {
        Ok(words) => words,
        Err(error) if error.kind() == ErrorKind::OutOfMemory => {
            let _ = put_all(&mut err, b"clr: want of memory\n");
            return ExitCode::from(Status::Memory.number());
        }
        // Arguments that are no text are no command.
        Err(_) => Vec::new(alloc),
    };
    let outcome = clr(
        &rt, alloc, &words, &mut shelf, &mut out, &mut err, &OpenGate,
    );
    ExitCode::from(outcome.status.number())
}
