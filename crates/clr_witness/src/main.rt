//! Prints what the libraries below the program answer to requests, one a line of standard input: tables of data whole, and
//! worked examples of what no command reaches. Each answer stands behind its request. The requests, and the answers that the
//! standard wants, lie beside this folder in `stdin` and `stdout`.
#![tactic(auto)]

mod answer;
mod bodies;
mod images;
mod instructions;
mod kinds;
mod numbers;
mod schema;
mod signatures;
mod widths;
mod words;

use std::io::{self, ErrorKind};

fn main(rt: HostRuntime) -> io::Result<()> {
    for line in rt.lines(rt.alloc()) {
        match answer::answer(rt.alloc(), line?.as_str()) {
            Ok(text) => rt.println(text)?,
            Err(_) => return Err(io::Error::from(ErrorKind::OutOfMemory)),
        }
    }
    Ok(())
}
