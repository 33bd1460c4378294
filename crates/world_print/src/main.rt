//! Prints worlds. The standard input has blocks, with an empty line between two. The first line of a block names files and
//! root words: `files FILE.. [types WORD..]` or `files FILE.. entries WORD..`; the others ask of their world, as the module
//! `questions` lists. Behind root words, `then WORD..` names types that are put behind these roots. `check FILE..` makes the checks of files alone. Each line is printed before its answer.
#![tactic(auto)]

mod blocks;
mod definitions;
mod members;
mod numbers;
mod page;
mod questions;
mod trees;

use page::Page;
use std::io;

fn main(rt: HostRuntime) -> io::Result<()> {
    let alloc = rt.alloc();
    let input = io::read_to_string(alloc, rt.stdin())?;
    let mut page = Page::new(alloc);
    for block in input.as_str().split("\n\n") {
        blocks::answer(&rt, &mut page, block);
    }
    page.show(&rt)
}
