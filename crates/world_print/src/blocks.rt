//! A block: files, the world of these files, and what is asked of it.
use crate::page::Page;
use crate::questions;
use clr_base::ImageFault;
use image_files::{ImagesFault, read_images};
use std::alloc::Global;
use std::rt::Files;
use std::{fs, io};
use type_tree::World;
use world_build::{BuildFault, RootForm, RootsFault, build, with_roots};

/// What the first line of a block names.
#[derive(Drop)]
struct Named {
    files: Vec<Vec<u8>>,
    form: RootForm,
    roots: Vec<String>,
    /// The types behind these roots.
    types: Vec<String>,
}

/// The names of the files, the form of the root words, and these words, each behind a space; none of them is nothing.
fn parted(line: &str) -> (&str, RootForm, Option<&str>) {
    if let Some((files, words)) = line.split_once(" entries ") {
        return (files, RootForm::Entries, Some(words));
    }
    match line.split_once(" types ") {
        Some((files, words)) => (files, RootForm::Types, Some(words)),
        None => (line, RootForm::Types, None),
    }
}

/// A line without the types behind its roots, and these types.
fn with_types(line: &str) -> (&str, Option<&str>) {
    match line.split_once(" then ") {
        Some((line, types)) => (line, Some(types)),
        None => (line, None),
    }
}

/// The bytes of the files with these names, behind the first word.
fn fetched<R: Files + AllocGlobal>(rt: &R, names: &str) -> io::Result<Vec<Vec<u8>>> {
    let mut files = Vec::new(rt.alloc());
    for name in names.split_whitespace().skip(1) {
        files.push(fs::read(rt, name)?)?;
    }
    Ok(files)
}

/// Words with a space between two, each of which may be empty.
fn owned(alloc: Global, words: Option<&str>) -> io::Result<Vec<String>> {
    let mut list = Vec::new(alloc);
    if let Some(words) = words {
        for word in words.split(' ') {
            list.push(String::from_str(alloc, word)?)?;
        }
    }
    Ok(list)
}

/// What a line names.
fn read_named<R: Files + AllocGlobal>(rt: &R, line: &str) -> io::Result<Named> {
    let (line, types) = with_types(line);
    let (names, form, words) = parted(line);
    let types = owned(rt.alloc(), types)?;
    let roots = owned(rt.alloc(), words)?;
    let files = fetched(rt, names)?;
    Ok(Named {
        files,
        form,
        roots,
        types,
    })
}

/// A file's first fault.
fn put_fault(page: &mut Page, file: u32, fault: ImageFault) {
    page.number("file", u64::from(file));
    page.number("has the fault", fault.kind as u64);
    page.number("at", fault.place);
    page.end();
}

/// A word that names nothing.
fn put_unnamed(page: &mut Page, word: &str) {
    page.word("nothing is called");
    page.word(word);
    page.end();
}

/// Why there is no world.
fn put_build_fault(page: &mut Page, fault: &BuildFault) {
    match fault {
        BuildFault::Image(file, fault) => put_fault(page, *file, *fault),
        BuildFault::NoName(word) => put_unnamed(page, word.as_str()),
        BuildFault::Memory => page.lose(),
    }
}

/// The checks of files.
fn check(page: &mut Page, files: &[Vec<u8>]) {
    if files.len() > 16 {
        return;
    }
    match read_images(page.alloc, files) {
        Ok(_) => page.put(" pass\n"),
        Err(ImagesFault::Image(file, fault)) => put_fault(page, file, fault),
        Err(ImagesFault::Memory) => page.lose(),
    }
}

/// A world with types behind its roots, and what is asked of it.
fn extend_and_ask(page: &mut Page, world: World, types: &[String], block: &str) {
    if types.len().saturating_add(world.root_count() as usize) > 256 {
        return;
    }
    match with_roots(page.alloc, world, RootForm::Types, types) {
        Ok(world) => questions::answer_all(page, &world, block),
        Err(RootsFault::NoName(word)) => put_unnamed(page, word.as_str()),
        Err(RootsFault::Memory) => page.lose(),
    }
}

/// The world of files, and what is asked of it.
fn build_and_ask(page: &mut Page, named: &Named, block: &str) {
    if named.files.len() > 16 || named.roots.len() > 256 {
        return;
    }
    match build(page.alloc, &named.files, named.form, &named.roots) {
        Ok(world) => extend_and_ask(page, world, &named.types, block),
        Err(fault) => put_build_fault(page, &fault),
    }
}

/// Answers a block.
pub fn answer<R: Files + AllocGlobal>(rt: &R, page: &mut Page, block: &str) {
    let line = block.lines().next().unwrap_or("");
    page.put(line);
    page.end();
    match read_named(rt, line) {
        Ok(named) if line.starts_with("check") => check(page, &named.files),
        Ok(named) => build_and_ask(page, &named, block),
        Err(_) => page.put(" not read\n"),
    }
}
