//! What is asked of a world, a line each:
//!
//! - `counts`; `names N`, `definitions N`, `fields N`, `methods N`, `signatures N`: all from the number N on; `roots`
//! - `tokens FILE`: each row that a token of the file can name; `token FILE TOKEN`: one of them, in hexadecimal
//! - `locals FILE ROW`: the local variables of a row; `text FILE INDEX`: a user string
//! - `type TEXT`: the tree of a text; `nested NAME LEVELS ARRAYS`: that of a name so often round itself, in so many arrays
//! - `in CONTEXT SIGNATURE`: what a signature stands for in another; `alone SIGNATURE`: in none; `same SIGNATURE SIGNATURE`
use crate::definitions::put_definitions;
use crate::members::{put_fields, put_methods};
use crate::numbers::{
    put_counts, put_locals, put_names, put_roots, put_text, put_token, put_tokens,
};
use crate::page::Page;
use crate::trees::{put_alone, put_in, put_nested, put_read, put_same, put_signatures};
use type_tree::World;

/// What stands before the first space, and what behind it.
fn first_word(text: &str) -> (&str, &str) {
    text.split_once(' ').unwrap_or((text, ""))
}

/// A decimal number, 0 where it is none.
fn number(text: &str) -> u32 {
    text.parse().unwrap_or(0)
}

/// Two numbers.
fn pair(text: &str) -> (u32, u32) {
    let (first, second) = first_word(text);
    (number(first), number(second))
}

/// A question of the parts of a world; whether it is one.
fn answer_part(page: &mut Page, world: &World, what: &str, words: &str) -> bool {
    match what {
        "counts" => put_counts(page, world),
        "names" => put_names(page, world, number(words)),
        "definitions" => put_definitions(page, world, number(words)),
        "fields" => put_fields(page, world, number(words)),
        "methods" => put_methods(page, world, number(words)),
        "signatures" => put_signatures(page, world, number(words)),
        "roots" => put_roots(page, world),
        _ => return false,
    }
    true
}

/// A question of the numbers of a file; whether it is one.
fn answer_file(page: &mut Page, world: &World, what: &str, words: &str) -> bool {
    let (file, second) = first_word(words);
    let file = number(file);
    match what {
        "tokens" => put_tokens(page, world, file),
        "token" => put_token(
            page,
            world,
            file,
            u32::from_str_radix(second, 16).unwrap_or(0),
        ),
        "locals" => put_locals(page, world, file, number(second)),
        "text" => put_text(page, world, file, number(second)),
        _ => return false,
    }
    true
}

/// A question of trees.
fn answer_tree(page: &mut Page, world: &World, what: &str, words: &str) {
    match what {
        "type" => put_read(page, world, words),
        "nested" => {
            let (name, counts) = first_word(words);
            put_nested(page, world, name, pair(counts));
        }
        "in" => put_in(page, world, pair(words)),
        "alone" => put_alone(page, world, number(words)),
        "same" => put_same(page, world, pair(words)),
        _ => page.put(" no question\n"),
    }
}

/// A question.
fn answer(page: &mut Page, world: &World, question: &str) {
    page.put(question);
    page.end();
    let (what, words) = first_word(question);
    if !answer_part(page, world, what, words) && !answer_file(page, world, what, words) {
        answer_tree(page, world, what, words);
    }
}

/// All questions of a block, behind its first line.
pub fn answer_all(page: &mut Page, world: &World, block: &str) {
    for question in block.lines().skip(1) {
        answer(page, world, question);
    }
}
