//! The top call.
ghost use Rattle.std.specs.Prelude.{◌≡◌, ◌≤◌, length, IfErr, IfOk};
ghost use Rattle.clr_core.specs.Answers.{Answers};
ghost use Rattle.clr_core.specs.Command.{texts_of};
ghost use Rattle.clr_core.specs.Ends.{Happened, EndsWith, StopsChecks, end_of, end_of_stop, written};
ghost use Rattle.clr_core.specs.Fetched.{shelved};
ghost use Rattle.clr_core.specs.Names.{names_of};
ghost use Rattle.image_files.specs.Images.{bytes_of_each};

use crate::command;
use crate::fetch::fetch_all;
use crate::lines::say_stop;
use crate::names::names_text;
use crate::status::{Outcome, Status, Stop};
use clr_base::{Bytes, Gate, Shelf, Sink, put_all};
use image_files::{ImagesFault, read_images};
use std::alloc::Global;
use std::thread::Threads;

/// What is written of the files that were fetched. They are all checked first, in order.
fn text_of<'a>(alloc: Global, names: &'a [String], files: &[Vec<u8>]) -> Result<Bytes, Stop<'a>>
    requires count { length files.now ≡ length names.now }
    requires few { length names.now ≤ 16 }
    ensures text { IfOk result (λ text. names_of (texts_of names.now) (bytes_of_each files.now) ≡ Ok text) }
    ensures stopped { IfErr result (λ stop. StopsChecks (texts_of names.now) (bytes_of_each files.now) (end_of_stop stop)) }
{
    let images = match read_images(alloc, files) {
        Ok(images) => images,
        Err(ImagesFault::Image(number, fault)) => {
            return Err(Stop::BadImage(names[number as usize - 1].as_str(), fault));
        }
        Err(ImagesFault::Memory) => return Err(Stop::Memory),
    };
    match names_text(alloc, names, images.as_slice()) {
        Ok(text) => Ok(text),
        Err(_) => Err(Stop::Memory),
    }
}

/// Words, fetches, checks, text, write: all files are there before the first check, and the whole text before the first
/// write.
fn run<'a, F: Shelf, O: Sink>(
    alloc: Global,
    words: &'a [String],
    shelf: &mut F,
    out: &mut O,
) -> Result<(), Stop<'a>>
    ensures happened { Happened
        (record {
          words = texts_of words.now;
          shelf = shelved F.files F.calls F.given F.faults shelf.old shelf.new;
          out = written O.content O.faults out.old out.new;
        })
        (end_of result) }
    ensures kept { F.files shelf.new ≡ F.files shelf.old }
{
    let Some(names) = command::named_files(words) else {
        return Err(Stop::Usage);
    };
    let files = fetch_all(alloc, names, shelf)?;
    let text = text_of(alloc, names, files.as_slice())?;
    match put_all(out, text.as_slice()) {
        Ok(()) => Ok(()),
        Err(_) => Err(Stop::WriteFault),
    }
}

/// Does what the words say, and tells on `err` why it stopped, if it did.
fn answer<F: Shelf, O: Sink, E: Sink>(
    alloc: Global,
    words: &[String],
    shelf: &mut F,
    out: &mut O,
    err: &mut E,
) -> Status
    ensures { EndsWith
        (record {
          words = texts_of words.now;
          shelf = shelved F.files F.calls F.given F.faults shelf.old shelf.new;
          out = written O.content O.faults out.old out.new;
        })
        (written E.content E.faults err.old err.new)
        result }
{
    match run(alloc, words, shelf, out) {
        Ok(()) => Status::Done,
        Err(stop) => {
            say_stop(err, &stop);
            stop.status()
        }
    }
}

/// Does what the words say, for the commands that need no threads. At `Done` the whole text is appended to `out`. At any
/// other status a line is appended to `err`, and `out` is as it was, but for a prefix of the text at `WriteFault`. `Memory`
/// may come at any time before the write; once all files are there, only behind the checks of the first one's headers,
/// streams and tables.
pub fn clr_quiet<F: Shelf, O: Sink, E: Sink>(
    alloc: Global,
    words: &[String],
    shelf: &mut F,
    out: &mut O,
    err: &mut E,
) -> Status
    ensures { Answers
        (record {
          words = texts_of words.now;
          shelf = shelved F.files F.calls F.given F.faults shelf.old shelf.new;
          out = written O.content O.faults out.old out.new;
        })
        (written E.content E.faults err.old err.new)
        result }
{
    answer(alloc, words, shelf, out, err)
}

/// Does what the words say: those of a command line, without the program's name. Files are fetched from `shelf`, the text
/// is written to `out`, and why the run stopped, if it did, to `err`. No command so far starts threads or tells the gate.
pub fn clr<R: Threads + Sync, F: Shelf, O: Sink, E: Sink, G: Gate + Sync>(
    _rt: &R,
    alloc: Global,
    words: &[String],
    shelf: &mut F,
    out: &mut O,
    err: &mut E,
    _gate: &G,
) -> Outcome
    ensures { Answers
        (record {
          words = texts_of words.now;
          shelf = shelved F.files F.calls F.given F.faults shelf.old shelf.new;
          out = written O.content O.faults out.old out.new;
        })
        (written E.content E.faults err.old err.new)
        result.status }
{
    let status = clr_quiet(alloc, words, shelf, out, err);
    Outcome { status }
}
