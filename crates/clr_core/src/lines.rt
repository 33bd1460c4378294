//! The lines that tell why a run stopped. They are written in pieces, and take no memory.
ghost use Rattle.std.specs.Prelude.{◌≡◌};
ghost use Rattle.clr_base.specs.Pieces.{line_of};
ghost use Rattle.clr_core.specs.Lines.{kind_name};
ghost use Rattle.clr_core.specs.Ends.{Says, Tells, end_of_stop, written};

use crate::status::Stop;
use clr_base::{FaultKind, Piece, Sink, put_pieces};

const USAGE: &str =
    "clr: usage: names FILE.. / types FILE.. -- TYPE.. / run OPTION.. FILE.. -- ENTRY.. / big N\n";

fn name_of(kind: FaultKind) -> &'static str
    ensures { result.now ≡ kind_name kind }
{
    match kind {
        FaultKind::NotPe => "NotPe",
        FaultKind::NoCli => "NoCli",
        FaultKind::OutsideFile => "OutsideFile",
        FaultKind::BadRoot => "BadRoot",
        FaultKind::BadStreams => "BadStreams",
        FaultKind::BadTables => "BadTables",
        FaultKind::BadIndex => "BadIndex",
        FaultKind::BadText => "BadText",
        FaultKind::BadSignature => "BadSignature",
        FaultKind::TooMany => "TooMany",
    }
}

/// Writes a line, as far as the sink takes it: there is no one left to tell of its failure.
fn say<E: Sink>(err: &mut E, line: &[Piece<'_>])
    ensures { Says (written E.content E.faults err.old err.new) (line_of line.now) }
{
    let _ = put_pieces(err, line);
}

/// Writes why a run stopped.
#[tactic(auto, unfolding(crate::specs::Lines::usage_line, crate::specs::Lines::unread_line, crate::specs::Lines::refused_line, crate::specs::Lines::unwritten_line, crate::specs::Lines::memory_line))]
pub fn say_stop<E: Sink>(err: &mut E, stop: &Stop<'_>)
    ensures { Tells (written E.content E.faults err.old err.new) (end_of_stop stop.now) }
{
    match stop {
        Stop::Usage => say(err, &[Piece::Literal(USAGE)]),
        Stop::ReadFault(file) => say(
            err,
            &[
                Piece::Literal("clr: "),
                Piece::Text(file),
                Piece::Literal(": read fault\n"),
            ],
        ),
        Stop::BadImage(file, fault) => say(
            err,
            &[
                Piece::Literal("clr: "),
                Piece::Text(file),
                Piece::Literal(": "),
                Piece::Literal(name_of(fault.kind)),
                Piece::Literal(" "),
                Piece::Number(fault.place),
                Piece::Literal("\n"),
            ],
        ),
        Stop::WriteFault => say(err, &[Piece::Literal("clr: write fault\n")]),
        Stop::Memory => say(err, &[Piece::Literal("clr: want of memory\n")]),
    }
}
