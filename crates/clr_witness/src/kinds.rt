//! What a file is refused for.
use clr_base::{FaultKind, HistoryFull, Memory, TableFull};

static KINDS: [FaultKind; 10] = [
    FaultKind::NotPe,
    FaultKind::NoCli,
    FaultKind::OutsideFile,
    FaultKind::BadRoot,
    FaultKind::BadStreams,
    FaultKind::BadTables,
    FaultKind::BadIndex,
    FaultKind::BadText,
    FaultKind::BadSignature,
    FaultKind::TooMany,
];

/// `faults`: the number and the name of each kind, and the words for want of memory and of room.
pub fn push_faults(out: &mut String) -> Result<(), Memory> {
    for kind in &KINDS {
        write!(out, "\n  {} {kind:?}", *kind as u8)?;
    }
    Ok(write!(out, "\n  {Memory}; {TableFull}; {HistoryFull}")?)
}
