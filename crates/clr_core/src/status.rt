//! How a run ends.
ghost use Rattle.std.specs.Prelude.{◌≡◌};
ghost use Rattle.clr_core.specs.Ends.{status_of, status_number, end_of_stop};

use clr_base::ImageFault;

/// How a run ended.
#[derive(Clone, Copy, Debug, PartialEq, Eq)]
pub enum Status {
    /// The whole text was written.
    Done,
    /// The words are no command.
    Usage,
    /// A file wasn't read: the shelf failed.
    ReadFault,
    /// The text wasn't written whole: the sink failed.
    WriteFault,
    /// A file is refused: one of its checks fails.
    BadImage,
    /// Want of memory.
    Memory,
}

impl Status {
    /// The number that the program ends with.
    pub fn number(self) -> u8
        ensures { result ≡ status_number self }
    {
        match self {
            Status::Done => 0,
            Status::Usage => 1,
            Status::ReadFault => 2,
            Status::WriteFault => 3,
            Status::BadImage => 4,
            Status::Memory => 6,
        }
    }
}

/// What a run comes to.
#[derive(Clone, Copy)]
pub struct Outcome {
    pub status: Status,
}

/// Why a run stops before its end.
#[derive(Clone, Copy)]
pub enum Stop<'a> {
    Usage,
    /// The file that wasn't read.
    ReadFault(&'a str),
    /// The file that is refused, and its first fault.
    BadImage(&'a str, ImageFault),
    WriteFault,
    Memory,
}

impl Stop<'_> {
    pub fn status(&self) -> Status
        ensures { result ≡ status_of (end_of_stop self.now) }
    {
        match self {
            Stop::Usage => Status::Usage,
            Stop::ReadFault(_) => Status::ReadFault,
            Stop::BadImage(..) => Status::BadImage,
            Stop::WriteFault => Status::WriteFault,
            Stop::Memory => Status::Memory,
        }
    }
}
