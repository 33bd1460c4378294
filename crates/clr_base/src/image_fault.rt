//! Why a file is refused.
ghost use Rattle.std.specs.Prelude.{◌≡◌};

/// What is wrong with a file: the structure that is malformed or leaves the file. The numbers are stable.
#[derive(Clone, Copy, Debug, PartialEq, Eq)]
pub enum FaultKind {
    /// No PE image (ECMA-335 II.25.2): its headers are cut or have another signature.
    NotPe = 1,
    /// A PE image without a CLI header (II.25.3.3).
    NoCli = 2,
    /// A range at an RVA isn't in the file.
    OutsideFile = 3,
    /// No metadata root (II.24.2.1).
    BadRoot = 4,
    /// A stream header (II.24.2.2) is cut, doubled, or of a kind that isn't read.
    BadStreams = 5,
    /// The `#~` stream (II.24.2.6) is cut, has tables that aren't known, or one of more than 16,777,215 rows.
    BadTables = 6,
    /// A column's index names nothing.
    BadIndex = 7,
    /// A text that isn't UTF-8 (II.24.2.3).
    BadText = 8,
    /// A signature (II.23.2) that the grammar doesn't have.
    BadSignature = 9,
    /// More definitions, members or signatures than a world holds.
    TooMany = 10,
}

/// The first fault of a file and its place: an offset in bytes, an RVA, or the token of a row.
#[derive(Clone, Copy, Debug, PartialEq, Eq)]
pub struct ImageFault {
    pub kind: FaultKind,
    pub place: u64,
}

impl ImageFault {
    /// A fault at an offset in bytes.
    pub fn new(kind: FaultKind, offset: usize) -> ImageFault
        ensures { result ≡ record { kind = kind; place = offset } }
    {
        ImageFault {
            kind,
            place: offset as u64,
        }
    }
}
