//! The headers of the metadata's streams (ECMA-335 II.24.2.2).
ghost use Rattle.std.specs.Prelude.{◌≡◌, ◌+◌, ◌≤◌, ◌<◌, length, IfOk, IfSome};
ghost use Rattle.clr_base.specs.Checks.{outcome};
ghost use Rattle.cli_tables.specs.Streams.{name_len, name_at, header_len, range_at, with_stream, kind_of, may_come, one_header, found, stream_checks, AreInside};

use clr_base::{FaultKind, ImageFault, read_u32};

/// Where a stream lies in the metadata: `len` bytes from `start` on.
#[derive(Clone, Copy)]
pub struct Range {
    pub start: u32,
    pub len: u32,
}

/// The streams that are read, as far as they are there.
#[derive(Clone, Copy)]
pub struct Streams {
    pub tables: Option<Range>,
    pub strings: Option<Range>,
    pub users: Option<Range>,
    pub guids: Option<Range>,
    pub blobs: Option<Range>,
}

/// What a stream's name means.
#[derive(Clone, Copy)]
pub enum StreamKind {
    Tables,
    Strings,
    UserStrings,
    Guid,
    Blob,
    Uncompressed,
    Other,
}

/// How many bytes are searched for the zero that ends a name.
const LONGEST_NAME: usize = 32;

#[tactic(auto, unfolding(crate::specs::Streams::kind_of))]
fn kind_of_name(name: &[u8]) -> StreamKind
    ensures { result ≡ kind_of name.now }
{
    if name == b"#~".as_slice() {
        StreamKind::Tables
    } else if name == b"#Strings".as_slice() {
        StreamKind::Strings
    } else if name == b"#US".as_slice() {
        StreamKind::UserStrings
    } else if name == b"#GUID".as_slice() {
        StreamKind::Guid
    } else if name == b"#Blob".as_slice() {
        StreamKind::Blob
    } else if name == b"#-".as_slice() {
        StreamKind::Uncompressed
    } else {
        StreamKind::Other
    }
}

impl Streams {
    fn may_add(&self, kind: StreamKind) -> bool
        ensures { result ≡ may_come self.now kind }
    {
        match kind {
            StreamKind::Tables => self.tables.is_none(),
            StreamKind::Strings => self.strings.is_none(),
            StreamKind::UserStrings => self.users.is_none(),
            StreamKind::Guid => self.guids.is_none(),
            StreamKind::Blob => self.blobs.is_none(),
            StreamKind::Uncompressed => false,
            StreamKind::Other => true,
        }
    }

    fn add(&mut self, kind: StreamKind, range: Range)
        ensures { self.new ≡ with_stream self.old kind range }
    {
        match kind {
            StreamKind::Tables => self.tables = Some(range),
            StreamKind::Strings => self.strings = Some(range),
            StreamKind::UserStrings => self.users = Some(range),
            StreamKind::Guid => self.guids = Some(range),
            StreamKind::Blob => self.blobs = Some(range),
            StreamKind::Uncompressed | StreamKind::Other => {}
        }
    }
}

/// The length of the name of the header at a place.
#[tactic(auto, unfolding(crate::specs::Streams::name_len))]
fn len_of_name(meta: &[u8], at: usize) -> Option<usize>
    requires { at + 8 ≤ length meta.now }
    ensures exact { result ≡ name_len meta.now at }
    ensures within { IfSome result (λ n. at + 8 + n < length meta.now) }
{
    let (_, behind) = meta.split_at(at + 8);
    behind.iter().take(LONGEST_NAME).position(|byte| *byte == 0)
}

/// Reads the header at a place, and gives the place behind it.
#[tactic(auto, unfolding(crate::specs::Streams::one_header, crate::specs::Streams::is_stream, crate::specs::Streams::name_at, crate::specs::Streams::header_len, crate::specs::Streams::range_at))]
fn read_header(meta: &[u8], at: usize, streams: &mut Streams) -> Result<usize, ImageFault>
    requires { at ≤ length meta.now }
    ensures exact { result ≡ outcome (one_header meta.now streams.old at) (at + header_len meta.now at) }
    ensures streams { IfOk result (λ _. streams.new ≡ with_stream streams.old (kind_of (name_at meta.now at)) (range_at meta.now at)) }
    ensures within { IfOk result (λ next. next ≤ length meta.now) }
    ensures inside { AreInside meta.now streams.old → IfOk result (λ _. AreInside meta.now streams.new) }
{
    let fault = ImageFault::new(FaultKind::BadStreams, at);
    if meta.len() - at < 8 {
        return Err(fault);
    }
    let Some(name_len) = len_of_name(meta, at) else {
        return Err(fault);
    };
    let (_, behind) = meta.split_at(at + 8);
    let kind = kind_of_name(&behind[..name_len]);
    let next = at + 8 + 4 * (name_len / 4 + 1);
    let range = Range {
        start: read_u32(meta, at),
        len: read_u32(meta, at + 4),
    };
    if next > meta.len()
        || u64::from(range.start) + u64::from(range.len) > meta.len() as u64
        || !streams.may_add(kind)
    {
        return Err(fault);
    }
    streams.add(kind, range);
    Ok(next)
}

/// Reads the headers from the first on: the streams that they tell, or the first fault.
#[tactic(auto, using(clr_base::proofs::Checks::each_none, clr_base::proofs::Checks::each_passed, clr_base::proofs::Checks::each_failed, clr_base::proofs::Checks::outcome_value, clr_base::proofs::Checks::outcome_of_fault), unfolding(crate::specs::Streams::place, crate::specs::Streams::found))]
pub fn read_streams(meta: &[u8], first: usize, count: u16) -> Result<Streams, ImageFault>
    requires { first ≤ length meta.now }
    ensures exact { result ≡ outcome (stream_checks meta.now first count) (found meta.now first count) }
    ensures inside { IfOk result (λ streams. AreInside meta.now streams) }
{
    let mut streams = Streams {
        tables: None,
        strings: None,
        users: None,
        guids: None,
        blobs: None,
    };
    let mut at = first;
    for _ in 0..count {
        at = read_header(meta, at, &mut streams)?;
    }
    Ok(streams)
}
