//! The metadata (ECMA-335 II.24.2): its root, the stream headers, the streams.
ghost use Rattle.std.specs.Prelude.{◌≡◌, ◌++◌, ◌+◌, ◌<◌, ◌^◌, OnOk};
ghost use Rattle.image_write.specs.Image as spec;
ghost use Rattle.image_write.specs.Layouts.{IsLayout};
ghost use Rattle.image_write.specs.Pieces.{padded};

use crate::draft::Draft;
use crate::layout::{Layout, filled_len};
use crate::pieces::{
    number, push_filled, push_number, push_padded, push_structure, push_zeros, rounded,
};
use crate::rows::push_tables;
use std::alloc::AllocError;

/// `BSJB`.
const SIGNATURE: u64 = 0x424a_5342;

/// `v4.0.303`, and `19`, which ends the version text.
const VERSION: [u64; 2] = [0x3330_332e_302e_3476, 0x3931];

#[tactic(auto, unfolding(crate::specs::Image::root))]
fn push_root(out: &mut Vec<u8>) -> Result<(), AllocError>
    ensures { OnOk result (out.new.items ≡ out.old.items ++ spec.root) }
{
    let fields = [
        number(0, 4, SIGNATURE),
        number(4, 2, 1),
        number(6, 2, 1),
        number(12, 4, 12),
        number(16, 8, VERSION[0]),
        number(24, 2, VERSION[1]),
        number(30, 2, 5),
    ];
    push_structure(out, 32, &fields)
}

/// The header of a stream of `len` bytes at a place; the name has the zeros that pad it.
#[tactic(auto, unfolding(crate::specs::Image::stream_header))]
fn push_stream_header(
    out: &mut Vec<u8>,
    at: usize,
    len: usize,
    name: &[u8],
) -> Result<(), AllocError>
    ensures { OnOk result (out.new.items ≡ out.old.items ++ spec.stream_header at len name.now) }
{
    push_number(out, 4, at as u64)?;
    push_number(out, 4, len as u64)?;
    out.extend_from_slice(name)
}

/// The headers of five streams of these lengths, the first of which begins behind them.
#[tactic(auto, unfolding(crate::specs::Image::stream_headers))]
fn push_stream_headers(
    out: &mut Vec<u8>,
    tables: usize,
    strings: usize,
    users: usize,
    guids: usize,
    blobs: usize,
) -> Result<(), AllocError>
    requires { tables + strings + users + guids + blobs < 2 ^ 32 }
    ensures { OnOk result (out.new.items ≡ out.old.items ++ spec.stream_headers tables strings users guids blobs) }
{
    push_stream_header(out, 108, tables, b"#~\0\0")?;
    let at = 108 + tables;
    push_stream_header(out, at, strings, b"#Strings\0\0\0\0")?;
    let at = at + strings;
    push_stream_header(out, at, users, b"#US\0")?;
    let at = at + users;
    push_stream_header(out, at, guids, b"#GUID\0\0\0")?;
    push_stream_header(out, at + guids, blobs, b"#Blob\0\0\0")
}

#[tactic(auto, unfolding(crate::specs::Image::headers_of))]
fn push_headers(out: &mut Vec<u8>, draft: &Draft, layout: &Layout) -> Result<(), AllocError>
    requires { IsLayout draft.now layout.now }
    ensures { OnOk result (out.new.items ≡ out.old.items ++ spec.headers_of draft.now) }
{
    push_stream_headers(
        out,
        rounded(layout.tables_len),
        rounded(draft.strings.as_slice().len()),
        filled_len(draft.users.as_slice().len()),
        rounded(draft.guids.as_slice().len()),
        filled_len(draft.blobs.as_slice().len()),
    )
}

#[tactic(auto, unfolding(crate::specs::Pieces::padded))]
fn push_padded_tables(out: &mut Vec<u8>, draft: &Draft, layout: &Layout) -> Result<(), AllocError>
    requires { IsLayout draft.now layout.now }
    ensures { OnOk result (out.new.items ≡ out.old.items ++ padded (spec.tables draft.now)) }
{
    push_tables(out, draft, layout)?;
    push_zeros(out, rounded(layout.tables_len) - layout.tables_len)
}

#[tactic(auto, unfolding(crate::specs::Image::streams))]
fn push_streams(out: &mut Vec<u8>, draft: &Draft, layout: &Layout) -> Result<(), AllocError>
    requires { IsLayout draft.now layout.now }
    ensures { OnOk result (out.new.items ≡ out.old.items ++ spec.streams draft.now) }
{
    push_padded_tables(out, draft, layout)?;
    push_padded(out, draft.strings.as_slice())?;
    push_filled(out, draft.users.as_slice())?;
    push_padded(out, draft.guids.as_slice())?;
    push_filled(out, draft.blobs.as_slice())
}

/// Appends the metadata.
#[tactic(auto, unfolding(crate::specs::Image::metadata))]
pub(crate) fn push_metadata(
    out: &mut Vec<u8>,
    draft: &Draft,
    layout: &Layout,
) -> Result<(), AllocError>
    requires { IsLayout draft.now layout.now }
    ensures { OnOk result (out.new.items ≡ out.old.items ++ spec.metadata draft.now) }
{
    push_root(out)?;
    push_headers(out, draft, layout)?;
    push_streams(out, draft, layout)
}
