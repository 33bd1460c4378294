//! The metadata root (ECMA-335 II.24.2.1).
ghost use Rattle.std.specs.Prelude.{◌≡◌, ◌+◌, ◌≤◌, length, IfOk};
ghost use Rattle.clr_base.specs.Checks.{outcome};
ghost use Rattle.cli_tables.specs.Root.{root_checks, root_of};

use clr_base::{FaultKind, ImageFault, read_u16, read_u32};

/// `BSJB`.
const SIGNATURE: u32 = 0x424a_5342;

/// Where the stream headers begin, and how many there are.
#[derive(Clone, Copy)]
pub struct Root {
    pub headers_at: usize,
    pub stream_count: u16,
}

/// Reads the root. `BadRoot` at 0 where it has another signature or isn't inside.
#[tactic(auto, unfolding(crate::specs::Root::root_checks, crate::specs::Root::root_of, crate::specs::Root::version_len))]
pub fn read_root(meta: &[u8]) -> Result<Root, ImageFault>
    ensures exact { result ≡ outcome (root_checks meta.now) (root_of meta.now) }
    ensures inside { IfOk result (λ root. root.headers_at ≤ length meta.now) }
{
    let fault = ImageFault::new(FaultKind::BadRoot, 0);
    if meta.len() < 20 {
        return Err(fault);
    }
    let version_len = 4 * ((read_u32(meta, 12) as usize + 3) / 4);
    if meta.len() < 20 + version_len || read_u32(meta, 0) != SIGNATURE {
        return Err(fault);
    }
    Ok(Root {
        headers_at: 20 + version_len,
        stream_count: read_u16(meta, 18 + version_len),
    })
}
