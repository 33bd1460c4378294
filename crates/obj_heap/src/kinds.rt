//! What bytes are.

ghost use Rattle.std.specs.Prelude.{◌≡◌, ◌+◌, ◌*◌, ◌<◌, ◌≤◌, length, IsTrue};
ghost use Rattle.obj_heap.specs.Calls.{is_width};
ghost use Rattle.obj_heap.specs.Objects.{any_ref, kind_in};

use crate::address::PlaceKind;

/// Whether one of so many bytes, at most 8, is a reference's.
fn any_ref(refs: &[bool], offset: u32, width: u8) -> bool
    requires some { 0 < width }
    requires few { width ≤ 8 }
    requires inside { offset + width ≤ 8 * length refs.now }
    ensures { result ≡ any_ref refs.now offset width }
{
    let first = offset as usize;
    let last = first + (width as usize - 1);
    refs[first / 8] | refs[last / 8]
}

/// What so many bytes are, where `refs` says of each eight whether they are a reference's.
#[tactic(auto, unfolding(crate::specs::Objects::kind_in))]
pub(crate) fn kind_of(refs: &[bool], offset: u32, width: u8) -> PlaceKind
    requires width { IsTrue (is_width width) }
    requires inside { offset + width ≤ 8 * length refs.now }
    ensures { result ≡ kind_in refs.now offset width }
{
    if !any_ref(refs, offset, width) {
        PlaceKind::Numbers
    } else if width == 8 && offset % 8 == 0 {
        PlaceKind::Reference
    } else {
        PlaceKind::Mixed
    }
}
