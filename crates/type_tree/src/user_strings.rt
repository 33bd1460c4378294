//! The texts of a file (ECMA-335 II.24.2.4).

ghost use Rattle.std.specs.Prelude.{◌≡◌, ◌+◌, ◌<◌, ◌^◌, IfSome};
ghost use Rattle.std.specs.Option.{option_copied};
ghost use Rattle.type_tree.specs.UserStrings as spec;

/// Where the content of a user string lies in its heap.
#[derive(Clone, Copy)]
pub struct Content {
    pub start: usize,
    pub len: usize,
}

/// Where the content at an index lies, as its length tells.
#[tactic(auto, unfolding(crate::specs::UserStrings::content_at))]
fn content_at(heap: &[u8], index: usize) -> Option<Content>
    requires { index < 2 ^ 32 }
    ensures exact { result ≡ spec.content_at heap.now index }
    ensures near { IfSome result (λ content. content.start + content.len < 2 ^ 34) }
{
    let rest = heap.len().saturating_sub(index);
    if rest == 0 {
        return None;
    }
    let first = heap[index];
    if first < 0x80 {
        Some(Content {
            start: index + 1,
            len: first as usize,
        })
    } else if first < 0xc0 {
        if rest < 2 {
            return None;
        }
        Some(Content {
            start: index + 2,
            len: 256 * (first - 0x80) as usize + heap[index + 1] as usize,
        })
    } else if first < 0xe0 {
        if rest < 4 {
            return None;
        }
        Some(Content {
            start: index + 4,
            len: 16_777_216 * (first - 0xc0) as usize
                + 65_536 * heap[index + 1] as usize
                + 256 * heap[index + 2] as usize
                + heap[index + 3] as usize,
        })
    } else {
        None
    }
}

/// The content at an index.
#[tactic(auto, unfolding(crate::specs::UserStrings::user_string))]
fn user_string(heap: &[u8], index: u32) -> Option<&[u8]>
    ensures { option_copied result ≡ spec.user_string heap.now index }
{
    if index == 0 {
        return Some(&[]);
    }
    let content = content_at(heap, index as usize)?;
    let end = content.start + content.len;
    if heap.len() < end {
        return None;
    }
    Some(&heap[content.start..end])
}

/// A content without its last byte.
fn text_of(content: &[u8]) -> Option<&[u8]>
    ensures { option_copied result ≡ spec.text_of content.now }
{
    if content.is_empty() {
        return Some(&[]);
    }
    if content.len() % 2 == 0 {
        return None;
    }
    Some(&content[..content.len() - 1])
}

/// The text at an index of a heap of user strings.
pub(crate) fn text_in(heap: &[u8], index: u32) -> Option<&[u8]>
    ensures { option_copied result ≡ spec.text_in heap.now index }
{
    text_of(user_string(heap, index)?)
}
