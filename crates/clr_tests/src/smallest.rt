//! The smallest image, byte for byte, as docs/FILES.md has it.
use std::alloc::{AllocError, Global};

/// Bytes at a place.
#[derive(Clone, Copy)]
struct Known<'a> {
    at: usize,
    bytes: &'a [u8],
}

/// What it holds where it isn't 0.
const SMALLEST: [Known<'static>; 22] = [
    Known {
        at: 0x000,
        bytes: b"MZ",
    },
    Known {
        at: 0x03c,
        bytes: b"\x40",
    },
    Known {
        at: 0x040,
        bytes: b"PE\0\0\x4c\x01\x01",
    },
    Known {
        at: 0x054,
        bytes: b"\xe0\0\x02\x21\x0b\x01",
    },
    Known {
        at: 0x079,
        bytes: b"\x20\0\0\0\x02",
    },
    Known {
        at: 0x0b4,
        bytes: b"\x10",
    },
    Known {
        at: 0x129,
        bytes: b"\x20\0\0\x48",
    },
    Known {
        at: 0x138,
        bytes: b".text\0\0\0\x14\x01\0\0\0\x20\0\0\x14\x01\0\0\0\x02",
    },
    Known {
        at: 0x200,
        bytes: b"\x48\0\0\0\x02\0\x05\0\x48\x20\0\0\xcc\0\0\0\x01",
    },
    Known {
        at: 0x248,
        bytes: b"BSJB\x01\0\x01\0\0\0\0\0\x0c\0\0\0v4.0.30319",
    },
    Known {
        at: 0x266,
        bytes: b"\x05",
    },
    Known {
        at: 0x268,
        bytes: b"\x6c\0\0\0\x38\0\0\0#~",
    },
    Known {
        at: 0x274,
        bytes: b"\xa4\0\0\0\x10\0\0\0#Strings",
    },
    Known {
        at: 0x288,
        bytes: b"\xb4\0\0\0\x04\0\0\0#US",
    },
    Known {
        at: 0x294,
        bytes: b"\xb8\0\0\0\x10\0\0\0#GUID",
    },
    Known {
        at: 0x2a4,
        bytes: b"\xc8\0\0\0\x04\0\0\0#Blob",
    },
    Known {
        at: 0x2b8,
        bytes: b"\x02\0\0\x01\x05",
    },
    Known {
        at: 0x2cc,
        bytes: b"\x01\0\0\0\x01",
    },
    Known {
        at: 0x2d6,
        bytes: b"\x01\0\x01",
    },
    Known {
        at: 0x2e2,
        bytes: b"\x07",
    },
    Known {
        at: 0x2e8,
        bytes: b"\x01\0\x01",
    },
    Known {
        at: 0x2ed,
        bytes: b"m.dll\0<Module>",
    },
];

/// Its bytes.
pub fn smallest_image(alloc: Global) -> Result<Vec<u8>, AllocError> {
    let mut image = vec![in alloc; 0; 788]?;
    for part in &SMALLEST {
        for (k, byte) in part.bytes.iter().enumerate() {
            if let Some(place) = image.get_mut(part.at.saturating_add(k)) {
                *place = *byte;
            }
        }
    }
    Ok(image)
}
