//! Headers of pack records, and texts that are one step away from a header.
use crate::names::{ABC, OLDER_ABC, named};
use pack_format::{HeaderAt, read_header, write_header};

// Texts that begin with no header. The first one is empty.
const NO_HEADERS: &str = "
[sha224-23097d223405d8228642a477bda255b32aadbce4bda0b3f7e36c9da7 16777217]
[sha224-23097d223405d8228642a477bda255b32aadbce4bda0b3f7e36c9da7 18446744073709551619]
[sha224-23097d223405d8228642a477bda255b32aadbce4bda0b3f7e36c9da7 03]
[sha224-23097d223405d8228642a477bda255b32aadbce4bda0b3f7e36c9da7 ]
[sha224-23097d223405d8228642a477bda255b32aadbce4bda0b3f7e36c9da7 +3]
[sha224-23097d223405d8228642a477bda255b32aadbce4bda0b3f7e36c9da7  3]
[sha224-23097d223405d8228642a477bda255b32aadbce4bda0b3f7e36c9da7 3
(sha224-23097d223405d8228642a477bda255b32aadbce4bda0b3f7e36c9da7 3]
[SHA224-23097D223405D8228642A477BDA255B32AADBCE4BDA0B3F7E36C9DA7 3]
[sha224-23097D223405D8228642A477BDA255B32AADBCE4BDA0B3F7E36C9DA7 3]
[sha224-23097d223405d8228642a477bda255b32aadbce4bda0b3f7e36c9da 3]
[sha224-a9993e364706816aba3e25717850c26c9cd0d89d 3]
[sha1-23097d223405d8228642a477bda255b32aadbce4bda0b3f7e36c9da7 3]
[sha1-a9993e364706816aba3e25717850c26c9cd0d89 3]
[xxxxxxxxxxxxxxxxx-0 2]
[x-000000000000000000000000000000000000000000000000000000000000000000000000000000000000000000000000000000000000000000000000000000000 2]
[-0 2]
[x- 2]
[x-1 2]
[X-0 2]
[x-0 02]
[x-0 16777217]";

#[test]
fn headers_and_their_neighbours(rt: HostRuntime) {
    let (r, older) = (named(ABC), named(OLDER_ABC));
    for (text, header) in [
        (
            "[sha224-23097d223405d8228642a477bda255b32aadbce4bda0b3f7e36c9da7 3]",
            HeaderAt::Blob {
                r,
                size: 3,
                len: 67,
            },
        ),
        (
            "[sha224-23097d223405d8228642a477bda255b32aadbce4bda0b3f7e36c9da7 3]abc[x-0 2]",
            HeaderAt::Blob {
                r,
                size: 3,
                len: 67,
            },
        ),
        (
            "[sha224-23097d223405d8228642a477bda255b32aadbce4bda0b3f7e36c9da7 0]",
            HeaderAt::Blob {
                r,
                size: 0,
                len: 67,
            },
        ),
        (
            "[sha224-23097d223405d8228642a477bda255b32aadbce4bda0b3f7e36c9da7 16777216]",
            HeaderAt::Blob {
                r,
                size: 16_777_216,
                len: 74,
            },
        ),
        (
            "[sha1-a9993e364706816aba3e25717850c26c9cd0d89d 3]abc",
            HeaderAt::Blob {
                r: older,
                size: 3,
                len: 49,
            },
        ),
        (
            "[sha1-a9993e364706816aba3e25717850c26c9cd0d89d 16777216]",
            HeaderAt::Blob {
                r: older,
                size: 16_777_216,
                len: 56,
            },
        ),
        ("[x-0 2]zz", HeaderAt::Gone { size: 2, len: 7 }),
        (
            "[xxxxxxxxxxxxxxxx-00000000000000000000000000000000000000000000000000000000000000000000000000000000000000000000000000000000000000000000000000000000 16777216]",
            HeaderAt::Gone {
                size: 16_777_216,
                len: 156,
            },
        ),
    ] {
        assert!(rt; read_header(text.as_bytes()) == header, "{text}");
    }
    for text in NO_HEADERS.lines() {
        assert!(rt; read_header(text.as_bytes()) == HeaderAt::Missing, "{text}");
    }
    let written = write_header(&r, 16_777_216);
    let text = b"[sha224-23097d223405d8228642a477bda255b32aadbce4bda0b3f7e36c9da7 16777216]";
    assert_eq!(rt; written.as_slice(), text.as_slice());
    let written = write_header(&older, 3);
    let text = b"[sha1-a9993e364706816aba3e25717850c26c9cd0d89d 3]";
    assert_eq!(rt; written.as_slice(), text.as_slice());
}
