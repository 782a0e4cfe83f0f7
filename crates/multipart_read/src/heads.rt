//! The head of a part.
ghost use Rattle.std.specs.Prelude.{◌≡◌, length, map, option_copied, All};
ghost use Rattle.httparse.specs.Spans.{header_bytes, IsHeaderWithin};
ghost use Rattle.multipart_read.specs.Heads.{part_name, IsSectionSeen};

use crate::parameters::{is_like, value_of};
use httparse::Status;
use httparse::spans::{HeaderSpan, parse_headers};

/// The name that the first `Content-Disposition` gives.
pub fn part_name<'a>(buf: &'a [u8], headers: &[HeaderSpan]) -> Option<&'a [u8]>
    requires { All (IsHeaderWithin (length buf.now)) headers.now }
    ensures { option_copied result ≡ part_name (map (header_bytes buf.now) headers.now) }
{
    'fields: for header in headers {
        if is_like(header.name.of(buf), b"content-disposition") {
            return value_of(b"form-data", b"name", header.value.of(buf));
        }
    }
    None
}

/// What header lines stand at the front of some bytes.
#[derive(Clone, Copy)]
pub enum Section {
    /// So many bytes of them, with so many fields, the empty line with them.
    Whole { len: usize, count: usize },
    /// More bytes may complete them.
    Open,
    /// No bytes that follow complete them with fields that there is room for.
    Hopeless,
}

/// The header lines at the front of the bytes.
pub fn section_in(front: &[u8], headers: &mut [HeaderSpan]) -> Section
    ensures { IsSectionSeen front.now (length headers.old) headers.new result }
{
    match parse_headers(front, headers) {
        Ok(Status::Complete((len, count))) => Section::Whole { len, count },
        Ok(Status::Partial) => Section::Open,
        Err(_) => Section::Hopeless,
    }
}
