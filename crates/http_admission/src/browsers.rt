//! Heads that only browsers send, and the length that they give of their bodies.
ghost use Rattle.std.specs.Prelude.{◌≡◌, length, map, All, codes};
ghost use Rattle.std.specs.List.{list_any};
ghost use Rattle.httparse.specs.Spans.{IsHeaderWithin, header_bytes};
ghost use Rattle.http_admission.specs.Admissions.{is_browsers, says_browser, said_length, number_in, same_text};

use crate::texts::{begins, same_text};
use httparse::spans::HeaderSpan;

/// Whether some header is of the kind that only browsers send.
pub(crate) fn is_browsers(text: &[u8], headers: &[HeaderSpan]) -> bool
    requires { All (IsHeaderWithin (length text.now)) headers.now }
    ensures { result ≡ is_browsers (map (header_bytes text.now) headers.now) }
{
    let mut is = false;
    for header in headers {
        is |= says_browser(text, *header);
    }
    is
}

fn says_browser(text: &[u8], header: HeaderSpan) -> bool
    requires { IsHeaderWithin (length text.now) header }
    ensures { result ≡ says_browser (header_bytes text.now header) }
{
    let name = header.name.of(text);
    same_text(name, b"sec-fetch-site")
        || (same_text(name, b"origin")
            || (same_text(name, b"referer")
                || (same_text(name, b"user-agent") && begins(header.value.of(text), b"mozilla/"))))
}

/// The number of the first Content-Length, or 0.
pub(crate) fn said_length(text: &[u8], headers: &[HeaderSpan]) -> u64
    requires { All (IsHeaderWithin (length text.now)) headers.now }
    ensures { result ≡ said_length (map (header_bytes text.now) headers.now) }
{
    for header in headers {
        if is_length(text, *header) {
            return number_in(header.value.of(text));
        }
    }
    0
}

fn is_length(text: &[u8], header: HeaderSpan) -> bool
    requires { IsHeaderWithin (length text.now) header }
    ensures { result ≡ same_text (header_bytes text.now header).0 (codes "content-length") }
{
    same_text(header.name.of(text), b"content-length")
}

// The number that 1 to 19 digits are, or 0.
fn number_in(text: &[u8]) -> u64
    ensures { result ≡ number_in text.now }
{
    if text.is_empty() || text.len() > 19 {
        return 0;
    }
    let mut n: u64 = 0;
    for digit in text {
        if !digit.is_ascii_digit() {
            return 0;
        }
        n = n * 10 + u64::from(*digit - 48);
    }
    n
}
