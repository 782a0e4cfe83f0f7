//! What the first head of a connection says of who sent it.
ghost use Rattle.std.specs.Prelude.{◌≡◌, length, map, All, IfSome};
ghost use Rattle.httparse.specs.Spans.{IsHeaderWithin, header_bytes};
ghost use Rattle.http_admission.specs.Admissions.{AdmissionSpec, RefusesNobody, admitted, is_kept_out};

use crate::browsers::{is_browsers, said_length};
use crate::foreign::is_foreign;
use httparse::Status;
use httparse::spans::{EMPTY_HEADER_SPAN, HeaderSpan, parse_request};

/// The most bytes in which the first head of a connection is looked for.
pub const MAX_HEAD: usize = 16_384;

/// Whom a server lets in.
#[derive(Clone, Copy, Debug, PartialEq, Eq)]
pub enum Door {
    /// Programs of this machine, and the server's own pages.
    Own,
    /// Anyone, whatever page a request comes from, and by whatever name.
    Anyone,
}

/// What becomes of a connection (`docs/server.md`, "Who gets in").
#[derive(Clone, Copy, Debug, PartialEq, Eq)]
pub enum Admission {
    /// Nothing of it is heard: a page of another origin sent it, or it is for another name than this machine's.
    Refused,
    /// So many bytes of it are heard, a browser's one request.
    First(u64),
    /// All of it is heard.
    Whole,
    /// All of it is heard, though it begins with no head, whatever follows.
    NoHead,
}

/// What becomes of a connection that begins with these bytes; None as long as bytes that follow decide. At a door for
/// anyone none is refused.
pub fn admission_of(door: Door, bytes: &[u8]) -> Option<Admission>
    ensures spec { AdmissionSpec door bytes.now result }
    ensures anyone { IfSome result (RefusesNobody door) }
{
    let mut headers = [EMPTY_HEADER_SPAN; 64];
    match parse_request(bytes, &mut headers) {
        Ok(Status::Complete(head)) => {
            Some(judged(door, bytes, head.len, &headers[..head.headers]))
        }
        Ok(Status::Partial) if bytes.len() < MAX_HEAD => None,
        _ => Some(Admission::NoHead),
    }
}

// What becomes of it by its head, which has so many bytes.
fn judged(door: Door, text: &[u8], len: usize, headers: &[HeaderSpan]) -> Admission
    requires { All (IsHeaderWithin (length text.now)) headers.now }
    ensures is { result ≡ admitted door (map (header_bytes text.now) headers.now) len }
    ensures anyone { RefusesNobody door result }
{
    if is_kept_out(door, text, headers) {
        return Admission::Refused;
    }
    if !is_browsers(text, headers) {
        return Admission::Whole;
    }
    Admission::First((len as u64).saturating_add(said_length(text, headers)))
}

fn is_kept_out(door: Door, text: &[u8], headers: &[HeaderSpan]) -> bool
    requires { All (IsHeaderWithin (length text.now)) headers.now }
    ensures { result ≡ is_kept_out door (map (header_bytes text.now) headers.now) }
{
    match door {
        Door::Own => is_foreign(text, headers),
        Door::Anyone => false,
    }
}
