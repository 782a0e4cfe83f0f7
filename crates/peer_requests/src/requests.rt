//! Requests as they are written.
ghost use Rattle.std.specs.Prelude.{◌≡◌, ◌≤◌, ◌+◌, ◌++◌, length, codes, OnOk, Some, option_copied};
ghost use Rattle.peer_requests.specs.Requests.{after_words, list_request, fetch_request, part_front, part_end, upload_body, upload_head, upload_with, IsUpload};

use crate::boundaries::{boundary_of, free_number};
use blobref::{NoMemory, Ref, ShortText};
use itoa::Buffer;
use std::alloc::Global;

/// What ends a request without a body.
const REQUEST_END: &[u8] = b" HTTP/1.1\r\nHost: localhost\r\n\r\n";

/// The first lines of an upload.
const UPLOAD: &[u8] = b"POST /camli/upload HTTP/1.1\r\nHost: localhost\r\n";

/// What stands before its boundary.
const CONTENT_TYPE: &[u8] = b"Content-Type: multipart/form-data; boundary=";

/// Writes the request for a page of at most `limit` refs, of those that are greater than `after` or of all
/// (`docs/sync.md`). Nothing else stands in the buffer then; after want of memory anything does.
pub fn list_request(
    request: &mut Vec<u8>,
    after: Option<&Ref>,
    limit: usize,
) -> Result<(), NoMemory>
    ensures { OnOk result (request.new.items ≡ list_request (option_copied after.entry) limit) }
{
    request.clear();
    request.extend_from_slice(b"GET /camli/enumerate-blobs?")?;
    push_after(request, after)?;
    push_three(
        request,
        b"limit=",
        Buffer::new().format(limit).as_bytes(),
        REQUEST_END,
    )
}

fn push_after(request: &mut Vec<u8>, after: Option<&Ref>) -> Result<(), NoMemory>
    ensures { OnOk result (request.new.items ≡ request.old.items ++ after_words (option_copied after.entry)) }
{
    match after {
        Some(r) => push_three(request, b"after=", r.spell().as_slice(), b"&"),
        None => Ok(()),
    }
}

/// Writes the request for a blob (`docs/sync.md`). Nothing else stands in the buffer then; after want of memory
/// anything does.
pub fn fetch_request(request: &mut Vec<u8>, r: &Ref) -> Result<(), NoMemory>
    ensures { OnOk result (request.new.items ≡ fetch_request r.now) }
{
    request.clear();
    push_three(request, b"GET /camli/", r.spell().as_slice(), REQUEST_END)
}

/// Writes the request that uploads a blob of at most 16,777,216 bytes under a ref (`docs/sync.md`). Nothing else stands
/// in the buffer then; after want of memory anything does. It takes the time of two walks over the blob.
pub fn upload_request(
    alloc: Global,
    request: &mut Vec<u8>,
    r: &Ref,
    bytes: &[u8],
) -> Result<(), NoMemory>
    requires { length bytes.now ≤ 16777216 }
    ensures { OnOk result (IsUpload r.now bytes.now request.new.items) }
{
    let number = free_number(alloc, bytes)?;
    push_upload(request, boundary_of(number).as_slice(), r, bytes)?;
    Ok(())
}

// The request with this boundary.
fn push_upload(
    request: &mut Vec<u8>,
    boundary: &[u8],
    r: &Ref,
    bytes: &[u8],
) -> Result<(), NoMemory>
    requires boundary { length boundary.now ≡ 10 }
    requires few { length bytes.now ≤ 16777216 }
    ensures { OnOk result (request.new.items ≡ upload_with boundary.now r.now bytes.now) }
{
    let front = part_front(boundary, r);
    let end = part_end(boundary);
    let len = front.as_slice().len() + bytes.len() + end.as_slice().len();
    request.clear();
    push_head(request, boundary, len)?;
    push_three(request, front.as_slice(), bytes, end.as_slice())
}

fn push_head(request: &mut Vec<u8>, boundary: &[u8], len: usize) -> Result<(), NoMemory>
    ensures { OnOk result (request.new.items ≡ request.old.items ++ upload_head boundary.now len) }
{
    request.extend_from_slice(UPLOAD)?;
    push_three(request, CONTENT_TYPE, boundary, b"\r\nContent-Length: ")?;
    push_two(request, Buffer::new().format(len).as_bytes(), b"\r\n\r\n")?;
    Ok(())
}

// What stands before the bytes of the part.
fn part_front(boundary: &[u8], r: &Ref) -> ShortText<128>
    requires { length boundary.now ≡ 10 }
    ensures { result ≡ part_front boundary.now r.now }
{
    let name = r.spell();
    let mut front = ShortText::of(b"--");
    front.extend(boundary);
    front.extend(b"\r\nContent-Disposition: form-data; name=\"");
    front.extend(name.as_slice());
    front.extend(b"\"\r\n\r\n");
    front
}

// And behind them.
fn part_end(boundary: &[u8]) -> ShortText<16>
    requires { length boundary.now ≡ 10 }
    ensures { result ≡ part_end boundary.now }
{
    let mut end = ShortText::of(b"\r\n--");
    end.extend(boundary);
    end.extend(b"--");
    end
}

// Two texts behind what stands there.
fn push_two(text: &mut Vec<u8>, first: &[u8], second: &[u8]) -> Result<(), NoMemory>
    ensures { OnOk result (text.new.items ≡ text.old.items ++ (first.now ++ second.now)) }
{
    text.extend_from_slice(first)?;
    text.extend_from_slice(second)?;
    Ok(())
}

// Three texts behind what stands there.
fn push_three(text: &mut Vec<u8>, first: &[u8], second: &[u8], third: &[u8]) -> Result<(), NoMemory>
    ensures { OnOk result (text.new.items ≡ text.old.items ++ (first.now ++ (second.now ++ third.now))) }
{
    text.extend_from_slice(first)?;
    text.extend_from_slice(second)?;
    text.extend_from_slice(third)?;
    Ok(())
}
