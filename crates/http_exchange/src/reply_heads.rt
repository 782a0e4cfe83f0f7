//! Writes the heads of replies.
ghost use Rattle.std.specs.Prelude.{◌≡◌, ◌++◌, IfOk, IsSome, OnOk, codes};
ghost use Rattle.std.specs.Fmt.{decimal};
ghost use Rattle.http.specs.StatusCode.{IsStatusCode, reason_phrase};
ghost use Rattle.http_exchange.specs.ReplyHeads.{reply_head_text, phrase_of, status_line, header_line, allow_line, close_line};

use blobref::{NoMemory, Octets};
use http::StatusCode;
use itoa::Buffer;
use std::alloc::Global;

// Room for most heads.
const USUAL_HEAD: usize = 160;

/// The head of a reply, up to its empty line: of this code, with the kind and the number of bytes of its body, the line
/// that the connection closes, and the methods that are allowed where that text isn't empty. The code is one that has a
/// phrase. It fails for want of memory alone.
#[tactic(auto, unfolding(crate::specs::ReplyHeads::reply_head_text))]
pub fn reply_head(
    alloc: Global,
    code: u16,
    kind: &str,
    len: u64,
    closes: bool,
    allow: &str,
) -> Result<Octets, NoMemory>
    requires code { IsStatusCode code }
    requires phrase { IsSome (reason_phrase code) }
    ensures { IfOk result (λ octets. octets ≡ reply_head_text code kind.now len closes allow.now) }
{
    let mut text = Vec::with_capacity(alloc, USUAL_HEAD)?;
    push_status(&mut text, code)?;
    push_header(&mut text, "Content-Type: ", kind)?;
    push_header(&mut text, "Content-Length: ", Buffer::new().format(len))?;
    push_allow(&mut text, allow)?;
    push_close(&mut text, closes)?;
    text.extend_from_slice(b"\r\n")?;
    Ok(Octets::from_vec(text))
}

fn push_status(text: &mut Vec<u8>, code: u16) -> Result<(), NoMemory>
    requires code { IsStatusCode code }
    requires phrase { IsSome (reason_phrase code) }
    ensures { OnOk result (text.new.items ≡ text.old.items ++ status_line code) }
{
    text.extend_from_slice(b"HTTP/1.1 ")?;
    text.extend_from_slice(Buffer::new().format(code).as_bytes())?;
    text.extend_from_slice(b" ")?;
    text.extend_from_slice(phrase(code).as_bytes())?;
    text.extend_from_slice(b"\r\n")?;
    Ok(())
}

fn phrase(code: u16) -> &'static str
    requires code { IsStatusCode code }
    requires phrase { IsSome (reason_phrase code) }
    ensures { result.now ≡ phrase_of code }
{
    let Ok(status) = StatusCode::from_u16(code) else {
        unreachable!()
    };
    match status.canonical_reason() {
        Some(phrase) => phrase,
        None => unreachable!(),
    }
}

fn push_header(text: &mut Vec<u8>, name: &str, value: &str) -> Result<(), NoMemory>
    ensures { OnOk result (text.new.items ≡ text.old.items ++ header_line name.now value.now) }
{
    text.extend_from_slice(name.as_bytes())?;
    text.extend_from_slice(value.as_bytes())?;
    text.extend_from_slice(b"\r\n")?;
    Ok(())
}

fn push_allow(text: &mut Vec<u8>, allow: &str) -> Result<(), NoMemory>
    ensures { OnOk result (text.new.items ≡ text.old.items ++ allow_line allow.now) }
{
    if allow.is_empty() {
        return Ok(());
    }
    push_header(text, "Allow: ", allow)
}

fn push_close(text: &mut Vec<u8>, closes: bool) -> Result<(), NoMemory>
    ensures { OnOk result (text.new.items ≡ text.old.items ++ close_line closes) }
{
    if !closes {
        return Ok(());
    }
    push_header(text, "Connection: ", "close")
}
