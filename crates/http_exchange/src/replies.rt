//! The texts of replies.
ghost use Rattle.std.specs.Prelude.{◌≡◌, ◌++◌, [], IsSome, IfOk, IfSome, OnOk};
ghost use Rattle.http.specs.StatusCode.{IsStatusCode, reason_phrase};
ghost use Rattle.edge_base.specs.Edge.{SinkTook, SinkTookFront, HasCause};
ghost use Rattle.http_exchange.specs.Replies.{kind_text, reply_text, refused_reply, memory_reply};
ghost use Rattle.http_exchange.specs.Written.{reply_bytes};

use crate::reply_heads::reply_head;
use answer_text::{Refusal, refusal_text};
use blobref::{NoMemory, Octets};
use edge_base::{Failed, Sink, write_all};
use std::alloc::Global;

/// What the body of a reply is.
#[derive(Clone, Copy, PartialEq, Eq)]
pub enum Kind {
    Json,
    Bytes,
}

impl Kind {
    fn text(self) -> &'static str
        ensures { result.now ≡ kind_text self }
    {
        match self {
            Kind::Json => "application/json",
            Kind::Bytes => "application/octet-stream",
        }
    }
}

/// A reply: its head, up to the empty line, and its body.
#[derive(Drop)]
pub struct Reply {
    pub head: Octets,
    pub body: Octets,
}

/// The reply with this body. The code is one that has a phrase, and `allow` has the methods to tell, where there are
/// some. It fails for want of memory alone.
pub fn make_reply(
    alloc: Global,
    code: u16,
    kind: Kind,
    closes: bool,
    allow: &str,
    body: Octets,
) -> Result<Reply, NoMemory>
    requires code { IsStatusCode code }
    requires phrase { IsSome (reason_phrase code) }
    ensures { IfOk result (λ reply. reply_bytes reply ≡ reply_text code kind closes allow.now body) }
{
    let len = body.as_slice().len() as u64;
    let head = reply_head(alloc, code, kind.text(), len, closes, allow)?;
    Ok(Reply { head, body })
}

/// The reply to what is refused. It fails for want of memory alone.
pub fn make_refusal(
    alloc: Global,
    closes: bool,
    allow: &str,
    refusal: &Refusal,
) -> Result<Reply, NoMemory>
    ensures { IfOk result (λ reply. reply_bytes reply ≡ refused_reply closes allow.now refusal.now) }
{
    let body = refusal_text(alloc, refusal)?;
    make_reply(alloc, refusal.code(), Kind::Json, closes, allow, body)
}

// The reply where no memory is left, which takes none.
fn memory_reply() -> &'static [u8]
    ensures { result.now ≡ memory_reply }
{
    b"HTTP/1.1 503 Service Unavailable\r\nContent-Type: application/json\r\nContent-Length: 18\r\nConnection: close\r\n\r\n{\"error\":\"memory\"}"
}

// At most so many bytes of a body are copied behind their head, so that the reply is written by one call of the system.
const MAX_COPIED: usize = 16_384;

/// Writes the reply, a short one by one call of the sink. For want of memory a short one may take two.
pub fn write_reply<K: Sink>(alloc: Global, sink: &mut K, reply: &Reply) -> Result<(), Failed>
    ensures whole { OnOk result (SinkTook (K.written sink.old) (K.written sink.new) (reply_bytes reply.now)) }
    ensures front { SinkTookFront (K.written sink.old) (K.written sink.new) (reply_bytes reply.now) }
    ensures cause { HasCause (K.faults sink.old) (K.faults sink.new) result }
{
    write_parts(alloc, sink, reply.head.as_slice(), reply.body.as_slice())
}

/// Writes the reply where no memory is left, which takes none. Behind it the connection closes.
pub fn write_memory_reply<K: Sink>(sink: &mut K) -> Result<(), Failed>
    ensures whole { OnOk result (SinkTook (K.written sink.old) (K.written sink.new) memory_reply) }
    ensures front { SinkTookFront (K.written sink.old) (K.written sink.new) memory_reply }
    ensures cause { HasCause (K.faults sink.old) (K.faults sink.new) result }
{
    write_all(sink, memory_reply())
}

fn write_parts<K: Sink>(alloc: Global, sink: &mut K, head: &[u8], body: &[u8]) -> Result<(), Failed>
    ensures whole { OnOk result (SinkTook (K.written sink.old) (K.written sink.new) (head.now ++ body.now)) }
    ensures front { SinkTookFront (K.written sink.old) (K.written sink.new) (head.now ++ body.now) }
    ensures cause { HasCause (K.faults sink.old) (K.faults sink.new) result }
{
    match joined(alloc, head, body) {
        Some(text) => write_all(sink, text.as_slice()),
        None => write_both(sink, head, body),
    }
}

// The head and a short body as one text, where there is memory for it.
fn joined(alloc: Global, head: &[u8], body: &[u8]) -> Option<Octets>
    ensures { IfSome result (λ text. text ≡ head.now ++ body.now) }
{
    if body.len() > MAX_COPIED {
        return None;
    }
    let mut text = Vec::from_slice(alloc, head).ok()?;
    text.extend_from_slice(body).ok()?;
    Some(Octets::from_vec(text))
}

fn write_both<K: Sink>(sink: &mut K, head: &[u8], body: &[u8]) -> Result<(), Failed>
    ensures whole { OnOk result (SinkTook (K.written sink.old) (K.written sink.new) (head.now ++ body.now)) }
    ensures front { SinkTookFront (K.written sink.old) (K.written sink.new) (head.now ++ body.now) }
    ensures cause { HasCause (K.faults sink.old) (K.faults sink.new) result }
{
    write_all(sink, head)?;
    write_all(sink, body)
}
