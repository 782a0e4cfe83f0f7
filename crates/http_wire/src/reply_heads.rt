//! What the text of a reply's head says.
ghost use Rattle.std.specs.Prelude.{◌≡◌, ◌≤◌, ℕ, [], List, length, map};
ghost use Rattle.httparse.specs.Grammar.{ResponseHead, ReadsResponse};
ghost use Rattle.httparse.specs.Spans.{IsResponseAt, IsResponseWithin};
ghost use Rattle.http_wire.specs.ReplyHeads.{ReplySpec, reply_framing};

use crate::head::{Framing, HeadFault, ReplyHead};
use crate::heads::framing_at;
use crate::reply_judging::{ParsedReply, judge_reply};
use httparse::spans::{HeaderSpan, ResponseSpans};

/// Reads the head of a reply that the lines are.
pub fn read_reply(text: &[u8], headers: &mut [HeaderSpan]) -> Result<ReplyHead, HeadFault>
    requires { length headers.old ≡ 5462 }
    ensures { ReplySpec text.now result }
{
    match judge_reply(text, headers) {
        ParsedReply::Head(spans) => reply_at(text, headers, spans),
        ParsedReply::TooMany => Err(HeadFault::TooMany),
        ParsedReply::BadHead => Err(HeadFault::BadHead),
    }
}

// The head whose parts lie there.
fn reply_at(
    text: &[u8],
    headers: &[HeaderSpan],
    spans: ResponseSpans,
) -> Result<ReplyHead, HeadFault>
    requires { IsResponseWithin text.now headers.now spans }
    ensures { (h : ResponseHead) → ReadsResponse text.now h [] → length h.fields ≤ 64
        → IsResponseAt text.now headers.now spans h → ReplySpec text.now result }
{
    let used = &headers[..spans.headers];
    let Some(framing) = framing_at(text, used) else {
        return Err(HeadFault::BadLength);
    };
    Ok(ReplyHead {
        status: spans.code,
        framing: reply_framing(framing),
    })
}

// Where no header says how long the body is, it goes to the end.
fn reply_framing(framing: Framing) -> Framing
    ensures { result ≡ reply_framing framing }
{
    match framing {
        Framing::Empty => Framing::ToEnd,
        Framing::Length(_) | Framing::Chunked | Framing::ToEnd => framing,
    }
}
