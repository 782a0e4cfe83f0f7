//! Whether some lines are the head of a reply.
ghost use Rattle.http_wire.specs.ReplyHeads.{IsParsedReply};
ghost use Rattle.std.specs.Prelude.{length};

use httparse::Status;
use httparse::spans::{HeaderSpan, ResponseSpans, parse_response};

/// What was found of a head.
#[derive(Clone, Copy)]
pub enum ParsedReply {
    /// A head, and where its parts lie.
    Head(ResponseSpans),
    /// A head of too many headers.
    TooMany,
    /// No head, or one of more headers than there is room for.
    BadHead,
}

/// Whether the lines are a head.
pub fn judge_reply(text: &[u8], headers: &mut [HeaderSpan]) -> ParsedReply
    ensures { IsParsedReply text.now (length headers.old) headers.new result }
{
    match parse_response(text, headers) {
        Ok(Status::Complete(spans)) => {
            if spans.len != text.len() {
                ParsedReply::BadHead
            } else if spans.headers > 64 {
                ParsedReply::TooMany
            } else {
                ParsedReply::Head(spans)
            }
        }
        _ => ParsedReply::BadHead,
    }
}
