//! How a connection ends.
ghost use Rattle.std.specs.Prelude.{◌≡◌};
ghost use Rattle.http_exchange.specs.Asked.{head_says};

use answer_text::Refusal;
use http_wire::WireEnd;

/// Why no further request of a connection is served.
#[derive(Clone, Copy)]
pub enum Ended {
    /// The source ended between requests, or a reply was written behind which the connection closes.
    Closed,
    /// The source ended inside a request. So many bytes stand before it.
    Cut { at: u64 },
    /// A read failed.
    ReadFault,
    /// A write failed.
    WriteFault,
    /// There was no memory for the connection's buffers, or the log had no room for a further entry.
    NoMemory,
}

/// What is refused where no head is read, or how the connection ends.
pub fn head_says(end: WireEnd) -> Result<Refusal, Ended>
    ensures { result ≡ head_says end }
{
    match end {
        WireEnd::Closed => Err(Ended::Closed),
        WireEnd::Cut { at } => Err(Ended::Cut { at }),
        WireEnd::BadHead { .. } => Ok(Refusal::BadHead),
        WireEnd::BadLength { .. } => Ok(Refusal::BadLength),
        WireEnd::TooLong { limit } => Ok(Refusal::TooLong { limit }),
        WireEnd::ReadFault => Err(Ended::ReadFault),
    }
}
