//! What a head says.

/// A place in the text of a head: from `start` up to `end`, counted from 0.
#[derive(Clone, Copy, PartialEq, Eq)]
pub struct Piece {
    pub start: usize,
    pub end: usize,
}

/// How long the body of a message is.
#[derive(Clone, Copy, PartialEq, Eq)]
pub enum Framing {
    /// There is none. A reply has always one.
    Empty,
    /// So many bytes.
    Length(u64),
    /// In chunks.
    Chunked,
    /// All that the source still has. The body of a request is never so.
    ToEnd,
}

/// The head of a request. It holds no texts, but their places; docs/http.md says what each is.
#[derive(Clone, Copy)]
pub struct Head {
    pub method: Piece,
    /// The target up to its first question mark, as it was sent.
    pub path: Piece,
    /// All that stands after it.
    pub query: Piece,
    /// The value of the first such header.
    pub content_type: Option<Piece>,
    pub framing: Framing,
    /// Whether the connection closes behind the reply.
    pub closes: bool,
}

/// The head of a reply.
#[derive(Clone, Copy, PartialEq, Eq)]
pub struct ReplyHead {
    pub status: u16,
    pub framing: Framing,
}

/// Why some lines are no head of a message.
#[derive(Clone, Copy, PartialEq, Eq)]
pub enum HeadFault {
    /// They aren't in the grammar.
    BadHead,
    /// Their headers don't say how long the body is.
    BadLength,
    /// There are too many headers.
    TooMany,
}
