//! What happens to a core, and what it replies.
use blobref::{BlobList, ListOf, Octets, Ref};
use edge_base::{Inserted, Put};
use search_query::Query;

/// Events in the order in which they happen.
pub type EventList = ListOf<Event>;

/// What was replied to events, in their order.
pub type ReplyList = ListOf<Reply>;

/// What a session asks of a core, or what happens to it (`docs/core.md`). A number is the place of a blob among those
/// that arrived, counted from 0.
#[derive(Drop)]
pub enum Event {
    /// A blob is put under the ref that is said.
    Put {
        session: u32,
        said: Ref,
        bytes: Octets,
    },
    /// A call on the store failed, or found no room, or damage.
    Fault {
        session: u32,
    },
    /// A number below `known` is asked for, to insert it.
    Take {
        session: u32,
        known: u64,
    },
    /// The fact of a number's blob is inserted into the index.
    Insert {
        session: u32,
        number: u64,
    },
    /// A number that was taken is given back.
    Return {
        session: u32,
        number: u64,
    },
    /// Each number below `below`, and each that the session has seen arrive, is inserted.
    Settle {
        session: u32,
        below: u64,
    },
    /// A query is asked.
    Search {
        session: u32,
        q: Query,
    },
    /// Blobs are put, in order.
    Sync {
        session: u32,
        blobs: BlobList,
    },
    /// All ends, and begins anew with these blobs. Nobody has seen anything then.
    Stop {
        kept: BlobList,
    },
}

/// What a core replies to an event (`docs/core.md`).
#[derive(Drop)]
pub enum Reply {
    /// There is nothing to say.
    Nothing,
    /// The blob stands in the store.
    Kept(Put),
    /// The blob has more bytes than a blob may have. Nothing was done.
    TooBig { size: u64 },
    /// The blob isn't under a ref of its bytes: `is` is that one, under the digest that `said` names. Nothing was done.
    BadDigest { said: Ref, is: Ref },
    /// The number was taken.
    Taken { number: u64 },
    /// The number stands in the index.
    Indexed(Inserted),
    /// The bytes of the answer to a query.
    Answer(Octets),
}
