//! What happens to a ring.
use blobref::{BlobList, ListOf, Octets, Ref};

/// Events in the order in which they happen.
pub type RingEventList = ListOf<RingEvent>;

/// What happens to the stores of a ring. A store is named by its place, counted from 0; an event that names a place
/// without a store changes nothing.
#[derive(Drop)]
pub enum RingEvent {
    /// A store is given a blob. It takes it where the ref is one of the blob's own, the blob has at most 16,777,216
    /// bytes, and the ref isn't there.
    Upload {
        store: u32,
        r: Ref,
        bytes: Octets,
    },
    /// The target takes the first so many blobs, in the order of refs, of those of the source that it lacks.
    Pull {
        source: u32,
        target: u32,
        count: u64,
    },
    /// A store stops and is opened again. It loses nothing, and may have these blobs too, each taken as an upload is.
    Stop {
        store: u32,
        also: BlobList,
    },
}
