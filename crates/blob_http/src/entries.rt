//! What is told of each request that is answered.
use blobref::Ref;

/// How a request was answered.
#[derive(Clone, Copy)]
pub enum Outcome {
    /// As it is defined over the blobs that had arrived and those that were indexed, which may be a refusal.
    Defined,
    /// No memory was left.
    Memory,
    /// The disk failed.
    Disk,
    /// The store had no room: so many blobs it holds, and its last pack has this number.
    Full { blobs: u64, pack: u32 },
    /// The bytes of a blob had another ref than the wanted one.
    Damaged { want: Ref, is: Ref },
}

/// The entry of a request that was answered: over how many blobs and how many inserts, how many parts of an upload were
/// kept, and how it was answered. It takes 88 bytes.
#[derive(Clone, Copy)]
pub struct Answered {
    pub store_count: u64,
    pub index_count: u64,
    pub kept: u64,
    pub outcome: Outcome,
}
