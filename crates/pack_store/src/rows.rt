//! Where blobs stand in packs.
use blobref::Ref;

/// Where a blob stands: its ref, its pack, the place of its first byte there, and its length, both in bytes.
#[derive(Clone, Copy)]
pub struct Row {
    pub r: Ref,
    pub pack: u32,
    pub at: u64,
    pub size: u64,
}

/// The pack to which the next record may be added, and its length in bytes.
#[derive(Clone, Copy, Debug, PartialEq, Eq)]
pub struct Current {
    pub pack: u32,
    pub size: u64,
}
