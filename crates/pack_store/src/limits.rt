//! How far a store may grow.

/// How many blobs a store may have, from how many bytes on no record is added to a pack, and the greatest number of a
/// pack, at most 99,999 (`docs/store.md`). `pack_bytes` is at most 9,223,372,036,854,775,808.
#[derive(Clone, Copy, Debug, PartialEq, Eq)]
pub struct Limits {
    pub blobs: u64,
    pub pack_bytes: u64,
    pub last_pack: u32,
}
