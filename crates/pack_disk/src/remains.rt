//! What a crash left of a pack.
use blobref::Octets;

/// A pack as the disk that is opened after a crash begins with it (`docs/formats/packs.md`): the bytes at its last
/// sync, the bytes that stand behind them and may still be lost, and whether it was ever synced.
#[derive(Drop)]
pub struct Remains {
    pub synced: Octets,
    pub tail: Octets,
    pub named: bool,
}
