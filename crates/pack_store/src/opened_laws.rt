//! What a store that was opened makes of its packs.
ghost use Rattle.pack_store.specs.PutsLast.{PutsLast};

use pack_disk::Disk;

/// A blob that is put into a store that was opened becomes the last arrival of its packs, and the store goes on
/// behind it: see `docs/store.md`.
pub fn puts_last<D: Disk>()
    ensures { PutsLast D.Disk }
{}
