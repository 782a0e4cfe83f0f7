//! What packs hold, and what stands after any list of puts and stops.
ghost use Rattle.pack_store.specs.Content.{HoldsContent};
ghost use Rattle.pack_store.specs.Lives.{LivesKeep};

use pack_disk::Disk;

/// What every image of a disk holds, every image goes on holding after any list of runs and stops, and opening finds it
/// (`docs/store.md`). Each call of a store is such a run, and so is opening one.
pub fn lives_keep<D: Disk>()
    ensures { LivesKeep D.Disk }
{}

/// Packs hold a ref exactly where it has arrived in them, and exactly where their content has it (`docs/store.md`).
#[tactic(auto, using(crate::proofs::Standing::holds_content))]
pub fn holds_content()
    ensures { HoldsContent }
{}
