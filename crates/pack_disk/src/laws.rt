//! What the definitions give. Each function has an empty body, and its contract is the law.
ghost use Rattle.pack_disk.specs.Model.{MeetsModel};

/// What a crash of a `MemDisk` may leave of a pack is what the disk model says (`docs/formats/packs.md`): it goes by
/// the last call that made or synced the pack, and by the bytes that were added since.
#[tactic(auto, using(crate::proofs::Models::meets_model))]
pub fn disk_model()
    ensures { MeetsModel }
{}
