//! What was found of some refs while one answer is made.
ghost use Rattle.std.specs.Prelude.{◌≡◌, ℕ, Bool, true, List, OnOk};
ghost use Rattle.std.specs.BTreeSet.{contains};
ghost use Rattle.blobref.specs.Blobref.{ref_cmp};
ghost use Rattle.claim_model.specs.Facts.{Facts};
ghost use Rattle.claim_model.specs.Ready.{is_ready};
ghost use Rattle.claim_model.specs.Trees.{is_sound_tree};
ghost use Rattle.index_look.specs.Known.{HoldsOf, IsSo};

use blobref::{NoMemory, Ref};
use std::alloc::Global;
use std::collections::BTreeSet;

/// Which refs were found to be ready, and which to be sound trees, by an index that has no table of these at hand.
/// Whoever makes an answer has one, and hands it to each call: so nothing is looked through twice.
#[derive(Drop)]
pub struct Known {
    ready: BTreeSet<Ref>,
    sound: BTreeSet<Ref>,
}

impl Known {
    /// Nothing was found so far. It takes no memory before something is.
    pub fn nothing(alloc: Global) -> Known
        ensures { (facts : Facts) → IsSo facts result }
    {
        Known {
            ready: BTreeSet::new(alloc),
            sound: BTreeSet::new(alloc),
        }
    }

    /// Whether the ref was found to be ready.
    pub fn has_ready(&self, r: &Ref) -> bool
        ensures { result ≡ contains ref_cmp self.now.ready r.now }
    {
        self.ready.contains(r)
    }

    /// Whether the ref was found to be a sound tree.
    pub fn has_sound(&self, r: &Ref) -> bool
        ensures { result ≡ contains ref_cmp self.now.sound r.now }
    {
        self.sound.contains(r)
    }

    /// Keeps that the ref is ready. Where no memory is left, what was found before is still so.
    pub fn keep_ready(&mut self, r: &Ref) -> Result<(), NoMemory>
        ensures kept { OnOk result (contains ref_cmp self.new.ready r.now ≡ true) }
        ensures so { (facts : Facts) → IsSo facts self.old → is_ready facts r.now ≡ true → IsSo facts self.new }
    {
        keep(&mut self.ready, r)
    }

    /// Keeps that the ref is a sound tree. Where no memory is left, what was found before is still so.
    pub fn keep_sound(&mut self, r: &Ref) -> Result<(), NoMemory>
        ensures kept { OnOk result (contains ref_cmp self.new.sound r.now ≡ true) }
        ensures so { (facts : Facts) → IsSo facts self.old → is_sound_tree facts r.now ≡ true → IsSo facts self.new }
    {
        keep(&mut self.sound, r)
    }
}

fn keep(refs: &mut BTreeSet<Ref>, r: &Ref) -> Result<(), NoMemory>
    ensures kept { OnOk result (contains ref_cmp refs.new r.now ≡ true) }
    ensures holds { (test : List ℕ → Bool) → HoldsOf test refs.old → test r.now ≡ true → HoldsOf test refs.new }
{
    refs.insert(*r)?;
    Ok(())
}
