//! The packs of an image, as they are gathered for a disk that begins with them.
ghost use Rattle.std.specs.Prelude.{◌≡◌, ◌==◌, ℕ, [], if◌then◌else◌, Some, OnOk};
ghost use Rattle.pack_disk.specs.PackState.{begun};
ghost use Rattle.pack_disk.specs.Past.{at_number};
ghost use Rattle.pack_disk.specs.Image.{Keeps};

use crate::pack::Pack;
use crate::remains::Remains;
use blobref::NoMemory;
use std::alloc::Global;
use std::collections::BTreeMap;

/// What is left of each pack, once to be told what was there at the start and once to go on with.
#[derive(Drop)]
pub struct Image {
    pub start: BTreeMap<u32, Remains>,
    pub held: BTreeMap<u32, Pack>,
}

impl Image {
    /// No pack.
    pub fn empty(alloc: Global) -> Image
        ensures start { result.start.entries ≡ [] }
        ensures held { result.held.entries ≡ [] }
    {
        Image {
            start: BTreeMap::new(alloc),
            held: BTreeMap::new(alloc),
        }
    }

    /// Keeps what a crash leaves of a pack, by a choice.
    pub fn keep(
        &mut self,
        alloc: Global,
        number: u32,
        pack: &Pack,
        choice: u64,
    ) -> Result<(), NoMemory>
        ensures { OnOk result (Keeps choice number pack.now self.old.start.entries self.new.start.entries
            self.old.held.entries self.new.held.entries) }
    {
        match pack.left(alloc, choice)? {
            Some(remains) => self.put(alloc, number, remains),
            None => Ok(()),
        }
    }

    // Puts a pack in place of the one with this number, if there is one.
    fn put(&mut self, alloc: Global, number: u32, remains: Remains) -> Result<(), NoMemory>
        ensures start { OnOk result ((n : ℕ) → at_number self.new.start.entries n
            ≡ if n == number then Some remains else at_number self.old.start.entries n) }
        ensures held { OnOk result ((n : ℕ) → at_number self.new.held.entries n ≡ if n == number then Some
            (begun remains) else at_number self.old.held.entries n) }
    {
        let pack = Pack::begin(alloc, &remains)?;
        self.start.insert(number, remains)?;
        self.held.insert(number, pack)?;
        Ok(())
    }
}
