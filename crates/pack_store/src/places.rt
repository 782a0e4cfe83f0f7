//! The number of each ref's arrival.
ghost use Rattle.std.specs.Prelude.{◌≡◌, OnOk, OnErr};
ghost use Rattle.std.specs.FinMap as finite;

use blobref::{NoMemory, Ref};
use std::alloc::Global;
use std::collections::BTreeMap;
use std::marker::Model;

// Numbers under refs. A contract sees it as the map.
#[derive(Drop)]
pub(crate) struct Places {
    pub(crate) numbers: BTreeMap<Ref, u64>,
}

impl Model for Places {
    ghost use Rattle.std.specs.Prelude.{ℕ};
    ghost use Rattle.std.specs.FinMap as finite;
    ghost use Rattle.std.specs.Coded.{coded_ℕ, coded_list};
    ghost use Rattle.blobref.specs.Blobref.{ref_cmp};

    ghost Value = { finite.FinMap ref_cmp ℕ };

    ghost coded = { finite.code (coded_list coded_ℕ) coded_ℕ };

    ghost view = { λ p. finite.from_entries p.numbers.entries };
}

impl Places {
    // No numbers.
    pub(crate) fn empty(alloc: Global) -> Places
        ensures { result ≡ finite.empty }
    {
        Places {
            numbers: BTreeMap::new(alloc),
        }
    }

    // The number of a ref.
    pub(crate) fn number(&self, r: &Ref) -> Option<u64>
        ensures { result ≡ finite.get self.now r.now }
    {
        self.numbers.get(r).copied()
    }

    // Puts a number under a ref. Where there is no memory nothing changes.
    pub(crate) fn insert(&mut self, r: &Ref, number: u64) -> Result<(), NoMemory>
        ensures ok { OnOk result (self.new ≡ finite.insert self.old r.now number) }
        ensures err { OnErr result (self.new ≡ self.old) }
    {
        self.numbers.insert(*r, number)?;
        Ok(())
    }

    // Takes a ref's number away.
    pub(crate) fn remove(&mut self, r: &Ref)
        ensures { self.new ≡ finite.remove self.old r.now }
    {
        self.numbers.remove(r);
    }
}
