//! Tables under refs.
ghost use Rattle.std.specs.Prelude.{◌≡◌, option_copied, OnOk, OnErr};
ghost use Rattle.std.specs.FinMap as finite;

use blobref::{NoMemory, Ref};
use std::alloc::Global;
use std::collections::BTreeMap;
use std::marker::Model;

/// Values under refs. A contract sees it as the map. A look-up and a change cost the logarithm of the number of refs.
#[derive(Drop)]
pub struct RefMap<R> {
    rows: BTreeMap<Ref, R>,
}

impl<R> Model for RefMap<R> {
    ghost use Rattle.std.specs.FinMap as finite;
    ghost use Rattle.std.specs.Coded.{coded_ℕ, coded_list};
    ghost use Rattle.blobref.specs.Blobref.{ref_cmp};

    ghost Value = { finite.FinMap ref_cmp R };

    ghost coded = { finite.code (coded_list coded_ℕ) R.code };

    ghost view = { λ a. finite.from_entries a.rows.entries };
}

impl<R: Drop> RefMap<R> {
    /// A map without refs. It takes no memory before the first insert.
    pub(crate) fn empty(alloc: Global) -> RefMap<R>
        ensures { result ≡ finite.empty }
    {
        RefMap {
            rows: BTreeMap::new(alloc),
        }
    }

    /// The value of a ref; `None` exactly if there is none.
    pub(crate) fn get(&self, r: &Ref) -> Option<&R>
        ensures { option_copied result ≡ finite.get self.now r.now }
    {
        self.rows.get(r)
    }

    /// Puts a value under a ref, replacing the one there. If there is no memory, nothing changes.
    pub(crate) fn insert(&mut self, r: &Ref, row: R) -> Result<(), NoMemory>
        ensures ok { OnOk result (self.new ≡ finite.insert self.old r.now row) }
        ensures err { OnErr result (self.new ≡ self.old) }
    {
        self.rows.insert(*r, row)?;
        Ok(())
    }
}
