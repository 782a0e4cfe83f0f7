//! Rows under refs.
ghost use Rattle.std.specs.Prelude.{◌≡◌, ◌+◌, OnOk, OnErr, option_copied};
ghost use Rattle.std.specs.FinMap as finite;

use blobref::{NoMemory, Ref};
use edge_base::Steps;
use std::alloc::Global;
use std::collections::BTreeMap;
use std::marker::Model;
use std::sync::ledger::Ledger;

/// Rows under refs. A contract sees them as the map. `steps` counts the look-ups and the rows put, each of which takes
/// time in the logarithm of the number of rows.
#[derive(Drop)]
pub struct RefRows<R> {
    rows: BTreeMap<Ref, R>,
}

impl<R> Model for RefRows<R> {
    ghost use Rattle.std.specs.FinMap as finite;
    ghost use Rattle.std.specs.Coded.{coded_ℕ, coded_list};
    ghost use Rattle.blobref.specs.Blobref.{ref_cmp};

    ghost Value = { finite.FinMap ref_cmp R };

    ghost coded = { finite.code (coded_list coded_ℕ) R.code };

    ghost view = { λ a. finite.from_entries a.rows.entries };
}

impl<R: Drop> RefRows<R> {
    /// No rows.
    pub fn empty(alloc: Global) -> RefRows<R>
        ensures { result ≡ finite.empty }
    {
        RefRows {
            rows: BTreeMap::new(alloc),
        }
    }

    /// The row of a ref; `None` exactly if there is none.
    pub fn row<L: Ledger>(&self, r: &Ref, steps: &mut Steps<L>) -> Option<&R>
        ensures value { option_copied result ≡ finite.get self.now r.now }
        ensures ticks { steps.new ≡ steps.old + 1 }
    {
        steps.tick();
        self.rows.get(r)
    }

    /// Puts a row under a ref, replacing the one there. If there is no memory, nothing changes.
    pub fn put<L: Ledger>(&mut self, r: &Ref, row: R, steps: &mut Steps<L>) -> Result<(), NoMemory>
        ensures ok { OnOk result (self.new ≡ finite.insert self.old r.now row) }
        ensures err { OnErr result (self.new ≡ self.old) }
        ensures ticks { steps.new ≡ steps.old + 1 }
    {
        steps.tick();
        self.rows.insert(*r, row)?;
        Ok(())
    }
}
