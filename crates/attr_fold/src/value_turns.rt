//! Turns under attributes and values of a permanode.
ghost use Rattle.std.specs.Prelude.{◌≡◌, Some, None, OnOk, IfSome, IfNone};
ghost use Rattle.std.specs.FinMap as finite;
ghost use Rattle.index_rows.specs.Holders.{HolderKey as Seen};
ghost use Rattle.attr_fold.specs.Turns.{given_at, known};

use blobref::NoMemory;
use index_rows::HolderKey;
use std::alloc::Global;
use std::collections::BTreeMap;
use std::marker::Model;

// Turns under attributes and values of a permanode, each with the number of times that the value was there then. A
// contract sees them as the map.
#[derive(Drop)]
pub(crate) struct ValueTurns {
    turns: BTreeMap<HolderKey, (usize, u32)>,
}

impl Model for ValueTurns {
    ghost use Rattle.std.specs.FinMap as finite;
    ghost use Rattle.std.specs.Prelude.{ℕ};
    ghost use Rattle.std.specs.Coded.{coded_ℕ, coded×};
    ghost use Rattle.index_rows.specs.Holders.{holder_cmp, holder_code};

    ghost Value = { finite.FinMap holder_cmp (ℕ × ℕ) };

    ghost coded = { finite.code holder_code (coded× coded_ℕ coded_ℕ) };

    ghost view = { λ a. finite.from_entries a.turns.entries };
}

impl ValueTurns {
    pub(crate) fn empty(alloc: Global) -> ValueTurns
        ensures { result ≡ finite.empty }
    {
        ValueTurns {
            turns: BTreeMap::new(alloc),
        }
    }

    // The turn and the number of a key, both 0 if it has none.
    pub(crate) fn at(&self, key: &HolderKey) -> (usize, u32)
        ensures { result ≡ given_at self.now key.now }
    {
        self.turns.get(key).copied().unwrap_or((0, 0))
    }

    pub(crate) fn put(&mut self, key: HolderKey, turn: usize, times: u32) -> Result<(), NoMemory>
        ensures { OnOk result (self.new ≡ finite.insert self.old key (turn, times)) }
    {
        self.turns.insert(key, (turn, times))?;
        Ok(())
    }

    // Gives a key the turn 0 if it has none.
    pub(crate) fn know(&mut self, key: HolderKey) -> Result<(), NoMemory>
        ensures { OnOk result (self.new ≡ known self.old key) }
    {
        if self.has(&key) {
            return Ok(());
        }
        self.put(key, 0, 0)
    }

    fn has(&self, key: &HolderKey) -> bool
        ensures { result ≡ finite.contains_key self.now key.now }
    {
        self.turns.contains_key(key)
    }

    // Takes out the first key with its turn and its number, if there is one.
    pub(crate) fn pop_first(&mut self) -> Option<(HolderKey, (usize, u32))>
        ensures held { IfSome result (λ e. finite.get self.old e.0 ≡ Some e.1) }
        ensures taken { IfSome result (λ e. self.new ≡ finite.remove self.old e.0) }
        ensures none { IfNone result ((k : Seen) → finite.get self.old k ≡ None) }
    {
        self.turns.pop_first()
    }
}
