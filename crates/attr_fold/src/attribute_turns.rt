//! Turns under attributes.
ghost use Rattle.std.specs.Prelude.{◌≡◌, OnOk};
ghost use Rattle.std.specs.FinMap as finite;
ghost use Rattle.attr_fold.specs.Turns.{turn_at};

use blobref::NoMemory;
use std::alloc::Global;
use std::collections::BTreeMap;
use std::marker::Model;

// Turns under attributes. A contract sees them as the map.
#[derive(Drop)]
pub(crate) struct AttributeTurns {
    turns: BTreeMap<String, usize>,
}

impl Model for AttributeTurns {
    ghost use Rattle.std.specs.FinMap as finite;
    ghost use Rattle.std.specs.Coded.{coded_ℕ, coded_list};
    ghost use Rattle.attr_fold.specs.AttributeTurns.{AttributeTurns as Seen, seen};

    ghost Value = { Seen };

    ghost coded = { finite.code (coded_list coded_ℕ) coded_ℕ };

    ghost view = { λ a. seen a.turns.entries };
}

impl AttributeTurns {
    pub(crate) fn empty(alloc: Global) -> AttributeTurns
        ensures { result ≡ finite.empty }
    {
        AttributeTurns {
            turns: BTreeMap::new(alloc),
        }
    }

    // The turn of an attribute; 0 if it has none.
    pub(crate) fn turn(&self, attr: &str) -> usize
        ensures { result ≡ turn_at self.now attr.now }
    {
        self.turns.get(attr).copied().unwrap_or(0)
    }

    pub(crate) fn put(&mut self, alloc: Global, attr: &str, turn: usize) -> Result<(), NoMemory>
        ensures { OnOk result (self.new ≡ finite.insert self.old attr.now turn) }
    {
        let key = String::from_str(alloc, attr)?;
        self.turns.insert(key, turn)?;
        Ok(())
    }
}
