//! Which values are there after some changes, and how many times.
ghost use Rattle.std.specs.Prelude.{◌≡◌, ◌+◌, ◌<◌, ◌^◌, OnOk};
ghost use Rattle.std.specs.FinMap as finite;
ghost use Rattle.schema_fact.specs.declared.changes.Act.TheVariants.{Set as sets, Add as adds, Del as removes};
ghost use Rattle.attr_fold.specs.Turns.{noted, times_by, times_there};

use crate::attribute_turns::AttributeTurns;
use crate::value_turns::ValueTurns;
use blobref::{NoMemory, Ref};
use index_rows::{HolderKey, one_more};
use schema_fact::{Act, ChangeView};
use std::alloc::Global;

// The turn at which each value was last given, or 0, with the number of times that it was there then, and the turn at
// which all values of an attribute were last removed. The turn after the change n is n + 1, so a value is there if its
// turn is greater than that of its attribute.
#[derive(Drop)]
pub(crate) struct Turns {
    pub(crate) given: ValueTurns,
    pub(crate) emptied: AttributeTurns,
}

impl Turns {
    pub(crate) fn empty(alloc: Global) -> Turns
        ensures given { result.given ≡ finite.empty }
        ensures emptied { result.emptied ≡ finite.empty }
    {
        Turns {
            given: ValueTurns::empty(alloc),
            emptied: AttributeTurns::empty(alloc),
        }
    }

    // Notes a change of p as the change n, which counts or doesn't.
    pub(crate) fn note(
        &mut self,
        alloc: Global,
        p: &Ref,
        change: ChangeView<'_>,
        counts: bool,
        n: usize,
    ) -> Result<(), NoMemory>
        requires { n + 1 < 2 ^ 64 }
        ensures { OnOk result
            (self.new ≡ noted self.old change.entry.act counts (change.entry.attr.now, change.entry.value.now, p.now) n) }
    {
        let key = HolderKey::copy(alloc, change.attr.as_str(), change.value.as_str(), p)?;
        match change.act {
            Act::Set => self.note_set(alloc, key, counts, n),
            Act::Add => self.note_add(key, counts, n),
            Act::Del => self.note_del(alloc, key, counts, n),
        }
    }

    fn note_set(
        &mut self,
        alloc: Global,
        key: HolderKey,
        counts: bool,
        n: usize,
    ) -> Result<(), NoMemory>
        requires { n + 1 < 2 ^ 64 }
        ensures { OnOk result (self.new ≡ noted self.old sets counts key n) }
    {
        if counts {
            self.emptied.put(alloc, key.attr(), n)?;
            self.given.put(key, n + 1, 1)
        } else {
            self.given.know(key)
        }
    }

    fn note_add(&mut self, key: HolderKey, counts: bool, n: usize) -> Result<(), NoMemory>
        requires { n + 1 < 2 ^ 64 }
        ensures { OnOk result (self.new ≡ noted self.old adds counts key n) }
    {
        if counts {
            let times = one_more(self.times(&key))?;
            self.given.put(key, n + 1, times)
        } else {
            self.given.know(key)
        }
    }

    fn note_del(
        &mut self,
        alloc: Global,
        key: HolderKey,
        counts: bool,
        n: usize,
    ) -> Result<(), NoMemory>
        ensures { OnOk result (self.new ≡ noted self.old removes counts key n) }
    {
        if !counts {
            return Ok(());
        }
        if key.value().is_empty() {
            self.emptied.put(alloc, key.attr(), n)
        } else {
            self.given.put(key, 0, 0)
        }
    }

    // How many times a value is there.
    fn times(&self, key: &HolderKey) -> u32
        ensures { result ≡ times_there self.now.given self.now.emptied key.now }
    {
        times_by(&self.emptied, key, self.given.at(key))
    }
}

// How many times a value with this turn and number is there.
pub(crate) fn times_by(emptied: &AttributeTurns, key: &HolderKey, turn: (usize, u32)) -> u32
    ensures { result ≡ times_by emptied.now key.now.0 turn }
{
    if emptied.turn(key.attr()) < turn.0 {
        turn.1
    } else {
        0
    }
}
