//! Which permanodes hold which values of attributes.
ghost use Rattle.std.specs.Prelude.{◌≡◌, ◌≤◌, ◌+◌, ◌-◌, length, suc, nat_lt, Some, OnOk, OnErr, IfOk, refl};
ghost use Rattle.std.specs.Cmp.{eq_by_cmp_equiv, partial_equiv_from_equiv, partial_order_from_total};
ghost use Rattle.std.specs.FinMap as finite;
ghost use Rattle.std.specs.Ordering.{eq_by_cmp};
ghost use Rattle.index_rows.specs.Holders.{holder_cmp, holder_total, rows_holding, is_of, times_at, with_times};
ghost use Rattle.index_rows.specs.Holders.{AllCounted};

use blobref::{NoMemory, Ref, RefList, Text};
use edge_base::Steps;
use std::alloc::Global;
use std::cmp::Ordering;
use std::collections::BTreeMap;
use std::marker::Model;
use std::ops::Bound;
use std::sync::ledger::Ledger;

/// An attribute, a value of it, and a permanode that holds this value. A contract sees it as these three. Keys are
/// ordered by the attribute, then by the value, then by the permanode, the strings byte by byte.
#[derive(Drop)]
pub struct HolderKey {
    attr: Text,
    value: Text,
    permanode: Ref,
}

impl Model for HolderKey {
    ghost use Rattle.index_rows.specs.Holders.{HolderKey as Seen, holder_code};

    ghost Value = { Seen };

    ghost coded = { holder_code };

    ghost view = { λ k. (k.attr, k.value, k.permanode) };
}

impl HolderKey {
    /// The key with copies of the two strings. `NoMemory` comes only if no memory is left.
    pub fn copy(
        alloc: Global,
        attr: &str,
        value: &str,
        permanode: &Ref,
    ) -> Result<HolderKey, NoMemory>
        ensures { IfOk result (λ key. key ≡ (attr.now, value.now, permanode.now)) }
    {
        let attr = Text::copy(alloc, attr)?;
        let value = Text::copy(alloc, value)?;
        Ok(HolderKey {
            attr,
            value,
            permanode: *permanode,
        })
    }

    /// The attribute.
    pub fn attr(&self) -> &str
        ensures { result.now ≡ self.now.0 }
    {
        self.attr.as_str()
    }

    /// The value.
    pub fn value(&self) -> &str
        ensures { result.now ≡ self.now.1 }
    {
        self.value.as_str()
    }

    /// The permanode.
    pub fn permanode(&self) -> &Ref
        ensures { result.now ≡ self.now.2 }
    {
        &self.permanode
    }
}

impl PartialEq for HolderKey {
    ghost eq = { eq_by_cmp holder_cmp };

    ghost laws = { partial_equiv_from_equiv (eq_by_cmp_equiv holder_total) };

    fn eq(&self, other: &HolderKey) -> bool {
        self.cmp(other).is_eq()
    }
}

impl Eq for HolderKey {
    ghost laws = { eq_by_cmp_equiv holder_total };
}

impl PartialOrd for HolderKey {
    ghost partial_cmp = { λ x y. Some (holder_cmp x y) };

    ghost laws = { partial_order_from_total holder_total };

    fn partial_cmp(&self, other: &HolderKey) -> Option<Ordering> {
        Some(self.cmp(other))
    }
}

impl Ord for HolderKey {
    ghost cmp = { holder_cmp };

    ghost total = { holder_total };

    ghost matches_partial_cmp = { λ x y. refl };

    ghost matches_eq = { λ x y. refl };

    fn cmp(&self, other: &HolderKey) -> Ordering {
        self.attr
            .as_bytes()
            .cmp(other.attr.as_bytes())
            .then_with(|| self.value.as_bytes().cmp(other.value.as_bytes()))
            .then_with(|| self.permanode.cmp(&other.permanode))
    }
}

/// The permanodes that hold the values of attributes, and how many times each value is among those of its attribute. A
/// contract sees them as a map from keys to these numbers, none of which is 0. `steps` counts the look-ups, the steps
/// from one row to the next and the changes, each of which takes time in the logarithm of the number of rows.
#[derive(Drop)]
pub struct HolderRows {
    rows: BTreeMap<HolderKey, u32>,
}

impl Model for HolderRows {
    ghost use Rattle.std.specs.FinMap as finite;
    ghost use Rattle.std.specs.Coded.{coded_ℕ};
    ghost use Rattle.index_rows.specs.Holders.{holder_cmp, holder_code, AllCounted, AllOfRefs, Holders};

    ghost Value = { Holders };

    ghost coded = { finite.code holder_code coded_ℕ };

    ghost view = { λ a. finite.from_entries a.rows.entries };

    ghost invariant = { λ a. AllOfRefs (finite.from_entries a.rows.entries)
        × AllCounted (finite.from_entries a.rows.entries) };
}

impl HolderRows {
    /// No rows.
    pub fn empty(alloc: Global) -> HolderRows
        ensures { result ≡ finite.empty }
    {
        HolderRows {
            rows: BTreeMap::new(alloc),
        }
    }

    /// A law: no row has the number 0.
    pub fn are_counted(&self)
        ensures { AllCounted self.now }
    {
        let _len = self.rows.len();
    }

    /// Whether there is a row under the key.
    pub fn has<L: Ledger>(&self, key: &HolderKey, steps: &mut Steps<L>) -> bool
        ensures value { result ≡ finite.contains_key self.now key.now }
        ensures number { result ≡ nat_lt 0 (times_at self.now key.now) }
        ensures ticks { steps.new ≡ steps.old + 1 }
    {
        steps.tick();
        self.rows.contains_key(key)
    }

    /// Raises the number of a key by one; if it had no row, the number is 1. `NoMemory` comes if there is no memory, or
    /// if the number is 2^32 - 1 already. Nothing changes then, and the key is dropped.
    pub fn raise<L: Ledger>(&mut self, key: HolderKey, steps: &mut Steps<L>) -> Result<(), NoMemory>
        ensures ok { OnOk result (self.new ≡ with_times self.old key (suc (times_at self.old key))) }
        ensures err { OnErr result (self.new ≡ self.old) }
        ensures ticks { steps.new ≤ steps.old + 1 }
    {
        let more = one_more(self.times(&key))?;
        self.set(key, more, steps)
    }

    /// Lowers the number of a key by one. If the number was 1, its row is dropped; if it had none, nothing changes. If
    /// there is no memory, nothing changes, and the key is dropped.
    pub fn lower<L: Ledger>(&mut self, key: HolderKey, steps: &mut Steps<L>) -> Result<(), NoMemory>
        ensures ok { OnOk result (self.new ≡ with_times self.old key (times_at self.old key - 1)) }
        ensures err { OnErr result (self.new ≡ self.old) }
        ensures ticks { steps.new ≤ steps.old + 1 }
    {
        let less = self.times(&key).saturating_sub(1);
        self.set(key, less, steps)
    }

    /// Gives a key this number; 0 drops its row. If there is no memory, nothing changes, and the key is dropped.
    pub fn set<L: Ledger>(
        &mut self,
        key: HolderKey,
        times: u32,
        steps: &mut Steps<L>,
    ) -> Result<(), NoMemory>
        ensures ok { OnOk result (self.new ≡ with_times self.old key times) }
        ensures err { OnErr result (self.new ≡ self.old) }
        ensures ticks { steps.new ≡ steps.old + 1 }
    {
        if times == 0 {
            self.drop_row(&key, steps);
            return Ok(());
        }
        self.put(key, times, steps)
    }

    /// Drops the row of a key. If there is none, nothing changes.
    pub fn drop_row<L: Ledger>(&mut self, key: &HolderKey, steps: &mut Steps<L>)
        ensures value { self.new ≡ finite.remove self.old key.now }
        ensures ticks { steps.new ≡ steps.old + 1 }
    {
        steps.tick();
        self.rows.remove(key);
    }

    // The number of a key, or 0 if it has no row.
    fn times(&self, key: &HolderKey) -> u32
        ensures { result ≡ times_at self.now key.now }
    {
        self.rows.get(key).copied().unwrap_or(0)
    }

    // Puts the row of a key with a number that isn't 0. If there is no memory, nothing changes.
    fn put<L: Ledger>(
        &mut self,
        key: HolderKey,
        times: u32,
        steps: &mut Steps<L>,
    ) -> Result<(), NoMemory>
        requires { 1 ≤ times }
        ensures ok { OnOk result (self.new ≡ finite.insert self.old key times) }
        ensures err { OnErr result (self.new ≡ self.old) }
        ensures ticks { steps.new ≡ steps.old + 1 }
    {
        steps.tick();
        key.permanode().is_from_least();
        self.rows.insert(key, times)?;
        Ok(())
    }

    /// The permanodes that have this value of the attribute, ascending. It looks up the first one and takes a step for
    /// each. `NoMemory` comes only if no memory is left for copies of the two strings and for the list.
    pub fn all_of<L: Ledger>(
        &self,
        alloc: Global,
        attr: &str,
        value: &str,
        steps: &mut Steps<L>,
    ) -> Result<RefList, NoMemory>
        ensures all { IfOk result (λ refs. refs ≡ rows_holding self.now attr.now value.now) }
        ensures ticks { steps.new ≤ steps.old + 1 + length (rows_holding self.now attr.now value.now) }
    {
        let mut found = RefList::empty(alloc);
        let first = HolderKey::copy(alloc, attr, value, &Ref::least())?;
        steps.tick();
        for (key, _) in self.rows.range((Bound::Included(first), Bound::Unbounded)) {
            if !is_of(key, attr, value) {
                break;
            }
            steps.tick();
            found.push(*key.permanode())?;
        }
        Ok(found)
    }
}

fn is_of(key: &HolderKey, attr: &str, value: &str) -> bool
    ensures { result ≡ is_of attr.now value.now key.now }
{
    attr.as_bytes() == key.attr.as_bytes() && value.as_bytes() == key.value.as_bytes()
}

/// One more; `NoMemory` if 32 bits can't hold it.
pub fn one_more(times: u32) -> Result<u32, NoMemory>
    ensures { IfOk result (λ more. more ≡ suc times) }
{
    if times == u32::MAX {
        return Err(NoMemory);
    }
    Ok(times + 1)
}
