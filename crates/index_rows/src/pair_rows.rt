//! Rows under pairs of refs.
ghost use Rattle.std.specs.Prelude.{◌≡◌, ◌<◌, ◌+◌, ◌^◌, ◌∷◌, [], true, Some, OnOk, OnErr, IfSome, IfNone, option_copied};
ghost use Rattle.std.specs.FinMap as finite;
ghost use Rattle.index_rows.specs.Pairs.{start_of, entries_above, entries_from, group_after, AllFromLeast, number};

use blobref::{NoMemory, Ref};
use edge_base::Steps;
use std::alloc::Global;
use std::collections::BTreeMap;
use std::marker::Model;
use std::ops::Bound;
use std::sync::ledger::Ledger;

/// Rows under pairs of refs. A contract sees them as the map. `steps` counts the look-ups, the steps from one row to
/// the next and the changes, each of which takes time in the logarithm of the number of rows.
#[derive(Drop)]
pub struct PairRows<R> {
    rows: BTreeMap<(Ref, Ref), R>,
}

impl<R> Model for PairRows<R> {
    ghost use Rattle.std.specs.FinMap as finite;
    ghost use Rattle.std.specs.Coded.{coded_ℕ, coded_list, coded×};
    ghost use Rattle.index_rows.specs.Pairs.{pair_cmp, AllFromLeast};

    ghost Value = { finite.FinMap pair_cmp R };

    ghost coded = { finite.code (coded× (coded_list coded_ℕ) (coded_list coded_ℕ)) R.code };

    ghost view = { λ a. finite.from_entries a.rows.entries };

    ghost invariant = { λ a. AllFromLeast (finite.from_entries {R = pair_cmp} a.rows.entries) };
}

impl<R: Copy> PairRows<R> {
    /// No rows.
    pub fn empty(alloc: Global) -> PairRows<R>
        ensures { result ≡ finite.empty }
    {
        PairRows {
            rows: BTreeMap::new(alloc),
        }
    }

    /// A law: the number of rows fits in 64 bits.
    pub fn is_countable(&self)
        ensures { number (λ e. true) (finite.entries self.now) < 2 ^ 64 }
    {
        let _len = self.rows.len();
    }

    /// The row of a pair; `None` exactly if there is none.
    pub fn row<L: Ledger>(&self, x: &Ref, d: &Ref, steps: &mut Steps<L>) -> Option<&R>
        ensures value { option_copied result ≡ finite.get self.now (x.now, d.now) }
        ensures ticks { steps.new ≡ steps.old + 1 }
    {
        steps.tick();
        self.rows.get(&(*x, *d))
    }

    /// Puts a row under a pair, replacing the one there. If there is no memory, nothing changes.
    pub fn put<L: Ledger>(
        &mut self,
        x: &Ref,
        d: &Ref,
        row: R,
        steps: &mut Steps<L>,
    ) -> Result<(), NoMemory>
        ensures ok { OnOk result (self.new ≡ finite.insert self.old (x.now, d.now) row) }
        ensures err { OnErr result (self.new ≡ self.old) }
        ensures ticks { steps.new ≡ steps.old + 1 }
    {
        steps.tick();
        d.is_from_least();
        self.rows.insert((*x, *d), row)?;
        Ok(())
    }

    /// Drops the row of a pair. If there is none, nothing changes.
    pub fn drop_row<L: Ledger>(&mut self, x: &Ref, d: &Ref, steps: &mut Steps<L>)
        ensures value { self.new ≡ finite.remove self.old (x.now, d.now) }
        ensures ticks { steps.new ≡ steps.old + 1 }
    {
        steps.tick();
        self.rows.remove(&(*x, *d));
    }

    /// The least second part greater than `after`, or of all if `after` is `None`, among the keys with this first
    /// part, with its row; `None` exactly if there is none. A whole group of k rows is walked in k + 1 steps.
    pub fn next_of<L: Ledger>(
        &self,
        x: &Ref,
        after: Option<&Ref>,
        steps: &mut Steps<L>,
    ) -> Option<(Ref, R)>
        ensures next { IfSome result (λ e.
            group_after self.now x.now (option_copied after.entry)
            ≡ ((x.now, e.0), e.1) ∷ group_after self.now x.now (Some e.0)) }
        ensures last { IfNone result (group_after self.now x.now (option_copied after.entry) ≡ []) }
        ensures ticks { steps.new ≡ steps.old + 1 }
    {
        match self.next_from(x, after, steps) {
            Some((key, row)) => if *x == key.0 {
                Some((key.1, row))
            } else {
                None
            },
            None => None,
        }
    }

    // The least key with this first part and a second part greater than `after`, or any; if there is none, the least
    // with a greater first part.
    fn next_from<L: Ledger>(
        &self,
        x: &Ref,
        after: Option<&Ref>,
        steps: &mut Steps<L>,
    ) -> Option<((Ref, Ref), R)>
        ensures next { IfSome result (λ e.
            entries_from self.now (start_of x.now (option_copied after.entry))
            ≡ (e.0, e.1) ∷ entries_above self.now e.0) }
        ensures last { IfNone result (entries_from self.now (start_of x.now (option_copied after.entry)) ≡ []) }
        ensures valid { AllFromLeast self.now }
        ensures ticks { steps.new ≡ steps.old + 1 }
    {
        steps.tick();
        match self
            .rows
            .range((start_of(x, after), Bound::Unbounded))
            .next()
        {
            Some((key, row)) => Some((*key, *row)),
            None => None,
        }
    }
}

// The bound at which a group begins, or continues after a second part.
fn start_of(x: &Ref, after: Option<&Ref>) -> Bound<(Ref, Ref)>
    ensures { result ≡ start_of x.now (option_copied after.entry) }
{
    match after {
        Some(d) => Bound::Excluded((*x, *d)),
        None => Bound::Included((*x, Ref::least())),
    }
}
