//! An index that keeps only its facts.
ghost use Rattle.std.specs.Prelude.{◌≡◌, IfOk, option_copied};
ghost use Rattle.std.specs.FinMap as finite;
ghost use Rattle.claim_model.specs.Facts.{AreDistinct, AreValid};
ghost use Rattle.index_rows.specs.Stored.{start_after};

use blobref::{ListOf, NoMemory, Ref, RefList, TextList};
use claim_verify::Verifier;
use edge_base::Steps;
use index_look::{FactTable, Known, Look};
use schema_date::{Date, When};
use schema_fact::Fact;
use std::alloc::Global;
use std::collections::BTreeMap;
use std::marker::Model;
use std::ops::Bound;
use std::sync::ledger::Ledger;

/// Refs with facts, in any order.
pub type FactList = ListOf<(Ref, Fact)>;

/// An index that keeps its facts in the order of their refs, and nothing else: each answer is that of `plain_answers`,
/// at its cost, with the index itself as the table. A contract sees the map of the facts, and the keys.
#[derive(Drop)]
pub struct PlainIndex<V: Verifier> {
    alloc: Global,
    facts: BTreeMap<Ref, Fact>,
    keys: V,
}

impl<V: Verifier> Model for PlainIndex<V> {
    ghost use Rattle.std.specs.FinMap as finite;
    ghost use Rattle.std.specs.Coded.{coded_ℕ, coded_list, coded×};
    ghost use Rattle.schema_fact.specs.contracts.kinds.Fact as fact;
    ghost use Rattle.claim_model.specs.Facts.{Facts};
    ghost use Rattle.index_rows.specs.Stored.{AreAllValid};

    ghost Value = { Facts × V };

    ghost coded = { coded× (finite.code (coded_list coded_ℕ) fact.the_row.coded) V.code };

    ghost view = { λ a. (finite.from_entries a.facts.entries, a.keys) };

    ghost invariant = { λ a. AreAllValid (finite.from_entries a.facts.entries) };
}

impl<V: Verifier> PlainIndex<V> {
    /// The index over the facts, whatever their order. It keeps the allocator, and takes all its memory from it.
    /// `NoMemory` comes only if no memory is left.
    ///
    /// It sorts the n facts, in n log n steps, and verifies nothing.
    pub fn build(alloc: Global, facts: FactList, keys: V) -> Result<PlainIndex<V>, NoMemory>
    where
        V: Drop,
        requires distinct { AreDistinct facts }
        requires valid { AreValid facts }
        ensures facts { IfOk result (λ index. index.0 ≡ finite.from_entries facts) }
        ensures keys { IfOk result (λ index. index.1 ≡ keys) }
    {
        let facts = facts.into_vec().into_iter().collect(alloc)?;
        Ok(PlainIndex { alloc, facts, keys })
    }
}

impl<V: Verifier> FactTable for PlainIndex<V> {
    ghost facts = { λ index. index.0 };

    ghost loose = { λ index. 0 };

    /// It takes time in the logarithm of the number of facts.
    fn fact_at<L: Ledger>(&self, r: &Ref, steps: &mut Steps<L>) -> Option<&Fact> {
        steps.tick();
        self.facts.get(r)
    }

    /// It takes time in the logarithm of the number of facts.
    fn fact_after<L: Ledger>(&self, after: Option<&Ref>, steps: &mut Steps<L>) -> Option<Ref> {
        steps.tick();
        let (r, _) = self
            .facts
            .range((start_after(after), Bound::Unbounded))
            .next()?;
        Some(*r)
    }
}

// The bound at which the facts after a ref begin.
fn start_after(after: Option<&Ref>) -> Bound<Ref>
    ensures { result ≡ start_after (option_copied after.entry) }
{
    match after {
        Some(r) => Bound::Excluded(*r),
        None => Bound::Unbounded,
    }
}

impl<V: Verifier> Look for PlainIndex<V> {
    ghost facts = { λ index. index.0 };

    ghost accepts = { λ index. V.accepts index.1 };

    ghost quick = { λ index. ⊥ };

    fn fact_of<L: Ledger>(&self, r: &Ref, steps: &mut Steps<L>) -> Option<&Fact> {
        plain_answers::fact_of(self, &self.keys, r, steps)
    }

    fn fact_known<L: Ledger>(
        &self,
        known: &mut Known,
        r: &Ref,
        steps: &mut Steps<L>,
    ) -> Result<Option<&Fact>, NoMemory> {
        plain_answers::fact_known(self, known, r, steps)
    }

    fn is_permanode<L: Ledger>(&self, r: &Ref, steps: &mut Steps<L>) -> bool {
        plain_answers::is_permanode(self, &self.keys, r, steps)
    }

    fn permanode_after<L: Ledger>(&self, after: Option<&Ref>, steps: &mut Steps<L>) -> Option<Ref> {
        plain_answers::permanode_after(self, &self.keys, after, steps)
    }

    fn deleted<L: Ledger>(&self, r: &Ref, when: &When, steps: &mut Steps<L>) -> bool {
        plain_answers::deleted(self, &self.keys, r, when, steps)
    }

    fn values<L: Ledger>(
        &self,
        p: &Ref,
        attr: &str,
        when: &When,
        steps: &mut Steps<L>,
    ) -> Result<TextList, NoMemory> {
        plain_answers::values(self.alloc, self, &self.keys, p, attr, when, steps)
    }

    fn last_change<L: Ledger>(&self, p: &Ref, when: &When, steps: &mut Steps<L>) -> Option<Date> {
        plain_answers::last_change(self, &self.keys, p, when, steps)
    }

    fn file_size<L: Ledger>(&self, r: &Ref, steps: &mut Steps<L>) -> Option<u64> {
        plain_answers::file_size(self, &self.keys, r, steps)
    }

    fn size_known<L: Ledger>(
        &self,
        known: &mut Known,
        r: &Ref,
        steps: &mut Steps<L>,
    ) -> Result<Option<u64>, NoMemory> {
        plain_answers::size_known(self, known, r, steps)
    }

    fn holders<L: Ledger>(
        &self,
        attr: &str,
        value: &str,
        steps: &mut Steps<L>,
    ) -> Result<RefList, NoMemory> {
        plain_answers::holders(self.alloc, self, &self.keys, attr, value, steps)
    }

    fn parents<L: Ledger>(
        &self,
        child: &Ref,
        when: &When,
        steps: &mut Steps<L>,
    ) -> Result<RefList, NoMemory> {
        plain_answers::parents(self.alloc, self, &self.keys, child, when, steps)
    }
}
