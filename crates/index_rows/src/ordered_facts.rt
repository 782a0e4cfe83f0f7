//! Facts in the order of their refs.
ghost use Rattle.std.specs.Prelude.{◌≡◌, ◌+◌, ◌∷◌, [], Some, OnOk, OnErr, IfSome, IfNone, option_copied};
ghost use Rattle.std.specs.FinMap as finite;
ghost use Rattle.index_look.specs.Walk.{entries_after};
ghost use Rattle.index_rows.specs.Stored.{start_after};
ghost use Rattle.schema_fact.specs.Validity.{IsValid};

use blobref::{NoMemory, Ref};
use edge_base::Steps;
use index_look::FactTable;
use schema_fact::Fact;
use std::alloc::Global;
use std::collections::BTreeMap;
use std::marker::Model;
use std::ops::Bound;
use std::sync::ledger::Ledger;

/// Valid facts in a tree, under their refs. A contract sees them as the map. `steps` counts the look-ups, the steps
/// from one row to the next and the changes, each of which takes time in the logarithm of the number of rows.
#[derive(Drop)]
pub struct OrderedFacts {
    rows: BTreeMap<Ref, Box<Fact>>,
}

impl Model for OrderedFacts {
    ghost use Rattle.std.specs.FinMap as finite;
    ghost use Rattle.std.specs.Coded.{coded_ℕ, coded_list};
    ghost use Rattle.claim_model.specs.Facts.{Facts};
    ghost use Rattle.schema_fact.specs.contracts.kinds.Fact as fact;
    ghost use Rattle.index_rows.specs.Stored.{stored_facts, AreAllValid};

    ghost Value = { Facts };

    ghost coded = { finite.code (coded_list coded_ℕ) fact.the_row.coded };

    ghost view = { λ a. stored_facts a.rows.entries };

    ghost invariant = { λ a. AreAllValid (stored_facts a.rows.entries) };
}

impl OrderedFacts {
    /// No facts.
    pub fn empty(alloc: Global) -> OrderedFacts
        ensures { result ≡ finite.empty }
    {
        OrderedFacts {
            rows: BTreeMap::new(alloc),
        }
    }

    /// The fact of a ref; `None` exactly if there is none.
    pub fn row<L: Ledger>(&self, r: &Ref, steps: &mut Steps<L>) -> Option<&Fact>
        ensures value { option_copied result ≡ finite.get self.now r.now }
        ensures valid { IfSome result (λ fact. IsValid fact.now) }
        ensures ticks { steps.new ≡ steps.old + 1 }
    {
        steps.tick();
        match self.rows.get(r) {
            Some(fact) => Some(&**fact),
            None => None,
        }
    }

    /// The least ref greater than `after`, or of all if `after` is `None`, with its fact; `None` exactly if there
    /// is none.
    pub fn next_after<L: Ledger>(
        &self,
        after: Option<&Ref>,
        steps: &mut Steps<L>,
    ) -> Option<(Ref, &Fact)>
        ensures next { IfSome result (λ e.
            entries_after self.now (option_copied after.entry) ≡ (e.0, e.1.now) ∷ entries_after self.now (Some e.0)) }
        ensures last { IfNone result (entries_after self.now (option_copied after.entry) ≡ []) }
        ensures ticks { steps.new ≡ steps.old + 1 }
    {
        steps.tick();
        match self
            .rows
            .range((start_after(after), Bound::Unbounded))
            .next()
        {
            Some((r, fact)) => Some((*r, &**fact)),
            None => None,
        }
    }

    /// Puts a valid fact under a ref, replacing the one there. If there is no memory, nothing changes, and the fact
    /// is dropped.
    pub fn put<L: Ledger>(
        &mut self,
        alloc: Global,
        r: &Ref,
        fact: Fact,
        steps: &mut Steps<L>,
    ) -> Result<(), NoMemory>
        requires valid { IsValid fact }
        ensures ok { OnOk result (self.new ≡ finite.insert self.old r.now fact) }
        ensures err { OnErr result (self.new ≡ self.old) }
        ensures ticks { steps.new ≡ steps.old + 1 }
    {
        steps.tick();
        let boxed = Box::new(alloc, fact)?;
        self.rows.insert(*r, boxed)?;
        Ok(())
    }

    /// Drops the fact of a ref. If there is none, nothing changes.
    pub fn drop_row<L: Ledger>(&mut self, r: &Ref, steps: &mut Steps<L>)
        ensures value { self.new ≡ finite.remove self.old r.now }
        ensures ticks { steps.new ≡ steps.old + 1 }
    {
        steps.tick();
        self.rows.remove(r);
    }
}

impl FactTable for OrderedFacts {
    ghost facts = { λ rows. rows };

    ghost loose = { λ rows. 0 };

    fn fact_at<L: Ledger>(&self, r: &Ref, steps: &mut Steps<L>) -> Option<&Fact> {
        self.row(r, steps)
    }

    fn fact_after<L: Ledger>(&self, after: Option<&Ref>, steps: &mut Steps<L>) -> Option<Ref> {
        match self.next_after(after, steps) {
            Some(entry) => Some(entry.0),
            None => None,
        }
    }
}

// The bound at which the rows after a ref begin.
fn start_after(after: Option<&Ref>) -> Bound<Ref>
    ensures { result ≡ start_after (option_copied after.entry) }
{
    match after {
        Some(r) => Bound::Excluded(*r),
        None => Bound::Unbounded,
    }
}
