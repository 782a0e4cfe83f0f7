//! Facts under refs: those in a tree, and those in loose rows, which were allocated before they were put.
ghost use Rattle.std.specs.Prelude.{◌≡◌, ◌+◌, ◌≤◌, ◌<◌, ◌^◌, ◌∷◌, [], false, length, option_map, IfOk, OnOk, OnErr};
ghost use Rattle.std.specs.FinMap as finite;
ghost use Rattle.std.specs.List.{list_any};
ghost use Rattle.schema_fact.specs.Validity.{IsValid};
ghost use Rattle.index_rows.specs.Loose.{first_of, is_number, numbers_of, with_fact, with_first, with_loose, IsMoved};

use crate::loose_rows::{LooseRows, Made, Row};
use crate::ordered_facts::OrderedFacts;
use blobref::{NoMemory, Ref};
use edge_base::Steps;
use index_look::FactTable;
use schema_fact::Fact;
use std::alloc::Global;
use std::sync::ledger::Ledger;

/// Valid facts under their refs. As a table they are those of the tree, followed by those of the loose rows: a look-up
/// searches the tree, and then the loose rows one by one. `put` and the other calls on the tree alone are those of
/// `ordered`.
#[derive(Drop)]
pub struct FactRows {
    /// The facts in the order of their refs.
    pub ordered: OrderedFacts,
    /// The rows that were put without taking memory and haven't been moved into the tree. While there is one, the other
    /// tables of an index can't be used.
    pub loose: LooseRows,
}

impl FactRows {
    /// No facts.
    pub fn empty(alloc: Global) -> FactRows
        ensures ordered { result.ordered ≡ finite.empty }
        ensures loose { result.loose ≡ [] }
    {
        FactRows {
            ordered: OrderedFacts::empty(alloc),
            loose: LooseRows::empty(alloc),
        }
    }

    /// Puts a fact under a new ref. It takes no memory: the row is put in front of the loose ones. With it these must
    /// be fewer than 2^63.
    pub fn put_made<L: Ledger>(&mut self, made: Made, steps: &mut Steps<L>)
        requires valid { IsValid made.2 }
        requires room { length self.old.loose + 1 < 2 ^ 63 }
        requires fresh { finite.contains_key (with_loose self.old.loose self.old.ordered) made.1 ≡ false }
        ensures map { with_loose self.new.loose self.new.ordered
            ≡ finite.insert (with_loose self.old.loose self.old.ordered) made.1 made.2 }
        ensures ordered { self.new.ordered ≡ self.old.ordered }
        ensures loose { self.new.loose ≡ made ∷ self.old.loose }
        ensures ticks { steps.new ≡ steps.old + 1 }
    {
        steps.tick();
        self.loose.push(made);
    }

    /// Moves the loose row that was put last into the tree, and returns its number; `None` exactly if there is none.
    /// A copy of the fact is put, and only then is the row removed. `NoMemory` comes only if no memory is left, and
    /// then the loose rows are unchanged. No fact is added or lost. It ticks for the row, a look-up and a put.
    pub fn move_one<L: Ledger>(
        &mut self,
        alloc: Global,
        steps: &mut Steps<L>,
    ) -> Result<Option<u64>, NoMemory>
        ensures map { with_loose self.new.loose self.new.ordered ≡ with_loose self.old.loose self.old.ordered }
        ensures moved { IfOk result (λ number. IsMoved number (numbers_of self.old.loose) (numbers_of self.new.loose)) }
        ensures err { OnErr result (self.new.loose ≡ self.old.loose) }
        ensures ticks { steps.new ≤ steps.old + 3 }
    {
        copy_first(alloc, &mut self.ordered, &self.loose, steps)?;
        Ok(number_of(self.loose.pop()))
    }
}

impl FactTable for FactRows {
    ghost facts = { λ rows. with_loose rows.loose rows.ordered };

    ghost loose = { λ rows. length rows.loose };

    fn fact_at<L: Ledger>(&self, r: &Ref, steps: &mut Steps<L>) -> Option<&Fact> {
        match self.ordered.row(r, steps) {
            Some(fact) => Some(fact),
            None => self.loose.find(r, steps),
        }
    }

    fn fact_after<L: Ledger>(&self, after: Option<&Ref>, steps: &mut Steps<L>) -> Option<Ref> {
        let ordered = self.ordered.fact_after(after, steps);
        self.loose.least_after(after, ordered, steps)
    }
}

fn number_of(row: Option<Row>) -> Option<u64>
    ensures { result ≡ option_map (λ row. row.0) row }
{
    match row {
        Some(row) => Some(row.0),
        None => None,
    }
}

// Puts a copy of the first loose fact into the tree, unless its ref has one there. If there is no memory, nothing
// changes.
fn copy_first<L: Ledger>(
    alloc: Global,
    ordered: &mut OrderedFacts,
    loose: &LooseRows,
    steps: &mut Steps<L>,
) -> Result<(), NoMemory>
    ensures ok { OnOk result (ordered.new ≡ with_first ordered.old loose.now) }
    ensures err { OnErr result (ordered.new ≡ ordered.old) }
    ensures ticks { steps.new ≤ steps.old + 3 }
{
    let Some(first) = loose.first() else {
        return Ok(());
    };
    steps.tick();
    put_new(alloc, ordered, &first.0, first.1, steps)
}

// Puts a copy of a valid fact, unless its ref has one.
fn put_new<L: Ledger>(
    alloc: Global,
    ordered: &mut OrderedFacts,
    r: &Ref,
    fact: &Fact,
    steps: &mut Steps<L>,
) -> Result<(), NoMemory>
    requires { IsValid fact.now }
    ensures ok { OnOk result (ordered.new ≡ with_fact ordered.old r.now fact.now) }
    ensures err { OnErr result (ordered.new ≡ ordered.old) }
    ensures ticks { steps.new ≤ steps.old + 2 }
{
    if ordered.row(r, steps).is_some() {
        return Ok(());
    }
    let copy = fact.copy(alloc)?;
    ordered.put(alloc, r, copy, steps)
}
