//! An index of facts.
ghost use Rattle.std.specs.Prelude.{◌≡◌, ◌≤◌, ◌<◌, ◌+◌, ◌*◌, ◌^◌, ℕ, true, false, length, nat_lt, IfOk, OnOk, OnErr};
ghost use Rattle.std.specs.FinMap as finite;
ghost use Rattle.schema_fact.specs.Validity.{IsValid};
ghost use Rattle.claim_model.specs.Facts.{AreValid};
ghost use Rattle.index_rows.specs.Touched.{touched};
ghost use Rattle.claim_index.specs.Additions.{AddsAlone};
ghost use Rattle.claim_index.specs.Indexed.{Inserts, IsPut, IsSame, with_all};

use crate::moving::{put_in_order, renew, settle};
use crate::numbers::Numbers;
use crate::rebuilding::{rebuild, take_up};
use blobref::{ListOf, NoMemory, Ref, RefList, TextList};
use claim_verify::Verifier;
use edge_base::{Inserted, Steps};
use index_look::{FactTable, Known, Look};
use index_rows::{Made, OrderedFacts, Rows};
use schema_date::{Date, When};
use schema_fact::Fact;
use std::alloc::Global;
use std::marker::Model;
use std::sync::ledger::Ledger;

/// Refs with facts, in any order.
pub type FactList = ListOf<(Ref, Fact)>;

/// An index of facts that come as a list or one by one, in any order. A contract sees the facts under their refs, the
/// numbers under which they came, the keys, and whether the index is stale. If it is, memory was short: its other
/// tables can't be used, and it answers from the facts alone.
#[derive(Drop)]
pub struct Index<V: Verifier> {
    alloc: Global,
    rows: Rows,
    // The numbers of the facts that are in order.
    numbers: Numbers,
    // How many numbers there are, including those of the loose rows.
    count: u64,
    keys: V,
    stale: bool,
}

impl<V: Verifier> Model for Index<V> {
    ghost use Rattle.std.specs.Prelude.{◌≡◌, ◌≤◌, length, false};
    ghost use Rattle.std.specs.FinMap as finite;
    ghost use Rattle.index_rows.specs.Loose.{numbers_of};
    ghost use Rattle.claim_index.specs.Halfway.{facts_in, IsSettled};
    ghost use Rattle.claim_index.specs.Indexed.{Indexed, indexed_code};
    ghost use Rattle.claim_index.specs.Numbers.{with_numbers};

    ghost Value = { Indexed V };

    ghost coded = { indexed_code V.code };

    ghost view = { λ a. record {
      facts = facts_in a.rows.facts;
      numbers = with_numbers (numbers_of a.rows.facts.loose) a.numbers.numbers;
      keys = a.keys;
      stale = a.stale;
    } };

    ghost invariant = { λ a.
        (a.count ≡ finite.len (with_numbers (numbers_of a.rows.facts.loose) a.numbers.numbers))
        × (a.stale ≡ false → IsSettled (V.accepts a.keys) a.rows)
        × (length (numbers_of a.rows.facts.loose) ≤ a.count) };
}

impl<V: Verifier> Index<V> {
    /// An index of no facts. It keeps the allocator, and takes all its memory from it.
    pub fn fresh(alloc: Global, keys: V) -> Index<V>
    where
        V: Drop,
        ensures facts { result.facts ≡ finite.empty }
        ensures numbers { result.numbers ≡ finite.empty }
        ensures keys { result.keys ≡ keys }
        ensures stale { result.stale ≡ false }
    {
        Index {
            alloc,
            rows: Rows::empty(alloc),
            numbers: Numbers::empty(alloc),
            count: 0,
            keys,
            stale: false,
        }
    }

    /// An index of a list of facts, which are taken up all at once. The number of each is its place in the list,
    /// counted from 0. Of facts under the same ref the first one is kept. It isn't stale. It keeps the allocator, and
    /// takes all its memory from it.
    ///
    /// `NoMemory` comes only if no memory is left. There is then no index, and the facts and the keys are dropped.
    ///
    /// It puts each fact, verifies each permanode and claim that is ready once, and looks at the changes of each
    /// permanode once. In all it takes time in n log n for n rows in the tables.
    pub fn of<L: Ledger>(
        alloc: Global,
        facts: FactList,
        keys: V,
        steps: &mut Steps<L>,
    ) -> Result<Index<V>, NoMemory>
    where
        V: Drop,
        requires valid { AreValid facts }
        ensures facts { IfOk result (λ index. index.facts ≡ finite.from_entries facts) }
        ensures numbers { IfOk result (λ index. (n : ℕ)
            → finite.contains_key index.numbers n ≡ nat_lt n (length facts)) }
        ensures keys { IfOk result (λ index. index.keys ≡ keys) }
        ensures stale { IfOk result (λ index. index.stale ≡ false) }
    {
        let numbers = Numbers::below(alloc, facts.len() as u64)?;
        let count = numbers.len();
        let mut rows = Rows::empty(alloc);
        put_all(alloc, &mut rows.facts.ordered, facts, steps)?;
        rebuild(alloc, &mut rows, &keys, steps)?;
        Ok(Index {
            alloc,
            rows,
            numbers,
            count,
            keys,
            stale: false,
        })
    }

    /// Puts a fact under a number and a ref, and takes it up. `Already` comes exactly if the index had the number;
    /// then nothing is put. After both the index isn't stale: if it was, the tables are made again from all facts. A
    /// ref must have one number only.
    ///
    /// `NoMemory` comes only if no memory is left. The facts and the numbers are then unchanged, and the index may be
    /// stale. It still answers from the facts, and the next insert makes the tables again.
    ///
    /// It looks at the refs that waited for this one, at those that became ready and the delete claims that this
    /// concerns, and at the changes of each permanode that is concerned, once each. If only a claim of one change
    /// becomes ready, it looks at less. For an addition it looks at no more than the later changes that may take its
    /// value away. For another change, if it is the last one on its permanode, it looks at no more than those since its
    /// attribute was last set or emptied.
    ///
    /// If the index isn't stale, it takes at most 16 (1 + n) steps, whatever it returns, for n entries of `touched`
    /// in `index_rows/specs/Touched.antt`.
    ///
    /// A claim that adds one value takes at most 25, however many changes its permanode has, if no fact depends on its
    /// ref and no later change may take the value away (`AddsAlone` in `specs/Additions.antt`).
    pub fn insert<L: Ledger>(
        &mut self,
        number: u64,
        r: &Ref,
        fact: Fact,
        steps: &mut Steps<L>,
    ) -> Result<Inserted, NoMemory>
        requires valid { IsValid fact }
        requires alone { finite.contains_key self.old.numbers number ≡ false
            → finite.contains_key self.old.facts r.now ≡ false }
        ensures inserted { IfOk result (λ inserted. Inserts self.old self.new number r.now fact inserted) }
        ensures refused { OnErr result (IsSame self.old self.new) }
        ensures stale { OnOk result (self.new.stale ≡ false) }
        ensures keys { self.new.keys ≡ self.old.keys }
        ensures ticks { self.old.stale ≡ false → steps.new ≤ steps.old
            + 16 * (1 + length (touched self.old.facts (V.accepts self.old.keys) r.now fact)) }
        ensures few_ticks { self.old.stale ≡ false
            → AddsAlone (finite.insert self.old.facts r.now fact) (V.accepts self.old.keys) r.now fact
            → steps.new ≤ steps.old + 25 }
    {
        if self.holds(number) {
            self.refresh(steps)?;
            return Ok(Inserted::Already);
        }
        put_in_order(
            self.alloc,
            &mut self.rows.facts,
            &mut self.numbers,
            number,
            r,
            fact,
            steps,
        )?;
        let taken_up = take_up(self.alloc, &mut self.rows, &self.keys, self.stale, r, steps);
        if taken_up.is_err() {
            self.rows.facts.ordered.drop_row(r, steps);
            self.stale = true;
            return Err(NoMemory);
        }
        self.stale = false;
        self.numbers.set(number);
        self.count += 1;
        Ok(Inserted::New)
    }

    /// Puts a fact whose memory was taken before, and takes it up, so it can't be refused. Nothing is put if the index
    /// had its number. If the index was stale, the tables are made again from all facts. A ref must have one number
    /// only, and with the new one the index must have fewer than 2^63 numbers.
    ///
    /// Afterwards the index may be stale only if no memory is left for its tables. It still answers from the facts, and
    /// the next insert or place makes the tables again.
    ///
    /// It does what `insert` does, and moves a row. If the index isn't stale, it takes at most as many steps: 16
    /// (1 + n). Where `insert` takes at most 25 it takes at most 27.
    pub fn place<L: Ledger>(&mut self, made: Made, steps: &mut Steps<L>)
        requires valid { IsValid made.2 }
        requires alone { finite.contains_key self.old.numbers made.0 ≡ false
            → finite.contains_key self.old.facts made.1 ≡ false }
        requires room { finite.contains_key self.old.numbers made.0 ≡ false
            → finite.len self.old.numbers + 1 < 2 ^ 63 }
        ensures put { finite.contains_key self.old.numbers made.0 ≡ false
            → IsPut self.old self.new made.0 made.1 made.2 }
        ensures stood { finite.contains_key self.old.numbers made.0 ≡ true → IsSame self.old self.new }
        ensures keys { self.new.keys ≡ self.old.keys }
        ensures ticks { self.old.stale ≡ false → steps.new ≤ steps.old
            + 16 * (1 + length (touched self.old.facts (V.accepts self.old.keys) made.1 made.2)) }
        ensures few_ticks { self.old.stale ≡ false
            → AddsAlone (finite.insert self.old.facts made.1 made.2) (V.accepts self.old.keys) made.1 made.2
            → steps.new ≤ steps.old + 27 }
    {
        if self.holds(made.number()) {
            let _renewed = self.refresh(steps);
            return;
        }
        let r = made.r();
        let was_stale = self.stale;
        self.stale = true;
        self.count += 1;
        self.rows.facts.put_made(made, steps);
        let settled = settle(
            self.alloc,
            &mut self.rows,
            &mut self.numbers,
            &self.keys,
            was_stale,
            &r,
            steps,
        );
        self.stale = settled.is_err();
    }

    // Makes the tables again from all facts, if the index is stale.
    fn refresh<L: Ledger>(&mut self, steps: &mut Steps<L>) -> Result<(), NoMemory>
        ensures same { IsSame self.old self.new }
        ensures keys { self.new.keys ≡ self.old.keys }
        ensures stale { OnOk result (self.new.stale ≡ false) }
        ensures ticks { self.old.stale ≡ false → steps.new ≡ steps.old }
    {
        if self.stale {
            renew(
                self.alloc,
                &mut self.rows,
                &mut self.numbers,
                &self.keys,
                steps,
            )?;
            self.stale = false;
        }
        Ok(())
    }

    /// How many numbers the index has.
    pub fn len(&self) -> u64
        ensures { result ≡ finite.len self.now.numbers }
    {
        self.count
    }

    /// Whether the index has a number. It takes time in the logarithm of the number of blocks of 64 numbers, and looks
    /// at the rows that were placed and wait for memory. There are none if the index isn't stale.
    pub fn holds(&self, number: u64) -> bool
        ensures { result ≡ finite.contains_key self.now.numbers number }
    {
        self.numbers.has(number) || self.rows.facts.loose.has(number)
    }

    /// Whether the index is stale. If so, its answers are the same, but for each it walks over all facts.
    pub fn stale(&self) -> bool
        ensures { result ≡ self.now.stale }
    {
        self.stale
    }

    /// Whether a fact was put under the ref. One look-up if the index isn't stale.
    pub fn stands<L: Ledger>(&self, r: &Ref, steps: &mut Steps<L>) -> bool
        ensures value { result ≡ finite.contains_key self.now.facts r.now }
        ensures ticks { self.now.stale ≡ false → steps.new ≤ steps.old + 1 }
    {
        self.rows.facts.fact_at(r, steps).is_some()
    }
}

impl<V: Verifier> Look for Index<V> {
    ghost facts = { λ index. index.facts };

    ghost accepts = { λ index. V.accepts index.keys };

    ghost quick = { λ index. index.stale ≡ false };

    /// Two look-ups.
    fn fact_of<L: Ledger>(&self, r: &Ref, steps: &mut Steps<L>) -> Option<&Fact> {
        if self.stale {
            plain_answers::fact_of(&self.rows.facts, &self.keys, r, steps)
        } else {
            row_answers::fact_of(&self.rows, r, steps)
        }
    }

    /// Two look-ups. `known` is used only if the index is stale.
    fn fact_known<L: Ledger>(
        &self,
        known: &mut Known,
        r: &Ref,
        steps: &mut Steps<L>,
    ) -> Result<Option<&Fact>, NoMemory> {
        if self.stale {
            plain_answers::fact_known(&self.rows.facts, known, r, steps)
        } else {
            Ok(row_answers::fact_of(&self.rows, r, steps))
        }
    }

    /// Two look-ups.
    fn is_permanode<L: Ledger>(&self, r: &Ref, steps: &mut Steps<L>) -> bool {
        if self.stale {
            plain_answers::is_permanode(&self.rows.facts, &self.keys, r, steps)
        } else {
            row_answers::is_genuine_permanode(&self.rows, r, steps)
        }
    }

    /// It walks over the facts up to that permanode, with a look-up for each permanode.
    fn permanode_after<L: Ledger>(&self, after: Option<&Ref>, steps: &mut Steps<L>) -> Option<Ref> {
        if self.stale {
            plain_answers::permanode_after(&self.rows.facts, &self.keys, after, steps)
        } else {
            row_answers::permanode_after(&self.rows, after, steps)
        }
    }

    /// Two look-ups for all dates. At another time it walks over the delete claims on the ref, those on these, and so
    /// on, each once; it takes no memory, and the stack doesn't grow.
    fn deleted<L: Ledger>(&self, r: &Ref, when: &When, steps: &mut Steps<L>) -> bool {
        if self.stale {
            plain_answers::deleted(&self.rows.facts, &self.keys, r, when, steps)
        } else {
            row_answers::deleted(&self.rows, r, when, steps)
        }
    }

    /// It walks over the changes of the permanode up to that time, and checks for each whether its claim is deleted.
    fn values<L: Ledger>(
        &self,
        p: &Ref,
        attr: &str,
        when: &When,
        steps: &mut Steps<L>,
    ) -> Result<TextList, NoMemory> {
        if self.stale {
            let facts = &self.rows.facts;
            plain_answers::values(self.alloc, facts, &self.keys, p, attr, when, steps)
        } else {
            row_answers::values(self.alloc, &self.rows, p, attr, when, steps)
        }
    }

    /// The same walk.
    fn last_change<L: Ledger>(&self, p: &Ref, when: &When, steps: &mut Steps<L>) -> Option<Date> {
        if self.stale {
            plain_answers::last_change(&self.rows.facts, &self.keys, p, when, steps)
        } else {
            row_answers::last_change(&self.rows, p, when, steps)
        }
    }

    /// Two look-ups.
    fn file_size<L: Ledger>(&self, r: &Ref, steps: &mut Steps<L>) -> Option<u64> {
        if self.stale {
            plain_answers::file_size(&self.rows.facts, &self.keys, r, steps)
        } else {
            row_answers::file_size(&self.rows, r, steps)
        }
    }

    /// Two look-ups. `known` is used only if the index is stale.
    fn size_known<L: Ledger>(
        &self,
        known: &mut Known,
        r: &Ref,
        steps: &mut Steps<L>,
    ) -> Result<Option<u64>, NoMemory> {
        if self.stale {
            plain_answers::size_known(&self.rows.facts, known, r, steps)
        } else {
            Ok(row_answers::file_size(&self.rows, r, steps))
        }
    }

    /// A step for each holder, and one more.
    fn holders<L: Ledger>(
        &self,
        attr: &str,
        value: &str,
        steps: &mut Steps<L>,
    ) -> Result<RefList, NoMemory> {
        if self.stale {
            plain_answers::holders(self.alloc, &self.rows.facts, &self.keys, attr, value, steps)
        } else {
            self.rows.holders.all_of(self.alloc, attr, value, steps)
        }
    }

    /// For all dates a step for each parent, and one more. At another time it walks over all facts, and over the
    /// changes of each permanode.
    fn parents<L: Ledger>(
        &self,
        child: &Ref,
        when: &When,
        steps: &mut Steps<L>,
    ) -> Result<RefList, NoMemory> {
        if self.stale {
            plain_answers::parents(self.alloc, &self.rows.facts, &self.keys, child, when, steps)
        } else {
            row_answers::parents(self.alloc, &self.rows, child, when, steps)
        }
    }
}

// Puts the facts of a list, the last one first: of facts under the same ref the first one is kept.
fn put_all<L: Ledger>(
    alloc: Global,
    facts: &mut OrderedFacts,
    list: FactList,
    steps: &mut Steps<L>,
) -> Result<(), NoMemory>
    requires { AreValid list }
    ensures { OnOk result (facts.new ≡ with_all facts.old list) }
{
    let mut left = list.into_vec();
    'puts: while let Some(entry) = left.pop() {
        let r = entry.0;
        facts.put(alloc, &r, entry.1, steps)?;
    }
    Ok(())
}
