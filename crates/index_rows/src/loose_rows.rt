//! Facts in nodes that are allocated before they are put, and a list of them.
ghost use Rattle.std.specs.Prelude.{◌≡◌, ◌+◌, ◌≤◌, ◌<◌, ◌^◌, ◌∷◌, [], length, IfOk, IfSome, IfNone, option_copied, option_map};
ghost use Rattle.std.specs.List.{list_any};
ghost use Rattle.blobref.specs.Blobref.{is_after};
ghost use Rattle.schema_fact.specs.Validity.{IsValid};
ghost use Rattle.index_rows.specs.Loose.{first_of, first_row, is_better, is_number, least_from, lesser, loose_fact, numbers_of};

use blobref::{NoMemory, Ref};
use edge_base::Steps;
use schema_fact::Fact;
use std::alloc::Global;
use std::collections::LinkedList;
use std::marker::Model;
use std::sync::ledger::Ledger;

// A number, a ref and a fact.
pub(crate) type Row = (u64, Ref, Fact);

/// A fact with its number and its ref, in a node of a list. Putting it into a table takes no memory. A contract sees
/// the number, the ref and the fact.
#[derive(Drop)]
pub struct Made {
    // This row alone.
    rows: LinkedList<Row>,
}

impl Model for Made {
    ghost use Rattle.std.specs.Prelude.{◌≡◌, ◌∷◌, []};
    ghost use Rattle.index_rows.specs.Loose.{LooseRow, loose_code, row_made};

    ghost Value = { LooseRow };

    ghost coded = { loose_code };

    ghost view = { λ a. row_made a.rows };

    ghost invariant = { λ a. a.rows ≡ row_made a.rows ∷ [] };
}

impl Made {
    /// Takes all the memory that the fact needs in a table. `NoMemory` comes only if no memory is left, and the fact
    /// is then dropped.
    pub fn make(alloc: Global, number: u64, r: &Ref, fact: Fact) -> Result<Made, NoMemory>
        ensures { IfOk result (λ made. made ≡ (number, r.now, fact)) }
    {
        let mut rows = LinkedList::new(alloc);
        rows.push_front((number, *r, fact))?;
        Ok(Made { rows })
    }

    /// Its number.
    pub fn number(&self) -> u64
        ensures { result ≡ self.now.0 }
    {
        self.rows.front().unwrap().0
    }

    /// Its ref.
    pub fn r(&self) -> Ref
        ensures { result ≡ self.now.1 }
    {
        self.rows.front().unwrap().1
    }
}

/// Valid facts with their numbers and their refs. The one that was put last is first. A contract sees the list.
#[derive(Drop)]
pub struct LooseRows {
    rows: LinkedList<Row>,
}

impl Model for LooseRows {
    ghost use Rattle.std.specs.Prelude.{List};
    ghost use Rattle.std.specs.Coded.{coded_list};
    ghost use Rattle.index_rows.specs.Loose.{LooseRow, AreLooseValid, loose_code};

    ghost Value = { List LooseRow };

    ghost coded = { coded_list loose_code };

    ghost view = { λ a. a.rows };

    ghost invariant = { λ a. AreLooseValid a.rows };
}

impl LooseRows {
    // No rows.
    pub(crate) fn empty(alloc: Global) -> LooseRows
        ensures { result ≡ [] }
    {
        LooseRows {
            rows: LinkedList::new(alloc),
        }
    }

    // Puts a row in front. It takes no memory.
    pub(crate) fn push(&mut self, made: Made)
        requires valid { IsValid made.2 }
        requires room { length self.old + 1 < 2 ^ 63 }
        ensures { self.new ≡ made ∷ self.old }
    {
        let Made { mut rows } = made;
        let _joined = rows.append(&mut self.rows);
        self.rows = rows;
    }

    // Removes and returns the first row, if there is one.
    pub(crate) fn pop(&mut self) -> Option<Row>
        ensures taken { IfSome result (λ row. self.old ≡ row ∷ self.new) }
        ensures none { IfNone result (self.old ≡ []) }
        ensures same { IfNone result (self.new ≡ []) }
    {
        self.rows.pop_front()
    }

    // The fact of a ref; `None` if there is none. It ticks for each row that it looks at.
    pub(crate) fn find<L: Ledger>(&self, r: &Ref, steps: &mut Steps<L>) -> Option<&Fact>
        ensures value { option_copied result ≡ loose_fact self.now r.now }
        ensures valid { IfSome result (λ fact. IsValid fact.now) }
        ensures ticks { steps.new ≤ steps.old + length self.now }
    {
        find_in(&self.rows, r, steps)
    }

    // The least ref of a row that is greater than `after`, if it is less than the best one so far; otherwise the best
    // one. It ticks for each row.
    pub(crate) fn least_after<L: Ledger>(
        &self,
        after: Option<&Ref>,
        best: Option<Ref>,
        steps: &mut Steps<L>,
    ) -> Option<Ref>
        ensures value { result ≡ least_from (option_copied after.entry) best self.now }
        ensures ticks { steps.new ≡ steps.old + length self.now }
    {
        let mut best = best;
        'rows: for row in self.rows.iter() {
            steps.tick();
            best = lesser(after, best, &row.1);
        }
        best
    }

    // The ref and the fact of the first row, if there is one.
    pub(crate) fn first(&self) -> Option<(Ref, &Fact)>
        ensures first { option_map (λ e. (e.0, e.1.now)) result ≡ first_row self.now }
        ensures valid { IfSome result (λ e. IsValid e.1.now) }
    {
        match self.rows.iter().next() {
            Some(row) => Some((row.1, &row.2)),
            None => None,
        }
    }

    /// The number of the row that was put last; `None` exactly if there is none.
    pub fn first_number(&self) -> Option<u64>
        ensures { result ≡ first_of (numbers_of self.now) }
    {
        match self.rows.iter().next() {
            Some(row) => Some(row.0),
            None => None,
        }
    }

    /// Whether a row has the number. It looks at the rows one by one.
    pub fn has(&self, number: u64) -> bool
        ensures { result ≡ list_any (is_number number) self.now }
    {
        'rows: for row in self.rows.iter() {
            if row.0 == number {
                return true;
            }
        }
        false
    }
}

// A ref, if it is greater than `after` and less than the best one so far; otherwise the best one.
fn lesser(after: Option<&Ref>, best: Option<Ref>, r: &Ref) -> Option<Ref>
    ensures { result ≡ lesser (option_copied after.entry) best r.now }
{
    if is_after(after, r) && is_better(&best, r) {
        Some(*r)
    } else {
        best
    }
}

fn is_after(after: Option<&Ref>, r: &Ref) -> bool
    ensures { result ≡ is_after (option_copied after.entry) r.now }
{
    match after {
        Some(other) => other < r,
        None => true,
    }
}

fn is_better(best: &Option<Ref>, r: &Ref) -> bool
    ensures { result ≡ is_better best.now r.now }
{
    match best {
        Some(other) => r < other,
        None => true,
    }
}

// The fact of a ref in a list of rows. It ticks for each row that it looks at.
fn find_in<'a, L: Ledger>(
    rows: &'a LinkedList<Row>,
    r: &Ref,
    steps: &mut Steps<L>,
) -> Option<&'a Fact>
    ensures value { option_copied result ≡ loose_fact rows.now r.now }
    ensures ticks { steps.new ≤ steps.old + length rows.now }
{
    'rows: for row in rows.iter() {
        steps.tick();
        if row.1 == *r {
            return Some(&row.2);
        }
    }
    None
}
