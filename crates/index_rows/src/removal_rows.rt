//! Which claims may take values from permanodes, and when.
ghost use Rattle.std.specs.Prelude.{◌≡◌, ◌+◌, ◌∷◌, [], fold, OnOk, OnErr, IfSome, IfNone};
ghost use Rattle.std.specs.FinMap as finite;
ghost use Rattle.schema_fact.specs.Changes.{change_seen};
ghost use Rattle.index_rows.specs.Removals.{is_under, mark_of, mark_with, removal_mark, removals_above, removals_after};

use crate::change_rows::{Moment, moment_of};
use blobref::{NoMemory, Ref};
use edge_base::Steps;
use schema_date::Date;
use schema_fact::{Act, ChangeView};
use std::alloc::Global;
use std::collections::BTreeSet;
use std::marker::Model;
use std::ops::Bound;
use std::sync::ledger::Ledger;

/// The changes of permanodes that may take values away, under marks of what they may take and by their moments. A
/// contract sees them as a map whose rows are empty. `steps` counts the steps from one row to the next and the
/// rows put, each of which takes time in the logarithm of the number of rows.
#[derive(Drop)]
pub struct RemovalRows {
    rows: BTreeSet<(Ref, u32, Moment)>,
}

impl Model for RemovalRows {
    ghost use Rattle.std.specs.FinMap as finite;
    ghost use base.Stored.{coded_unit};
    ghost use Rattle.index_rows.specs.Changes.{keys_alone};
    ghost use Rattle.index_rows.specs.Removals.{removal_code, Removals};

    ghost Value = { Removals };

    ghost coded = { finite.code removal_code coded_unit };

    ghost view = { λ a. finite.from_entries (keys_alone a.rows.keys) };
}

impl RemovalRows {
    /// No rows.
    pub fn empty(alloc: Global) -> RemovalRows
        ensures { result ≡ finite.empty }
    {
        RemovalRows {
            rows: BTreeSet::new(alloc),
        }
    }

    /// Puts a row: the claim of that date may take values with the mark from p, by its change at this place. If there
    /// is no memory, nothing changes.
    pub fn put<L: Ledger>(
        &mut self,
        p: &Ref,
        mark: u32,
        date: &Date,
        claim: &Ref,
        place: u32,
        steps: &mut Steps<L>,
    ) -> Result<(), NoMemory>
        ensures ok { OnOk result (self.new ≡ finite.insert self.old (p.now, mark, (date.now, claim.now, place)) tt) }
        ensures err { OnErr result (self.new ≡ self.old) }
        ensures ticks { steps.new ≡ steps.old + 1 }
    {
        steps.tick();
        let moment = moment_of(date, claim, place);
        self.rows.insert((*p, mark, moment))?;
        Ok(())
    }

    /// The first moment of p under the mark after another; `None` exactly if there is none.
    pub fn next_of<L: Ledger>(
        &self,
        p: &Ref,
        mark: u32,
        after: &Moment,
        steps: &mut Steps<L>,
    ) -> Option<Moment>
        ensures next { IfSome result (λ k. removals_after self.now p.now mark after.now
            ≡ ((p.now, mark, k), tt) ∷ removals_after self.now p.now mark k) }
        ensures last { IfNone result (removals_after self.now p.now mark after.now ≡ []) }
        ensures ticks { steps.new ≡ steps.old + 1 }
    {
        match self.next_from(p, mark, after, steps) {
            Some(key) => if is_under(p, mark, &key) {
                Some(key.2)
            } else {
                None
            },
            None => None,
        }
    }

    // The least key after that of p, the mark and a moment.
    fn next_from<L: Ledger>(
        &self,
        p: &Ref,
        mark: u32,
        after: &Moment,
        steps: &mut Steps<L>,
    ) -> Option<(Ref, u32, Moment)>
        ensures next { IfSome result (λ k. removals_above self.now (p.now, mark, after.now)
            ≡ (k, tt) ∷ removals_above self.now k) }
        ensures last { IfNone result (removals_above self.now (p.now, mark, after.now) ≡ []) }
        ensures ticks { steps.new ≡ steps.old + 1 }
    {
        steps.tick();
        match self
            .rows
            .range((Bound::Excluded((*p, mark, *after)), Bound::Unbounded))
            .next()
        {
            Some(key) => Some(*key),
            None => None,
        }
    }
}

fn is_under(p: &Ref, mark: u32, key: &(Ref, u32, Moment)) -> bool
    ensures { result ≡ is_under p.now mark key.now }
{
    *p == key.0 && key.1 == mark
}

/// The mark of an attribute and a value; with an empty value, that of the attribute alone. Others may have the same.
pub fn mark_of(attr: &str, value: &str) -> u32
    ensures { result ≡ mark_of attr.now value.now }
{
    let marked = mark_with(mark_on(0, attr.as_bytes()), 255);
    mark_on(marked, value.as_bytes())
}

/// The mark of the values that a change may take away. For a change that sets a value or removes all of them it is that
/// of the attribute alone, for one that removes a value that of the attribute and the value. One that adds has `None`.
pub fn removal_mark(change: &ChangeView<'_>) -> Option<u32>
    ensures { result ≡ removal_mark (change_seen change.now) }
{
    match change.act {
        Act::Set => Some(mark_of(change.attr.as_str(), "")),
        Act::Add => None,
        Act::Del => Some(mark_of(change.attr.as_str(), change.value.as_str())),
    }
}

// A mark, continued by the bytes of a string.
fn mark_on(mark: u32, text: &[u8]) -> u32
    ensures { result ≡ fold mark_with mark text.now }
{
    let mut marked = mark;
    for byte in text {
        marked = mark_with(marked, *byte);
    }
    marked
}

fn mark_with(mark: u32, byte: u8) -> u32
    ensures { result ≡ mark_with mark byte }
{
    ((mark as u64 * 16_777_619 + byte as u64) % 4_294_967_296) as u32
}
