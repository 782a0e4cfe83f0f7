//! Which claims change a permanode, and when.
ghost use Rattle.std.specs.Prelude.{◌≡◌, ◌≤◌, ◌+◌, ◌∷◌, ◌++◌, [], length, Some, IfOk, OnOk, OnErr, IfSome, IfNone};
ghost use Rattle.std.specs.Prelude.{option_copied};
ghost use Rattle.std.specs.FinMap as finite;
ghost use Rattle.index_rows.specs.Changes.{changes_above, changes_after, changes_before, changes_below, changes_from};
ghost use Rattle.index_rows.specs.Changes.{changes_start, is_until, moments_to, moments_until, AllFromFirst};
ghost use Rattle.index_rows.specs.Changes.{IsFromFirst};
ghost use Rattle.claim_model.specs.Deleted.{counts_at};

use blobref::{NoMemory, Ref};
use edge_base::Steps;
use schema_date::{Date, When};
use std::alloc::Global;
use std::collections::BTreeSet;
use std::marker::Model;
use std::ops::Bound;
use std::sync::ledger::Ledger;

/// When a change counts: the number of its claim's date, as `Date::ns` gives it; the claim; the change's place there.
pub type Moment = (i128, Ref, u32);

/// The changes of permanodes by their moments. A contract sees them as a map whose rows are empty. `steps`
/// counts the steps from one row to the next and the rows put, each of which takes time in the logarithm of the number
/// of rows.
#[derive(Drop)]
pub struct ChangeRows {
    rows: BTreeSet<(Ref, Moment)>,
}

impl Model for ChangeRows {
    ghost use Rattle.std.specs.FinMap as finite;
    ghost use Rattle.std.specs.Coded.{coded_ℕ, coded_list, coded×};
    ghost use base.Stored.{coded_unit};
    ghost use Rattle.index_rows.specs.Changes.{change_cmp, keys_alone, moment_code, AllFromFirst};

    ghost Value = { finite.FinMap change_cmp (Unit {0}) };

    ghost coded = { finite.code (coded× (coded_list coded_ℕ) moment_code) coded_unit };

    ghost view = { λ a. finite.from_entries (keys_alone a.rows.keys) };

    ghost invariant = { λ a. AllFromFirst (finite.from_entries (keys_alone a.rows.keys)) };
}

impl ChangeRows {
    /// No rows.
    pub fn empty(alloc: Global) -> ChangeRows
        ensures { result ≡ finite.empty }
    {
        ChangeRows {
            rows: BTreeSet::new(alloc),
        }
    }

    /// Puts a row: the claim of that date changes p by its change at this place. If there is no memory, nothing
    /// changes.
    pub fn put<L: Ledger>(
        &mut self,
        p: &Ref,
        date: &Date,
        claim: &Ref,
        place: u32,
        steps: &mut Steps<L>,
    ) -> Result<(), NoMemory>
        ensures ok { OnOk result (self.new ≡ finite.insert self.old (p.now, (date.now, claim.now, place)) tt) }
        ensures err { OnErr result (self.new ≡ self.old) }
        ensures ticks { steps.new ≡ steps.old + 1 }
    {
        steps.tick();
        let moment = moment_of(date, claim, place);
        self.rows.insert((*p, moment))?;
        Ok(())
    }

    /// The moments of p that are dated at or before that time, in their order. It looks up the first one and takes a
    /// step for each. `NoMemory` comes only if no memory is left for the list.
    pub fn until<L: Ledger>(
        &self,
        alloc: Global,
        p: &Ref,
        when: &When,
        steps: &mut Steps<L>,
    ) -> Result<Vec<Moment>, NoMemory>
        ensures moments { IfOk result (λ moments. moments.items ≡ moments_until self.now when.now p.now) }
        ensures ticks { steps.new ≤ steps.old + 1 + length (moments_until self.now when.now p.now) }
    {
        let mut moments = Vec::new(alloc);
        steps.tick();
        for key in self.rows.range((changes_start(p, None), Bound::Unbounded)) {
            if !is_until(key, p, when) {
                break;
            }
            steps.tick();
            push(&mut moments, &key.1)?;
        }
        Ok(moments)
    }

    /// The last of these moments; `None` exactly if there is none. It looks up the first one and takes a step for each.
    pub fn last_until<L: Ledger>(
        &self,
        p: &Ref,
        when: &When,
        steps: &mut Steps<L>,
    ) -> Option<Moment>
        ensures last { moments_until self.now when.now p.now ≡ moments_to self.now p.now result }
        ensures ticks { steps.new ≤ steps.old + 1 + length (moments_until self.now when.now p.now) }
    {
        let mut last = None;
        steps.tick();
        for key in self.rows.range((changes_start(p, None), Bound::Unbounded)) {
            if !is_until(key, p, when) {
                break;
            }
            steps.tick();
            last = Some(key.1);
        }
        last
    }

    /// The first moment of p after `after`, or the first of all if `after` is `None`; `None` exactly if there is none.
    pub fn next_of<L: Ledger>(
        &self,
        p: &Ref,
        after: Option<&Moment>,
        steps: &mut Steps<L>,
    ) -> Option<Moment>
        ensures next { IfSome result (λ k.
            changes_after self.now p.now (option_copied after.entry)
            ≡ ((p.now, k), tt) ∷ changes_after self.now p.now (Some k)) }
        ensures last { IfNone result (changes_after self.now p.now (option_copied after.entry) ≡ []) }
        ensures ticks { steps.new ≡ steps.old + 1 }
    {
        match self.next_from(p, after, steps) {
            Some(key) => if *p == key.0 { Some(key.1) } else { None },
            None => None,
        }
    }

    /// The last moment of p before another; `None` exactly if there is none.
    pub fn prev_of<L: Ledger>(
        &self,
        p: &Ref,
        before: &Moment,
        steps: &mut Steps<L>,
    ) -> Option<Moment>
        ensures prev { IfSome result (λ k. changes_before self.now p.now before.now
            ≡ changes_before self.now p.now k ++ ((p.now, k), tt) ∷ []) }
        ensures first { IfNone result (changes_before self.now p.now before.now ≡ []) }
        ensures ticks { steps.new ≡ steps.old + 1 }
    {
        match self.prev_from(p, before, steps) {
            Some(key) => if *p == key.0 { Some(key.1) } else { None },
            None => None,
        }
    }

    // The greatest key of p before a moment; if there is none, the greatest of a permanode below p.
    fn prev_from<L: Ledger>(
        &self,
        p: &Ref,
        before: &Moment,
        steps: &mut Steps<L>,
    ) -> Option<(Ref, Moment)>
        ensures prev { IfSome result (λ k. changes_below self.now (p.now, before.now)
            ≡ changes_below self.now k ++ (k, tt) ∷ []) }
        ensures first { IfNone result (changes_below self.now (p.now, before.now) ≡ []) }
        ensures ticks { steps.new ≡ steps.old + 1 }
    {
        steps.tick();
        match self
            .rows
            .range((Bound::Unbounded, Bound::Excluded((*p, *before))))
            .next_back()
        {
            Some(key) => Some(*key),
            None => None,
        }
    }

    // The least key of p after `after`, or at all; if there is none, the least of a permanode above p.
    fn next_from<L: Ledger>(
        &self,
        p: &Ref,
        after: Option<&Moment>,
        steps: &mut Steps<L>,
    ) -> Option<(Ref, Moment)>
        ensures next { IfSome result (λ k.
            changes_from self.now (changes_start p.now (option_copied after.entry))
            ≡ (k, tt) ∷ changes_above self.now k) }
        ensures last { IfNone result (changes_from self.now (changes_start p.now (option_copied after.entry)) ≡ []) }
        ensures valid { AllFromFirst self.now }
        ensures ticks { steps.new ≡ steps.old + 1 }
    {
        steps.tick();
        match self
            .rows
            .range((changes_start(p, after), Bound::Unbounded))
            .next()
        {
            Some(key) => Some(*key),
            None => None,
        }
    }
}

// Whether a key is of p, and its moment is dated at or before that time.
fn is_until(key: &(Ref, Moment), p: &Ref, when: &When) -> bool
    ensures { result ≡ is_until when.now p.now key.now }
{
    *p == key.0 && counts_at(when, &key.1)
}

// Whether the claim of a moment counts at that time.
fn counts_at(when: &When, moment: &Moment) -> bool
    ensures { result ≡ counts_at when.now moment.now.0 }
{
    match when {
        When::Always => true,
        When::At(now) => !(now.ns() < moment.0),
    }
}

fn push(moments: &mut Vec<Moment>, moment: &Moment) -> Result<(), NoMemory>
    ensures { OnOk result (moments.new.items ≡ moments.old.items ++ moment.now ∷ []) }
{
    moments.push(*moment)?;
    Ok(())
}

pub(crate) fn moment_of(date: &Date, claim: &Ref, place: u32) -> Moment
    ensures value { result ≡ (date.now, claim.now, place) }
    ensures first { IsFromFirst result }
{
    claim.is_from_least();
    (date.ns(), *claim, place)
}

// The bound at which the changes of p begin, or continue after a moment.
fn changes_start(p: &Ref, after: Option<&Moment>) -> Bound<(Ref, Moment)>
    ensures { result ≡ changes_start p.now (option_copied after.entry) }
{
    match after {
        Some(moment) => Bound::Excluded((*p, *moment)),
        None => Bound::Included((*p, (i128::MIN, Ref::least(), 0))),
    }
}
