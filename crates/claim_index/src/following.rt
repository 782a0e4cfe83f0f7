//! How a change that has its row is taken up: the rows of its values are written at once, if that is enough.
ghost use Rattle.std.specs.Prelude.{◌≡◌, ◌≤◌, ◌+◌, ◌*◌, ℕ, OnOk, IfOk, false, true};
ghost use Rattle.schema_fact.specs.Changes.{changes_of};
ghost use Rattle.claim_index.specs.Following.{change_by, kind_change, only_change, CanBeFollowed, IsFollowed};
ghost use Rattle.claim_index.specs.Following.{is_addition, kind_addition, CanBeSettled, IsFolded, IsNumbered, IsSeen};
ghost use Rattle.claim_index.specs.Following.{IsTaken};
ghost use Rattle.claim_index.specs.Additions.{IsFree};
ghost use Rattle.index_rows.specs.Counted.{IsCounted};
ghost use Rattle.index_rows.specs.Values.{IsListed};

use crate::touching::{concern, concern_kind};
use attr_fold::{follow, settle};
use blobref::{NoMemory, Ref, RefList};
use edge_base::Steps;
use index_rows::{Moment, OrderedFacts, Rows};
use row_answers::says_genuine;
use schema_date::Date;
use schema_fact::{Kind, What};
use std::alloc::Global;
use std::sync::ledger::Ledger;

// Appends the permanodes that the claim x changes to the list. If only x became ready, the effect of its change is
// written at once instead, if that is enough.
pub(crate) fn take_changes<L: Ledger>(
    alloc: Global,
    rows: &mut Rows,
    x: &Ref,
    alone: bool,
    concerned: &mut RefList,
    steps: &mut Steps<L>,
) -> Result<(), NoMemory>
    requires { alone ≡ true → CanBeFollowed rows.old x.now }
    ensures facts { rows.new.facts ≡ rows.old.facts }
    ensures state { rows.new.state ≡ rows.old.state }
    ensures waiters { rows.new.waiters ≡ rows.old.waiters }
    ensures deletes { rows.new.deletes ≡ rows.old.deletes }
    ensures changes { rows.new.changes ≡ rows.old.changes }
    ensures removals { rows.new.removals ≡ rows.old.removals }
    ensures taken { OnOk result (IsTaken rows.old rows.new.holders x.now concerned.old concerned.new) }
    ensures ticks { alone ≡ false → steps.new ≤ steps.old + 2 }
    ensures more_ticks { (n : ℕ) → IsNumbered rows.old.facts.ordered rows.old.changes x.now n
        → steps.new ≤ steps.old + 10 + 4 * n }
    ensures same { alone ≡ true → IsFree rows.old.facts.ordered rows.old.removals x.now
        → OnOk result (concerned.new ≡ concerned.old) }
    ensures few_ticks { alone ≡ true → IsFree rows.old.facts.ordered rows.old.removals x.now
        → steps.new ≤ steps.old + 9 }
{
    if !alone {
        return concern(rows, x, concerned, steps);
    }
    if follow_claim(alloc, rows, x, steps)? {
        return Ok(());
    }
    concern(rows, x, concerned, steps)
}

// Writes the effect of the change of the claim x, if it has only one and its effect can be found without a fold.
fn follow_claim<L: Ledger>(
    alloc: Global,
    rows: &mut Rows,
    x: &Ref,
    steps: &mut Steps<L>,
) -> Result<bool, NoMemory>
    requires { CanBeFollowed rows.old x.now }
    ensures facts { rows.new.facts ≡ rows.old.facts }
    ensures state { rows.new.state ≡ rows.old.state }
    ensures waiters { rows.new.waiters ≡ rows.old.waiters }
    ensures deletes { rows.new.deletes ≡ rows.old.deletes }
    ensures changes { rows.new.changes ≡ rows.old.changes }
    ensures removals { rows.new.removals ≡ rows.old.removals }
    ensures followed { IfOk result (λ done. done ≡ true → IsFollowed rows.old rows.new.holders x.now) }
    ensures left { IfOk result (λ done. done ≡ false → rows.new.holders ≡ rows.old.holders) }
    ensures ticks { (n : ℕ) → IsNumbered rows.old.facts.ordered rows.old.changes x.now n
        → steps.new ≤ steps.old + 8 + 4 * n }
    ensures done { IsFree rows.old.facts.ordered rows.old.removals x.now → IfOk result (λ done. done ≡ true) }
    ensures few_ticks { IsFree rows.old.facts.ordered rows.old.removals x.now → steps.new ≤ steps.old + 9 }
{
    let Some(change) = change_by(&rows.facts.ordered, x, steps) else {
        return Ok(false);
    };
    follow(alloc, rows, &change.0, &change.1, steps)
}

// Writes the effect of a changed deletion of y, if y is a claim that only adds one value. Otherwise it appends the
// permanodes that y concerns to the list.
pub(crate) fn settle_or_concern<L: Ledger>(
    alloc: Global,
    rows: &mut Rows,
    y: &Ref,
    concerned: &mut RefList,
    steps: &mut Steps<L>,
) -> Result<(), NoMemory>
    requires counted { IsCounted rows.old.facts.ordered rows.old.deletes rows.old.state }
    requires listed { IsListed rows.old.facts.ordered rows.old.state rows.old.changes }
    requires able { CanBeSettled rows.old }
    ensures facts { rows.new.facts ≡ rows.old.facts }
    ensures state { rows.new.state ≡ rows.old.state }
    ensures waiters { rows.new.waiters ≡ rows.old.waiters }
    ensures deletes { rows.new.deletes ≡ rows.old.deletes }
    ensures changes { rows.new.changes ≡ rows.old.changes }
    ensures removals { rows.new.removals ≡ rows.old.removals }
    ensures seen { OnOk result
        (IsSeen rows.old rows.new.holders y.now concerned.old concerned.new steps.old steps.new) }
    ensures ticks { (n : ℕ) → IsFolded rows.old.facts.ordered rows.old.state rows.old.changes y.now n
        → steps.new ≤ steps.old + 2 + n }
{
    let Some(fact) = rows.facts.ordered.row(y, steps) else {
        return Ok(());
    };
    let Some(change) = kind_addition(y, &fact.kind) else {
        return concern_kind(&rows.state, y, &fact.kind, concerned, steps);
    };
    if !says_genuine(&rows.state, y, steps) {
        return Ok(());
    }
    settle(alloc, rows, &change.0, &change.1, steps)?;
    Ok(())
}

// The permanode that the claim x changes, and the moment of the change, if x has only one.
fn change_by<L: Ledger>(
    facts: &OrderedFacts,
    x: &Ref,
    steps: &mut Steps<L>,
) -> Option<(Ref, Moment)>
    ensures change { result ≡ change_by facts.now x.now }
    ensures ticks { steps.new ≡ steps.old + 1 }
{
    match facts.row(x, steps) {
        Some(fact) => kind_change(x, &fact.kind),
        None => None,
    }
}

fn kind_change(x: &Ref, kind: &Kind) -> Option<(Ref, Moment)>
    ensures { result ≡ kind_change x.now kind.now }
{
    match kind {
        Kind::Claim { date, what, .. } => only_change(x, date, what),
        _ => None,
    }
}

fn only_change(x: &Ref, date: &Date, what: &What) -> Option<(Ref, Moment)>
    ensures { result ≡ only_change x.now date.now (changes_of what.now) }
{
    if what.change_count() != 1 {
        return None;
    }
    match what.change(0) {
        Some(change) => Some((*change.on, (date.ns(), *x, 0))),
        None => None,
    }
}

// The permanode to which a blob x of this kind adds a value, and the moment of the change, if it is a claim that does
// only this.
fn kind_addition(x: &Ref, kind: &Kind) -> Option<(Ref, Moment)>
    ensures { result ≡ kind_addition x.now kind.now }
{
    if is_addition(kind) {
        kind_change(x, kind)
    } else {
        None
    }
}

fn is_addition(kind: &Kind) -> bool
    ensures { result ≡ is_addition kind.now }
{
    match kind {
        Kind::Claim { what, .. } => match what {
            What::Add { .. } => true,
            _ => false,
        },
        _ => false,
    }
}
