//! Counts that change one after another, from target to target.
ghost use Rattle.std.specs.Prelude.{◌≡◌, ◌<◌, ◌≤◌, ◌+◌, ◌*◌, ◌^◌, [], Some, true, false, IfOk, length, option_copied};
ghost use Rattle.std.specs.FinMap.{get};
ghost use Rattle.index_rows.specs.Deletes.{row_stands};
ghost use Rattle.index_rows.specs.Touched.{targets_from};
ghost use Rattle.delete_claims.specs.Flipping.{deletable, row_target, CanRecount, IsRecounted, IsFront, Flipping, Flipped};

use blobref::{NoMemory, Ref, RefList};
use edge_base::Steps;
use index_look::claim::can_be_deleted;
use index_rows::{OrderedFacts, PairRows, RefRows, StateRow};
use schema_date::Date;
use schema_fact::{Kind, What};
use std::alloc::Global;
use std::sync::ledger::Ledger;

// Counts one more delete claim on `start`, and updates the counts that change by that. Returns the refs that are now
// deleted and weren't, or were and aren't.
pub(crate) fn flip_from<L: Ledger>(
    alloc: Global,
    facts: &OrderedFacts,
    state: &mut RefRows<StateRow>,
    deletes: &PairRows<Date>,
    start: &Ref,
    steps: &mut Steps<L>,
) -> Result<RefList, NoMemory>
    requires { Flipping facts.now deletes.now state.old state.old [] start.now true }
    ensures flipped { IfOk result (λ changed. Flipped facts.now deletes.now state.old state.new changed) }
    ensures front { IfOk result (λ changed.
        IsFront changed (targets_from facts.now (row_stands facts.now deletes.now) start.now)) }
    ensures ticks { steps.new ≤ steps.old
        + 4 * length (targets_from facts.now (row_stands facts.now deletes.now) start.now) }
{
    // No ref counts more than all of these rows, so each count fits in 64 bits.
    deletes.is_countable();
    let mut changed = RefList::empty(alloc);
    let mut at = *start;
    let mut up = true;
    'chain: loop {
        if !recount(state, &at, up, steps)? {
            return Ok(changed);
        }
        let Some(kind) = deletable(facts, &at, steps) else {
            return Ok(changed);
        };
        changed.push(at)?;
        let Some(target) = row_target(deletes, &at, kind, steps) else {
            return Ok(changed);
        };
        at = target;
        up = !up;
    }
}

// Counts one delete claim more or less, and returns whether it was the first one, or the last.
fn recount<L: Ledger>(
    state: &mut RefRows<StateRow>,
    at: &Ref,
    up: bool,
    steps: &mut Steps<L>,
) -> Result<bool, NoMemory>
    requires { CanRecount state.old at.now up }
    ensures recounted { IfOk result (λ flipped. IsRecounted state.old state.new at.now up flipped) }
    ensures ticks { steps.new ≡ steps.old + 2 }
{
    let row = row_of(state, at, up, steps);
    let deleters = if up {
        row.deleters + 1
    } else {
        row.deleters - 1
    };
    state.put(at, StateRow { deleters, ..row }, steps)?;
    Ok(deleters == if up { 1 } else { 0 })
}

fn row_of<L: Ledger>(
    state: &RefRows<StateRow>,
    at: &Ref,
    up: bool,
    steps: &mut Steps<L>,
) -> StateRow
    requires { CanRecount state.now at.now up }
    ensures row { get state.now at.now ≡ Some result }
    ensures more { up ≡ true → result.deleters + 1 < 2 ^ 64 }
    ensures less { up ≡ false → 0 < result.deleters }
    ensures ticks { steps.new ≡ steps.old + 1 }
{
    match state.row(at, steps) {
        Some(row) => *row,
        None => unreachable!(),
    }
}

// The kind of a ref, if it is a permanode or a claim.
fn deletable<'a, L: Ledger>(
    facts: &'a OrderedFacts,
    y: &Ref,
    steps: &mut Steps<L>,
) -> Option<&'a Kind>
    ensures kind { option_copied result ≡ deletable facts.now y.now }
    ensures ticks { steps.new ≡ steps.old + 1 }
{
    match facts.row(y, steps) {
        Some(fact) if can_be_deleted(&fact.kind) => Some(&fact.kind),
        _ => None,
    }
}

// The target of a delete claim that has a row.
fn row_target<L: Ledger>(
    deletes: &PairRows<Date>,
    d: &Ref,
    kind: &Kind,
    steps: &mut Steps<L>,
) -> Option<Ref>
    ensures target { result ≡ row_target deletes.now d.now kind.now }
    ensures ticks { steps.new ≤ steps.old + 1 }
{
    match kind {
        Kind::Claim {
            what: What::Delete { target },
            ..
        } if deletes.row(target, d, steps).is_some() => Some(*target),
        _ => None,
    }
}
