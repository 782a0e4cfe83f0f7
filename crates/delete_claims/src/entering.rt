//! Delete claims that are entered, one after another.
ghost use Rattle.std.specs.Prelude.{◌≡◌, ◌≤◌, ◌+◌, ◌*◌, IfOk, length};
ghost use Rattle.index_rows.specs.Counted.{IsCounted};
ghost use Rattle.delete_claims.specs.Flipping.{IsFront};
ghost use Rattle.delete_claims.specs.Entered.{delete_in, entered_targets, IsNewDelete, IsEntered};

use crate::flipping::flip_from;
use blobref::{NoMemory, Ref, RefList};
use edge_base::Steps;
use index_rows::{OrderedFacts, Rows, has_deleters};
use schema_date::Date;
use schema_fact::{Kind, What};
use std::alloc::Global;
use std::sync::ledger::Ledger;

/// Enters a delete claim: puts its row, and counts it at its target if it isn't deleted itself. Returns the refs whose
/// deletion at `When::Always` this changed, each once: they are now deleted and weren't, or were and aren't.
///
/// The counts of delete claims must be right for the rows of `deletes`. The claim must be ready, it and its target must
/// have arrived, and it must have no row. After `Ok` it has its row, the counts are right again, and no other row and
/// no other column of `state` changed. After `NoMemory` the tables `deletes` and `state` may be anything, and the other
/// tables are unchanged.
///
/// A target whose deletion changes may itself be a delete claim that counted, or now counts, at its own target, and so
/// on from target to target. It takes at most 3 look-ups and changes for the claim, and 4 for each target up to the
/// first whose deletion doesn't change, even if it ends with `NoMemory`. Let each of n delete claims delete the one
/// before it. Entered in this order, the last one looks at up to n targets, and all of them at up to n^2. Entered in
/// the reverse order, each looks at one.
pub fn enter<L: Ledger>(
    alloc: Global,
    rows: &mut Rows,
    d: &Ref,
    steps: &mut Steps<L>,
) -> Result<RefList, NoMemory>
    requires counted { IsCounted rows.old.facts.ordered rows.old.deletes rows.old.state }
    requires fresh { IsNewDelete rows.old.facts.ordered rows.old.deletes rows.old.state d.now }
    ensures facts { rows.new.facts ≡ rows.old.facts }
    ensures waiters { rows.new.waiters ≡ rows.old.waiters }
    ensures changes { rows.new.changes ≡ rows.old.changes }
    ensures removals { rows.new.removals ≡ rows.old.removals }
    ensures holders { rows.new.holders ≡ rows.old.holders }
    ensures entered { IfOk result (λ changed.
        IsEntered rows.old.facts.ordered rows.old.deletes rows.new.deletes rows.old.state rows.new.state
        d.now changed) }
    ensures front { IfOk result (λ changed.
        IsFront changed (entered_targets rows.old.facts.ordered rows.old.deletes d.now)) }
    ensures ticks { steps.new ≤ steps.old
        + 3 + 4 * length (entered_targets rows.old.facts.ordered rows.old.deletes d.now) }
{
    let Some((target, date)) = delete_in(&rows.facts.ordered, d, steps) else {
        unreachable!()
    };
    rows.deletes.put(&target, d, date, steps)?;
    if has_deleters(&rows.state, d, steps) {
        return Ok(RefList::empty(alloc));
    }
    flip_from(
        alloc,
        &rows.facts.ordered,
        &mut rows.state,
        &rows.deletes,
        &target,
        steps,
    )
}

// The target and the date of a delete claim.
fn delete_in<L: Ledger>(facts: &OrderedFacts, d: &Ref, steps: &mut Steps<L>) -> Option<(Ref, Date)>
    ensures value { result ≡ delete_in facts.now d.now }
    ensures ticks { steps.new ≡ steps.old + 1 }
{
    match &facts.row(d, steps)?.kind {
        Kind::Claim {
            date,
            what: What::Delete { target },
            ..
        } => Some((*target, *date)),
        _ => None,
    }
}
