//! Deletion at a date, by a walk over the rows of delete claims.
ghost use Rattle.std.specs.Prelude.{◌≡◌, ◌≤◌, ◌+◌, ◌*◌};
ghost use Rattle.index_rows.specs.Counted.{has_deleters};
ghost use Rattle.index_rows.specs.Deletes.{Ringless, row_deleted, tree_rows, target_in, kind_target, what_target};

use crate::ref_rows::RefRows;
use crate::rows::{Rows, StateRow};
use blobref::Ref;
use edge_base::Steps;
use index_look::claim::{can_be_deleted_at, counts_at};
use schema_date::When;
use schema_fact::{Kind, What};
use std::sync::ledger::Ledger;

/// Whether a blob is deleted at that time, by the delete claims that have rows. Each row of `deletes` must be that of a
/// ready delete claim, so that no chain of them is a ring. It takes no memory and isn't recursive. It looks through the
/// delete claims on the blob, those on these, and so on, once each.
pub fn deleted_at<L: Ledger>(rows: &Rows, r: &Ref, when: &When, steps: &mut Steps<L>) -> bool
    requires { Ringless rows.now.facts.ordered rows.now.deletes }
    ensures deleted { result ≡ row_deleted rows.now.facts.ordered rows.now.deletes when.now r.now }
    ensures ticks { steps.new ≤ steps.old + 3 + 6 * tree_rows rows.now.facts.ordered rows.now.deletes r.now }
{
    if !can_be_deleted_at(&rows.facts.ordered, r, steps) {
        return false;
    }
    // `at` is the blob whose delete claims are looked through. Those up to `last` don't delete it.
    let mut at = *r;
    let mut last: Option<Ref> = None;
    'walk: loop {
        match rows.deletes.next_of(&at, last.as_ref(), steps) {
            Some((d, date)) => {
                if counts_at(when, &date) {
                    at = d;
                    last = None;
                } else {
                    last = Some(d);
                }
            }
            None => {
                if at == *r {
                    return false;
                }
                let y = target_in(rows, &at, steps);
                if y == *r {
                    return true;
                }
                at = target_in(rows, &y, steps);
                last = Some(y);
            }
        }
    }
}

/// Whether the row of a ref counts some delete claim. One look-up.
pub fn has_deleters<L: Ledger>(state: &RefRows<StateRow>, r: &Ref, steps: &mut Steps<L>) -> bool
    ensures some { result ≡ has_deleters state.now r.now }
    ensures ticks { steps.new ≡ steps.old + 1 }
{
    match state.row(r, steps) {
        Some(row) => 0 < row.deleters,
        None => false,
    }
}

// The target of a delete claim; for any other ref, the ref itself.
fn target_in<L: Ledger>(rows: &Rows, y: &Ref, steps: &mut Steps<L>) -> Ref
    ensures target { result ≡ target_in rows.now.facts.ordered y.now }
    ensures ticks { steps.new ≡ steps.old + 1 }
{
    match rows.facts.ordered.row(y, steps) {
        Some(fact) => kind_target(y, &fact.kind),
        None => *y,
    }
}

fn kind_target(y: &Ref, kind: &Kind) -> Ref
    ensures { result ≡ kind_target y.now kind.now }
{
    match kind {
        Kind::Claim { what, .. } => what_target(y, what),
        _ => *y,
    }
}

fn what_target(y: &Ref, what: &What) -> Ref
    ensures { result ≡ what_target y.now what.now }
{
    match what {
        What::Delete { target } => *target,
        _ => *y,
    }
}
