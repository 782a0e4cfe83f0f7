//! The values of an attribute, and the date of the last change.
ghost use Rattle.std.specs.Prelude.{◌≡◌, ◌≤◌, ◌+◌, ◌*◌, IfOk, OnOk, map, option_and_then};
ghost use Rattle.std.specs.List.{sum_by};
ghost use Rattle.std.specs.FinMap.{get};
ghost use Rattle.index_rows.specs.Changes.{moments_until};
ghost use Rattle.index_rows.specs.Deletes.{row_deleted, tree_rows, Ringless};
ghost use Rattle.index_rows.specs.Values.{row_values, row_last_change, IsChange, IsListed};
ghost use Rattle.row_answers.specs.Moments.{claim_date, moment_steps, moment_values};

use blobref::{NoMemory, Ref, Text, TextList};
use edge_base::Steps;
use index_look::values::{apply_place, copied};
use index_rows::{Moment, Rows, deleted_at};
use schema_date::{Date, When};
use schema_fact::Kind;
use std::alloc::Global;
use std::sync::ledger::Ledger;

/// The values of an attribute of a permanode at that time, by the rows of its changes, whether it is deleted or not.
/// Each row of `deletes` must be that of a ready delete claim, and each row of `changes` that of a change of a genuine
/// claim. `NoMemory` comes only if no memory is left. It walks over the changes up to that time, and checks for each
/// whether its claim is deleted: at most 1 step, and for each change 6, and 6 for each row of a delete claim on its
/// claim, on these, and so on. For a claim without delete claims it is one look-up.
pub fn fold_at<L: Ledger>(
    alloc: Global,
    rows: &Rows,
    p: &Ref,
    attr: &str,
    when: &When,
    steps: &mut Steps<L>,
) -> Result<TextList, NoMemory>
    requires ringless { Ringless rows.now.facts.ordered rows.now.deletes }
    requires listed { IsListed rows.now.facts.ordered rows.now.state rows.now.changes }
    ensures values { IfOk result (λ texts.
        texts ≡ row_values rows.now.facts.ordered rows.now.deletes rows.now.changes when.now p.now attr.now) }
    ensures ticks { steps.new ≤ steps.old + 1 + sum_by (moment_steps rows.now.facts.ordered rows.now.deletes)
        (moments_until rows.now.changes when.now p.now) }
{
    let moments = rows.changes.until(alloc, p, when, steps)?;
    let mut found = Vec::new(alloc);
    for moment in &moments {
        apply_moment(rows, &mut found, p, moment, attr, when, steps)?;
    }
    copied(alloc, &found)
}

// Applies the change of a moment to the values of the attribute of p, unless its claim is deleted at that time.
fn apply_moment<'a, L: Ledger>(
    rows: &'a Rows,
    found: &mut Vec<&'a Text>,
    p: &Ref,
    moment: &Moment,
    attr: &str,
    when: &When,
    steps: &mut Steps<L>,
) -> Result<(), NoMemory>
    requires ringless { Ringless rows.now.facts.ordered rows.now.deletes }
    requires change { IsChange rows.now.facts.ordered rows.now.state p.now moment.now }
    ensures values { OnOk result (map (λ t. t.now) found.new.items
        ≡ moment_values rows.now.facts.ordered rows.now.deletes when.now attr.now
        (map (λ t. t.now) found.old.items) moment.now) }
    ensures ticks { steps.new ≤ steps.old + 5 + 6 * tree_rows rows.now.facts.ordered rows.now.deletes moment.now.1 }
{
    if is_out(rows, &moment.1, when, steps) {
        return Ok(());
    }
    let place = moment.2 as usize;
    apply_place(&rows.facts.ordered, found, &moment.1, place, attr, steps)
}

// Whether a claim is deleted at that time. If no delete claim on it has a row, that is one look-up.
fn is_out<L: Ledger>(rows: &Rows, claim: &Ref, when: &When, steps: &mut Steps<L>) -> bool
    requires { Ringless rows.now.facts.ordered rows.now.deletes }
    ensures out { result ≡ row_deleted rows.now.facts.ordered rows.now.deletes when.now claim.now }
    ensures ticks { steps.new ≤ steps.old + 4 + 6 * tree_rows rows.now.facts.ordered rows.now.deletes claim.now }
{
    match rows.deletes.next_of(claim, None, steps) {
        Some(_) => deleted_at(rows, claim, when, steps),
        None => false,
    }
}

/// The date of the last change of a permanode that counts at that time, by the rows of its changes; `None` exactly
/// if none counts. The rows of `deletes` and `changes` must be as for `fold_at`. It walks over the changes up to that
/// time, and then back to the last one whose claim isn't deleted. It takes at most one step more than `fold_at`, and no
/// memory.
pub fn last_change_at<L: Ledger>(
    rows: &Rows,
    p: &Ref,
    when: &When,
    steps: &mut Steps<L>,
) -> Option<Date>
    requires ringless { Ringless rows.now.facts.ordered rows.now.deletes }
    requires listed { IsListed rows.now.facts.ordered rows.now.state rows.now.changes }
    ensures change { result ≡ row_last_change rows.now.facts.ordered rows.now.deletes rows.now.changes when.now p.now }
    ensures ticks { steps.new ≤ steps.old + 2 + sum_by (moment_steps rows.now.facts.ordered rows.now.deletes)
        (moments_until rows.now.changes when.now p.now) }
{
    let mut next = rows.changes.last_until(p, when, steps);
    'back: while let Some(moment) = next {
        if !is_out(rows, &moment.1, when, steps) {
            return date_at(rows, &moment.1, steps);
        }
        next = rows.changes.prev_of(p, &moment, steps);
    }
    None
}

// The date of the claim of a ref.
fn date_at<L: Ledger>(rows: &Rows, r: &Ref, steps: &mut Steps<L>) -> Option<Date>
    ensures date { result ≡ option_and_then (λ fact. claim_date fact.kind) (get rows.now.facts.ordered r.now) }
    ensures ticks { steps.new ≡ steps.old + 1 }
{
    match rows.facts.ordered.row(r, steps) {
        Some(fact) => claim_date(&fact.kind),
        None => None,
    }
}

fn claim_date(kind: &Kind) -> Option<Date>
    ensures { result ≡ claim_date kind.now }
{
    match kind {
        Kind::Claim { date, .. } => Some(*date),
        _ => None,
    }
}
