//! How a ref that became ready is judged.
ghost use Rattle.std.specs.Prelude.{◌≡◌, ◌≤◌, ◌+◌, ◌*◌, ◌&&◌, ◌||◌, ◌∷◌, ℕ, List, length, IfOk, OnOk, nat_eq};
ghost use Rattle.std.specs.Prelude.{option_map};
ghost use Rattle.std.specs.Ordering.{is_eq, int_cmp};
ghost use Rattle.schema_fact.specs.Changes.{change_seen, changes_of};
ghost use Rattle.std.specs.Str.{bytes_eq};
ghost use Rattle.std.specs.FinMap.{get, contains_key};
ghost use Rattle.schema_fact.specs.Validity.{HasValidChanges, IsValidKind};
ghost use Rattle.claim_model.specs.Facts.{Facts, passes};
ghost use Rattle.claim_model.specs.Claims.{Moment};
ghost use Rattle.index_meaning.specs.Meaning.{is_change_on, IsJudged, IsChangesOf};
ghost use Rattle.claim_index.specs.Judging.{is_change_by, is_removal_by, is_removal_on, judged_in, kind_judged, marked};
ghost use Rattle.claim_index.specs.Judging.{what_judged, with_marks};
ghost use Rattle.index_rows.specs.Touched.{kind_changes};
ghost use Rattle.claim_index.specs.Costs.{judge_steps};
ghost use Rattle.claim_index.specs.Judging.{IsMarked, IsChanged, HasRemovals, CanJudge};
ghost use Rattle.index_rows.specs.Removals.{AreRemovals, has_mark};

use crate::genuine::is_signed;
use crate::soundness::parts_fit;
use blobref::{NoMemory, Ref};
use claim_verify::Verifier;
use edge_base::Steps;
use index_rows::{ChangeRows, RefRows, RemovalRows, Rows, StateRow, removal_mark};
use schema_date::Date;
use schema_fact::{ChangeView, Kind, What};
use std::sync::ledger::Ledger;

// What an index has to do for a ref that was judged.
#[derive(Clone, Copy)]
pub(crate) enum Judged {
    // Neither a genuine permanode nor a genuine claim.
    Nothing,
    // A genuine permanode.
    Permanode,
    // A genuine delete claim.
    Delete,
    // A genuine attribute claim.
    Changes,
}

// Judges a ref that became ready, after its dependencies were judged: from then on its row of `state` says whether it
// is genuine and whether it is a sound tree, and the changes of a genuine attribute claim have their rows. Returns what
// the ref is, which determines the work that is left for it. Facts, and the tables that aren't named here, stay.
// `NoMemory` comes only if no memory is left, and then the rows of `state`, `changes` and `removals` may be anything.
// It takes at most 4 steps for the fact, its signer and its row, 2 for the origin of each part, and 2 for each change
// of a genuine claim.
pub(crate) fn judge<V: Verifier, L: Ledger>(
    rows: &mut Rows,
    keys: &V,
    x: &Ref,
    steps: &mut Steps<L>,
) -> Result<Judged, NoMemory>
    ensures facts { rows.new.facts ≡ rows.old.facts }
    ensures waiters { rows.new.waiters ≡ rows.old.waiters }
    ensures deletes { rows.new.deletes ≡ rows.old.deletes }
    ensures holders { rows.new.holders ≡ rows.old.holders }
    ensures state { OnOk result
        (IsMarked rows.old.facts.ordered (V.accepts keys.now) rows.old.state rows.new.state x.now) }
    ensures changes { OnOk result
        (IsChanged rows.old.facts.ordered (V.accepts keys.now) rows.old.changes rows.new.changes x.now) }
    ensures removals { OnOk result (AreRemovals rows.old.facts.ordered rows.old.changes rows.old.removals
        → AreRemovals rows.old.facts.ordered rows.new.changes rows.new.removals) }
    ensures answer { IfOk result (λ judged. judged ≡ judged_in rows.old.facts.ordered (V.accepts keys.now) x.now) }
    ensures judged { OnOk result ((facts : Facts) (left : List (List ℕ))
        → CanJudge facts rows.old.facts.ordered rows.old.state left x.now
        → IsJudged facts (V.accepts keys.now) (x.now ∷ left) rows.old.state
        → IsJudged facts (V.accepts keys.now) left rows.new.state) }
    ensures changed { OnOk result ((facts : Facts) (left : List (List ℕ))
        → CanJudge facts rows.old.facts.ordered rows.old.state left x.now
        → IsChangesOf facts (V.accepts keys.now) (x.now ∷ left) rows.old.changes
        → IsChangesOf facts (V.accepts keys.now) left rows.new.changes) }
    ensures ticks { steps.new ≤ steps.old + judge_steps rows.old.facts.ordered (V.accepts keys.now) x.now }
{
    look_into(rows, keys, x, steps)
}

// Writes into the tables what is found about x.
fn look_into<V: Verifier, L: Ledger>(
    rows: &mut Rows,
    keys: &V,
    x: &Ref,
    steps: &mut Steps<L>,
) -> Result<Judged, NoMemory>
    ensures facts { rows.new.facts ≡ rows.old.facts }
    ensures waiters { rows.new.waiters ≡ rows.old.waiters }
    ensures deletes { rows.new.deletes ≡ rows.old.deletes }
    ensures holders { rows.new.holders ≡ rows.old.holders }
    ensures state { OnOk result
        (IsMarked rows.old.facts.ordered (V.accepts keys.now) rows.old.state rows.new.state x.now) }
    ensures changes { OnOk result
        (IsChanged rows.old.facts.ordered (V.accepts keys.now) rows.old.changes rows.new.changes x.now) }
    ensures removals { OnOk result
        (HasRemovals rows.old.facts.ordered (V.accepts keys.now) rows.old.removals rows.new.removals x.now) }
    ensures answer { IfOk result (λ judged. judged ≡ judged_in rows.old.facts.ordered (V.accepts keys.now) x.now) }
    ensures ticks { steps.new ≤ steps.old + judge_steps rows.old.facts.ordered (V.accepts keys.now) x.now }
{
    let Some(fact) = rows.facts.ordered.row(x, steps) else {
        return Ok(Judged::Nothing);
    };
    let genuine = is_signed(&rows.facts.ordered, keys, fact, steps);
    let sound = parts_fit(&rows.facts.ordered, &rows.state, fact, steps);
    mark(&mut rows.state, x, genuine, sound, steps)?;
    if !genuine {
        return Ok(Judged::Nothing);
    }
    list_changes(&mut rows.changes, &mut rows.removals, x, &fact.kind, steps)?;
    Ok(kind_judged(&fact.kind))
}

// Writes into the row of x what was found about it.
fn mark<L: Ledger>(
    state: &mut RefRows<StateRow>,
    x: &Ref,
    genuine: bool,
    sound: bool,
    steps: &mut Steps<L>,
) -> Result<(), NoMemory>
    ensures marked { OnOk result ((y : List ℕ)
        → get state.new y ≡ marked (bytes_eq y x.now) genuine sound (get state.old y)) }
    ensures ticks { steps.new ≤ steps.old + 2 }
{
    if !genuine && !sound {
        return Ok(());
    }
    match state.row(x, steps) {
        Some(row) => {
            let row = with_marks(*row, genuine, sound);
            state.put(x, row, steps)
        }
        None => Ok(()),
    }
}

fn with_marks(row: StateRow, genuine: bool, sound: bool) -> StateRow
    ensures { result ≡ with_marks genuine sound row }
{
    StateRow {
        genuine,
        sound,
        ..row
    }
}

// Puts the rows of the changes of a genuine blob, if it is a claim.
fn list_changes<L: Ledger>(
    changes: &mut ChangeRows,
    removals: &mut RemovalRows,
    x: &Ref,
    kind: &Kind,
    steps: &mut Steps<L>,
) -> Result<(), NoMemory>
    requires { IsValidKind kind.now }
    ensures listed { OnOk result ((p : List ℕ) (k : Moment) → contains_key changes.new (p, k)
        ≡ (contains_key changes.old (p, k) || (bytes_eq k.1 x.now && is_change_on p k kind.now))) }
    ensures removed { OnOk result ((p : List ℕ) (mark : ℕ) (k : Moment) → contains_key removals.new (p, mark, k)
        ≡ (contains_key removals.old (p, mark, k) || (bytes_eq k.1 x.now && is_removal_on p mark k kind.now))) }
    ensures ticks { steps.new ≤ steps.old + 2 * length (kind_changes kind.now) }
{
    match kind {
        Kind::Claim { date, what, .. } => put_changes(changes, removals, x, date, what, steps),
        _ => Ok(()),
    }
}

// Puts a row for each change of a claim.
fn put_changes<L: Ledger>(
    changes: &mut ChangeRows,
    removals: &mut RemovalRows,
    claim: &Ref,
    date: &Date,
    what: &What,
    steps: &mut Steps<L>,
) -> Result<(), NoMemory>
    requires { HasValidChanges what.now }
    ensures listed { OnOk result ((p : List ℕ) (k : Moment) → contains_key changes.new (p, k)
        ≡ (contains_key changes.old (p, k) || (bytes_eq k.1 claim.now && is_change_by p k date.now what.now))) }
    ensures removed { OnOk result ((p : List ℕ) (mark : ℕ) (k : Moment) → contains_key removals.new (p, mark, k)
        ≡ (contains_key removals.old (p, mark, k)
        || (bytes_eq k.1 claim.now && is_removal_by p mark k date.now what.now))) }
    ensures ticks { steps.new ≤ steps.old + 2 * length (changes_of what.now) }
{
    for place in 0..what.change_count() {
        put_change(
            changes,
            removals,
            claim,
            date,
            what.change(place),
            place as u32,
            steps,
        )?;
    }
    Ok(())
}

fn put_change<L: Ledger>(
    changes: &mut ChangeRows,
    removals: &mut RemovalRows,
    claim: &Ref,
    date: &Date,
    change: Option<ChangeView<'_>>,
    place: u32,
    steps: &mut Steps<L>,
) -> Result<(), NoMemory>
    ensures listed { OnOk result ((p : List ℕ) (k : Moment) → contains_key changes.new (p, k)
        ≡ (contains_key changes.old (p, k) || (bytes_eq k.1 claim.now && (is_eq (int_cmp k.0 date.now)
        && (passes (λ c. bytes_eq p c.on) (option_map change_seen change.entry) && nat_eq k.2 place))))) }
    ensures removed { OnOk result ((p : List ℕ) (mark : ℕ) (k : Moment) → contains_key removals.new (p, mark, k)
        ≡ (contains_key removals.old (p, mark, k) || (bytes_eq k.1 claim.now && (is_eq (int_cmp k.0 date.now)
        && (passes (λ c. bytes_eq p c.on && has_mark mark c) (option_map change_seen change.entry)
        && nat_eq k.2 place))))) }
    ensures ticks { steps.new ≤ steps.old + 2 }
{
    match change {
        Some(change) => {
            changes.put(change.on, date, claim, place, steps)?;
            put_removal(removals, claim, date, &change, place, steps)
        }
        None => Ok(()),
    }
}

// Puts the row of a change into `removals`, if it may take values away.
fn put_removal<L: Ledger>(
    removals: &mut RemovalRows,
    claim: &Ref,
    date: &Date,
    change: &ChangeView<'_>,
    place: u32,
    steps: &mut Steps<L>,
) -> Result<(), NoMemory>
    ensures removed { OnOk result ((p : List ℕ) (mark : ℕ) (k : Moment) → contains_key removals.new (p, mark, k)
        ≡ (contains_key removals.old (p, mark, k) || (bytes_eq k.1 claim.now && (is_eq (int_cmp k.0 date.now)
        && ((bytes_eq p (change_seen change.now).on && has_mark mark (change_seen change.now))
        && nat_eq k.2 place))))) }
    ensures ticks { steps.new ≤ steps.old + 1 }
{
    match removal_mark(change) {
        Some(mark) => removals.put(change.on, mark, date, claim, place, steps),
        None => Ok(()),
    }
}

// The result for a genuine blob of this kind.
fn kind_judged(kind: &Kind) -> Judged
    ensures { result ≡ kind_judged kind.now }
{
    match kind {
        Kind::Permanode(_) => Judged::Permanode,
        Kind::Claim { what, .. } => what_judged(what),
        _ => Judged::Nothing,
    }
}

fn what_judged(what: &What) -> Judged
    ensures { result ≡ what_judged what.now }
{
    match what {
        What::Delete { .. } => Judged::Delete,
        _ => Judged::Changes,
    }
}
