//! The rows of the values that a permanode has, after a new change that is earlier than others.
ghost use Rattle.std.specs.Prelude.{◌≡◌, ◌≤◌, ◌+◌, ◌*◌, ◌∷◌, [], ℕ, List, length, Some, None, suc, true, false, IfOk};
ghost use Rattle.std.specs.Prelude.{OnOk, not};
ghost use Rattle.std.specs.Prelude.{if◌then◌else◌};
ghost use Rattle.std.specs.List.{list_any};
ghost use Rattle.schema_fact.specs.Changes.{change_seen};
ghost use Rattle.schema_fact.specs.declared.changes.Act.TheVariants.{Add as adds, Del as removes};
ghost use Rattle.schema_fact.specs.declared.changes.Change.{Change};
ghost use Rattle.index_rows.specs.Changes.{changes_after};
ghost use Rattle.index_rows.specs.Counted.{IsCounted};
ghost use Rattle.index_rows.specs.Removals.{AreRemovals, removals_after};
ghost use Rattle.index_rows.specs.Values.{change_at, IsChange, IsListed};
ghost use Rattle.attr_fold.specs.Following.{added_from, counted, counted_after, counted_before, counted_under};
ghost use Rattle.attr_fold.specs.Following.{decides, is_addition, taking_steps, takes, IsSettled};

use crate::following::is_end;
use blobref::{NoMemory, Ref};
use edge_base::Steps;
use index_look::claim::change_said;
use index_rows::{HolderKey, Moment, Rows, has_deleters, mark_of, one_more};
use schema_fact::{Act, ChangeView};
use std::alloc::Global;
use std::sync::ledger::Ledger;

// Writes the effect of the change of a moment, after which others of p may come. It can't if the change leaves none of
// the earlier values of its attribute, and no later change that counts does so again.
pub(crate) fn follow_late<L: Ledger>(
    alloc: Global,
    rows: &mut Rows,
    p: &Ref,
    moment: &Moment,
    steps: &mut Steps<L>,
) -> Result<bool, NoMemory>
    requires counted { IsCounted rows.old.facts.ordered rows.old.deletes rows.old.state }
    requires listed { IsListed rows.old.facts.ordered rows.old.state rows.old.changes }
    requires taken { AreRemovals rows.old.facts.ordered rows.old.changes rows.old.removals }
    ensures facts { rows.new.facts ≡ rows.old.facts }
    ensures state { rows.new.state ≡ rows.old.state }
    ensures waiters { rows.new.waiters ≡ rows.old.waiters }
    ensures deletes { rows.new.deletes ≡ rows.old.deletes }
    ensures changes { rows.new.changes ≡ rows.old.changes }
    ensures removals { rows.new.removals ≡ rows.old.removals }
    ensures settled { IfOk result (λ done. done ≡ true → (c : Change)
        → change_at rows.old.facts.ordered moment.now ≡ Some c
        → IsSettled p.now c
        (counted_before rows.old.facts.ordered rows.old.deletes rows.old.changes p.now moment.now)
        (counted_after rows.old.facts.ordered rows.old.deletes rows.old.changes p.now moment.now)
        rows.old.holders rows.new.holders) }
    ensures left { IfOk result (λ done. done ≡ false → rows.new.holders ≡ rows.old.holders) }
    ensures ticks { steps.new ≤ steps.old + 4
        + 3 * length (changes_after rows.old.changes p.now (Some moment.now)) }
    ensures done { (c : Change) → change_at rows.old.facts.ordered moment.now ≡ Some c → c.act ≡ adds
        → IfOk result (λ done. done ≡ true) }
    ensures added { (c : Change) → change_at rows.old.facts.ordered moment.now ≡ Some c → c.act ≡ adds
        → steps.new ≤ steps.old + 4 + taking_steps rows.old.removals p.now c.attr c.value moment.now }
{
    let Some(change) = change_said(&rows.facts.ordered, &moment.1, moment.2 as usize, steps) else {
        return Ok(false);
    };
    let act = change.act;
    let key = HolderKey::copy(alloc, change.attr.as_str(), change.value.as_str(), p)?;
    write_late(rows, moment, act, key, steps)
}

// Writes the effect of a change of the key's permanode, after which others may come.
fn write_late<L: Ledger>(
    rows: &mut Rows,
    moment: &Moment,
    act: Act,
    key: HolderKey,
    steps: &mut Steps<L>,
) -> Result<bool, NoMemory>
    requires counted { IsCounted rows.old.facts.ordered rows.old.deletes rows.old.state }
    requires listed { IsListed rows.old.facts.ordered rows.old.state rows.old.changes }
    requires taken { AreRemovals rows.old.facts.ordered rows.old.changes rows.old.removals }
    ensures facts { rows.new.facts ≡ rows.old.facts }
    ensures state { rows.new.state ≡ rows.old.state }
    ensures waiters { rows.new.waiters ≡ rows.old.waiters }
    ensures deletes { rows.new.deletes ≡ rows.old.deletes }
    ensures changes { rows.new.changes ≡ rows.old.changes }
    ensures removals { rows.new.removals ≡ rows.old.removals }
    ensures settled { IfOk result (λ done. done ≡ true → (on : List ℕ)
        → IsSettled key.2 (record { on = on; act = act; attr = key.0; value = key.1 })
        (counted_before rows.old.facts.ordered rows.old.deletes rows.old.changes key.2 moment.now)
        (counted_after rows.old.facts.ordered rows.old.deletes rows.old.changes key.2 moment.now)
        rows.old.holders rows.new.holders) }
    ensures left { IfOk result (λ done. done ≡ false → rows.new.holders ≡ rows.old.holders) }
    ensures ticks { steps.new ≤ steps.old + 3
        + 3 * length (changes_after rows.old.changes key.2 (Some moment.now)) }
    ensures done { act ≡ adds → IfOk result (λ done. done ≡ true) }
    ensures added { act ≡ adds
        → steps.new ≤ steps.old + 3 + taking_steps rows.old.removals key.2 key.0 key.1 moment.now }
{
    match act {
        Act::Set => Ok(is_emptied_after(rows, moment, &key, steps)),
        Act::Add => {
            add_late(rows, moment, key, steps)?;
            Ok(true)
        }
        Act::Del => remove_late(rows, moment, key, steps),
    }
}

// Raises the number of a value that is added, unless a later change that counts takes it away or sets the attribute to
// it.
fn add_late<L: Ledger>(
    rows: &mut Rows,
    moment: &Moment,
    key: HolderKey,
    steps: &mut Steps<L>,
) -> Result<(), NoMemory>
    requires counted { IsCounted rows.old.facts.ordered rows.old.deletes rows.old.state }
    requires listed { IsListed rows.old.facts.ordered rows.old.state rows.old.changes }
    requires taken { AreRemovals rows.old.facts.ordered rows.old.changes rows.old.removals }
    ensures facts { rows.new.facts ≡ rows.old.facts }
    ensures state { rows.new.state ≡ rows.old.state }
    ensures waiters { rows.new.waiters ≡ rows.old.waiters }
    ensures deletes { rows.new.deletes ≡ rows.old.deletes }
    ensures changes { rows.new.changes ≡ rows.old.changes }
    ensures removals { rows.new.removals ≡ rows.old.removals }
    ensures settled { OnOk result ((on : List ℕ)
        → IsSettled key.2 (record { on = on; act = adds; attr = key.0; value = key.1 })
        (counted_before rows.old.facts.ordered rows.old.deletes rows.old.changes key.2 moment.now)
        (counted_after rows.old.facts.ordered rows.old.deletes rows.old.changes key.2 moment.now)
        rows.old.holders rows.new.holders) }
    ensures ticks { steps.new ≤ steps.old + 3
        + 3 * length (changes_after rows.old.changes key.2 (Some moment.now)) }
    ensures added { steps.new ≤ steps.old + 3 + taking_steps rows.old.removals key.2 key.0 key.1 moment.now }
{
    if is_taken_after(rows, moment, &key, steps) {
        return Ok(());
    }
    rows.holders.raise(key, steps)
}

// Gives a value that is removed the number of later changes that count and add it, unless one that counts takes it away
// or sets the attribute to it; an empty value means all values. Returns whether it could.
fn remove_late<L: Ledger>(
    rows: &mut Rows,
    moment: &Moment,
    key: HolderKey,
    steps: &mut Steps<L>,
) -> Result<bool, NoMemory>
    requires counted { IsCounted rows.old.facts.ordered rows.old.deletes rows.old.state }
    requires listed { IsListed rows.old.facts.ordered rows.old.state rows.old.changes }
    requires taken { AreRemovals rows.old.facts.ordered rows.old.changes rows.old.removals }
    ensures facts { rows.new.facts ≡ rows.old.facts }
    ensures state { rows.new.state ≡ rows.old.state }
    ensures waiters { rows.new.waiters ≡ rows.old.waiters }
    ensures deletes { rows.new.deletes ≡ rows.old.deletes }
    ensures changes { rows.new.changes ≡ rows.old.changes }
    ensures removals { rows.new.removals ≡ rows.old.removals }
    ensures settled { IfOk result (λ done. done ≡ true → (on : List ℕ)
        → IsSettled key.2 (record { on = on; act = removes; attr = key.0; value = key.1 })
        (counted_before rows.old.facts.ordered rows.old.deletes rows.old.changes key.2 moment.now)
        (counted_after rows.old.facts.ordered rows.old.deletes rows.old.changes key.2 moment.now)
        rows.old.holders rows.new.holders) }
    ensures left { IfOk result (λ done. done ≡ false → rows.new.holders ≡ rows.old.holders) }
    ensures ticks { steps.new ≤ steps.old + 3
        + 3 * length (changes_after rows.old.changes key.2 (Some moment.now)) }
{
    if key.value().is_empty() {
        return Ok(is_emptied_after(rows, moment, &key, steps));
    }
    if !rows.holders.has(&key, steps) {
        return Ok(true);
    }
    match added_after(rows, moment, &key, steps)? {
        Some(times) => rows.holders.set(key, times, steps)?,
        None => {}
    }
    Ok(true)
}

// Whether a later change that counts leaves no value of the key's attribute that was there before it.
fn is_emptied_after<L: Ledger>(
    rows: &Rows,
    moment: &Moment,
    key: &HolderKey,
    steps: &mut Steps<L>,
) -> bool
    requires counted { IsCounted rows.now.facts.ordered rows.now.deletes rows.now.state }
    requires listed { IsListed rows.now.facts.ordered rows.now.state rows.now.changes }
    requires taken { AreRemovals rows.now.facts.ordered rows.now.changes rows.now.removals }
    ensures emptied { result ≡ list_any (decides true key.now.0 key.now.1)
        (counted_after rows.now.facts.ordered rows.now.deletes rows.now.changes key.now.2 moment.now) }
    ensures ticks { steps.new ≤ steps.old + 1
        + 3 * length (changes_after rows.now.changes key.now.2 (Some moment.now)) }
{
    let mark = mark_of(key.attr(), "");
    is_decided_under(rows, moment, mark, key, true, steps)
}

// Whether a later change that counts takes the key's value away, or sets its attribute to it.
pub(crate) fn is_taken_after<L: Ledger>(
    rows: &Rows,
    moment: &Moment,
    key: &HolderKey,
    steps: &mut Steps<L>,
) -> bool
    requires counted { IsCounted rows.now.facts.ordered rows.now.deletes rows.now.state }
    requires listed { IsListed rows.now.facts.ordered rows.now.state rows.now.changes }
    requires taken { AreRemovals rows.now.facts.ordered rows.now.changes rows.now.removals }
    ensures taken { result ≡ list_any (takes key.now.0 key.now.1)
        (counted_after rows.now.facts.ordered rows.now.deletes rows.now.changes key.now.2 moment.now) }
    ensures ticks { steps.new ≤ steps.old + 2
        + 3 * length (changes_after rows.now.changes key.now.2 (Some moment.now)) }
    ensures added { steps.new ≤ steps.old + 2
        + taking_steps rows.now.removals key.now.2 key.now.0 key.now.1 moment.now }
{
    let all = mark_of(key.attr(), "");
    let own = mark_of(key.attr(), key.value());
    if is_decided_under(rows, moment, all, key, false, steps) {
        return true;
    }
    if own == all {
        return false;
    }
    is_decided_under(rows, moment, own, key, false, steps)
}

// Whether a later removal under the mark that counts decides by itself whether the key's value is there, or with `all`
// whether any value of the key's attribute is.
fn is_decided_under<L: Ledger>(
    rows: &Rows,
    moment: &Moment,
    mark: u32,
    key: &HolderKey,
    all: bool,
    steps: &mut Steps<L>,
) -> bool
    requires counted { IsCounted rows.now.facts.ordered rows.now.deletes rows.now.state }
    requires listed { IsListed rows.now.facts.ordered rows.now.state rows.now.changes }
    requires taken { AreRemovals rows.now.facts.ordered rows.now.changes rows.now.removals }
    ensures decided { result ≡ list_any (decides all key.now.0 key.now.1)
        (counted_under rows.now.facts.ordered rows.now.deletes rows.now.removals key.now.2 mark moment.now) }
    ensures ticks { steps.new ≤ steps.old + 1
        + 3 * length (removals_after rows.now.removals key.now.2 mark moment.now) }
{
    let mut at = *moment;
    'walk: while let Some(next) = rows.removals.next_of(key.permanode(), mark, &at, steps) {
        if is_decided_by(rows, &next, key, all, steps) {
            return true;
        }
        at = next;
    }
    false
}

// How many later changes that count add the key's value; `None` if one that counts takes it away or sets its attribute
// to it.
fn added_after<L: Ledger>(
    rows: &Rows,
    moment: &Moment,
    key: &HolderKey,
    steps: &mut Steps<L>,
) -> Result<Option<u32>, NoMemory>
    requires counted { IsCounted rows.now.facts.ordered rows.now.deletes rows.now.state }
    requires listed { IsListed rows.now.facts.ordered rows.now.state rows.now.changes }
    ensures added { IfOk result (λ times. times ≡ added_from key.now.0 key.now.1 0
        (counted_after rows.now.facts.ordered rows.now.deletes rows.now.changes key.now.2 moment.now)) }
    ensures ticks { steps.new ≤ steps.old + 1
        + 3 * length (changes_after rows.now.changes key.now.2 (Some moment.now)) }
{
    let mut times = 0;
    let mut at = *moment;
    'walk: while let Some(next) = rows.changes.next_of(key.permanode(), Some(&at), steps) {
        match added_by(rows, &next, key, times, steps)? {
            Some(more) => times = more,
            None => return Ok(None),
        }
        at = next;
    }
    Ok(Some(times))
}

// How many times the key's value is added, with the change of a moment if that counts, after it was added `times` times
// before; `None` if this change takes it away or sets its attribute to it.
fn added_by<L: Ledger>(
    rows: &Rows,
    moment: &Moment,
    key: &HolderKey,
    times: u32,
    steps: &mut Steps<L>,
) -> Result<Option<u32>, NoMemory>
    requires counted { IsCounted rows.now.facts.ordered rows.now.deletes rows.now.state }
    requires change { IsChange rows.now.facts.ordered rows.now.state key.now.2 moment.now }
    ensures added { IfOk result (λ more. more ≡ added_from key.now.0 key.now.1 times
        (counted rows.now.facts.ordered rows.now.deletes (moment.now ∷ []))) }
    ensures ticks { steps.new ≤ steps.old + 2 }
{
    let Some(change) = change_said(&rows.facts.ordered, &moment.1, moment.2 as usize, steps) else {
        return Ok(Some(times));
    };
    if !decides(&change, key, false) {
        return Ok(Some(times));
    }
    if has_deleters(&rows.state, &moment.1, steps) {
        return Ok(Some(times));
    }
    added_once(change.act, times)
}

// The same with a change of this kind that decides by itself whether the value is there.
fn added_once(act: Act, times: u32) -> Result<Option<u32>, NoMemory>
    ensures { IfOk result (λ more. more ≡ (if is_addition act then Some (suc times) else None)) }
{
    match act {
        Act::Set => Ok(None),
        Act::Add => Ok(Some(one_more(times)?)),
        Act::Del => Ok(None),
    }
}

// Whether the change of a moment counts, and decides that.
fn is_decided_by<L: Ledger>(
    rows: &Rows,
    moment: &Moment,
    key: &HolderKey,
    all: bool,
    steps: &mut Steps<L>,
) -> bool
    requires counted { IsCounted rows.now.facts.ordered rows.now.deletes rows.now.state }
    requires change { IsChange rows.now.facts.ordered rows.now.state key.now.2 moment.now }
    ensures decided { result ≡ list_any (decides all key.now.0 key.now.1)
        (counted rows.now.facts.ordered rows.now.deletes (moment.now ∷ [])) }
    ensures ticks { steps.new ≤ steps.old + 2 }
{
    let Some(change) = change_said(&rows.facts.ordered, &moment.1, moment.2 as usize, steps) else {
        return false;
    };
    if !decides(&change, key, all) {
        return false;
    }
    !has_deleters(&rows.state, &moment.1, steps)
}

fn decides(change: &ChangeView<'_>, key: &HolderKey, all: bool) -> bool
    ensures { result ≡ decides all key.now.0 key.now.1 (change_seen change.now) }
{
    if change.attr.as_str() != key.attr() {
        return false;
    }
    let value = change.value.as_str();
    is_end(change.act, value) || (!all && value == key.value())
}
