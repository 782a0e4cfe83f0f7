//! The rows of the values that a permanode has, after a new change that is later than all others.
ghost use Rattle.std.specs.Prelude.{◌≡◌, ◌≤◌, ◌+◌, ◌*◌, ◌∷◌, [], ℕ, List, length, Some, None, true, false, IfOk, OnOk};
ghost use Rattle.std.specs.FinMap.{contains_key};
ghost use Rattle.schema_fact.specs.declared.changes.Change.{Change};
ghost use Rattle.schema_fact.specs.declared.changes.Act.TheVariants.{Set as sets, Add as adds, Del as removes};
ghost use Rattle.index_rows.specs.Changes.{Changes, changes_after, changes_before};
ghost use Rattle.index_rows.specs.Counted.{IsCounted};
ghost use Rattle.index_rows.specs.Holders.{IsHeldBut};
ghost use Rattle.index_rows.specs.Removals.{AreRemovals};
ghost use Rattle.index_rows.specs.Values.{change_at, IsChange, IsListed};
ghost use Rattle.attr_fold.specs.Following.{counted, counted_after, counted_before, follow_steps, holds_values, is_end};
ghost use Rattle.attr_fold.specs.Following.{taking_steps, AreFewer, AreGone, IsFollowed, IsOneMore, IsSettled};
ghost use Rattle.attr_fold.specs.Following.{IsTakenBack};

use crate::late::follow_late;
use crate::refolding::standing;
use blobref::{NoMemory, Ref};
use edge_base::Steps;
use index_look::claim::change_said;
use index_rows::{ChangeRows, HolderKey, Moment, Rows, has_deleters};
use schema_fact::Act;
use std::alloc::Global;
use std::sync::ledger::Ledger;

/// Writes the effect of one more change on the rows of its attribute in `holders`, if that can be found without a fold
/// of all changes. Returns whether it could: the rows of p are then right with this change exactly if they were right
/// without it. For an addition it always can. It can't if the change sets a value or removes all of them, others come
/// after it, and none of these that counts sets or empties the attribute again. Then nothing changes, and p has to be
/// folded again.
///
/// The counts of delete claims must be right, each row of `changes` must be that of a change of a genuine claim, and
/// those of `removals` must be the ones that may take values away. The change must have its row. Rows of other
/// permanodes don't change, even after `NoMemory`. No other table changes.
///
/// If no change of p comes after it, a change that sets a value or removes all of them walks back over the changes of p
/// to the last one that did so for the same attribute, or to the first of all. This takes at most four look-ups, steps
/// and changes for each. If others come after it, it looks at the later removals under the mark of its attribute alone,
/// and for an addition also under that of its value, up to the first one that decides the effect of the change. The
/// removal of a value that is there then walks over the later changes in the same way. This takes at most three for
/// each. An addition therefore takes at most 8, and 3 for each such removal, and any other change at most 7 + 4 k if p
/// has k changes. It takes memory for two keys. `NoMemory` also comes if a value would be there 2^32 times.
pub fn follow<L: Ledger>(
    alloc: Global,
    rows: &mut Rows,
    p: &Ref,
    moment: &Moment,
    steps: &mut Steps<L>,
) -> Result<bool, NoMemory>
    requires counted { IsCounted rows.old.facts.ordered rows.old.deletes rows.old.state }
    requires listed { IsListed rows.old.facts.ordered rows.old.state rows.old.changes }
    requires taken { AreRemovals rows.old.facts.ordered rows.old.changes rows.old.removals }
    requires there { contains_key rows.old.changes (p.now, moment.now) ≡ true }
    ensures facts { rows.new.facts ≡ rows.old.facts }
    ensures state { rows.new.state ≡ rows.old.state }
    ensures waiters { rows.new.waiters ≡ rows.old.waiters }
    ensures deletes { rows.new.deletes ≡ rows.old.deletes }
    ensures changes { rows.new.changes ≡ rows.old.changes }
    ensures removals { rows.new.removals ≡ rows.old.removals }
    ensures followed { IfOk result (λ done. done ≡ true → (but : List (List ℕ)) (before : Changes)
        → IsOneMore before rows.old.changes p.now moment.now
        → IsHeldBut but rows.old.facts.ordered rows.old.state rows.old.deletes before rows.old.holders
        → IsHeldBut but rows.old.facts.ordered rows.old.state rows.old.deletes rows.old.changes rows.new.holders) }
    ensures left { IfOk result (λ done. done ≡ false → rows.new.holders ≡ rows.old.holders) }
    ensures ticks { steps.new ≤ steps.old + follow_steps rows.old.changes p.now }
    ensures done { (c : Change) → change_at rows.old.facts.ordered moment.now ≡ Some c → c.act ≡ adds
        → IfOk result (λ done. done ≡ true) }
    ensures added { (c : Change) → change_at rows.old.facts.ordered moment.now ≡ Some c → c.act ≡ adds
        → steps.new ≤ steps.old + 8 + taking_steps rows.old.removals p.now c.attr c.value moment.now }
{
    rows.holders.are_counted();
    if !holds_values(rows, p, steps) {
        return Ok(true);
    }
    if has_deleters(&rows.state, &moment.1, steps) {
        return Ok(true);
    }
    let followed = follow_change(alloc, rows, p, moment, steps);
    rows.holders.are_counted();
    followed
}

// Writes the effect of the change of a moment, which counts.
fn follow_change<L: Ledger>(
    alloc: Global,
    rows: &mut Rows,
    p: &Ref,
    moment: &Moment,
    steps: &mut Steps<L>,
) -> Result<bool, NoMemory>
    requires counted { IsCounted rows.old.facts.ordered rows.old.deletes rows.old.state }
    requires listed { IsListed rows.old.facts.ordered rows.old.state rows.old.changes }
    requires taken { AreRemovals rows.old.facts.ordered rows.old.changes rows.old.removals }
    ensures facts { rows.new.facts ≡ rows.old.facts }
    ensures state { rows.new.state ≡ rows.old.state }
    ensures waiters { rows.new.waiters ≡ rows.old.waiters }
    ensures deletes { rows.new.deletes ≡ rows.old.deletes }
    ensures changes { rows.new.changes ≡ rows.old.changes }
    ensures removals { rows.new.removals ≡ rows.old.removals }
    ensures settled { IfOk result (λ done. done ≡ true → (c : Change)
        → change_at rows.old.facts.ordered moment.now ≡ Some c
        → IsSettled p.now c
        (counted_before rows.old.facts.ordered rows.old.deletes rows.old.changes p.now moment.now)
        (counted_after rows.old.facts.ordered rows.old.deletes rows.old.changes p.now moment.now)
        rows.old.holders rows.new.holders) }
    ensures left { IfOk result (λ done. done ≡ false → rows.new.holders ≡ rows.old.holders) }
    ensures ticks { steps.new ≤ steps.old + 4 + 4 * length (changes_after rows.old.changes p.now None) }
    ensures done { (c : Change) → change_at rows.old.facts.ordered moment.now ≡ Some c → c.act ≡ adds
        → IfOk result (λ done. done ≡ true) }
    ensures added { (c : Change) → change_at rows.old.facts.ordered moment.now ≡ Some c → c.act ≡ adds
        → steps.new ≤ steps.old + 5 + taking_steps rows.old.removals p.now c.attr c.value moment.now }
{
    if is_last(&rows.changes, p, moment, steps) {
        return follow_last(alloc, rows, p, moment, steps);
    }
    follow_late(alloc, rows, p, moment, steps)
}

// Whether p is a genuine permanode that isn't deleted.
pub(crate) fn holds_values<L: Ledger>(rows: &Rows, p: &Ref, steps: &mut Steps<L>) -> bool
    requires { IsCounted rows.now.facts.ordered rows.now.deletes rows.now.state }
    ensures holds { result ≡ holds_values rows.now.facts.ordered rows.now.state rows.now.deletes p.now }
    ensures ticks { steps.new ≤ steps.old + 2 }
{
    match standing(rows, p, steps) {
        Some(stands) => stands,
        None => false,
    }
}

// Whether no change of p comes after that of a moment.
fn is_last<L: Ledger>(changes: &ChangeRows, p: &Ref, moment: &Moment, steps: &mut Steps<L>) -> bool
    ensures last { result ≡ true → changes_after changes.now p.now (Some moment.now) ≡ [] }
    ensures more { result ≡ false → 1 ≤ length (changes_after changes.now p.now (Some moment.now)) }
    ensures ticks { steps.new ≡ steps.old + 1 }
{
    match changes.next_of(p, Some(moment), steps) {
        Some(_) => false,
        None => true,
    }
}

// Writes the effect of the change of a moment, the last one of p.
fn follow_last<L: Ledger>(
    alloc: Global,
    rows: &mut Rows,
    p: &Ref,
    moment: &Moment,
    steps: &mut Steps<L>,
) -> Result<bool, NoMemory>
    requires counted { IsCounted rows.old.facts.ordered rows.old.deletes rows.old.state }
    requires listed { IsListed rows.old.facts.ordered rows.old.state rows.old.changes }
    ensures facts { rows.new.facts ≡ rows.old.facts }
    ensures state { rows.new.state ≡ rows.old.state }
    ensures waiters { rows.new.waiters ≡ rows.old.waiters }
    ensures deletes { rows.new.deletes ≡ rows.old.deletes }
    ensures changes { rows.new.changes ≡ rows.old.changes }
    ensures removals { rows.new.removals ≡ rows.old.removals }
    ensures followed { IfOk result (λ done. done ≡ true → (c : Change)
        → change_at rows.old.facts.ordered moment.now ≡ Some c
        → IsFollowed p.now c
        (counted_before rows.old.facts.ordered rows.old.deletes rows.old.changes p.now moment.now)
        rows.old.holders rows.new.holders) }
    ensures left { IfOk result (λ done. done ≡ false → rows.new.holders ≡ rows.old.holders) }
    ensures ticks { steps.new ≤ steps.old + 3 + 4 * length (changes_before rows.old.changes p.now moment.now) }
    ensures done { (c : Change) → change_at rows.old.facts.ordered moment.now ≡ Some c
        → IfOk result (λ done. done ≡ true) }
    ensures added { (c : Change) → change_at rows.old.facts.ordered moment.now ≡ Some c → c.act ≡ adds
        → steps.new ≤ steps.old + 2 }
{
    let Some(change) = change_said(&rows.facts.ordered, &moment.1, moment.2 as usize, steps) else {
        return Ok(false);
    };
    let act = change.act;
    let key = HolderKey::copy(alloc, change.attr.as_str(), change.value.as_str(), p)?;
    write_change(alloc, rows, moment, act, key, steps)?;
    Ok(true)
}

// Writes the effect of a change, the last one of the key's permanode.
fn write_change<L: Ledger>(
    alloc: Global,
    rows: &mut Rows,
    moment: &Moment,
    act: Act,
    key: HolderKey,
    steps: &mut Steps<L>,
) -> Result<(), NoMemory>
    requires counted { IsCounted rows.old.facts.ordered rows.old.deletes rows.old.state }
    requires listed { IsListed rows.old.facts.ordered rows.old.state rows.old.changes }
    ensures facts { rows.new.facts ≡ rows.old.facts }
    ensures state { rows.new.state ≡ rows.old.state }
    ensures waiters { rows.new.waiters ≡ rows.old.waiters }
    ensures deletes { rows.new.deletes ≡ rows.old.deletes }
    ensures changes { rows.new.changes ≡ rows.old.changes }
    ensures removals { rows.new.removals ≡ rows.old.removals }
    ensures followed { OnOk result ((on : List ℕ)
        → IsFollowed key.2 (record { on = on; act = act; attr = key.0; value = key.1 })
        (counted_before rows.old.facts.ordered rows.old.deletes rows.old.changes key.2 moment.now)
        rows.old.holders rows.new.holders) }
    ensures ticks { steps.new ≤ steps.old + 2 + 4 * length (changes_before rows.old.changes key.2 moment.now) }
    ensures added { act ≡ adds → steps.new ≤ steps.old + 1 }
{
    match act {
        Act::Set => set_value(alloc, rows, moment, key, steps),
        Act::Add => rows.holders.raise(key, steps),
        Act::Del => remove_value(alloc, rows, moment, &key, steps),
    }
}

// Leaves the row of one value only, with the number 1.
fn set_value<L: Ledger>(
    alloc: Global,
    rows: &mut Rows,
    moment: &Moment,
    key: HolderKey,
    steps: &mut Steps<L>,
) -> Result<(), NoMemory>
    requires counted { IsCounted rows.old.facts.ordered rows.old.deletes rows.old.state }
    requires listed { IsListed rows.old.facts.ordered rows.old.state rows.old.changes }
    ensures facts { rows.new.facts ≡ rows.old.facts }
    ensures state { rows.new.state ≡ rows.old.state }
    ensures waiters { rows.new.waiters ≡ rows.old.waiters }
    ensures deletes { rows.new.deletes ≡ rows.old.deletes }
    ensures changes { rows.new.changes ≡ rows.old.changes }
    ensures removals { rows.new.removals ≡ rows.old.removals }
    ensures followed { OnOk result ((on : List ℕ)
        → IsFollowed key.2 (record { on = on; act = sets; attr = key.0; value = key.1 })
        (counted_before rows.old.facts.ordered rows.old.deletes rows.old.changes key.2 moment.now)
        rows.old.holders rows.new.holders) }
    ensures ticks { steps.new ≤ steps.old + 2 + 4 * length (changes_before rows.old.changes key.2 moment.now) }
{
    drop_values(alloc, rows, moment, &key, steps)?;
    rows.holders.set(key, 1, steps)
}

// Drops the row of a value that is removed; an empty value stands for all values.
fn remove_value<L: Ledger>(
    alloc: Global,
    rows: &mut Rows,
    moment: &Moment,
    key: &HolderKey,
    steps: &mut Steps<L>,
) -> Result<(), NoMemory>
    requires counted { IsCounted rows.old.facts.ordered rows.old.deletes rows.old.state }
    requires listed { IsListed rows.old.facts.ordered rows.old.state rows.old.changes }
    ensures facts { rows.new.facts ≡ rows.old.facts }
    ensures state { rows.new.state ≡ rows.old.state }
    ensures waiters { rows.new.waiters ≡ rows.old.waiters }
    ensures deletes { rows.new.deletes ≡ rows.old.deletes }
    ensures changes { rows.new.changes ≡ rows.old.changes }
    ensures removals { rows.new.removals ≡ rows.old.removals }
    ensures followed { OnOk result ((on : List ℕ)
        → IsFollowed key.now.2 (record { on = on; act = removes; attr = key.now.0; value = key.now.1 })
        (counted_before rows.old.facts.ordered rows.old.deletes rows.old.changes key.now.2 moment.now)
        rows.old.holders rows.new.holders) }
    ensures ticks { steps.new ≤ steps.old + 2 + 4 * length (changes_before rows.old.changes key.now.2 moment.now) }
{
    if key.value().is_empty() {
        return drop_values(alloc, rows, moment, key, steps);
    }
    rows.holders.drop_row(key, steps);
    Ok(())
}

// Drops the rows of all values of the key's attribute that its permanode has before a moment. It walks back to the last
// change that left no other value.
fn drop_values<L: Ledger>(
    alloc: Global,
    rows: &mut Rows,
    moment: &Moment,
    key: &HolderKey,
    steps: &mut Steps<L>,
) -> Result<(), NoMemory>
    requires counted { IsCounted rows.old.facts.ordered rows.old.deletes rows.old.state }
    requires listed { IsListed rows.old.facts.ordered rows.old.state rows.old.changes }
    ensures facts { rows.new.facts ≡ rows.old.facts }
    ensures state { rows.new.state ≡ rows.old.state }
    ensures waiters { rows.new.waiters ≡ rows.old.waiters }
    ensures deletes { rows.new.deletes ≡ rows.old.deletes }
    ensures changes { rows.new.changes ≡ rows.old.changes }
    ensures removals { rows.new.removals ≡ rows.old.removals }
    ensures fewer { OnOk result (AreFewer key.now.0 key.now.2 rows.old.holders rows.new.holders) }
    ensures gone { OnOk result (AreGone key.now.0 key.now.2
        (counted_before rows.old.facts.ordered rows.old.deletes rows.old.changes key.now.2 moment.now)
        rows.new.holders) }
    ensures ticks { steps.new ≤ steps.old + 1 + 4 * length (changes_before rows.old.changes key.now.2 moment.now) }
{
    let mut at = *moment;
    'walk: while let Some(before) = rows.changes.prev_of(key.permanode(), &at, steps) {
        if take_back(alloc, rows, &before, key, steps)? {
            return Ok(());
        }
        at = before;
    }
    Ok(())
}

// Drops the row of the value that the change of a moment gives to the key's attribute. Returns whether that change
// left no other value.
fn take_back<L: Ledger>(
    alloc: Global,
    rows: &mut Rows,
    moment: &Moment,
    key: &HolderKey,
    steps: &mut Steps<L>,
) -> Result<bool, NoMemory>
    requires counted { IsCounted rows.old.facts.ordered rows.old.deletes rows.old.state }
    requires change { IsChange rows.old.facts.ordered rows.old.state key.now.2 moment.now }
    ensures facts { rows.new.facts ≡ rows.old.facts }
    ensures state { rows.new.state ≡ rows.old.state }
    ensures waiters { rows.new.waiters ≡ rows.old.waiters }
    ensures deletes { rows.new.deletes ≡ rows.old.deletes }
    ensures changes { rows.new.changes ≡ rows.old.changes }
    ensures removals { rows.new.removals ≡ rows.old.removals }
    ensures fewer { OnOk result (AreFewer key.now.0 key.now.2 rows.old.holders rows.new.holders) }
    ensures back { IfOk result (λ done. IsTakenBack key.now.0 key.now.2
        (counted rows.old.facts.ordered rows.old.deletes (moment.now ∷ [])) done rows.new.holders) }
    ensures ticks { steps.new ≤ steps.old + 3 }
{
    let Some(change) = change_said(&rows.facts.ordered, &moment.1, moment.2 as usize, steps) else {
        return Ok(false);
    };
    if change.attr.as_str() != key.attr() {
        return Ok(false);
    }
    if has_deleters(&rows.state, &moment.1, steps) {
        return Ok(false);
    }
    let ends = is_end(change.act, change.value.as_str());
    let given = HolderKey::copy(alloc, key.attr(), change.value.as_str(), key.permanode())?;
    rows.holders.drop_row(&given, steps);
    Ok(ends)
}

// Whether a change leaves no value of its attribute that was there before it.
pub(crate) fn is_end(act: Act, value: &str) -> bool
    ensures { result ≡ is_end act value.now }
{
    match act {
        Act::Set => true,
        Act::Add => false,
        Act::Del => value.is_empty(),
    }
}
