//! The rows of the values that a permanode has, after a claim that adds a value was deleted, or is no longer deleted.
ghost use Rattle.std.specs.Prelude.{◌≡◌, ◌≤◌, ◌+◌, ◌*◌, ℕ, List, length, Some, true, false, IfOk, OnOk};
ghost use Rattle.std.specs.FinMap.{contains_key};
ghost use Rattle.schema_fact.specs.declared.changes.Act.TheVariants.{Add as adds};
ghost use Rattle.schema_fact.specs.declared.changes.Change.{Change};
ghost use Rattle.index_rows.specs.Changes.{changes_after};
ghost use Rattle.index_rows.specs.Counted.{IsCounted, has_deleters as counts_deleters};
ghost use Rattle.index_rows.specs.Deletes.{Deletes};
ghost use Rattle.index_rows.specs.Holders.{IsHeldBut};
ghost use Rattle.index_rows.specs.Removals.{AreRemovals};
ghost use Rattle.index_rows.specs.Values.{change_at, IsListed};
ghost use Rattle.attr_fold.specs.Following.{counted_after, counted_before, taking_steps, IsFlipped, IsTurned};
ghost use Rattle.attr_fold.specs.Refolded.{refold_steps};

use crate::following::holds_values;
use crate::late::is_taken_after;
use blobref::{NoMemory, Ref};
use edge_base::Steps;
use index_look::claim::change_said;
use index_rows::{HolderKey, Moment, Rows, has_deleters};
use schema_fact::Act;
use std::alloc::Global;
use std::sync::ledger::Ledger;

/// Writes the effect on the rows of p in `holders` of this: the claim of a moment was deleted, or is no longer deleted,
/// and its change adds a value. Returns whether it could: the rows of p are then right for the delete claims of now if
/// they were right for those before. It can't if the change is of another kind. Then nothing changes, and p has to be
/// folded again.
///
/// The counts of delete claims must be right for the claim's deletion of now, each row of `changes` must be that of a
/// change of a genuine claim, and those of `removals` must be the ones that may take values away. The change must have
/// its row. Rows of other permanodes don't change, even after `NoMemory`. No other table changes.
///
/// It takes at most 7 look-ups, steps and changes, and 3 for each later removal under the mark of its attribute alone
/// or under that of its value, and so never more than `refold` may take for p. It takes memory for a key. `NoMemory`
/// also comes if a value would be there 2^32 times.
pub fn settle<L: Ledger>(
    alloc: Global,
    rows: &mut Rows,
    p: &Ref,
    moment: &Moment,
    steps: &mut Steps<L>,
) -> Result<bool, NoMemory>
    requires counted { IsCounted rows.old.facts.ordered rows.old.deletes rows.old.state }
    requires listed { IsListed rows.old.facts.ordered rows.old.state rows.old.changes }
    requires taken { AreRemovals rows.old.facts.ordered rows.old.changes rows.old.removals }
    requires there { contains_key rows.old.changes (p.now, moment.now) ≡ true }
    ensures facts { rows.new.facts ≡ rows.old.facts }
    ensures state { rows.new.state ≡ rows.old.state }
    ensures waiters { rows.new.waiters ≡ rows.old.waiters }
    ensures deletes { rows.new.deletes ≡ rows.old.deletes }
    ensures changes { rows.new.changes ≡ rows.old.changes }
    ensures removals { rows.new.removals ≡ rows.old.removals }
    ensures settled { IfOk result (λ done. done ≡ true → (but : List (List ℕ)) (before : Deletes)
        → IsFlipped rows.old.facts.ordered rows.old.state rows.old.changes before rows.old.deletes p.now moment.now
        → IsHeldBut but rows.old.facts.ordered rows.old.state before rows.old.changes rows.old.holders
        → IsHeldBut but rows.old.facts.ordered rows.old.state rows.old.deletes rows.old.changes rows.new.holders) }
    ensures left { IfOk result (λ done. done ≡ false → rows.new.holders ≡ rows.old.holders) }
    ensures ticks { steps.new ≤ steps.old + refold_steps rows.old.facts.ordered rows.old.state rows.old.changes p.now }
    ensures done { (c : Change) → change_at rows.old.facts.ordered moment.now ≡ Some c → c.act ≡ adds
        → IfOk result (λ done. done ≡ true) }
    ensures added { (c : Change) → change_at rows.old.facts.ordered moment.now ≡ Some c → c.act ≡ adds
        → steps.new ≤ steps.old + 7 + taking_steps rows.old.removals p.now c.attr c.value moment.now }
{
    rows.holders.are_counted();
    if !holds_values(rows, p, steps) {
        return Ok(true);
    }
    let Some(change) = change_said(&rows.facts.ordered, &moment.1, moment.2 as usize, steps) else {
        return Ok(false);
    };
    let Act::Add = change.act else {
        return Ok(false);
    };
    let key = HolderKey::copy(alloc, change.attr.as_str(), change.value.as_str(), p)?;
    settle_add(rows, moment, key, steps)?;
    rows.holders.are_counted();
    Ok(true)
}

// Raises or lowers the number of the value that the change of a moment adds, unless a later change that counts takes it
// away or sets the attribute to it.
fn settle_add<L: Ledger>(
    rows: &mut Rows,
    moment: &Moment,
    key: HolderKey,
    steps: &mut Steps<L>,
) -> Result<(), NoMemory>
    requires counted { IsCounted rows.old.facts.ordered rows.old.deletes rows.old.state }
    requires listed { IsListed rows.old.facts.ordered rows.old.state rows.old.changes }
    requires taken { AreRemovals rows.old.facts.ordered rows.old.changes rows.old.removals }
    ensures facts { rows.new.facts ≡ rows.old.facts }
    ensures state { rows.new.state ≡ rows.old.state }
    ensures waiters { rows.new.waiters ≡ rows.old.waiters }
    ensures deletes { rows.new.deletes ≡ rows.old.deletes }
    ensures changes { rows.new.changes ≡ rows.old.changes }
    ensures removals { rows.new.removals ≡ rows.old.removals }
    ensures settled { OnOk result ((on : List ℕ) → IsTurned (counts_deleters rows.old.state moment.now.1) key.2
        (record { on = on; act = adds; attr = key.0; value = key.1 })
        (counted_before rows.old.facts.ordered rows.old.deletes rows.old.changes key.2 moment.now)
        (counted_after rows.old.facts.ordered rows.old.deletes rows.old.changes key.2 moment.now)
        rows.old.holders rows.new.holders) }
    ensures ticks { steps.new ≤ steps.old + 4
        + 3 * length (changes_after rows.old.changes key.2 (Some moment.now)) }
    ensures added { steps.new ≤ steps.old + 4 + taking_steps rows.old.removals key.2 key.0 key.1 moment.now }
{
    if is_taken_after(rows, moment, &key, steps) {
        return Ok(());
    }
    if has_deleters(&rows.state, &moment.1, steps) {
        rows.holders.lower(key, steps)
    } else {
        rows.holders.raise(key, steps)
    }
}
