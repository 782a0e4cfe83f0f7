//! The rows of the values that a permanode has, written again.
ghost use Rattle.std.specs.Prelude.{◌≡◌, ◌+◌, ◌*◌, ◌<◌, ◌≤◌, ◌^◌, ◌∷◌, [], ◌++◌, ◌&&◌, ℕ, List, length, nat_lt, None};
ghost use Rattle.std.specs.Prelude.{false, true, if◌then◌else◌, IfOk, OnErr, OnOk};
ghost use Rattle.std.specs.FinMap.{contains_key, entries};
ghost use Rattle.index_rows.specs.Pairs.{number};
ghost use Rattle.std.specs.Str.{bytes_eq};
ghost use Rattle.index_rows.specs.Changes.{changes_after};
ghost use Rattle.index_rows.specs.Counted.{IsCounted};
ghost use Rattle.index_rows.specs.Holders.{row_holds, times_at, with_times, HolderKey as Seen, IsHeldBut};
ghost use Rattle.index_rows.specs.Values.{IsChange, IsListed};
ghost use Rattle.attr_fold.specs.Refolded.{refold_steps, IsHeldSomehow};
ghost use Rattle.attr_fold.specs.Turns.{all_moments, moment_noted, standing, times_by, times_there, told};
ghost use Rattle.attr_fold.specs.Turns.{Tells};

use crate::attribute_turns::AttributeTurns;
use crate::turns::{Turns, times_by};
use blobref::{NoMemory, Ref};
use edge_base::Steps;
use index_look::claim::{change_said, is_permanode_at};
use index_rows::{ChangeRows, HolderKey, HolderRows, Moment, Rows, has_deleters};
use std::alloc::Global;
use std::sync::ledger::Ledger;

/// Writes the rows of one permanode in `holders` again, so that they are those of the attributes and values that it
/// has, by claims of every date. A ref that isn't a genuine permanode has none, nor has a permanode that is deleted.
///
/// The counts of delete claims must be right, each row of `changes` must be that of a change of a genuine claim, and
/// each row of `holders` must be of a genuine permanode and of a value that one of its changes sets or adds. All other
/// rows don't change, even after `NoMemory`; those of the permanode may then be anything. No other table changes.
///
/// It walks over the changes of the permanode once: if there are k, it takes at most 3 + 4 k look-ups, steps and
/// changes, and time in k log k. For a ref that isn't a genuine permanode it takes at most 2 look-ups. It takes memory
/// for the moments of these changes and for their values. `NoMemory` also comes if a value would be there 2^32 times.
pub fn refold<L: Ledger>(
    alloc: Global,
    rows: &mut Rows,
    p: &Ref,
    steps: &mut Steps<L>,
) -> Result<(), NoMemory>
    requires counted { IsCounted rows.old.facts.ordered rows.old.deletes rows.old.state }
    requires listed { IsListed rows.old.facts.ordered rows.old.state rows.old.changes }
    requires held { IsHeldSomehow rows.old.facts.ordered rows.old.state rows.old.deletes rows.old.changes
        rows.old.holders }
    ensures facts { rows.new.facts ≡ rows.old.facts }
    ensures state { rows.new.state ≡ rows.old.state }
    ensures waiters { rows.new.waiters ≡ rows.old.waiters }
    ensures deletes { rows.new.deletes ≡ rows.old.deletes }
    ensures changes { rows.new.changes ≡ rows.old.changes }
    ensures removals { rows.new.removals ≡ rows.old.removals }
    ensures others { (name value q : List ℕ) → bytes_eq q p.now ≡ false
        → contains_key rows.new.holders (name, value, q) ≡ contains_key rows.old.holders (name, value, q) }
    ensures own { OnOk result ((name value : List ℕ) → contains_key rows.new.holders (name, value, p.now)
        ≡ row_holds rows.old.facts.ordered rows.old.state rows.old.deletes rows.old.changes name value p.now) }
    ensures held { OnOk result ((but : List (List ℕ))
        → IsHeldBut (p.now ∷ but) rows.old.facts.ordered rows.old.state rows.old.deletes rows.old.changes
        rows.old.holders
        → IsHeldBut but rows.old.facts.ordered rows.old.state rows.old.deletes rows.old.changes rows.new.holders) }
    ensures ticks { steps.new ≤ steps.old + refold_steps rows.old.facts.ordered rows.old.state rows.old.changes p.now }
{
    rows.holders.are_counted();
    let Some(stands) = standing(rows, p, steps) else {
        return Ok(());
    };
    let turns = turns_of(alloc, rows, p, steps)?;
    let written = write_rows(&mut rows.holders, turns, p, stands, steps);
    rows.holders.are_counted();
    written
}

// Whether p isn't deleted, if it is a genuine permanode; `None` if it isn't one.
pub(crate) fn standing<L: Ledger>(rows: &Rows, p: &Ref, steps: &mut Steps<L>) -> Option<bool>
    requires { IsCounted rows.now.facts.ordered rows.now.deletes rows.now.state }
    ensures stands { result ≡ standing rows.now.facts.ordered rows.now.state rows.now.deletes p.now }
    ensures ticks { steps.new ≤ steps.old + 2 }
{
    if !is_permanode_at(&rows.facts.ordered, p, steps) {
        return None;
    }
    match rows.state.row(p, steps) {
        Some(row) if row.genuine => Some(row.deleters == 0),
        _ => None,
    }
}

// The turns of the values that the changes of p give.
fn turns_of<L: Ledger>(
    alloc: Global,
    rows: &Rows,
    p: &Ref,
    steps: &mut Steps<L>,
) -> Result<Turns, NoMemory>
    requires counted { IsCounted rows.now.facts.ordered rows.now.deletes rows.now.state }
    requires listed { IsListed rows.now.facts.ordered rows.now.state rows.now.changes }
    ensures told { IfOk result (λ turns. Tells p.now
        (told rows.now.facts.ordered rows.now.deletes (all_moments rows.now.changes p.now)) turns
        (length (all_moments rows.now.changes p.now))) }
    ensures few { IfOk result (λ turns.
        number (λ e. true) (entries turns.given) ≤ length (changes_after rows.now.changes p.now None)) }
    ensures ticks { steps.new ≤ steps.old + 1 + 3 * length (changes_after rows.now.changes p.now None) }
{
    let moments = moments_of(alloc, &rows.changes, p, steps)?;
    let mut turns = Turns::empty(alloc);
    for (n, moment) in moments.iter().enumerate() {
        note_moment(alloc, rows, &mut turns, p, moment, n, steps)?;
    }
    Ok(turns)
}

// The moments of all changes of p, in their order.
fn moments_of<L: Ledger>(
    alloc: Global,
    changes: &ChangeRows,
    p: &Ref,
    steps: &mut Steps<L>,
) -> Result<Vec<Moment>, NoMemory>
    ensures moments { IfOk result (λ moments. moments.items ≡ all_moments changes.now p.now) }
    ensures ticks { steps.new ≤ steps.old + 1 + length (changes_after changes.now p.now None) }
{
    let mut moments = Vec::new(alloc);
    let mut last = None;
    'walk: while let Some(moment) = changes.next_of(p, last.as_ref(), steps) {
        push(&mut moments, &moment)?;
        last = Some(moment);
    }
    Ok(moments)
}

fn push(moments: &mut Vec<Moment>, moment: &Moment) -> Result<(), NoMemory>
    ensures { OnOk result (moments.new.items ≡ moments.old.items ++ moment.now ∷ []) }
{
    moments.push(*moment)?;
    Ok(())
}

// Notes the change n of p, that of a moment.
fn note_moment<L: Ledger>(
    alloc: Global,
    rows: &Rows,
    turns: &mut Turns,
    p: &Ref,
    moment: &Moment,
    n: usize,
    steps: &mut Steps<L>,
) -> Result<(), NoMemory>
    requires counted { IsCounted rows.now.facts.ordered rows.now.deletes rows.now.state }
    requires change { IsChange rows.now.facts.ordered rows.now.state p.now moment.now }
    requires small { n + 1 < 2 ^ 64 }
    ensures noted { OnOk result
        (turns.new ≡ moment_noted rows.now.facts.ordered rows.now.deletes p.now turns.old moment.now n) }
    ensures ticks { steps.new ≤ steps.old + 2 }
{
    let Some(change) = change_said(&rows.facts.ordered, &moment.1, moment.2 as usize, steps) else {
        return Ok(());
    };
    let counts = !has_deleters(&rows.state, &moment.1, steps);
    turns.note(alloc, p, change, counts, n)
}

// Puts the row of each value that is there, with its number, and drops that of each other one that was ever given. None
// is there if p is deleted.
fn write_rows<L: Ledger>(
    holders: &mut HolderRows,
    mut turns: Turns,
    p: &Ref,
    stands: bool,
    steps: &mut Steps<L>,
) -> Result<(), NoMemory>
    requires { (k : Seen) → contains_key turns.given k ≡ true → k.2 ≡ p.now }
    ensures others { (name value q : List ℕ) → bytes_eq q p.now ≡ false
        → times_at holders.new (name, value, q) ≡ times_at holders.old (name, value, q) }
    ensures written { OnOk result ((name value : List ℕ) → times_at holders.new (name, value, p.now)
        ≡ (if contains_key turns.given (name, value, p.now)
        then (if stands then times_there turns.given turns.emptied (name, value, p.now) else 0)
        else times_at holders.old (name, value, p.now))) }
    ensures ticks { steps.new ≤ steps.old + number (λ e. true) (entries turns.given) }
{
    'rows: while let Some((key, turn)) = turns.given.pop_first() {
        write_row(holders, &turns.emptied, key, turn, stands, steps)?;
    }
    Ok(())
}

// Puts the row of a value with this turn and number if it is there, and otherwise drops it.
fn write_row<L: Ledger>(
    holders: &mut HolderRows,
    emptied: &AttributeTurns,
    key: HolderKey,
    turn: (usize, u32),
    stands: bool,
    steps: &mut Steps<L>,
) -> Result<(), NoMemory>
    ensures ok { OnOk result (holders.new
        ≡ with_times holders.old key (if stands then times_by emptied.now key.0 turn else 0)) }
    ensures err { OnErr result (holders.new ≡ holders.old) }
    ensures ticks { steps.new ≡ steps.old + 1 }
{
    if stands {
        let times = times_by(emptied, &key, turn);
        holders.set(key, times, steps)
    } else {
        holders.set(key, 0, steps)
    }
}
