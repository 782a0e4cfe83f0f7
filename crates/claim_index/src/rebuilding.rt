//! The tables, made again from all facts at once.
ghost use Rattle.std.specs.Prelude.{◌≡◌, ◌≤◌, ◌+◌, ◌*◌, ℕ, List, length, [], IfSome, IfNone, None, OnOk, option_copied};
ghost use Rattle.std.specs.Prelude.{false};
ghost use Rattle.std.specs.FinMap.{contains_key};
ghost use Rattle.index_look.specs.Walk.{entries_after};
ghost use Rattle.index_rows.specs.Touched.{touched_in};
ghost use Rattle.claim_index.specs.Additions.{IsAddedAlone};
ghost use Rattle.claim_index.specs.Halfway.{taken, HasOneMore, IsHalfway, IsNext, IsTakenTo, Rests};

use crate::finishing::finish;
use crate::taking::{take_in, take_last};
use crate::work::Work;
use blobref::{NoMemory, Ref};
use claim_verify::Verifier;
use edge_base::Steps;
use index_rows::{ChangeRows, HolderRows, OrderedFacts, PairRows, RefRows, RemovalRows, Rows};
use std::alloc::Global;
use std::sync::ledger::Ledger;

// Takes up one more fact, or all of them again if the other tables are stale. If there is no memory, the facts are
// unchanged, and the other tables may be anything.
pub(crate) fn take_up<V: Verifier, L: Ledger>(
    alloc: Global,
    rows: &mut Rows,
    keys: &V,
    stale: bool,
    r: &Ref,
    steps: &mut Steps<L>,
) -> Result<(), NoMemory>
    requires { stale ≡ false → HasOneMore (V.accepts keys.now) rows.old r.now }
    ensures facts { rows.new.facts ≡ rows.old.facts }
    ensures rest { OnOk result (Rests (V.accepts keys.now) rows.new) }
    ensures ticks { stale ≡ false → steps.new ≤ steps.old
        + 12 + 16 * length (touched_in (taken rows.old) rows.old.facts.ordered (V.accepts keys.now) r.now) }
    ensures few_ticks { stale ≡ false → IsAddedAlone rows.old.facts.ordered (V.accepts keys.now) r.now
        → steps.new ≤ steps.old + 23 }
{
    if stale {
        return rebuild(alloc, rows, keys, steps);
    }
    let mut work = Work::none(alloc);
    take_last(alloc, rows, keys, r, &mut work, steps)?;
    finish(alloc, rows, work, steps)
}

// Makes all tables again except that of the facts. If there is no memory, these may be anything.
pub(crate) fn rebuild<V: Verifier, L: Ledger>(
    alloc: Global,
    rows: &mut Rows,
    keys: &V,
    steps: &mut Steps<L>,
) -> Result<(), NoMemory>
    ensures facts { rows.new.facts ≡ rows.old.facts }
    ensures rest { OnOk result (Rests (V.accepts keys.now) rows.new) }
{
    rows.state = RefRows::empty(alloc);
    rows.waiters = PairRows::empty(alloc);
    rows.deletes = PairRows::empty(alloc);
    rows.changes = ChangeRows::empty(alloc);
    rows.removals = RemovalRows::empty(alloc);
    rows.holders = HolderRows::empty(alloc);
    let mut work = Work::none(alloc);
    take_all(alloc, rows, keys, &mut work, steps)?;
    finish(alloc, rows, work, steps)
}

// Takes up all facts, in the order of their refs.
fn take_all<V: Verifier, L: Ledger>(
    alloc: Global,
    rows: &mut Rows,
    keys: &V,
    work: &mut Work,
    steps: &mut Steps<L>,
) -> Result<(), NoMemory>
    requires halfway { IsHalfway (V.accepts keys.now) [] work.old.deletes work.old.concerned rows.old }
    requires none { IsTakenTo rows.old None }
    ensures facts { rows.new.facts ≡ rows.old.facts }
    ensures halfway { OnOk result
        (IsHalfway (V.accepts keys.now) [] work.new.deletes work.new.concerned rows.new) }
    ensures all { OnOk result ((y : List ℕ) → contains_key rows.new.state y ≡ contains_key rows.new.facts.ordered y) }
{
    let mut last: Option<Ref> = None;
    'walk: while let Some(r) = next_ref(&rows.facts.ordered, last.as_ref(), steps) {
        take_in(alloc, rows, keys, &r, work, steps)?;
        last = Some(r);
    }
    Ok(())
}

// The next ref of a fact.
fn next_ref<L: Ledger>(
    facts: &OrderedFacts,
    last: Option<&Ref>,
    steps: &mut Steps<L>,
) -> Option<Ref>
    ensures next { IfSome result (λ r. IsNext facts.now (option_copied last.entry) r) }
    ensures last { IfNone result (entries_after facts.now (option_copied last.entry) ≡ []) }
{
    match facts.next_after(last, steps) {
        Some(entry) => Some(entry.0),
        None => None,
    }
}
