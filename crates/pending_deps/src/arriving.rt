//! A ref that arrives.
ghost use Rattle.std.specs.Prelude.{◌≡◌, ◌≤◌, ◌+◌, ◌*◌, length, IfOk};
ghost use Rattle.index_rows.specs.Touched.{needs_of};
ghost use Rattle.index_rows.specs.Waiting.{IsWaiting};
ghost use Rattle.pending_deps.specs.Arriving.{says_ready, HasPut, IsEnlisted, IsNew, HasArrived, arrival_steps};

use crate::settling::settle;
use blobref::{NoMemory, Ref, RefList};
use edge_base::Steps;
use index_rows::{OrderedFacts, PairRows, RefRows, Rows, StateRow};
use std::alloc::Global;
use std::sync::ledger::Ledger;

/// Records that a ref has arrived, and returns the refs that became ready by it, each once and after its dependencies.
/// The rows of `state` and `waiters` must be right, the fact put, and the ref without a row of `state`. Afterwards it
/// has one, the rows of these two tables are right again, and no other table changes. After `NoMemory` these two may be
/// anything. It takes at most 2 steps for the ref, 3 for each place at which it depends on another, 1 for each ref that
/// becomes ready, and 4 for each place at which one depends on such a ref.
pub fn arrive<L: Ledger>(
    alloc: Global,
    rows: &mut Rows,
    r: &Ref,
    steps: &mut Steps<L>,
) -> Result<RefList, NoMemory>
    requires waiting { IsWaiting rows.old.facts.ordered rows.old.state rows.old.waiters }
    requires fresh { IsNew rows.old.facts.ordered rows.old.state r.now }
    ensures facts { rows.new.facts ≡ rows.old.facts }
    ensures deletes { rows.new.deletes ≡ rows.old.deletes }
    ensures changes { rows.new.changes ≡ rows.old.changes }
    ensures removals { rows.new.removals ≡ rows.old.removals }
    ensures holders { rows.new.holders ≡ rows.old.holders }
    ensures arrived { IfOk result (λ order.
        HasArrived rows.old.facts.ordered rows.old.state rows.new.state rows.new.waiters r.now order) }
    ensures ticks { steps.new ≤ steps.old + arrival_steps rows.old.facts.ordered rows.old.state r.now }
{
    let missing = enlist(
        &rows.facts.ordered,
        &rows.state,
        &mut rows.waiters,
        r,
        steps,
    )?;
    let row = StateRow {
        ready: missing == 0,
        genuine: false,
        sound: false,
        missing,
        deleters: 0,
    };
    rows.state.put(r, row, steps)?;
    let mut order = RefList::empty(alloc);
    if missing == 0 {
        order.push(*r)?;
    }
    settle(&mut rows.state, &mut rows.waiters, &mut order, steps)?;
    Ok(order)
}

// Puts a row for each ref that r has to wait for, and counts them.
fn enlist<L: Ledger>(
    facts: &OrderedFacts,
    state: &RefRows<StateRow>,
    waiters: &mut PairRows<()>,
    r: &Ref,
    steps: &mut Steps<L>,
) -> Result<u64, NoMemory>
    ensures enlisted { IfOk result (λ n.
        IsEnlisted state.now waiters.old waiters.new r.now (needs_of facts.now r.now) n) }
    ensures ticks { steps.new ≤ steps.old + 1 + 3 * length (needs_of facts.now r.now) }
{
    let mut missing: u64 = 0;
    if let Some(fact) = facts.row(r, steps) {
        for i in 0..fact.dep_count() {
            let d = fact.dep(i);
            missing += enlist_one(state, waiters, &d, r, steps)?;
        }
    }
    Ok(missing)
}

// Puts a row if r has to wait for d and has none.
fn enlist_one<L: Ledger>(
    state: &RefRows<StateRow>,
    waiters: &mut PairRows<()>,
    d: &Ref,
    r: &Ref,
    steps: &mut Steps<L>,
) -> Result<u64, NoMemory>
    ensures put { IfOk result (λ n. HasPut state.now waiters.old waiters.new d.now r.now n) }
    ensures ticks { steps.new ≤ steps.old + 3 }
{
    if says_ready(state, d, steps) || waiters.row(d, r, steps).is_some() {
        return Ok(0);
    }
    waiters.put(d, r, (), steps)?;
    Ok(1)
}

// Whether the row of d says that it is ready.
fn says_ready<L: Ledger>(state: &RefRows<StateRow>, d: &Ref, steps: &mut Steps<L>) -> bool
    ensures ready { result ≡ says_ready state.now d.now }
    ensures ticks { steps.new ≡ steps.old + 1 }
{
    match state.row(d, steps) {
        Some(row) => row.ready,
        None => false,
    }
}
