//! Refs that become ready one after another.
ghost use Rattle.std.specs.Prelude.{◌≡◌, ◌<◌, ◌≤◌, ◌+◌, ◌*◌, ℕ, Bool, List, [], length, OnOk, OnErr};
ghost use Rattle.std.specs.List.{list_any};
ghost use Rattle.std.specs.Str.{bytes_eq};
ghost use Rattle.std.specs.FinMap as finite;
ghost use Rattle.claim_model.specs.Least.{AreReached};
ghost use Rattle.index_rows.specs.Once.{AreNew};
ghost use Rattle.index_rows.specs.Pairs.{number};
ghost use Rattle.claim_model.specs.Facts.{Facts};
ghost use Rattle.pending_deps.specs.Settling.{row_or_empty, one_less, order_with, CountsMissing, Settling, KeepsOthers, HasMissing};

use blobref::{NoMemory, Ref, RefList};
use edge_base::Steps;
use index_rows::{PairRows, RefRows, StateRow};
use std::sync::ledger::Ledger;

// Updates the refs that wait for those of `order`. Each ref that becomes ready is appended to `order`.
pub(crate) fn settle<L: Ledger>(
    state: &mut RefRows<StateRow>,
    waiters: &mut PairRows<()>,
    order: &mut RefList,
    steps: &mut Steps<L>,
) -> Result<(), NoMemory>
    requires { CountsMissing state.old waiters.old }
    ensures counted { OnOk result (CountsMissing state.new waiters.new) }
    ensures others { OnOk result (KeepsOthers state.old state.new) }
    ensures settled { OnOk result ((facts : Facts) (old : List ℕ → Bool)
        → Settling facts old state.old waiters.old order.old 0
        → Settling facts old state.new waiters.new order.new (length order.new)) }
    ensures reached { (facts : Facts) (old : List ℕ → Bool) → Settling facts old state.old waiters.old order.old 0
        → AreReached facts old [] order.new × AreNew old [] order.new }
    ensures ticks { steps.new ≤ steps.old + length order.new
        + 4 * number (λ e. list_any (bytes_eq e.0.0) order.new) (finite.entries waiters.old) }
{
    let mut i = 0;
    'next: while i < order.len() {
        let x = *order.at(i);
        'group: while let Some((w, _row)) = waiters.next_of(&x, None, steps) {
            drop_waiter(state, waiters, &x, &w, order, steps)?;
        }
        i += 1;
    }
    Ok(())
}

// Drops the row that says that w waits for x. If it was the last one of w, then w is ready.
fn drop_waiter<L: Ledger>(
    state: &mut RefRows<StateRow>,
    waiters: &mut PairRows<()>,
    x: &Ref,
    w: &Ref,
    order: &mut RefList,
    steps: &mut Steps<L>,
) -> Result<(), NoMemory>
    requires { HasMissing state.old w.now }
    ensures waiters { OnOk result (waiters.new ≡ finite.remove waiters.old (x.now, w.now)) }
    ensures state { OnOk result
        (state.new ≡ finite.insert state.old w.now (one_less (row_or_empty (finite.get state.old w.now)))) }
    ensures order { OnOk result (order.new ≡ order_with order.old w.now (row_or_empty (finite.get state.old w.now))) }
    ensures stays { OnErr result (order.new ≡ order.old) }
    ensures ticks { steps.new ≡ steps.old + 3 }
{
    waiters.drop_row(x, w, steps);
    let row = row_of(state, w, steps);
    state.put(w, one_less(row), steps)?;
    if row.missing == 1 {
        order.push(*w)?;
    }
    Ok(())
}

fn row_of<L: Ledger>(state: &RefRows<StateRow>, w: &Ref, steps: &mut Steps<L>) -> StateRow
    requires { HasMissing state.now w.now }
    ensures row { result ≡ row_or_empty (finite.get state.now w.now) }
    ensures missing { 0 < result.missing }
    ensures ticks { steps.new ≡ steps.old + 1 }
{
    match state.row(w, steps) {
        Some(row) => *row,
        None => unreachable!(),
    }
}

fn one_less(row: StateRow) -> StateRow
    requires { 0 < row.missing }
    ensures { result ≡ one_less row }
{
    StateRow {
        ready: row.missing == 1,
        genuine: row.genuine,
        sound: row.sound,
        missing: row.missing - 1,
        deleters: row.deleters,
    }
}
