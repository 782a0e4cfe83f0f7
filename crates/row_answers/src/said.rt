//! The columns of the rows of `state`. One look-up each.
ghost use Rattle.std.specs.Prelude.{◌≡◌, ◌+◌};
ghost use Rattle.index_rows.specs.States.{says_genuine};
ghost use Rattle.row_answers.specs.Told.{says_ready, says_sound};

use blobref::Ref;
use edge_base::Steps;
use index_rows::{RefRows, StateRow};
use std::sync::ledger::Ledger;

// Whether the row of a ref says that it is ready.
pub(crate) fn says_ready<L: Ledger>(
    state: &RefRows<StateRow>,
    r: &Ref,
    steps: &mut Steps<L>,
) -> bool
    ensures says { result ≡ says_ready state.now r.now }
    ensures ticks { steps.new ≡ steps.old + 1 }
{
    match state.row(r, steps) {
        Some(row) => row.ready,
        None => false,
    }
}

/// Whether the row of a ref says that it is genuine. One look-up.
pub fn says_genuine<L: Ledger>(state: &RefRows<StateRow>, r: &Ref, steps: &mut Steps<L>) -> bool
    ensures says { result ≡ says_genuine state.now r.now }
    ensures ticks { steps.new ≡ steps.old + 1 }
{
    match state.row(r, steps) {
        Some(row) => row.genuine,
        None => false,
    }
}

/// Whether the row of a ref says that it is a sound tree. One look-up.
pub fn says_sound<L: Ledger>(state: &RefRows<StateRow>, r: &Ref, steps: &mut Steps<L>) -> bool
    ensures says { result ≡ says_sound state.now r.now }
    ensures ticks { steps.new ≡ steps.old + 1 }
{
    match state.row(r, steps) {
        Some(row) => row.sound,
        None => false,
    }
}
