//! The permanodes that the deletion of a ref touches.
ghost use Rattle.std.specs.Prelude.{◌≡◌, ◌≤◌, ◌+◌, ◌++◌, OnOk, map, option_map, option_to_list};
ghost use Rattle.schema_fact.specs.Changes.{change_seen};
ghost use Rattle.index_meaning.specs.Touching.{concerned_by, changes_concern, kind_concerns};

use blobref::{NoMemory, Ref, RefList};
use edge_base::Steps;
use index_rows::{RefRows, Rows, StateRow};
use row_answers::says_genuine;
use schema_fact::{ChangeView, Kind, What};
use std::sync::ledger::Ledger;

// Appends the permanodes whose rows of `holders` may change when the deletion of y changed, or when y is new: y itself
// if it is a permanode, and those that it changes if it is an attribute claim that its row calls genuine. One or two
// look-ups. `NoMemory` comes only if no memory is left.
pub(crate) fn concern<L: Ledger>(
    rows: &Rows,
    y: &Ref,
    concerned: &mut RefList,
    steps: &mut Steps<L>,
) -> Result<(), NoMemory>
    ensures added { OnOk result
        (concerned.new ≡ concerned.old ++ concerned_by rows.now.facts.ordered rows.now.state y.now) }
    ensures ticks { steps.new ≤ steps.old + 2 }
{
    let Some(fact) = rows.facts.ordered.row(y, steps) else {
        return Ok(());
    };
    concern_kind(&rows.state, y, &fact.kind, concerned, steps)
}

// The same for y of this kind.
pub(crate) fn concern_kind<L: Ledger>(
    state: &RefRows<StateRow>,
    y: &Ref,
    kind: &Kind,
    concerned: &mut RefList,
    steps: &mut Steps<L>,
) -> Result<(), NoMemory>
    ensures added { OnOk result (concerned.new ≡ concerned.old ++ kind_concerns state.now y.now kind.now) }
    ensures ticks { steps.new ≤ steps.old + 1 }
{
    match kind {
        Kind::Permanode(_) => concerned.push(*y),
        Kind::Claim { what, .. } => concern_changed(state, y, what, concerned, steps),
        _ => Ok(()),
    }
}

// Appends the permanodes that a claim changes, if its row calls it genuine.
fn concern_changed<L: Ledger>(
    state: &RefRows<StateRow>,
    y: &Ref,
    what: &What,
    concerned: &mut RefList,
    steps: &mut Steps<L>,
) -> Result<(), NoMemory>
    ensures added { OnOk result (concerned.new ≡ concerned.old ++ changes_concern state.now y.now what.now) }
    ensures ticks { steps.new ≤ steps.old + 1 }
{
    if !says_genuine(state, y, steps) {
        return Ok(());
    }
    for place in 0..what.change_count() {
        concern_on(what.change(place), concerned)?;
    }
    Ok(())
}

fn concern_on(change: Option<ChangeView<'_>>, concerned: &mut RefList) -> Result<(), NoMemory>
    ensures { OnOk result (concerned.new ≡ concerned.old
        ++ map (λ change. change.on) (option_to_list (option_map change_seen change.entry))) }
{
    if let Some(change) = change {
        concerned.push(*change.on)?;
    }
    Ok(())
}
