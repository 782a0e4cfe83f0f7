//! Which facts of a table are deleted, by a walk over all facts for each delete claim.
ghost use Rattle.std.specs.Prelude.{◌≡◌, option_copied};
ghost use Rattle.claim_model.specs.Deleted.{deleted_within, is_deleted};
ghost use Rattle.index_look.specs.Walk.{number_after};

use crate::readiness::is_genuine;
use crate::walk::entry_after;
use blobref::Ref;
use claim_verify::Verifier;
use edge_base::Steps;
use index_look::FactTable;
use index_look::claim::{can_be_deleted_at, deletes};
use schema_date::When;
use std::sync::ledger::Ledger;

pub(crate) fn is_deleted<T: FactTable, V: Verifier, L: Ledger>(
    table: &T,
    keys: &V,
    x: &Ref,
    when: &When,
    steps: &mut Steps<L>,
) -> bool
    ensures { result ≡ is_deleted (T.facts table.now) (V.accepts keys.now) when.now x.now }
{
    deleted_within(table, keys, x, when, None, steps)
}

// Whether the blob is deleted, where deletions of deletions are looked at as deep as there are facts behind `after`.
// Each claim has one target, so none is looked at twice.
fn deleted_within<T: FactTable, V: Verifier, L: Ledger>(
    table: &T,
    keys: &V,
    x: &Ref,
    when: &When,
    after: Option<&Ref>,
    steps: &mut Steps<L>,
) -> bool
    ensures { result ≡ deleted_within (T.facts table.now) (V.accepts keys.now) when.now
        (number_after (T.facts table.now) (option_copied after.entry)) x.now }
{
    let Some(next) = table.fact_after(after, steps) else {
        return false;
    };
    if !can_be_deleted_at(table, x, steps) {
        return false;
    }
    let mut place = None;
    'walk: while let Some(entry) = entry_after(table, place.as_ref(), steps) {
        if deletes(x, when, &entry.1.kind)
            && is_genuine(table, keys, &entry.0, steps)
            && !deleted_within(table, keys, &entry.0, when, Some(&next), steps)
        {
            return true;
        }
        place = Some(entry.0);
    }
    false
}
