//! The values of attributes, by a walk over all facts of a table for the claims on a permanode.
ghost use Rattle.std.specs.Prelude.{◌≡◌, ◌++◌, IfOk, OnOk, option_to_list};
ghost use Rattle.std.specs.List.{filter_map};
ghost use Rattle.std.specs.FinMap as finite;
ghost use Rattle.claim_model.specs.ByClaim.{counted_claims};
ghost use Rattle.claim_model.specs.Claims.{has_value, values};
ghost use Rattle.index_look.specs.Claims.{standing_moment};
ghost use Rattle.index_look.specs.Latest.{latest};

use crate::deletion::is_deleted;
use crate::readiness::{is_genuine, is_genuine_permanode};
use crate::walk::entry_after;
use blobref::{NoMemory, Ref, TextList};
use claim_verify::Verifier;
use edge_base::Steps;
use index_look::FactTable;
use index_look::claim::moment_on;
use index_look::values::{folded, is_among, later};
use schema_date::{Date, When};
use schema_fact::Fact;
use std::alloc::Global;
use std::sync::ledger::Ledger;

// The moment of a claim on the permanode, where it counts at that time.
fn moment<T: FactTable, V: Verifier, L: Ledger>(
    table: &T,
    keys: &V,
    p: &Ref,
    when: &When,
    r: &Ref,
    fact: &Fact,
    steps: &mut Steps<L>,
) -> Option<(Date, Ref)>
    ensures { result ≡ standing_moment (T.facts table.now) (V.accepts keys.now) when.now p.now (r.now, fact.now) }
{
    let moment = moment_on(p, when, r, &fact.kind)?;
    if is_genuine(table, keys, r, steps) && !is_deleted(table, keys, r, when, steps) {
        Some(moment)
    } else {
        None
    }
}

fn keep_moment<T: FactTable, V: Verifier, L: Ledger>(
    table: &T,
    keys: &V,
    found: &mut Vec<(Date, Ref)>,
    p: &Ref,
    when: &When,
    r: &Ref,
    fact: &Fact,
    steps: &mut Steps<L>,
) -> Result<(), NoMemory>
    ensures { OnOk result (found.new.items
        ≡ found.old.items ++ option_to_list (standing_moment (T.facts table.now) (V.accepts keys.now) when.now p.now (r.now, fact.now))) }
{
    if let Some(moment) = moment(table, keys, p, when, r, fact, steps) {
        found.push(moment)?;
    }
    Ok(())
}

// The moments of the counted claims on a genuine permanode, in the order of their refs.
fn moments_of<T: FactTable, V: Verifier, L: Ledger>(
    alloc: Global,
    table: &T,
    keys: &V,
    p: &Ref,
    when: &When,
    steps: &mut Steps<L>,
) -> Result<Vec<(Date, Ref)>, NoMemory>
    ensures { IfOk result (λ moments. moments.items
        ≡ filter_map (standing_moment (T.facts table.now) (V.accepts keys.now) when.now p.now) (finite.entries (T.facts table.now))) }
{
    let mut found = Vec::new(alloc);
    let mut place = None;
    'walk: while let Some((r, fact)) = entry_after(table, place.as_ref(), steps) {
        keep_moment(table, keys, &mut found, p, when, &r, fact, steps)?;
        place = Some(r);
    }
    Ok(found)
}

// The moments of the counted claims on a permanode, in their order.
fn moments<T: FactTable, V: Verifier, L: Ledger>(
    alloc: Global,
    table: &T,
    keys: &V,
    p: &Ref,
    when: &When,
    steps: &mut Steps<L>,
) -> Result<Vec<(Date, Ref)>, NoMemory>
    ensures { IfOk result (λ moments. moments.items ≡ finite.keys
        (counted_claims (T.facts table.now) (V.accepts keys.now) when.now p.now)) }
{
    if !is_genuine_permanode(table, keys, p, steps) {
        return Ok(Vec::new(alloc));
    }
    let mut moments = moments_of(alloc, table, keys, p, when, steps)?;
    moments.sort()?;
    Ok(moments)
}

pub(crate) fn values_of<T: FactTable, V: Verifier, L: Ledger>(
    alloc: Global,
    table: &T,
    keys: &V,
    p: &Ref,
    attr: &str,
    when: &When,
    steps: &mut Steps<L>,
) -> Result<TextList, NoMemory>
    ensures { IfOk result (λ texts. texts ≡ values (T.facts table.now) (V.accepts keys.now) when.now p.now attr.now) }
{
    let moments = moments(alloc, table, keys, p, when, steps)?;
    folded(alloc, table, p, &moments, attr, steps)
}

// Whether a permanode has the value at that time.
pub(crate) fn has_value<T: FactTable, V: Verifier, L: Ledger>(
    alloc: Global,
    table: &T,
    keys: &V,
    p: &Ref,
    attr: &str,
    value: &[u8],
    when: &When,
    steps: &mut Steps<L>,
) -> Result<bool, NoMemory>
    ensures { IfOk result (λ has. has ≡ has_value (T.facts table.now)
        (V.accepts keys.now) when.now attr.now value.now p.now) }
{
    let texts = values_of(alloc, table, keys, p, attr, when, steps)?;
    Ok(is_among(value, texts.as_slice()))
}

// The latest moment of a counted claim on a genuine permanode.
pub(crate) fn latest<T: FactTable, V: Verifier, L: Ledger>(
    table: &T,
    keys: &V,
    p: &Ref,
    when: &When,
    steps: &mut Steps<L>,
) -> Option<(Date, Ref)>
    ensures { result ≡ latest (filter_map (standing_moment (T.facts table.now) (V.accepts keys.now) when.now p.now)
        (finite.entries (T.facts table.now))) }
{
    let mut last = None;
    let mut place = None;
    'walk: while let Some(entry) = entry_after(table, place.as_ref(), steps) {
        let next = moment(table, keys, p, when, &entry.0, entry.1, steps);
        last = later(last, next);
        place = Some(entry.0);
    }
    last
}
