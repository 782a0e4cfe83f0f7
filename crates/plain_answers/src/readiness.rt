//! Which facts of a table are ready and genuine, by what each depends on.
ghost use Rattle.std.specs.Prelude.{◌≡◌, Some, option_copied};
ghost use Rattle.std.specs.List.{list_all, list_any};
ghost use Rattle.std.specs.FinMap.{get};
ghost use Rattle.schema_fact.specs.Dependencies.{dependencies, part_refs, target_of};
ghost use Rattle.claim_model.specs.Facts.{passes};
ghost use Rattle.claim_model.specs.Ready.{is_ready, round};
ghost use Rattle.claim_model.specs.Genuine.{is_genuine, is_genuine_permanode, is_signed};
ghost use Rattle.index_look.specs.Walk.{number_after};
ghost use Rattle.plain_answers.specs.Parts.{is_from, new_ref};

use blobref::Ref;
use claim_verify::Verifier;
use edge_base::Steps;
use index_look::FactTable;
use index_look::claim::{is_permanode_at, key_accepts, signature};
use schema_fact::{Fact, Kind, Part, What};
use std::sync::ledger::Ledger;

// Whether r is ready. It comes to each dependency as often as there are paths to it.
pub(crate) fn is_ready<T: FactTable, L: Ledger>(table: &T, r: &Ref, steps: &mut Steps<L>) -> bool
    ensures { result ≡ is_ready (T.facts table.now) r.now }
{
    ready_within(table, None, r, steps)
}

// Whether r stands in the round whose number is that of the facts behind `after`: so the table itself counts how deep
// to look.
#[cycle(ready)]
fn ready_within<T: FactTable, L: Ledger>(
    table: &T,
    after: Option<&Ref>,
    r: &Ref,
    steps: &mut Steps<L>,
) -> bool
    ensures { result ≡ round (T.facts table.now) (number_after (T.facts table.now) (option_copied after.entry)) r.now }
{
    let Some(next) = table.fact_after(after, steps) else {
        return false;
    };
    match table.fact_at(r, steps) {
        Some(fact) => all_ready(table, &next, fact, steps),
        None => false,
    }
}

#[cycle(ready)]
fn all_ready<T: FactTable, L: Ledger>(
    table: &T,
    after: &Ref,
    fact: &Fact,
    steps: &mut Steps<L>,
) -> bool
    ensures { result ≡ list_all (round (T.facts table.now) (number_after (T.facts table.now) (Some after.now)))
        (dependencies fact.now) }
{
    match &fact.kind {
        Kind::File { parts, .. } | Kind::Bytes(parts) => {
            parts_ready(table, after, parts.as_slice(), steps)
        }
        Kind::Directory { entries, .. } => ready_within(table, Some(after), entries, steps),
        Kind::Permanode(signed) => ready_within(table, Some(after), &signed.signer, steps),
        Kind::Claim { signed, what, .. } => {
            ready_within(table, Some(after), &signed.signer, steps)
                && target_ready(table, after, what, steps)
        }
        _ => true,
    }
}

// A ref that several parts have is looked at once.
#[cycle(ready)]
fn parts_ready<T: FactTable, L: Ledger>(
    table: &T,
    after: &Ref,
    parts: &[Part],
    steps: &mut Steps<L>,
) -> bool
    ensures { result ≡ list_all (round (T.facts table.now) (number_after (T.facts table.now) (Some after.now)))
        (part_refs parts.now) }
{
    for i in 0..parts.len() {
        if let Some(r) = new_ref(&parts[..i], &parts[i]) {
            if !ready_within(table, Some(after), &r, steps) {
                return false;
            }
        }
    }
    true
}

#[cycle(ready)]
fn target_ready<T: FactTable, L: Ledger>(
    table: &T,
    after: &Ref,
    what: &What,
    steps: &mut Steps<L>,
) -> bool
    ensures { result ≡ list_all (round (T.facts table.now) (number_after (T.facts table.now) (Some after.now)))
        (target_of what.now) }
{
    match what {
        What::Delete { target } => ready_within(table, Some(after), target, steps),
        _ => true,
    }
}

// The ref of a part, where no part before it has the same.
fn new_ref(before: &[Part], part: &Part) -> Option<Ref>
    ensures { result ≡ new_ref before.now part.now }
{
    let r = part.origin.source()?;
    if is_among(&r, before) { None } else { Some(r) }
}

fn is_among(r: &Ref, parts: &[Part]) -> bool
    ensures { result ≡ list_any (is_from r.now) parts.now }
{
    parts.iter().any(|part| is_from(r, part))
}

fn is_from(r: &Ref, part: &Part) -> bool
    ensures { result ≡ is_from r.now part.now }
{
    match part.origin.source() {
        Some(other) => *r == other,
        None => false,
    }
}

// A signature tells most that isn't genuine without a look at what it depends on.
pub(crate) fn is_genuine<T: FactTable, V: Verifier, L: Ledger>(
    table: &T,
    keys: &V,
    r: &Ref,
    steps: &mut Steps<L>,
) -> bool
    ensures { result ≡ is_genuine (T.facts table.now) (V.accepts keys.now) r.now }
{
    is_signed_at(table, keys, r, steps) && is_ready(table, r, steps)
}

fn is_signed_at<T: FactTable, V: Verifier, L: Ledger>(
    table: &T,
    keys: &V,
    r: &Ref,
    steps: &mut Steps<L>,
) -> bool
    ensures { result ≡ passes (is_signed (T.facts table.now) (V.accepts keys.now)) (get (T.facts table.now) r.now) }
{
    match table.fact_at(r, steps) {
        Some(fact) => is_signed(table, keys, fact, steps),
        None => false,
    }
}

fn is_signed<T: FactTable, V: Verifier, L: Ledger>(
    table: &T,
    keys: &V,
    fact: &Fact,
    steps: &mut Steps<L>,
) -> bool
    ensures { result ≡ is_signed (T.facts table.now) (V.accepts keys.now) fact.now }
{
    let Some(signed) = signature(&fact.kind) else {
        return false;
    };
    let Some(signer) = table.fact_at(&signed.signer, steps) else {
        return false;
    };
    key_accepts(keys, signed, &signer.kind)
}

// A ref of another kind is told by its fact alone.
pub(crate) fn is_genuine_permanode<T: FactTable, V: Verifier, L: Ledger>(
    table: &T,
    keys: &V,
    r: &Ref,
    steps: &mut Steps<L>,
) -> bool
    ensures { result ≡ is_genuine_permanode (T.facts table.now) (V.accepts keys.now) r.now }
{
    is_permanode_at(table, r, steps) && is_genuine(table, keys, r, steps)
}
