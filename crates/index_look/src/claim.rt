//! What single facts say as claims and signed blobs.
ghost use Rattle.std.specs.Prelude.{◌≡◌, ◌≤◌, ◌+◌, option_copied, option_map};
ghost use Rattle.std.specs.FinMap.{get};
ghost use Rattle.std.specs.Str.{bytes_eq};
ghost use Rattle.schema_fact.specs.Changes.{change_seen};
ghost use Rattle.claim_model.specs.ByClaim.{claim_on, is_attribute_claim_on};
ghost use Rattle.claim_model.specs.Deleted.{counts_at, can_be_deleted, deletes};
ghost use Rattle.claim_model.specs.Facts.{is_permanode, passes};
ghost use Rattle.claim_model.specs.Genuine.{key_accepts, signature};
ghost use Rattle.index_look.specs.Claims.{change_said, claim_says};

use crate::table::FactTable;
use blobref::Ref;
use claim_verify::Verifier;
use edge_base::Steps;
use schema_date::{Date, When};
use schema_fact::{ChangeView, Kind, Signed, What};
use std::sync::ledger::Ledger;

/// Whether it is a permanode.
pub fn is_permanode(kind: &Kind) -> bool
    ensures { result ≡ is_permanode kind.now }
{
    matches!(kind, Kind::Permanode(_))
}

/// Whether the fact of a ref is a permanode; false where the table has none. One look-up.
pub fn is_permanode_at<T: FactTable, L: Ledger>(table: &T, r: &Ref, steps: &mut Steps<L>) -> bool
    ensures value { result ≡ passes (λ fact. is_permanode fact.kind) (get (T.facts table.now) r.now) }
    ensures ticks { steps.new ≤ steps.old + 1 + T.loose table.now }
{
    match table.fact_at(r, steps) {
        Some(fact) => is_permanode(&fact.kind),
        None => false,
    }
}

/// What a permanode or a claim was signed with; `None` of any other kind.
pub fn signature(kind: &Kind) -> Option<&Signed>
    ensures { option_copied result ≡ signature kind.now }
{
    match kind {
        Kind::Permanode(signed) | Kind::Claim { signed, .. } => Some(signed),
        _ => None,
    }
}

/// Whether the blob of this kind is a key's, and that key accepts the signature.
pub fn key_accepts<V: Verifier>(keys: &V, signed: &Signed, kind: &Kind) -> bool
    ensures { result ≡ key_accepts (V.accepts keys.now) signed.now kind.now }
{
    match kind {
        Kind::Key(name) => keys.check(name, signed.payload.as_slice(), &signed.sig),
        _ => false,
    }
}

/// Whether a claim of this date counts at that time.
pub fn counts_at(when: &When, date: &Date) -> bool
    ensures { result ≡ counts_at when.now date.now }
{
    match when {
        When::Always => true,
        When::At(now) => !(now < date),
    }
}

/// Whether a delete claim can delete it: a permanode or a claim.
pub fn can_be_deleted(kind: &Kind) -> bool
    ensures { result ≡ can_be_deleted kind.now }
{
    matches!(kind, Kind::Permanode(_) | Kind::Claim { .. })
}

/// Whether a delete claim can delete the fact of a ref; false where the table has none. One look-up.
pub fn can_be_deleted_at<T: FactTable, L: Ledger>(table: &T, r: &Ref, steps: &mut Steps<L>) -> bool
    ensures value { result ≡ passes (λ fact. can_be_deleted fact.kind) (get (T.facts table.now) r.now) }
    ensures ticks { steps.new ≤ steps.old + 1 + T.loose table.now }
{
    match table.fact_at(r, steps) {
        Some(fact) => can_be_deleted(&fact.kind),
        None => false,
    }
}

/// Whether it is a delete claim of the target that counts at that time.
pub fn deletes(target: &Ref, when: &When, kind: &Kind) -> bool
    ensures { result ≡ deletes target.now when.now kind.now }
{
    match kind {
        Kind::Claim {
            date,
            what: What::Delete { target: other },
            ..
        } => counts_at(when, date) && target == other,
        _ => false,
    }
}

/// The date and the ref of an attribute claim on the permanode, where it counts at that time.
pub fn moment_on(p: &Ref, when: &When, r: &Ref, kind: &Kind) -> Option<(Date, Ref)>
    ensures { result ≡ option_map (λ c. c.0) (claim_on p.now when.now r.now kind.now) }
{
    match kind {
        Kind::Claim { date, what, .. } if is_attribute_claim_on(p, what) && counts_at(when, date) =>
            { Some((*date, *r)) }
        _ => None,
    }
}

fn is_attribute_claim_on(p: &Ref, what: &What) -> bool
    ensures { result ≡ is_attribute_claim_on p.now what.now }
{
    for place in 0..what.change_count() {
        if is_on(p, what.change(place)) {
            return true;
        }
    }
    false
}

fn is_on(p: &Ref, change: Option<ChangeView<'_>>) -> bool
    ensures { result ≡ passes (λ c. bytes_eq p.now c.on) (option_map change_seen change.entry) }
{
    match change {
        Some(change) => p == change.on,
        None => false,
    }
}

/// The change at a place of what the claim of a ref says; `None` where there is none. One look-up.
pub fn change_said<'a, T: FactTable, L: Ledger>(
    table: &'a T,
    r: &Ref,
    place: usize,
    steps: &mut Steps<L>,
) -> Option<ChangeView<'a>>
    ensures value { option_map change_seen result ≡ change_said (T.facts table.now) r.now place }
    ensures ticks { steps.new ≤ steps.old + 1 + T.loose table.now }
{
    claim_says(&table.fact_at(r, steps)?.kind)?.change(place)
}

/// What a claim says; `None` of any other kind.
pub fn claim_says(kind: &Kind) -> Option<&What>
    ensures { option_copied result ≡ claim_says kind.now }
{
    match kind {
        Kind::Claim { what, .. } => Some(what),
        _ => None,
    }
}
