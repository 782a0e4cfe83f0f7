//! The order of an answer.
ghost use Rattle.std.specs.Prelude.{◌≡◌, IfOk, map, take};
ghost use Rattle.std.specs.List.Sorted.{IsStrictlySortedBy};
ghost use Rattle.blobref.specs.Blobref.{ref_cmp};
ghost use Rattle.claim_model.specs.Claims.{last_change};
ghost use Rattle.search_eval.specs.Answer.{dated, falling_cmp, refs_by, rising_cmp};

use blobref::{NoMemory, Ref, RefList};
use edge_base::Steps;
use index_look::Look;
use schema_date::{Date, When};
use std::alloc::Global;
use std::cmp::Reverse;
use std::sync::ledger::Ledger;

// The first refs, by the date of the last change, none first, then by ref.
pub(crate) fn rising<K: Look, L: Ledger>(
    alloc: Global,
    look: &K,
    when: &When,
    refs: &[Ref],
    limit: u32,
    steps: &mut Steps<L>,
) -> Result<RefList, NoMemory>
    requires { IsStrictlySortedBy ref_cmp refs.now }
    ensures { IfOk result (λ ordered. ordered ≡ take limit (refs_by rising_cmp
        (dated (last_change (K.facts look.now) (K.accepts look.now) when.now) refs.now))) }
{
    let mut dated = dated(alloc, look, when, refs, steps)?;
    dated.sort()?;
    undated(alloc, &dated, limit)
}

// The first refs, by the date of the last change the other way round, none last, then by ref.
pub(crate) fn falling<K: Look, L: Ledger>(
    alloc: Global,
    look: &K,
    when: &When,
    refs: &[Ref],
    limit: u32,
    steps: &mut Steps<L>,
) -> Result<RefList, NoMemory>
    requires { IsStrictlySortedBy ref_cmp refs.now }
    ensures { IfOk result (λ ordered. ordered ≡ take limit (refs_by falling_cmp
        (dated (last_change (K.facts look.now) (K.accepts look.now) when.now) refs.now))) }
{
    let mut dated = dated(alloc, look, when, refs, steps)?;
    dated.sort_by_key(|entry| (Reverse(entry.0), entry.1))?;
    undated(alloc, &dated, limit)
}

// Each ref behind the date of its last change.
fn dated<K: Look, L: Ledger>(
    alloc: Global,
    look: &K,
    when: &When,
    refs: &[Ref],
    steps: &mut Steps<L>,
) -> Result<Vec<(Option<Date>, Ref)>, NoMemory>
    ensures { IfOk result (λ dates. dates.items ≡ dated
        (last_change (K.facts look.now) (K.accepts look.now) when.now) refs.now) }
{
    let mut dated = Vec::new(alloc);
    for r in refs {
        dated.push((look.last_change(r, when, steps), *r))?;
    }
    Ok(dated)
}

// The refs of the first dated ones.
fn undated(alloc: Global, dated: &[(Option<Date>, Ref)], limit: u32) -> Result<RefList, NoMemory>
    ensures { IfOk result (λ refs. refs ≡ map (λ e. e.1) (take limit dated.now)) }
{
    let mut refs = RefList::empty(alloc);
    for (_, r) in first(dated, limit) {
        refs.push(*r)?;
    }
    Ok(refs)
}

fn first(dated: &[(Option<Date>, Ref)], limit: u32) -> &[(Option<Date>, Ref)]
    ensures { result.now ≡ take limit dated.now }
{
    if dated.len() <= limit as usize {
        dated
    } else {
        &dated[..limit as usize]
    }
}
