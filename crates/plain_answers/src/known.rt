//! Which facts of a table are ready, and which are sound file trees, where many are asked for in turn: what was found is
//! kept, so each is come to once. What isn't so ends a look at once, and isn't kept.
ghost use Rattle.std.specs.Prelude.{◌≡◌, ◌∷◌, [], All, IfOk, Some, option_copied};
ghost use Rattle.schema_fact.specs.Dependencies.{dependencies, part_refs, target_of};
ghost use Rattle.schema_fact.specs.Limits.{IsShortPart};
ghost use Rattle.schema_fact.specs.Validity.{IsValid};
ghost use Rattle.claim_model.specs.Ready.{is_ready, round};
ghost use Rattle.claim_model.specs.Trees.{is_sound_tree, part_fits, parts_fit, sound_within};
ghost use Rattle.index_look.specs.Known.{IsSo};
ghost use Rattle.index_look.specs.Walk.{number_after};
ghost use Rattle.plain_answers.specs.Learnt.{Finds, Says};

use crate::trees::size_at;
use blobref::{NoMemory, Ref};
use edge_base::Steps;
use index_look::tree::{blob_holds, part_end, tree_holds, tree_parts};
use index_look::{FactTable, Known};
use schema_fact::{Fact, Kind, Origin, Part, What};
use std::sync::ledger::Ledger;

// Whether r is ready.
pub(crate) fn is_ready<T: FactTable, L: Ledger>(
    table: &T,
    known: &mut Known,
    r: &Ref,
    steps: &mut Steps<L>,
) -> Result<bool, NoMemory>
    requires so { IsSo (T.facts table.now) known.old }
    ensures value { IfOk result (λ ready. ready ≡ is_ready (T.facts table.now) r.now) }
    ensures so { IsSo (T.facts table.now) known.new }
{
    ready_within(table, known, None, r, steps)
}

// Whether r is ready, where dependencies are looked at as deep as there are facts behind `after`.
#[cycle(ready)]
fn ready_within<T: FactTable, L: Ledger>(
    table: &T,
    known: &mut Known,
    after: Option<&Ref>,
    r: &Ref,
    steps: &mut Steps<L>,
) -> Result<bool, NoMemory>
    requires so { IsSo (T.facts table.now) known.old }
    ensures finds { IfOk result (Finds
        (round (T.facts table.now) (number_after (T.facts table.now) (option_copied after.entry)))
        (is_ready (T.facts table.now)) (r.now ∷ [])) }
    ensures so { IsSo (T.facts table.now) known.new }
{
    if known.has_ready(r) {
        return Ok(true);
    }
    let Some(next) = table.fact_after(after, steps) else {
        return Ok(false);
    };
    let Some(fact) = table.fact_at(r, steps) else {
        return Ok(false);
    };
    if !all_ready(table, known, &next, fact, steps)? {
        return Ok(false);
    }
    known.keep_ready(r)?;
    Ok(true)
}

#[cycle(ready)]
fn all_ready<T: FactTable, L: Ledger>(
    table: &T,
    known: &mut Known,
    after: &Ref,
    fact: &Fact,
    steps: &mut Steps<L>,
) -> Result<bool, NoMemory>
    requires so { IsSo (T.facts table.now) known.old }
    ensures finds { IfOk result (Finds
        (round (T.facts table.now) (number_after (T.facts table.now) (Some after.now)))
        (is_ready (T.facts table.now)) (dependencies fact.now)) }
    ensures so { IsSo (T.facts table.now) known.new }
{
    match &fact.kind {
        Kind::File { parts, .. } | Kind::Bytes(parts) => {
            parts_ready(table, known, after, parts.as_slice(), steps)
        }
        Kind::Directory { entries, .. } => {
            ready_within(table, known, Some(after), entries, steps)
        }
        Kind::Permanode(signed) => ready_within(table, known, Some(after), &signed.signer, steps),
        Kind::Claim { signed, what, .. } => {
            if ready_within(table, known, Some(after), &signed.signer, steps)? {
                target_ready(table, known, after, what, steps)
            } else {
                Ok(false)
            }
        }
        _ => Ok(true),
    }
}

#[cycle(ready)]
fn parts_ready<T: FactTable, L: Ledger>(
    table: &T,
    known: &mut Known,
    after: &Ref,
    parts: &[Part],
    steps: &mut Steps<L>,
) -> Result<bool, NoMemory>
    requires so { IsSo (T.facts table.now) known.old }
    ensures finds { IfOk result (Finds
        (round (T.facts table.now) (number_after (T.facts table.now) (Some after.now)))
        (is_ready (T.facts table.now)) (part_refs parts.now)) }
    ensures so { IsSo (T.facts table.now) known.new }
{
    for part in parts {
        if !part_ready(table, known, after, part, steps)? {
            return Ok(false);
        }
    }
    Ok(true)
}

#[cycle(ready)]
fn part_ready<T: FactTable, L: Ledger>(
    table: &T,
    known: &mut Known,
    after: &Ref,
    part: &Part,
    steps: &mut Steps<L>,
) -> Result<bool, NoMemory>
    requires so { IsSo (T.facts table.now) known.old }
    ensures finds { IfOk result (Finds
        (round (T.facts table.now) (number_after (T.facts table.now) (Some after.now)))
        (is_ready (T.facts table.now)) (part_refs (part.now ∷ []))) }
    ensures so { IsSo (T.facts table.now) known.new }
{
    match part.origin.source() {
        Some(r) => ready_within(table, known, Some(after), &r, steps),
        None => Ok(true),
    }
}

#[cycle(ready)]
fn target_ready<T: FactTable, L: Ledger>(
    table: &T,
    known: &mut Known,
    after: &Ref,
    what: &What,
    steps: &mut Steps<L>,
) -> Result<bool, NoMemory>
    requires so { IsSo (T.facts table.now) known.old }
    ensures finds { IfOk result (Finds
        (round (T.facts table.now) (number_after (T.facts table.now) (Some after.now)))
        (is_ready (T.facts table.now)) (target_of what.now)) }
    ensures so { IsSo (T.facts table.now) known.new }
{
    match what {
        What::Delete { target } => ready_within(table, known, Some(after), target, steps),
        _ => Ok(true),
    }
}

// Whether r is a sound tree.
pub(crate) fn is_sound_tree<T: FactTable, L: Ledger>(
    table: &T,
    known: &mut Known,
    r: &Ref,
    steps: &mut Steps<L>,
) -> Result<bool, NoMemory>
    requires so { IsSo (T.facts table.now) known.old }
    ensures value { IfOk result (λ sound. sound ≡ is_sound_tree (T.facts table.now) r.now) }
    ensures so { IsSo (T.facts table.now) known.new }
{
    sound_within(table, known, None, r, steps)
}

// Whether r is a sound tree, where trees within trees are looked at as deep as there are facts behind `after`.
#[cycle(sound)]
fn sound_within<T: FactTable, L: Ledger>(
    table: &T,
    known: &mut Known,
    after: Option<&Ref>,
    r: &Ref,
    steps: &mut Steps<L>,
) -> Result<bool, NoMemory>
    requires so { IsSo (T.facts table.now) known.old }
    ensures finds { IfOk result (Finds
        (sound_within (T.facts table.now) (number_after (T.facts table.now) (option_copied after.entry)))
        (is_sound_tree (T.facts table.now)) (r.now ∷ [])) }
    ensures so { IsSo (T.facts table.now) known.new }
{
    if known.has_sound(r) {
        return Ok(true);
    }
    let Some(next) = table.fact_after(after, steps) else {
        return Ok(false);
    };
    if !is_ready(table, known, r, steps)? {
        return Ok(false);
    }
    let Some(fact) = table.fact_at(r, steps) else {
        return Ok(false);
    };
    if !parts_fit(table, known, &next, fact, steps)? {
        return Ok(false);
    }
    known.keep_sound(r)?;
    Ok(true)
}

#[cycle(sound)]
fn parts_fit<T: FactTable, L: Ledger>(
    table: &T,
    known: &mut Known,
    after: &Ref,
    fact: &Fact,
    steps: &mut Steps<L>,
) -> Result<bool, NoMemory>
    requires valid { IsValid fact.now }
    requires so { IsSo (T.facts table.now) known.old }
    ensures finds { IfOk result (Says
        (parts_fit (T.facts table.now)
        (sound_within (T.facts table.now) (number_after (T.facts table.now) (Some after.now))) fact.now)
        (parts_fit (T.facts table.now) (is_sound_tree (T.facts table.now)) fact.now)) }
    ensures so { IsSo (T.facts table.now) known.new }
{
    match tree_parts(&fact.kind) {
        Some(parts) => all_fit(table, known, after, parts.as_slice(), steps),
        None => Ok(false),
    }
}

#[cycle(sound)]
fn all_fit<T: FactTable, L: Ledger>(
    table: &T,
    known: &mut Known,
    after: &Ref,
    parts: &[Part],
    steps: &mut Steps<L>,
) -> Result<bool, NoMemory>
    requires short { All IsShortPart parts.now }
    requires so { IsSo (T.facts table.now) known.old }
    ensures finds { IfOk result (Finds
        (part_fits (T.facts table.now)
        (sound_within (T.facts table.now) (number_after (T.facts table.now) (Some after.now))))
        (part_fits (T.facts table.now) (is_sound_tree (T.facts table.now))) parts.now) }
    ensures so { IsSo (T.facts table.now) known.new }
{
    for part in parts {
        if !part_fits(table, known, after, part, steps)? {
            return Ok(false);
        }
    }
    Ok(true)
}

#[cycle(sound)]
fn part_fits<T: FactTable, L: Ledger>(
    table: &T,
    known: &mut Known,
    after: &Ref,
    part: &Part,
    steps: &mut Steps<L>,
) -> Result<bool, NoMemory>
    requires short { IsShortPart part.now }
    requires so { IsSo (T.facts table.now) known.old }
    ensures finds { IfOk result (Finds
        (part_fits (T.facts table.now)
        (sound_within (T.facts table.now) (number_after (T.facts table.now) (Some after.now))))
        (part_fits (T.facts table.now) (is_sound_tree (T.facts table.now))) (part.now ∷ [])) }
    ensures so { IsSo (T.facts table.now) known.new }
{
    let end = part_end(part);
    match &part.origin {
        Origin::Zeros => Ok(true),
        Origin::Blob(r) => Ok(blob_holds(table.fact_at(r, steps), end)),
        Origin::Tree(r) => {
            let sound = sound_within(table, known, Some(after), r, steps)?;
            Ok(sound && tree_holds(size_at(table, r, steps), end))
        }
    }
}
