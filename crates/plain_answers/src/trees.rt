//! Which facts of a table are sound file trees.
ghost use Rattle.std.specs.Prelude.{◌≡◌, ◌&&◌, Some, true, All, nat_le, option_copied};
ghost use Rattle.std.specs.List.{list_all};
ghost use Rattle.schema_fact.specs.Validity.{IsValid};
ghost use Rattle.schema_fact.specs.Limits.{IsShortPart};
ghost use Rattle.claim_model.specs.Facts.{passes};
ghost use Rattle.claim_model.specs.Trees.{is_sound_tree, part_fits, parts_fit, sound_within, tree_size};
ghost use Rattle.index_look.specs.Walk.{number_after};
ghost use Rattle.plain_answers.specs.Parts.{is_from, new_ref};

use crate::readiness::is_ready;
use blobref::Ref;
use edge_base::Steps;
use index_look::FactTable;
use index_look::tree::{blob_holds, own_size, part_end, tree_holds, tree_parts};
use schema_fact::{Fact, Origin, Part};
use std::sync::ledger::Ledger;

// Whether r is a sound tree. It comes to each tree within as often as there are paths to it.
pub(crate) fn is_sound_tree<T: FactTable, L: Ledger>(
    table: &T,
    r: &Ref,
    steps: &mut Steps<L>,
) -> bool
    ensures { result ≡ is_sound_tree (T.facts table.now) r.now }
{
    sound_within(table, None, r, steps)
}

// Whether r is a sound tree, where trees within trees are looked at as deep as there are facts behind `after`.
#[cycle(sound)]
fn sound_within<T: FactTable, L: Ledger>(
    table: &T,
    after: Option<&Ref>,
    r: &Ref,
    steps: &mut Steps<L>,
) -> bool
    ensures { result ≡ sound_within (T.facts table.now)
        (number_after (T.facts table.now) (option_copied after.entry)) r.now }
{
    let Some(next) = table.fact_after(after, steps) else {
        return false;
    };
    let ready = is_ready(table, r, steps);
    match table.fact_at(r, steps) {
        Some(fact) => ready && parts_fit(table, &next, fact, steps),
        None => false,
    }
}

#[cycle(sound)]
fn parts_fit<T: FactTable, L: Ledger>(
    table: &T,
    after: &Ref,
    fact: &Fact,
    steps: &mut Steps<L>,
) -> bool
    requires { IsValid fact.now }
    ensures { result ≡ parts_fit (T.facts table.now) (sound_within (T.facts table.now)
        (number_after (T.facts table.now) (Some after.now))) fact.now }
{
    match tree_parts(&fact.kind) {
        Some(parts) => all_fit(table, after, parts.as_slice(), steps),
        None => false,
    }
}

#[cycle(sound)]
fn all_fit<T: FactTable, L: Ledger>(
    table: &T,
    after: &Ref,
    parts: &[Part],
    steps: &mut Steps<L>,
) -> bool
    requires { All IsShortPart parts.now }
    ensures { result ≡ list_all (part_fits (T.facts table.now)
        (sound_within (T.facts table.now) (number_after (T.facts table.now) (Some after.now)))) parts.now }
{
    for part in parts {
        if !part_fits(table, after, part, steps) {
            return false;
        }
    }
    true
}

#[cycle(sound)]
fn part_fits<T: FactTable, L: Ledger>(
    table: &T,
    after: &Ref,
    part: &Part,
    steps: &mut Steps<L>,
) -> bool
    requires { IsShortPart part.now }
    ensures { result ≡ part_fits (T.facts table.now) (sound_within (T.facts table.now)
        (number_after (T.facts table.now) (Some after.now))) part.now }
{
    let end = part_end(part);
    match &part.origin {
        Origin::Zeros => true,
        Origin::Blob(r) => blob_holds(table.fact_at(r, steps), end),
        Origin::Tree(r) => {
            sound_within(table, Some(after), r, steps) && tree_holds(size_at(table, r, steps), end)
        }
    }
}

// The size of the tree at a ref.
pub(crate) fn size_at<T: FactTable, L: Ledger>(
    table: &T,
    r: &Ref,
    steps: &mut Steps<L>,
) -> Option<u64>
    ensures { result ≡ tree_size (T.facts table.now) r.now }
{
    own_size(table.fact_at(r, steps)?)
}
