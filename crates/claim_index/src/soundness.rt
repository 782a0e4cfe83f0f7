//! Whether the parts of a file lie within their origins, given rows that say which trees are sound.
ghost use Rattle.std.specs.Prelude.{◌≡◌, ◌≤◌, ◌+◌, ◌*◌, length, ◌∷◌, [], All};
ghost use Rattle.std.specs.List.{list_all};
ghost use Rattle.schema_fact.specs.Dependencies.{dependencies, part_refs};
ghost use Rattle.schema_fact.specs.Limits.{IsShortPart};
ghost use Rattle.schema_fact.specs.Validity.{IsValid};
ghost use Rattle.claim_model.specs.Trees.{part_fits, parts_fit, tree_size};
ghost use Rattle.row_answers.specs.Told.{says_sound};

use blobref::Ref;
use edge_base::Steps;
use index_look::tree::{blob_holds, own_size, part_end, tree_holds, tree_parts};
use index_rows::{OrderedFacts, RefRows, StateRow};
use row_answers::says_sound;
use schema_fact::{Fact, Origin, Part};
use std::sync::ledger::Ledger;

// Whether the fact is a file or bytes blob all of whose parts lie within their origins. A tree is sound if its row
// says so. A part of a blob takes one look-up, and one of a tree two.
pub(crate) fn parts_fit<L: Ledger>(
    facts: &OrderedFacts,
    state: &RefRows<StateRow>,
    fact: &Fact,
    steps: &mut Steps<L>,
) -> bool
    requires { IsValid fact.now }
    ensures fit { result ≡ parts_fit facts.now (says_sound state.now) fact.now }
    ensures ticks { steps.new ≤ steps.old + 2 * length (dependencies fact.now) }
{
    match tree_parts(&fact.kind) {
        Some(parts) => all_fit(facts, state, parts.as_slice(), steps),
        None => false,
    }
}

#[tactic(auto, using(crate::proofs::PartTicks::part_first))]
fn all_fit<L: Ledger>(
    facts: &OrderedFacts,
    state: &RefRows<StateRow>,
    parts: &[Part],
    steps: &mut Steps<L>,
) -> bool
    requires { All IsShortPart parts.now }
    ensures fit { result ≡ list_all (part_fits facts.now (says_sound state.now)) parts.now }
    ensures ticks { steps.new ≤ steps.old + 2 * length (part_refs parts.now) }
{
    for part in parts {
        if !part_fits(facts, state, part, steps) {
            return false;
        }
    }
    true
}

fn part_fits<L: Ledger>(
    facts: &OrderedFacts,
    state: &RefRows<StateRow>,
    part: &Part,
    steps: &mut Steps<L>,
) -> bool
    requires { IsShortPart part.now }
    ensures fits { result ≡ part_fits facts.now (says_sound state.now) part.now }
    ensures ticks { steps.new ≤ steps.old + 2 * length (part_refs (part.now ∷ [])) }
{
    let end = part_end(part);
    match &part.origin {
        Origin::Zeros => true,
        Origin::Blob(r) => blob_holds(facts.row(r, steps), end),
        Origin::Tree(r) => {
            says_sound(state, r, steps) && tree_holds(tree_size(facts, r, steps), end)
        }
    }
}

// The size of the tree at a ref.
fn tree_size<L: Ledger>(facts: &OrderedFacts, r: &Ref, steps: &mut Steps<L>) -> Option<u64>
    ensures size { result ≡ tree_size facts.now r.now }
    ensures ticks { steps.new ≡ steps.old + 1 }
{
    match facts.row(r, steps) {
        Some(fact) => own_size(fact),
        None => None,
    }
}
