//! Whether a fact is signed by its key.
ghost use Rattle.std.specs.Prelude.{◌≡◌, ◌≤◌, ◌+◌};
ghost use Rattle.claim_model.specs.Genuine.{is_signed};

use claim_verify::Verifier;
use edge_base::Steps;
use index_look::claim::{key_accepts, signature};
use index_rows::OrderedFacts;
use schema_fact::Fact;
use std::sync::ledger::Ledger;

// Whether the fact is a permanode or a claim that the key it names accepts. If so and if it is ready, it is genuine.
// One look-up.
pub(crate) fn is_signed<V: Verifier, L: Ledger>(
    facts: &OrderedFacts,
    keys: &V,
    fact: &Fact,
    steps: &mut Steps<L>,
) -> bool
    ensures signed { result ≡ is_signed facts.now (V.accepts keys.now) fact.now }
    ensures ticks { steps.new ≤ steps.old + 1 }
{
    let Some(signed) = signature(&fact.kind) else {
        return false;
    };
    let Some(signer) = facts.row(&signed.signer, steps) else {
        return false;
    };
    key_accepts(keys, signed, &signer.kind)
}
