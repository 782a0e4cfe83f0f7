//! Whether keys accept.
ghost use Rattle.std.specs.Prelude.{◌≡◌};
ghost use Rattle.std.specs.FinMap.{get};
ghost use Rattle.claim_model.specs.Facts.{passes};
ghost use Rattle.claim_model.specs.Genuine.{key_accepts};

use claim_verify::Verifier;
use edge_base::Steps;
use index_look::Look;
use index_look::claim::key_accepts;
use schema_fact::Signed;
use std::sync::ledger::Ledger;

/// Whether the signer's blob is a key's, and that key accepts the signature. A key's blob depends on nothing and is
/// therefore ready, which isn't checked.
pub(crate) fn is_accepted<K: Look, V: Verifier, L: Ledger>(
    look: &K,
    keys: &V,
    signed: &Signed,
    steps: &mut Steps<L>,
) -> bool
    ensures { result ≡ passes (λ key. key_accepts (V.accepts keys.now) signed.now key.kind)
        (get (K.facts look.now) signed.now.signer) }
{
    match look.fact_of(&signed.signer, steps) {
        Some(key) => key_accepts(keys, signed, &key.kind),
        None => false,
    }
}
