//! Blobs, and the index over some of them.
ghost use Rattle.std.specs.Prelude.{◌≡◌, true, not};
ghost use Rattle.std.specs.List.{list_all};
ghost use Rattle.std.specs.Str.{bytes_eq};
ghost use Rattle.claim_model.specs.Facts.{AreDistinct};

use blobref::{NoMemory, Ref};
use claim_verify::{KeyName, Keyring};
use plain_index::{FactList, PlainIndex};
use schema_date::{Date, When};
use schema_fact::Fact;
use schema_json::fact;
use std::alloc::Global;

// Blobs that were signed outside, with the secret `Jefe` under the name `jefe`; `FORGED` with another.
pub(crate) const KEY: &str = "perkeep-hmac-sha256 jefe\n";

pub(crate) const PERMANODE: &str =
    r#"{"camliVersion":1,"camliType":"permanode","camliSigner":"sha224-da4a89851a3c8f7ce55ef510378a1b717451b9f0b152bb73f28508dc","random":"000102030405060708090a0b0c0d0e0f","camliSig":"1e5bcf1913a8b2517cf5f29a6fc8dd96fbc6dd1c9ed88e9f61f486dc9b161526"}"#;

// Of 2014-01-02: the tag sunset.
pub(crate) const TAG: &str =
    r#"{"camliVersion":1,"camliType":"claim","camliSigner":"sha224-da4a89851a3c8f7ce55ef510378a1b717451b9f0b152bb73f28508dc","claimDate":"2014-01-02T00:00:00Z","claimType":"add-attribute","permaNode":"sha224-01d0f2ac408584236db9de88e8cbd79887704db69e188875443566b5","attribute":"tag","value":"sunset","camliSig":"7148778c9252ee12411c4b08050e85c6ea44c062a015e3d32f602e75b91b36cd"}"#;

// Of 2014-01-03, 2014-01-04 and 2014-01-05: the first deletes the tag, and each other the one before it.
pub(crate) const DELETE: &str =
    r#"{"camliVersion":1,"camliType":"claim","camliSigner":"sha224-da4a89851a3c8f7ce55ef510378a1b717451b9f0b152bb73f28508dc","claimDate":"2014-01-03T00:00:00Z","claimType":"delete","target":"sha224-5aee6bc960444ae06b0ed804ab488bb98fa9c0d302f2aa29d42c5fd1","camliSig":"5b9988416d2624d7c82e12d1e79753da3ab33a0f2093d708e2db24355df9f146"}"#;

pub(crate) const UNDELETE: &str =
    r#"{"camliVersion":1,"camliType":"claim","camliSigner":"sha224-da4a89851a3c8f7ce55ef510378a1b717451b9f0b152bb73f28508dc","claimDate":"2014-01-04T00:00:00Z","claimType":"delete","target":"sha224-8a2f4d8763a58bb487b435d217bce7f0f5c893d8eeda1bc7b8ec3cc5","camliSig":"187916177b8c0de0a0a5649d6d79612c3ba1bea87b814b61f783e30d708fae76"}"#;

pub(crate) const DELETE_AGAIN: &str =
    r#"{"camliVersion":1,"camliType":"claim","camliSigner":"sha224-da4a89851a3c8f7ce55ef510378a1b717451b9f0b152bb73f28508dc","claimDate":"2014-01-05T00:00:00Z","claimType":"delete","target":"sha224-47551e89ac7f8734e14b9ddb0f3aa575f70dc94421eaca1c9605f676","camliSig":"c978fb9201f376e5128090d55fd594767e8176214a686554774c04bfaf98e1ba"}"#;

// Of 2014-01-03: the tag forged alone.
pub(crate) const FORGED: &str =
    r#"{"camliVersion":1,"camliType":"claim","camliSigner":"sha224-da4a89851a3c8f7ce55ef510378a1b717451b9f0b152bb73f28508dc","claimDate":"2014-01-03T00:00:00Z","claimType":"set-attribute","permaNode":"sha224-01d0f2ac408584236db9de88e8cbd79887704db69e188875443566b5","attribute":"tag","value":"forged","camliSig":"a6055301d16a0e69260d8c495076c258b5b3dae7c0d5df74633ed6a5e9183a45"}"#;

// A permanode that stands before the other in the order of refs, and has it as a member from 2014-01-03 on.
pub(crate) const LOW: &str =
    r#"{"camliVersion":1,"camliType":"permanode","camliSigner":"sha224-da4a89851a3c8f7ce55ef510378a1b717451b9f0b152bb73f28508dc","random":"000000000000000000000000000000f9","camliSig":"1fccd0b9932dcd14d0ee44e1cf40354960f3f3f40fd6d6021ef35913514e28f5"}"#;

pub(crate) const MAIN_IN_LOW: &str =
    r#"{"camliVersion":1,"camliType":"claim","camliSigner":"sha224-da4a89851a3c8f7ce55ef510378a1b717451b9f0b152bb73f28508dc","claimDate":"2014-01-03T00:00:00Z","claimType":"add-attribute","permaNode":"sha224-00eeaf8019242079449364c2bdc2d6222fa8930c076dca3cd550587a","attribute":"camliMember","value":"sha224-01d0f2ac408584236db9de88e8cbd79887704db69e188875443566b5","camliSig":"2504491da996dbe1ac9de1b471166f34e3678954b351a876924ad2a607a40d5a"}"#;

fn all_apart(r: &Ref, facts: &[(Ref, Fact)]) -> bool
    ensures { result ≡ list_all (λ e. not (bytes_eq r.now e.0)) facts.now }
{
    facts.iter().all(|entry| *r != entry.0)
}

fn are_distinct(facts: &[(Ref, Fact)]) -> bool
    ensures { result ≡ true → AreDistinct facts.now }
{
    match facts.split_first() {
        None => true,
        Some((first, rest)) => all_apart(&first.0, rest) && are_distinct(rest),
    }
}

fn keyring(alloc: Global) -> Keyring {
    let mut keys = Keyring::empty(alloc);
    if let Some(name) = KeyName::read(b"jefe") {
        let _ = keys.add(&name, b"Jefe");
    }
    keys
}

pub(crate) fn index_of(alloc: Global, blobs: &[&str]) -> Result<PlainIndex<Keyring>, NoMemory> {
    let mut facts = FactList::empty(alloc);
    for blob in blobs {
        facts.push((Ref::of(blob.as_bytes()), fact(alloc, blob.as_bytes())?))?;
    }
    if !are_distinct(facts.as_slice()) {
        return Err(NoMemory);
    }
    PlainIndex::build(alloc, facts, keyring(alloc))
}

pub(crate) fn time_of(text: &str) -> When {
    match Date::read(text.as_bytes()) {
        Some(date) => When::At(date),
        None => When::Always,
    }
}
