//! `claim DIR KIND REF ATTR [VALUE] --key NAME` and `delete DIR REF --key NAME`
ghost use Rattle.top_frame.specs.Outside.{outside, world_before, world_after};
ghost use Rattle.top_frame.specs.Frame.{Ends};
ghost use Rattle.std.specs.Prelude.{◌≡◌, IfOk};
ghost use Rattle.schema_fact.specs.declared.kinds.What.TheVariants.{Delete};
ghost use Rattle.top_notes.specs.Meanings.{claim_meaning, keys_of, what_of};

use crate::notes::{claim_note, date_of, is_held};
use crate::storing::store_note;
use blobref::{NoMemory, Ref, Text};
use claim_verify::{KeyName, Signer};
use edge_base::{Clock, Dice, Failed, Sink, Source};
use pack_disk::Disk;
use peer_base::Peer;
use perkeep_words::Change;
use schema_fact::What;
use std::alloc::Global;
use top_frame::{Environment, InputFault, Status, opened};

/// `claim`: stores a change of an attribute's values, of this time.
pub fn claim<D: Disk, P: Peer, S: Source, K: Sink, C: Clock, R: Dice, V: Signer>(
    alloc: Global,
    kind: Change,
    r: &Ref,
    attr: &str,
    value: &str,
    name: &KeyName,
    disk: D,
    environment: Environment<'_, P, S, K, C, R, V>,
) -> (D, Status)
    ensures { Ends (outside D.Disk P.Peer S.Source K.Sink C.Clock R.Dice)
        (claim_meaning (keys_of (V.holds environment.entry.keys.now) (V.seals environment.entry.keys.now)
        (V.accepts environment.entry.keys.now)) name.now
        (what_of kind r.now attr.now value.now)) (world_before disk environment.entry)
        (world_after result.0 environment.exit) result.1 }
{
    match what_of(alloc, kind, r, attr, value) {
        Ok(what) => store_claim(alloc, &what, name, disk, environment),
        Err(NoMemory) => (disk, Status::NoMemory),
    }
}

/// `delete`: stores a deletion of a permanode or a claim, of this time.
pub fn delete<D: Disk, P: Peer, S: Source, K: Sink, C: Clock, R: Dice, V: Signer>(
    alloc: Global,
    r: &Ref,
    name: &KeyName,
    disk: D,
    environment: Environment<'_, P, S, K, C, R, V>,
) -> (D, Status)
    ensures { Ends (outside D.Disk P.Peer S.Source K.Sink C.Clock R.Dice)
        (claim_meaning (keys_of (V.holds environment.entry.keys.now) (V.seals environment.entry.keys.now)
        (V.accepts environment.entry.keys.now)) name.now (Delete r.now)) (world_before disk environment.entry)
        (world_after result.0 environment.exit) result.1 }
{
    let what = What::Delete { target: *r };
    store_claim(alloc, &what, name, disk, environment)
}

fn what_of(alloc: Global, kind: Change, r: &Ref, attr: &str, value: &str) -> Result<What, NoMemory>
    ensures { IfOk result (λ what. what ≡ what_of kind r.now attr.now value.now) }
{
    let on = *r;
    let attr = Text::copy(alloc, attr)?;
    let value = Text::copy(alloc, value)?;
    Ok(match kind {
        Change::Set => What::Set { on, attr, value },
        Change::Add => What::Add { on, attr, value },
        Change::Del => What::Del { on, attr, value },
    })
}

/// Stores the blob of a key and a claim of this time that it signed and that says this, and writes the line of the
/// claim's ref.
pub(crate) fn store_claim<D: Disk, P: Peer, S: Source, K: Sink, C: Clock, R: Dice, V: Signer>(
    alloc: Global,
    what: &What,
    name: &KeyName,
    disk: D,
    environment: Environment<'_, P, S, K, C, R, V>,
) -> (D, Status)
    ensures { Ends (outside D.Disk P.Peer S.Source K.Sink C.Clock R.Dice)
        (claim_meaning (keys_of (V.holds environment.entry.keys.now) (V.seals environment.entry.keys.now)
        (V.accepts environment.entry.keys.now)) name.now what.now)
        (world_before disk environment.entry)
        (world_after result.0 environment.exit) result.1 }
{
    if !is_held(environment.keys, name) {
        return (disk, Status::BadInput(InputFault::NoKey));
    }
    let date = match date_of(environment.clock) {
        Ok(date) => date,
        Err(Failed) => return (disk, Status::HandFault),
    };
    let store = match opened(alloc, disk) {
        Ok(store) => store,
        Err(end) => return end,
    };
    match claim_note(alloc, environment.keys, name, &date, what) {
        Ok(note) => store_note(store, &note, environment.sink),
        Err(fault) => (store.give_back(), Status::from(fault)),
    }
}
