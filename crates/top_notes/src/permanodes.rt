//! `permanode DIR --key NAME`
ghost use Rattle.top_frame.specs.Outside.{outside, world_before, world_after};
ghost use Rattle.top_frame.specs.Frame.{Ends};
ghost use Rattle.top_notes.specs.Meanings.{permanode_meaning, keys_of};

use crate::notes::{is_held, permanode_note, random_of};
use crate::storing::store_note;
use blobref::NoMemory;
use claim_verify::{KeyName, Signer};
use edge_base::{Clock, Dice, Failed, Sink, Source};
use pack_disk::Disk;
use peer_base::Peer;
use std::alloc::Global;
use top_frame::{Environment, InputFault, Status, opened};

/// Stores the blob of a key and a new permanode that it signed, and writes the line of the permanode's ref.
pub fn permanode<D: Disk, P: Peer, S: Source, K: Sink, C: Clock, R: Dice, V: Signer>(
    alloc: Global,
    name: &KeyName,
    disk: D,
    environment: Environment<'_, P, S, K, C, R, V>,
) -> (D, Status)
    ensures { Ends (outside D.Disk P.Peer S.Source K.Sink C.Clock R.Dice)
        (permanode_meaning (keys_of (V.holds environment.entry.keys.now) (V.seals environment.entry.keys.now)
        (V.accepts environment.entry.keys.now)) name.now)
        (world_before disk environment.entry)
        (world_after result.0 environment.exit) result.1 }
{
    if !is_held(environment.keys, name) {
        return (disk, Status::BadInput(InputFault::NoKey));
    }
    let random = match random_of(environment.dice) {
        Ok(random) => random,
        Err(Failed) => return (disk, Status::HandFault),
    };
    let store = match opened(alloc, disk) {
        Ok(store) => store,
        Err(end) => return end,
    };
    match permanode_note(alloc, environment.keys, name, &random) {
        Ok(note) => store_note(store, &note, environment.sink),
        Err(NoMemory) => (store.give_back(), Status::NoMemory),
    }
}
