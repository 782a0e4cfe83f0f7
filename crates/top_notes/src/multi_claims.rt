//! `multi DIR --key NAME`
ghost use Rattle.std.specs.Prelude.{◌≤◌, IfOk, IfErr};
ghost use Rattle.top_frame.specs.Outside.{outside, world_before, world_after};
ghost use Rattle.top_frame.specs.Frame.{Ends};
ghost use Rattle.top_notes.specs.Multi.{multi_meaning, ReadsChanges, RefusesChanges};
ghost use Rattle.top_notes.specs.Meanings.{keys_of};

use crate::claims::store_claim;
use crate::notes::is_held;
use claim_verify::{KeyName, Signer};
use edge_base::{Clock, Dice, Sink, Source};
use pack_disk::Disk;
use peer_base::Peer;
use schema_fact::{ChangeList, What};
use schema_json::change_list;
use std::alloc::Global;
use top_frame::{Environment, InputFault, Status, read_input, told_too_long};

// The most bytes that a list of changes may have.
const MAX_CHANGES_TEXT: usize = 1_048_576;

/// Stores the blob of a key and a claim of this time that it signed, of the changes that the source lists, and writes
/// the line of the claim's ref.
pub fn multi<D: Disk, P: Peer, S: Source, K: Sink, C: Clock, R: Dice, V: Signer>(
    alloc: Global,
    name: &KeyName,
    disk: D,
    environment: Environment<'_, P, S, K, C, R, V>,
) -> (D, Status)
    ensures { Ends (outside D.Disk P.Peer S.Source K.Sink C.Clock R.Dice)
        (multi_meaning (keys_of (V.holds environment.entry.keys.now) (V.seals environment.entry.keys.now)
        (V.accepts environment.entry.keys.now)) name.now)
        (world_before disk environment.entry)
        (world_after result.0 environment.exit) result.1 }
{
    if !is_held(environment.keys, name) {
        return (disk, Status::BadInput(InputFault::NoKey));
    }
    match read_changes(alloc, environment.source) {
        Ok(changes) => {
            let what = What::Multi(changes);
            store_claim(alloc, &what, name, disk, environment)
        }
        Err(status) => (disk, status),
    }
}

// The changes that the source lists.
fn read_changes<S: Source>(alloc: Global, source: &mut S) -> Result<ChangeList, Status>
    ensures read { IfOk result (ReadsChanges S.Source source.old source.new) }
    ensures refused { IfErr result (RefusesChanges S.Source source.old source.new) }
    ensures later { S.faults source.old ≤ S.faults source.new }
{
    let text = match read_input(alloc, source, MAX_CHANGES_TEXT) {
        Ok(text) => text,
        Err(status) => return Err(told_too_long(status)),
    };
    let changes = change_list(alloc, &text)?;
    changes.ok_or(Status::BadInput(InputFault::BadChanges))
}
