//! Numbers are indexed.
ghost use Rattle.std.specs.Prelude.{◌≡◌, ◌+◌, ◌++◌, ◌∷◌, [], true, Some, OnOk, OnErr, length};
ghost use Rattle.home_core.specs.State.{IsSound};
ghost use Rattle.home_core.specs.Steps.{core_step};
ghost use Rattle.home_core.specs.declared.events.Event.TheVariants as event;
ghost use Rattle.core_home.specs.Keeping.{are_left, inserted_from};
ghost use Rattle.core_home.specs.Answers.{lacking_count, settled};

use crate::turns::{Turns, push_inserts};
use blobref::NoMemory;
use claim_verify::Verifier;
use home_core::{Core, Event};

/// Inserts every number that arrived and isn't indexed, each in a turn of its own, and keeps these turns. There are
/// `count` of them. After a refusal for memory all is as it was.
pub(crate) fn settle<V: Verifier>(
    core: &mut Core<V>,
    inserts: &mut Vec<Turns>,
    drawn: u64,
    count: u64,
) -> Result<(), NoMemory>
    requires left { are_left count drawn ≡ true }
    requires count { count ≡ lacking_count core.old.state }
    ensures core { OnOk result (core.new.state ≡ settled core.old.state) }
    ensures inserts { OnOk result (inserts.new.items ≡ inserts.old.items ++ inserted_from drawn count) }
    ensures same_core { OnErr result (core.new.state ≡ core.old.state) }
    ensures same_inserts { OnErr result (inserts.new.items ≡ inserts.old.items) }
    ensures keys { core.new.keys ≡ core.old.keys }
    ensures sound { IsSound core.new.state }
{
    core.each_is_sound();
    if count == 0 {
        return Ok(());
    }
    let len = inserts.len();
    push_inserts(inserts, drawn, count)?;
    let below = core.blobs().len() as u64;
    if core.step(&Event::Settle { session: 0, below }).is_err() {
        inserts.truncate(len);
        return Err(NoMemory);
    }
    Ok(())
}

/// Inserts a number, which was taken in the turn before, and keeps these two turns. After a refusal for memory all is
/// as it was.
pub(crate) fn insert<V: Verifier>(
    core: &mut Core<V>,
    inserts: &mut Vec<Turns>,
    taken: u64,
    inserted: u64,
    number: u64,
) -> Result<(), NoMemory>
    ensures core { OnOk result (core.new.state ≡ core_step core.old.state (event.Insert 0 number)) }
    ensures inserts { OnOk result
        (inserts.new.items ≡ inserts.old.items ++ record { taken = Some taken; inserted = inserted } ∷ []) }
    ensures same_core { OnErr result (core.new.state ≡ core.old.state) }
    ensures same_inserts { OnErr result (inserts.new.items ≡ inserts.old.items) }
    ensures keys { core.new.keys ≡ core.old.keys }
    ensures sound { IsSound core.new.state }
{
    core.each_is_sound();
    let len = inserts.len();
    inserts.push(Turns {
        taken: Some(taken),
        inserted,
    })?;
    if core.step(&Event::Insert { session: 0, number }).is_err() {
        inserts.truncate(len);
        return Err(NoMemory);
    }
    Ok(())
}
