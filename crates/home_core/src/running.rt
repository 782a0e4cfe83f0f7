//! Lists of events.
ghost use Rattle.std.specs.Prelude.{◌≡◌, IfOk, OnOk};
ghost use Rattle.home_core.specs.State.{IsSound};
ghost use Rattle.home_core.specs.Steps.{after_events, replies_to};
ghost use Rattle.home_core.specs.Promises.{FindsAllSeen, IndexedOnlyGrow};

use crate::events::{Event, EventList, ReplyList};
use crate::stepping::Core;
use blobref::NoMemory;
use claim_verify::Verifier;
use std::alloc::Global;

/// The core after a list of events, and the replies to them, in their order (`docs/core.md`). `NoMemory` comes only
/// where no memory is left; the core is given up then.
///
/// The core is sound after any events, the indexed numbers only grow between stops, and each search that follows a
/// settle of its session, with no put, fault or sync of its own in between, finds all that the session has seen.
pub fn after<V: Verifier>(
    alloc: Global,
    core: Core<V>,
    events: &EventList,
) -> Result<(Core<V>, ReplyList), NoMemory>
where
    V: Drop,
    ensures state { IfOk result (λ done. done.0.state ≡ after_events core.state events.now) }
    ensures keys { IfOk result (λ done. done.0.keys ≡ core.keys) }
    ensures replies { IfOk result (λ done.
        done.1 ≡ replies_to (V.accepts core.keys) core.state events.now) }
    ensures sound { IfOk result (λ done. IsSound done.0.state) }
    ensures grows { OnOk result (IndexedOnlyGrow core.state events.now) }
    ensures finds { OnOk result (FindsAllSeen core.state events.now) }
{
    core.each_is_sound();
    let mut core = core;
    let replies = step_all(alloc, &mut core, events.as_slice())?;
    core.each_is_sound();
    Ok((core, replies))
}

// Does what the events say, one after the other. After a refusal for memory some of it may be done.
fn step_all<V: Verifier>(
    alloc: Global,
    core: &mut Core<V>,
    events: &[Event],
) -> Result<ReplyList, NoMemory>
    ensures state { OnOk result (core.new.state ≡ after_events core.old.state events.now) }
    ensures keys { core.new.keys ≡ core.old.keys }
    ensures replies { IfOk result (λ replies.
        replies ≡ replies_to (V.accepts core.old.keys) core.old.state events.now) }
{
    let mut replies = ReplyList::empty(alloc);
    'events: for event in events {
        replies.push(core.step(event)?)?;
    }
    Ok(replies)
}
