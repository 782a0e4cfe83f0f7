//! The core.
ghost use Rattle.std.specs.Prelude.{◌≡◌, true, IfOk, OnOk, OnErr};
ghost use mathlib.Core.List.{IsPrefix};
ghost use Rattle.home_core.specs.State.{IsSound, empty_core};
ghost use Rattle.home_core.specs.Steps.{core_reply, core_step};
ghost use Rattle.home_core.specs.Promises.{is_no_stop};

use crate::events::{Event, Reply};
use crate::lists::Lists;
use crate::searching::search;
use blobref::NoMemory;
use claim_verify::Verifier;
use std::alloc::Global;
use std::marker::Model;

/// A store with its index, over plain lists, as all sessions see it at a moment (`docs/core.md`). A contract sees the
/// lists and the keys.
#[derive(Drop)]
pub struct Core<V> {
    pub(crate) alloc: Global,
    pub(crate) lists: Lists,
    pub(crate) keys: V,
}

impl<V> Model for Core<V> {
    ghost use Rattle.home_core.specs.State.{CoreOf, IsSound, core_code};

    ghost Value = { CoreOf V };

    ghost coded = { core_code V.code };

    ghost view = { λ c. record { state = c.lists; keys = c.keys } };

    ghost invariant = { λ c. IsSound c.lists };
}

impl<V: Verifier> Core<V> {
    /// A core in which nothing happened. It keeps the allocator, and takes all its memory from it.
    pub fn fresh(alloc: Global, keys: V) -> Core<V>
        ensures state { result.state ≡ empty_core }
        ensures keys { result.keys ≡ keys }
    {
        Core {
            alloc,
            lists: Lists::empty(alloc),
            keys,
        }
    }

    /// Each core is sound: the refs of its blobs are distinct, each is a ref of its bytes, and each number that arrived
    /// waits, or stands once in hand, or once among the indexed ones. Nothing is done.
    pub fn each_is_sound(&self)
        ensures { IsSound self.now.state }
    {
        let _lists = &self.lists;
    }

    /// Does what the event says, and gives its reply (`docs/core.md`). `NoMemory` comes only where no memory is left,
    /// and then nothing happened.
    ///
    /// The lists are plain: a put looks at the ref of each blob, and a settle at the indexed numbers for each number
    /// below its bound. A search reads what each indexed blob says, and makes an index of it.
    pub fn step(&mut self, event: &Event) -> Result<Reply, NoMemory>
        ensures state { OnOk result (self.new.state ≡ core_step self.old.state event.now) }
        ensures reply { IfOk result (λ reply.
            reply ≡ core_reply (V.accepts self.old.keys) self.old.state event.now) }
        ensures refused { OnErr result (self.new.state ≡ self.old.state) }
        ensures keys { self.new.keys ≡ self.old.keys }
        ensures sound { IsSound self.new.state }
        ensures grows { is_no_stop event.now ≡ true → IsPrefix self.old.state.indexed self.new.state.indexed }
    {
        happens(self.alloc, &mut self.lists, &self.keys, event)
    }
}

// What the event does to the lists, and its reply.
fn happens<V: Verifier>(
    alloc: Global,
    lists: &mut Lists,
    keys: &V,
    event: &Event,
) -> Result<Reply, NoMemory>
    ensures state { OnOk result (lists.new ≡ core_step lists.old event.now) }
    ensures reply { IfOk result (λ reply. reply ≡ core_reply (V.accepts keys.now) lists.old event.now) }
    ensures refused { OnErr result (lists.new ≡ lists.old) }
{
    match event {
        Event::Put {
            session,
            said,
            bytes,
        } => lists.put(alloc, *session, said, bytes.as_slice()),
        Event::Fault { session } => lists.fault(alloc, *session),
        Event::Take { session, known } => lists.take(alloc, *session, *known),
        Event::Insert { session, number } => lists.insert(alloc, *session, *number),
        Event::Return { session, number } => lists.give_back(alloc, *session, *number),
        Event::Settle { session, below } => lists.settle(alloc, *session, *below),
        Event::Search { session, q } => search(alloc, lists, keys, *session, q),
        Event::Sync { session, blobs } => lists.sync(alloc, *session, blobs.as_slice()),
        Event::Stop { kept } => lists.stop(alloc, kept.as_slice()),
    }
}
