//! The lists of a core, and what each event does to them.
ghost use Rattle.std.specs.Prelude.{◌≡◌, ◌++◌, ◌∷◌, [], IfOk, OnOk, OnErr};
ghost use Rattle.std.specs.List.{filter_map};
ghost use Rattle.home_core.specs.declared.events.Event.TheVariants as event;
ghost use Rattle.home_core.specs.State.{empty_core, seen_by, unless_by, with_seen};
ghost use Rattle.home_core.specs.Steps.{core_step, put_reply, insert_reply, taken_reply, least_waiting, sees_indexed, with_hand, with_indexed, with_indexed_seen, with_store_seen};

use crate::events::Reply;
use crate::numbers::{has, least_in_neither, unlisted_below, without};
use crate::storing::{put_blob, put_blobs};
use blobref::{NoMemory, Octets, Ref};
use edge_base::Inserted;
use std::alloc::Global;
use std::marker::Model;

/// What a session has seen: so many of the blobs, and so many of the indexed numbers.
#[derive(Clone, Copy)]
pub struct Seen {
    pub session: u32,
    pub store: u64,
    pub indexed: u64,
}

// The lists of a core. Each call that a refusal for memory ends leaves them as they were.
#[derive(Drop)]
pub(crate) struct Lists {
    pub(crate) store: Vec<(Ref, Octets)>,
    hand: Vec<u64>,
    pub(crate) indexed: Vec<u64>,
    seen: Vec<Seen>,
}

impl Model for Lists {
    ghost use Rattle.home_core.specs.State.{CoreState, state_code};

    ghost Value = { CoreState };

    ghost coded = { state_code };

    ghost view = { λ l. record {
      store = l.store.items;
      hand = l.hand.items;
      indexed = l.indexed.items;
      seen = l.seen.items;
    } };
}

impl Lists {
    pub(crate) fn empty(alloc: Global) -> Lists
        ensures { result ≡ empty_core }
    {
        Lists {
            store: Vec::new(alloc),
            hand: Vec::new(alloc),
            indexed: Vec::new(alloc),
            seen: Vec::new(alloc),
        }
    }

    pub(crate) fn put(
        &mut self,
        alloc: Global,
        session: u32,
        said: &Ref,
        bytes: &[u8],
    ) -> Result<Reply, NoMemory>
        ensures state { OnOk result (self.new ≡ core_step self.old (event.Put session said.now bytes.now)) }
        ensures reply { IfOk result (λ reply. reply ≡ put_reply (said.now, bytes.now) self.old.store) }
        ensures refused { OnErr result (self.new ≡ self.old) }
    {
        let len = self.store.len();
        let reply = put_blob(alloc, &mut self.store, said, bytes)?;
        let count = self.store.len() as u64;
        if see_store(alloc, &mut self.seen, session, count).is_err() {
            self.store.truncate(len);
            return Err(NoMemory);
        }
        Ok(reply)
    }

    pub(crate) fn sync(
        &mut self,
        alloc: Global,
        session: u32,
        blobs: &[(Ref, Octets)],
    ) -> Result<Reply, NoMemory>
        ensures state { OnOk result (self.new ≡ core_step self.old (event.Sync session blobs.now)) }
        ensures reply { IfOk result (λ reply. reply ≡ Reply.Nothing) }
        ensures refused { OnErr result (self.new ≡ self.old) }
    {
        let len = self.store.len();
        if put_blobs(alloc, &mut self.store, blobs).is_err() {
            self.store.truncate(len);
            return Err(NoMemory);
        }
        let count = self.store.len() as u64;
        if see_store(alloc, &mut self.seen, session, count).is_err() {
            self.store.truncate(len);
            return Err(NoMemory);
        }
        Ok(Reply::Nothing)
    }

    pub(crate) fn fault(&mut self, alloc: Global, session: u32) -> Result<Reply, NoMemory>
        ensures state { OnOk result (self.new ≡ core_step self.old (event.Fault session)) }
        ensures reply { IfOk result (λ reply. reply ≡ Reply.Nothing) }
        ensures refused { OnErr result (self.new ≡ self.old) }
    {
        let count = self.store.len() as u64;
        see_store(alloc, &mut self.seen, session, count)?;
        Ok(Reply::Nothing)
    }

    pub(crate) fn take(
        &mut self,
        alloc: Global,
        session: u32,
        known: u64,
    ) -> Result<Reply, NoMemory>
        ensures state { OnOk result (self.new ≡ core_step self.old (event.Take session known)) }
        ensures reply { IfOk result (λ reply. reply ≡ taken_reply (least_waiting known self.old)) }
        ensures refused { OnErr result (self.new ≡ self.old) }
    {
        match self.least_waiting(known) {
            Some(number) => self.take_number(alloc, session, number),
            None => {
                self.see_indexed(alloc, session)?;
                Ok(Reply::Nothing)
            }
        }
    }

    // The least number that arrived, is below a bound, and waits.
    pub(crate) fn least_waiting(&self, known: u64) -> Option<u64>
        ensures { result ≡ least_waiting known self.now }
    {
        let bound = known.min(self.store.len() as u64);
        least_in_neither(&self.indexed, &self.hand, bound)
    }

    fn take_number(&mut self, alloc: Global, session: u32, number: u64) -> Result<Reply, NoMemory>
        ensures state { OnOk result (self.new ≡ sees_indexed session (with_hand (self.old.hand ++ number ∷ []) self.old)) }
        ensures reply { IfOk result (λ reply. reply ≡ Reply.Taken number) }
        ensures refused { OnErr result (self.new ≡ self.old) }
    {
        let count = self.indexed.len() as u64;
        let len = self.hand.len();
        self.hand.push(number)?;
        if see_indexed(alloc, &mut self.seen, session, count).is_err() {
            self.hand.truncate(len);
            return Err(NoMemory);
        }
        Ok(Reply::Taken { number })
    }

    pub(crate) fn insert(
        &mut self,
        alloc: Global,
        session: u32,
        number: u64,
    ) -> Result<Reply, NoMemory>
        ensures state { OnOk result (self.new ≡ core_step self.old (event.Insert session number)) }
        ensures reply { IfOk result (λ reply. reply ≡ insert_reply number self.old) }
        ensures refused { OnErr result (self.new ≡ self.old) }
    {
        if number >= self.store.len() as u64 {
            self.see_indexed(alloc, session)?;
            return Ok(Reply::Nothing);
        }
        if has(&self.indexed, number) {
            self.see_indexed(alloc, session)?;
            return Ok(Reply::Indexed(Inserted::Already));
        }
        self.index(alloc, session, &[number])?;
        Ok(Reply::Indexed(Inserted::New))
    }

    pub(crate) fn give_back(
        &mut self,
        alloc: Global,
        session: u32,
        number: u64,
    ) -> Result<Reply, NoMemory>
        ensures state { OnOk result (self.new ≡ core_step self.old (event.Return session number)) }
        ensures reply { IfOk result (λ reply. reply ≡ Reply.Nothing) }
        ensures refused { OnErr result (self.new ≡ self.old) }
    {
        let hand = without(alloc, &[number], &self.hand)?;
        let count = self.indexed.len() as u64;
        see_indexed(alloc, &mut self.seen, session, count)?;
        self.hand = hand;
        Ok(Reply::Nothing)
    }

    pub(crate) fn settle(
        &mut self,
        alloc: Global,
        session: u32,
        below: u64,
    ) -> Result<Reply, NoMemory>
        ensures state { OnOk result (self.new ≡ core_step self.old (event.Settle session below)) }
        ensures reply { IfOk result (λ reply. reply ≡ Reply.Nothing) }
        ensures refused { OnErr result (self.new ≡ self.old) }
    {
        let seen = seen_by(&self.seen, session).store;
        let bound = below.max(seen).min(self.store.len() as u64);
        let numbers = unlisted_below(alloc, &self.indexed, bound)?;
        self.index(alloc, session, &numbers)?;
        Ok(Reply::Nothing)
    }

    // Takes numbers out of the hand, and puts them behind the indexed ones.
    fn index(&mut self, alloc: Global, session: u32, numbers: &[u64]) -> Result<(), NoMemory>
        ensures state { OnOk result (self.new ≡ sees_indexed session (with_indexed numbers.now self.old)) }
        ensures refused { OnErr result (self.new ≡ self.old) }
    {
        let hand = without(alloc, numbers, &self.hand)?;
        let len = self.indexed.len();
        self.indexed.extend_from_slice(numbers)?;
        let count = self.indexed.len() as u64;
        if see_indexed(alloc, &mut self.seen, session, count).is_err() {
            self.indexed.truncate(len);
            return Err(NoMemory);
        }
        self.hand = hand;
        Ok(())
    }

    // The session sees all indexed numbers.
    pub(crate) fn see_indexed(&mut self, alloc: Global, session: u32) -> Result<(), NoMemory>
        ensures state { OnOk result (self.new ≡ sees_indexed session self.old) }
        ensures refused { OnErr result (self.new ≡ self.old) }
    {
        let count = self.indexed.len() as u64;
        see_indexed(alloc, &mut self.seen, session, count)
    }

    // All ends, and begins anew with these blobs.
    pub(crate) fn stop(&mut self, alloc: Global, kept: &[(Ref, Octets)]) -> Result<Reply, NoMemory>
        ensures state { OnOk result (self.new ≡ core_step self.old (event.Stop kept.now)) }
        ensures reply { IfOk result (λ reply. reply ≡ Reply.Nothing) }
        ensures refused { OnErr result (self.new ≡ self.old) }
    {
        let mut lists = Lists::empty(alloc);
        put_blobs(alloc, &mut lists.store, kept)?;
        *self = lists;
        Ok(Reply::Nothing)
    }
}

// The session sees so many blobs.
fn see_store(alloc: Global, seen: &mut Vec<Seen>, session: u32, store: u64) -> Result<(), NoMemory>
    ensures seen { OnOk result (seen.new.items ≡ with_store_seen session store seen.old.items) }
    ensures refused { OnErr result (seen.new.items ≡ seen.old.items) }
{
    let indexed = seen_by(seen, session).indexed;
    *seen = with_seen(alloc, session, store, indexed, seen)?;
    Ok(())
}

// The session sees so many indexed numbers.
fn see_indexed(
    alloc: Global,
    seen: &mut Vec<Seen>,
    session: u32,
    indexed: u64,
) -> Result<(), NoMemory>
    ensures seen { OnOk result (seen.new.items ≡ with_indexed_seen session indexed seen.old.items) }
    ensures refused { OnErr result (seen.new.items ≡ seen.old.items) }
{
    let store = seen_by(seen, session).store;
    *seen = with_seen(alloc, session, store, indexed, seen)?;
    Ok(())
}

// What a session has seen.
fn seen_by(seen: &[Seen], session: u32) -> Seen
    ensures { result ≡ seen_by session seen.now }
{
    'seen: for s in seen {
        if s.session == session {
            return *s;
        }
    }
    Seen {
        session,
        store: 0,
        indexed: 0,
    }
}

// What the sessions have seen, where one of them has seen so much.
fn with_seen(
    alloc: Global,
    session: u32,
    store: u64,
    indexed: u64,
    seen: &[Seen],
) -> Result<Vec<Seen>, NoMemory>
    ensures { IfOk result (λ all.
        all.items ≡ with_seen (record { session = session; store = store; indexed = indexed }) seen.now) }
{
    let mut all = others(alloc, session, seen)?;
    all.push(Seen {
        session,
        store,
        indexed,
    })?;
    Ok(all)
}

// What the other sessions have seen.
fn others(alloc: Global, session: u32, seen: &[Seen]) -> Result<Vec<Seen>, NoMemory>
    ensures { IfOk result (λ others. others.items ≡ filter_map (unless_by session) seen.now) }
{
    let others = seen
        .iter()
        .filter_map(|s| unless_by(session, s))
        .collect(alloc)?;
    Ok(others)
}

fn unless_by(session: u32, s: &Seen) -> Option<Seen>
    ensures { result ≡ unless_by session s.now }
{
    if s.session == session { None } else { Some(*s) }
}
