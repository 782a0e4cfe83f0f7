//! What a disk in memory began with, the calls that were done, and the packs that they made.
ghost use Rattle.std.specs.Prelude.{◌≡◌, ◌<◌, ◌≤◌, ℕ, [], Some, None, OnOk, OnErr, IfOk, IfSome, IsSome};
ghost use Rattle.std.specs.FinMap.{get};
ghost use Rattle.std.specs.Option.{option_map, option_and_then};
ghost use Rattle.pack_disk.specs.declared.history.Call.TheVariants.{Make, Append, Sync};
ghost use Rattle.pack_disk.specs.Packs.{least_from};
ghost use Rattle.pack_disk.specs.Disk.{last_number};
ghost use Rattle.pack_disk.specs.Past.{no_past, told, state, at_number, Does, ChangesHeld};
ghost use Rattle.pack_disk.specs.PackState.{begun};
ghost use Rattle.pack_disk.specs.Left.{left};

use crate::image::Image;
use crate::pack::Pack;
use crate::remains::Remains;
use blobref::{NoMemory, Octets};
use std::alloc::Global;
use std::collections::BTreeMap;
use std::marker::Model;

/// A call that was done. A call that failed changed nothing, and is none.
#[derive(Drop)]
pub enum Call {
    /// An empty pack was made.
    Make { pack: u32 },
    /// Bytes were added to a pack.
    Append { pack: u32, bytes: Octets },
    /// A pack was synced.
    Sync { pack: u32 },
}

/// The packs of a disk in memory, and how they came about.
#[derive(Drop)]
pub struct History {
    alloc: Global,
    start: BTreeMap<u32, Remains>,
    done: Vec<Call>,
    held: BTreeMap<u32, Pack>,
}

impl Model for History {
    ghost use Rattle.pack_disk.specs.Past.{Past, IsHeld};

    ghost Value = { Past };

    ghost view = { λ h. record { start = h.start.entries; done = h.done.items } };

    ghost invariant = { λ h. IsHeld h.start.entries h.done.items h.held.entries };
}

impl History {
    /// No pack and no call.
    pub fn empty(alloc: Global) -> History
        ensures { result ≡ no_past }
    {
        History {
            alloc,
            start: BTreeMap::new(alloc),
            done: Vec::new(alloc),
            held: BTreeMap::new(alloc),
        }
    }

    /// Makes an empty pack, in place of the one with this number if there is one. After a refusal all is as before.
    pub fn make(&mut self, pack: u32) -> Result<(), NoMemory>
        requires { pack ≤ last_number }
        ensures { Does (Make pack) self.old self.new result }
    {
        self.done.push(Call::Make { pack })?;
        if let Err(refused) = make_in(&mut self.held, self.alloc, pack) {
            let _ = self.done.pop();
            return Err(refused);
        }
        Ok(())
    }

    /// Adds bytes to a pack, if it is there. After a refusal all is as before.
    pub fn append(&mut self, pack: u32, bytes: &[u8]) -> Result<(), NoMemory>
        ensures { Does (Append pack bytes.now) self.old self.new result }
    {
        let added = Octets::copy(self.alloc, bytes)?;
        self.done.push(Call::Append { pack, bytes: added })?;
        if let Err(refused) = append_in(&mut self.held, pack, bytes) {
            let _ = self.done.pop();
            return Err(refused);
        }
        Ok(())
    }

    /// Makes a pack durable, if it is there. After a refusal all is as before.
    pub fn sync(&mut self, pack: u32) -> Result<(), NoMemory>
        ensures { Does (Sync pack) self.old self.new result }
    {
        self.done.push(Call::Sync { pack })?;
        sync_in(&mut self.held, pack);
        Ok(())
    }

    /// The bytes of a pack.
    pub fn bytes(&self, pack: u32) -> &[u8]
        requires { IsSome (get (told self.now) pack) }
        ensures { get (told self.now) pack ≡ Some result.now }
    {
        self.held[&pack].as_slice()
    }

    /// The least pack number at or above one.
    pub fn first_from(&self, from: u32) -> Option<u32>
        ensures least { result ≡ least_from from (told self.now) }
        ensures range { IfSome result (λ n. (from ≤ n) × (n ≤ last_number)) }
    {
        let (number, _) = self.held.range(from..).next()?;
        Some(*number)
    }

    /// What a crash leaves of the packs, by a choice, as what a disk begins with.
    pub fn crash(&self, choice: u64) -> Result<History, NoMemory>
        ensures fresh { IfOk result (λ image. image.done ≡ []) }
        ensures left { IfOk result (λ image. (n : ℕ) → at_number image.start n ≡ option_and_then (left choice)
            (state self.now n)) }
    {
        let image = self.image(choice)?;
        Ok(History {
            alloc: self.alloc,
            start: image.start,
            done: Vec::new(self.alloc),
            held: image.held,
        })
    }

    // What a crash leaves of each pack.
    fn image(&self, choice: u64) -> Result<Image, NoMemory>
        ensures left { IfOk result (λ image. (n : ℕ) → at_number image.start.entries n ≡ option_and_then (left choice)
            (state self.now n)) }
        ensures held { IfOk result (λ image. (n : ℕ) → at_number image.held.entries n ≡ option_map begun
            (at_number image.start.entries n)) }
        ensures numbers { IfOk result (λ image. (n : ℕ) → last_number < n → at_number image.start.entries n ≡ None) }
    {
        let mut image = Image::empty(self.alloc);
        for (number, pack) in &self.held {
            image.keep(self.alloc, *number, pack, choice)?;
        }
        Ok(image)
    }
}

// Puts a new pack. After a refusal the packs are as before.
fn make_in(held: &mut BTreeMap<u32, Pack>, alloc: Global, pack: u32) -> Result<(), NoMemory>
    ensures ok { OnOk result (ChangesHeld (Make pack) held.old.entries held.new.entries) }
    ensures err { OnErr result (held.new.entries ≡ held.old.entries) }
{
    held.insert(pack, Pack::fresh(alloc))?;
    Ok(())
}

// Adds bytes to a pack, if it is there. After a refusal the packs are as before.
fn append_in(held: &mut BTreeMap<u32, Pack>, pack: u32, bytes: &[u8]) -> Result<(), NoMemory>
    ensures ok { OnOk result (ChangesHeld (Append pack bytes.now) held.old.entries held.new.entries) }
    ensures err { OnErr result (held.new.entries ≡ held.old.entries) }
{
    match held.get_mut(&pack) {
        Some(found) => found.append(bytes),
        None => Ok(()),
    }
}

// Makes the bytes of a pack durable, if it is there.
fn sync_in(held: &mut BTreeMap<u32, Pack>, pack: u32)
    ensures { ChangesHeld (Sync pack) held.old.entries held.new.entries }
{
    if let Some(found) = held.get_mut(&pack) {
        found.settle();
    }
}
