//! A disk in memory, whose calls fail by a list, and what a crash may leave of it.
ghost use Rattle.std.specs.Prelude.{◌≡◌, ◌≤◌, ◌-◌, ◌^◌, ℕ, [], List, length, Some, None, IsSome, IfSome, IfOk, OnOk, OnErr, IsOk, IsErr, ◌++◌, take};
ghost use Rattle.std.specs.FinMap.{get, insert};
ghost use Rattle.std.specs.Option.{ForSome, option_map, option_and_then};
ghost use Rattle.edge_base.specs.Calls.{no_calls, after_fault, IsCounted, IsPlanned};
ghost use Rattle.edge_base.specs.Edge.{HasCause};
ghost use Rattle.pack_disk.specs.declared.history.Call.TheVariants.{Make, Append, Sync};
ghost use Rattle.pack_disk.specs.Packs.{Packs, least_from};
ghost use Rattle.pack_disk.specs.Disk.{last_number, SameOthers, Extends, Makes, Follows, NoNew, Tells, ReadAt};
ghost use Rattle.pack_disk.specs.PackState.{all_bytes, begun};
ghost use Rattle.pack_disk.specs.Left.{left};
ghost use Rattle.pack_disk.specs.Past.{no_past, told, state, with_call, IsImage, Passes, Does};
ghost use Rattle.pack_disk.specs.Answered.{PackFound, HasSize, BytesRead};

use crate::disk::Disk;
use crate::history::History;
use blobref::NoMemory;
use edge_base::{CallList, Calls, Failed};
use std::alloc::Global;
use std::marker::Model;

/// A disk in memory (`docs/formats/packs.md`, "Disks and crashes"). A contract sees the calls that were done since it
/// began, with the packs that it began with, and which of its calls fail.
#[derive(Drop)]
pub struct MemDisk {
    alloc: Global,
    history: History,
    calls: Calls,
}

impl Model for MemDisk {
    ghost use Rattle.pack_disk.specs.Memory.{Remembered};

    ghost Value = { Remembered };

    ghost view = { λ d. record { history = d.history; calls = d.calls } };
}

impl MemDisk {
    /// A disk without packs. Its calls are counted from 0, `faults` left out. Those whose numbers are in the list
    /// fail, and so does each from the number `stop` on. A call that fails changes nothing.
    pub fn empty(alloc: Global, fails: CallList, stop: u64) -> MemDisk
        ensures past { result.history ≡ no_past }
        ensures calls { result.calls ≡ no_calls fails (Some stop) }
    {
        MemDisk {
            alloc,
            history: History::empty(alloc),
            calls: Calls::of(fails, Some(stop)),
        }
    }

    /// What a crash leaves of this disk, as the disk that is opened next. The bytes of each pack at its last sync
    /// stay, and the choice modulo 8 says what stays of its tail, the bytes since then:
    ///
    /// - 0: all of it. The disk reads as before.
    /// - 1: nothing, and of a pack that was never synced not even the pack.
    /// - 2: its first half, rounded down.
    /// - 3: its first byte.
    /// - 4: all but its last byte.
    /// - 5: as many bytes, all 0.
    /// - 6: as many bytes, others, by the choice.
    /// - 7: as many bytes, the first of them, as far as there is room, a header of a blob of 16,777,216 bytes.
    ///
    /// Of the new disk is durable what was durable before: what stays of a tail may be lost in the next crash, and so
    /// may a pack that was never synced, until they are synced. So each image of it is one of this disk. Its calls
    /// are counted from 0, and none is to fail before the number 18,446,744,073,709,551,615. `NoMemory` may come in
    /// place of any answer.
    pub fn crash(self, choice: u64) -> Result<MemDisk, NoMemory>
        ensures image { IfOk result (λ disk. IsImage (state self.history) (told disk.history)) }
        ensures crash { IfOk result (λ disk. NoNew (IsImage (state self.history)) (IsImage (state disk.history))) }
        ensures left { IfOk result (λ disk. (n : ℕ) → get (told disk.history) n ≡ option_map all_bytes
            (option_and_then (left choice) (state self.history n))) }
        ensures durable { IfOk result (λ disk. (n : ℕ) → state disk.history n ≡ option_map begun
            (option_and_then (left choice) (state self.history n))) }
        ensures past { IfOk result (λ disk. disk.history.done ≡ []) }
        ensures calls { IfOk result (λ disk. disk.calls ≡ no_calls [] (Some (2 ^ 64 - 1))) }
    {
        let history = self.history.crash(choice)?;
        let calls = Calls::of(CallList::empty(self.alloc), Some(u64::MAX));
        Ok(MemDisk {
            alloc: self.alloc,
            history,
            calls,
        })
    }

    // Counts a call that was refused for want of memory as a failure.
    fn counted(&mut self, done: Result<(), NoMemory>) -> Result<(), Failed>
        ensures ok { OnOk result (IsOk done × (self.new.calls ≡ self.old.calls)) }
        ensures err { OnErr result (IsErr done × (self.new.calls ≡ after_fault self.old.calls)) }
        ensures same { self.new.history ≡ self.old.history }
        ensures cause { HasCause self.old.calls.faults self.new.calls.faults result }
    {
        if done.is_err() {
            self.calls.fail();
            return Err(Failed);
        }
        Ok(())
    }
}

impl Disk for MemDisk {
    ghost use Rattle.std.specs.Prelude.{◌≡◌, length, Some, refl};
    ghost use Rattle.pack_disk.specs.declared.history.Call.TheVariants.{Sync};
    ghost use Rattle.pack_disk.specs.Past.{told, state, with_call, IsImage, WasImage};
    ghost use Rattle.pack_disk.specs.Answered.{PackFound, HasSize, BytesRead};
    ghost use Rattle.pack_disk.specs.Told.{reads_image, now_counts, now_only};

    ghost packs = { λ d. Some (told d.history) };

    ghost images = { λ d image. IsImage (state d.history) image };

    ghost moment = { λ d. length d.history.done };

    ghost images_since = { λ d t image. WasImage d.history t image };

    ghost faults = { λ d. d.calls.faults };

    ghost finds = { λ a from n b. PackFound a.history from n b.history };

    ghost sizes = { λ a pack n b. HasSize a.history pack n b.history };

    ghost gives = { λ a pack at room bytes b. BytesRead a.history pack at room bytes b.history };

    ghost syncs = { λ a pack b. b.history ≡ with_call a.history (Sync pack) };

    ghost reads = { λ d held is. reads_image d.history held is };

    ghost tells = { λ d image is. (told d.history, refl) };

    ghost counts_now = { λ d t image le is. now_counts d.history t image le is };

    ghost only_now = { λ d image was. now_only d.history image was };

    /// The least pack number at or above `from`. It fails exactly where its number is one of those that fail.
    fn packs(&mut self, from: u32) -> Result<Option<u32>, Failed>
        ensures least { IfOk result (λ n. ForSome (Some (told self.old.history)) (λ held. n ≡ least_from from held)) }
        ensures range { IfOk result (λ o. IfSome o (λ n. (from ≤ n) × (n ≤ last_number))) }
        ensures is { IfOk result (λ n. PackFound self.old.history from n self.new.history) }
        ensures told { Some (told self.new.history) ≡ Some (told self.old.history) }
        ensures crash { NoNew (IsImage (state self.old.history)) (IsImage (state self.new.history)) }
        ensures time { Passes self.old.history self.new.history }
        ensures still { length self.new.history.done ≡ length self.old.history.done }
        ensures cause { HasCause self.old.calls.faults self.new.calls.faults result }

        ensures past { self.new.history ≡ self.old.history }
        ensures calls { IsPlanned self.old.calls self.new.calls result }
    {
        self.calls.begin()?;
        Ok(self.history.first_from(from))
    }

    /// How many bytes a pack has. It fails exactly where its number is one of those that fail.
    fn size(&mut self, pack: u32) -> Result<u64, Failed>
        requires { ForSome (Some (told self.old.history)) (λ held. IsSome (get held pack)) }
        ensures size { IfOk result (λ n. ForSome (Some (told self.old.history))
            (λ held. (bytes : List ℕ) → get held pack ≡ Some bytes → n ≡ length bytes)) }
        ensures is { IfOk result (λ n. HasSize self.old.history pack n self.new.history) }
        ensures told { Some (told self.new.history) ≡ Some (told self.old.history) }
        ensures crash { NoNew (IsImage (state self.old.history)) (IsImage (state self.new.history)) }
        ensures time { Passes self.old.history self.new.history }
        ensures still { length self.new.history.done ≡ length self.old.history.done }
        ensures cause { HasCause self.old.calls.faults self.new.calls.faults result }

        ensures past { self.new.history ≡ self.old.history }
        ensures calls { IsPlanned self.old.calls self.new.calls result }
    {
        self.calls.begin()?;
        Ok(self.history.bytes(pack).len() as u64)
    }

    /// Copies a pack's bytes from the place on, as many as the buffer has room for; from a place behind the end there
    /// are none. It fails exactly where its number is one of those that fail.
    fn read(&mut self, pack: u32, at: u64, buf: &mut [u8]) -> Result<usize, Failed>
        requires { ForSome (Some (told self.old.history)) (λ held. IsSome (get held pack)) }
        ensures bound { IfOk result (λ n. n ≤ length buf.old) }
        ensures bytes { IfOk result (λ n. ForSome (Some (told self.old.history))
            (λ held. (bytes : List ℕ) → get held pack ≡ Some bytes → ReadAt bytes at (length buf.old) n buf.new)) }
        ensures is { IfOk result (λ n. BytesRead self.old.history pack at (length buf.old) (take n buf.new)
            self.new.history) }
        ensures told { Some (told self.new.history) ≡ Some (told self.old.history) }
        ensures crash { NoNew (IsImage (state self.old.history)) (IsImage (state self.new.history)) }
        ensures time { Passes self.old.history self.new.history }
        ensures still { length self.new.history.done ≡ length self.old.history.done }
        ensures cause { HasCause self.old.calls.faults self.new.calls.faults result }

        ensures past { self.new.history ≡ self.old.history }
        ensures calls { IsPlanned self.old.calls self.new.calls result }
    {
        self.calls.begin()?;
        Ok(copy_from(self.history.bytes(pack), at, buf))
    }

    /// Makes an empty pack. It fails where its number is one of those that fail or no memory was left, and then
    /// changes nothing.
    fn make(&mut self, pack: u32) -> Result<(), Failed>
        requires number { pack ≤ last_number }
        requires absent { ForSome (Some (told self.old.history)) (λ held. get held pack ≡ None) }
        ensures told { Tells (Some (told self.old.history)) (Some (told self.new.history)) (Makes pack) }
        ensures made { OnOk result (Tells (Some (told self.old.history)) (Some (told self.new.history))
            (λ before now. now ≡ insert before pack [])) }
        ensures crash { Follows (Makes pack) (IsImage (state self.old.history)) (IsImage (state self.new.history)) }
        ensures time { Passes self.old.history self.new.history }
        ensures cause { HasCause self.old.calls.faults self.new.calls.faults result }

        ensures past { Does (Make pack) self.old.history self.new.history result }
        ensures calls { IsCounted self.old.calls self.new.calls result }
    {
        self.calls.begin()?;
        let done = self.history.make(pack);
        self.counted(done)
    }

    /// Adds bytes to a pack. It fails where its number is one of those that fail or no memory was left, and then
    /// changes nothing.
    fn append(&mut self, pack: u32, bytes: &[u8]) -> Result<(), Failed>
        requires { ForSome (Some (told self.old.history)) (λ held. IsSome (get held pack)) }
        ensures told { Tells (Some (told self.old.history)) (Some (told self.new.history))
            (λ before now. SameOthers pack before now × IsSome (get now pack)) }
        ensures appended { OnOk result (Tells (Some (told self.old.history)) (Some (told self.new.history))
            (λ before now.
            (had : List ℕ) → get before pack ≡ Some had → get now pack ≡ Some (had ++ bytes.now))) }
        ensures crash { Follows (Extends pack) (IsImage (state self.old.history)) (IsImage (state self.new.history)) }
        ensures time { Passes self.old.history self.new.history }
        ensures cause { HasCause self.old.calls.faults self.new.calls.faults result }

        ensures past { Does (Append pack bytes.now) self.old.history self.new.history result }
        ensures calls { IsCounted self.old.calls self.new.calls result }
    {
        self.calls.begin()?;
        let done = self.history.append(pack, bytes);
        self.counted(done)
    }

    /// Makes a pack durable. It fails where its number is one of those that fail or no memory was left, and then
    /// changes nothing.
    fn sync(&mut self, pack: u32) -> Result<(), Failed>
        requires { ForSome (Some (told self.old.history)) (λ held. IsSome (get held pack)) }
        ensures durable { OnOk result (ForSome (Some (told self.old.history))
            (λ held. (image : Packs) → IsImage (state self.new.history) image → get image pack ≡ get held pack)) }
        ensures is { OnOk result (self.new.history ≡ with_call self.old.history (Sync pack)) }
        ensures told { Some (told self.new.history) ≡ Some (told self.old.history) }
        ensures crash { NoNew (IsImage (state self.old.history)) (IsImage (state self.new.history)) }
        ensures time { Passes self.old.history self.new.history }
        ensures cause { HasCause self.old.calls.faults self.new.calls.faults result }

        ensures past { Does (Sync pack) self.old.history self.new.history result }
        ensures calls { IsCounted self.old.calls self.new.calls result }
    {
        self.calls.begin()?;
        let done = self.history.sync(pack);
        self.counted(done)
    }

    fn faults(&self) -> u64 {
        self.calls.faults()
    }
}

// Copies what stands from a place on, as much as the buffer has room for, and says how much.
fn copy_from(bytes: &[u8], at: u64, buf: &mut [u8]) -> usize
    ensures read { ReadAt bytes.now at (length buf.old) result buf.new }
    ensures bound { result ≤ length buf.old }
{
    let rest = match usize::try_from(at) {
        Ok(at) => &bytes[at.min(bytes.len())..],
        Err(_) => &[],
    };
    let n = rest.len().min(buf.len());
    buf[..n].copy_from_slice(&rest[..n]);
    n
}
