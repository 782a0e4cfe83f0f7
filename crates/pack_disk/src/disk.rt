//! A disk as a store of packs sees it: what it holds where it tells that, and what a crash may leave.
ghost use Rattle.std.specs.Prelude.{◌≡◌, ◌≤◌, ℕ, [], List, length, take, IsSome, IfSome, IfOk, OnOk, Option, Some, None, ◌++◌};
ghost use Rattle.std.specs.FinMap.{get, insert};
ghost use Rattle.std.specs.Option.{ForSome};
ghost use Rattle.edge_base.specs.Edge.{HasCause};
ghost use Rattle.pack_disk.specs.Packs.{Packs, least_from};
ghost use Rattle.pack_disk.specs.Disk.{last_number, SameOthers, Extends, Makes, Follows, NoNew, Elapses, Tells, ReadAt};

use edge_base::Failed;

/// Where packs are kept, under their numbers from 0 to 99,999 (`docs/formats/packs.md`).
///
/// Clauses on what it holds stand where the disk tells that, and clauses on images only for those it has: a disk that
/// doesn't tell has none. Each call that fails raises the count of faults by one, or leaves it at the last value of
/// its type.
///
/// Four relations say what a call is that was answered, in the implementation's own words, also where it doesn't tell
/// what it holds: who reads a disk says by them that what it makes of it is what the disk answered, call by call.
pub trait Disk {
    /// The bytes of each pack, where the disk tells them.
    ghost packs: { Self → Option Packs };

    /// What a crash at this moment may leave.
    ghost images: { Self → Packs → Type 0 };

    /// The moment, as a number that doesn't fall. It counts what may change what a crash leaves: a call that only reads
    /// lets none pass.
    ghost moment: { Self → ℕ };

    /// What a crash at some moment from that one on might have left, during a call or between two.
    ghost images_since: { Self → ℕ → Packs → Type 0 };

    /// How often a call has failed.
    ghost faults: { Self → ℕ };

    /// What a call of `packs` is: the disk before it, the number that it began from, the one that it found, and the
    /// disk after it.
    ghost finds: { Self → ℕ → Option ℕ → Self → Type 0 };

    /// What a call of `size` is: the disk before it, the pack, how many bytes that has, and the disk after it.
    ghost sizes: { Self → ℕ → ℕ → Self → Type 0 };

    /// What a call of `read` is: the disk before it, the pack, the place, for how many bytes there was room, the bytes
    /// that were read, and the disk after it.
    ghost gives: { Self → ℕ → ℕ → ℕ → List ℕ → Self → Type 0 };

    /// What a call of `sync` is: the disk before it, the pack, and the disk after it.
    ghost syncs: { Self → ℕ → Self → Type 0 };

    /// The least pack number at or above `from`, and `None` exactly where there is none.
    fn packs(&mut self, from: u32) -> Result<Option<u32>, Failed>
        ensures least { IfOk result (λ n. ForSome (packs self.old) (λ held. n ≡ least_from from held)) }
        ensures range { IfOk result (λ o. IfSome o (λ n. (from ≤ n) × (n ≤ last_number))) }
        ensures is { IfOk result (λ n. finds self.old from n self.new) }
        ensures told { packs self.new ≡ packs self.old }
        ensures crash { NoNew (images self.old) (images self.new) }
        ensures time { Elapses (moment self.old) (moment self.new) (images_since self.old) (images_since self.new)
            (images self.new) }
        ensures still { moment self.new ≡ moment self.old }
        ensures cause { HasCause (faults self.old) (faults self.new) result };

    /// How many bytes a pack has.
    fn size(&mut self, pack: u32) -> Result<u64, Failed>
        requires { ForSome (packs self.old) (λ held. IsSome (get held pack)) }
        ensures size { IfOk result (λ n. ForSome (packs self.old)
            (λ held. (bytes : List ℕ) → get held pack ≡ Some bytes → n ≡ length bytes)) }
        ensures is { IfOk result (λ n. sizes self.old pack n self.new) }
        ensures told { packs self.new ≡ packs self.old }
        ensures crash { NoNew (images self.old) (images self.new) }
        ensures time { Elapses (moment self.old) (moment self.new) (images_since self.old) (images_since self.new)
            (images self.new) }
        ensures still { moment self.new ≡ moment self.old }
        ensures cause { HasCause (faults self.old) (faults self.new) result };

    /// Puts the pack's bytes from the place `at` on in front of the buffer, and says how many. Fewer than the buffer
    /// has room for are all that the pack has from there on.
    fn read(&mut self, pack: u32, at: u64, buf: &mut [u8]) -> Result<usize, Failed>
        requires { ForSome (packs self.old) (λ held. IsSome (get held pack)) }
        ensures bound { IfOk result (λ n. n ≤ length buf.old) }
        ensures bytes { IfOk result (λ n. ForSome (packs self.old)
            (λ held. (bytes : List ℕ) → get held pack ≡ Some bytes → ReadAt bytes at (length buf.old) n buf.new)) }
        ensures is { IfOk result (λ n. gives self.old pack at (length buf.old) (take n buf.new) self.new) }
        ensures told { packs self.new ≡ packs self.old }
        ensures crash { NoNew (images self.old) (images self.new) }
        ensures time { Elapses (moment self.old) (moment self.new) (images_since self.old) (images_since self.new)
            (images self.new) }
        ensures still { moment self.new ≡ moment self.old }
        ensures cause { HasCause (faults self.old) (faults self.new) result };

    /// Makes an empty pack. A crash may leave it missing until it was synced. After a failure it may be there without
    /// bytes, or not.
    fn make(&mut self, pack: u32) -> Result<(), Failed>
        requires number { pack ≤ last_number }
        requires absent { ForSome (packs self.old) (λ held. get held pack ≡ None) }
        ensures told { Tells (packs self.old) (packs self.new) (Makes pack) }
        ensures made { OnOk result (Tells (packs self.old) (packs self.new)
            (λ before now. now ≡ insert before pack [])) }
        ensures crash { Follows (Makes pack) (images self.old) (images self.new) }
        ensures time { Elapses (moment self.old) (moment self.new) (images_since self.old) (images_since self.new)
            (images self.new) }
        ensures cause { HasCause (faults self.old) (faults self.new) result };

    /// Adds bytes to a pack. Until it is synced a crash may leave any bytes there, or none. After a failure any bytes
    /// may have been added.
    fn append(&mut self, pack: u32, bytes: &[u8]) -> Result<(), Failed>
        requires { ForSome (packs self.old) (λ held. IsSome (get held pack)) }
        ensures told { Tells (packs self.old) (packs self.new)
            (λ before now. SameOthers pack before now × IsSome (get now pack)) }
        ensures appended { OnOk result (Tells (packs self.old) (packs self.new) (λ before now.
            (had : List ℕ) → get before pack ≡ Some had → get now pack ≡ Some (had ++ bytes.now))) }
        ensures crash { Follows (Extends pack) (images self.old) (images self.new) }
        ensures time { Elapses (moment self.old) (moment self.new) (images_since self.old) (images_since self.new)
            (images self.new) }
        ensures cause { HasCause (faults self.old) (faults self.new) result };

    /// Makes a pack durable: after it the pack, its name and all its bytes stand in every image.
    fn sync(&mut self, pack: u32) -> Result<(), Failed>
        requires { ForSome (packs self.old) (λ held. IsSome (get held pack)) }
        ensures durable { OnOk result (ForSome (packs self.old)
            (λ held. (image : Packs) → images self.new image → get image pack ≡ get held pack)) }
        ensures is { OnOk result (syncs self.old pack self.new) }
        ensures told { packs self.new ≡ packs self.old }
        ensures crash { NoNew (images self.old) (images self.new) }
        ensures time { Elapses (moment self.old) (moment self.new) (images_since self.old) (images_since self.new)
            (images self.new) }
        ensures cause { HasCause (faults self.old) (faults self.new) result };

    /// How often a call has failed. A count at the last value of its type stays there.
    fn faults(&self) -> u64
        ensures { result ≡ faults self.now };

    /// What a disk tells is one of its images.
    ghost reads: { (disk : Self) (held : Packs) → packs disk ≡ Some held → images disk held };

    /// Only a disk that tells has images.
    ghost tells: { (disk : Self) (image : Packs) → images disk image → (held : Packs) × (packs disk ≡ Some held) };

    /// This moment is one of those since an earlier one.
    ghost counts_now: { (disk : Self) (t : ℕ) (image : Packs) → t ≤ moment disk → images disk image
        → images_since disk t image };

    /// Since this moment there is no other.
    ghost only_now: { (disk : Self) (image : Packs) → images_since disk (moment disk) image → images disk image };
}
