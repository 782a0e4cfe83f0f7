//! Blobs are read back.
ghost use Rattle.std.specs.Prelude.{◌≡◌, ◌↔◌, ◌≤◌, ◌<◌, length, IfOk, IfSome, Ok, Err, None, Some, slice_get};
ghost use Rattle.std.specs.Option.{ForSome, option_map};
ghost use Rattle.blobref.specs.Blobref.{IsOwnRef};
ghost use Rattle.edge_base.specs.Edge.{FaultsRose};
ghost use Rattle.pack_disk.specs.Runs.{Stays};
ghost use Rattle.pack_store.specs.Rows.{number_of, arrival_of, arrivals_in, IsKept};
ghost use Rattle.pack_store.specs.Archive.{count};
ghost use Rattle.pack_store.specs.Reading.{StaysStill, IsDamage, entry_of, entry_at, ref_at, bytes_of};
ghost use Rattle.pack_store.specs.Finding.{IsFound, checked, bytes_found, arrival_found};

use crate::rows::Row;
use crate::store::Store;
use blob_checks::ref_like;
use blobref::{Octets, Ref};
use edge_base::GetFault;
use pack_disk::Disk;
use std::alloc::Global;

/// A blob as it was read: its ref, and the bytes that stand in its place. Whether they have this ref isn't known yet,
/// so that the digest can be taken where the store isn't needed any more.
#[derive(Drop)]
pub struct UncheckedBlob {
    pub r: Ref,
    pub bytes: Octets,
}

impl UncheckedBlob {
    /// The blob, where the bytes have its ref. Elsewhere they were changed: `Damaged` tells the ref that they have,
    /// under the same digest. It takes the digest of the bytes.
    pub fn checked(self) -> Result<(Ref, Octets), GetFault>
        ensures { result ≡ checked self }
    {
        let is = ref_like(&self.r, self.bytes.as_slice());
        if is == self.r {
            Ok((self.r, self.bytes))
        } else {
            Err(GetFault::Damaged { want: self.r, is })
        }
    }
}

impl<D: Disk> Store<D> {
    /// The bytes of a blob (`docs/store.md`), and `None` exactly where its ref hasn't arrived. They have this ref.
    /// Where the disk tells its packs they are the arrival's. `Disk` comes only where the disk's count of faults
    /// rose. `Damaged` comes where the bytes that are read at the blob's place have another ref under the same
    /// digest, which is told beside this one, and never where the disk tells. Nothing is changed, whatever is
    /// answered.
    pub fn get(&mut self, r: &Ref) -> Result<Option<Octets>, GetFault>
        ensures none { (result ≡ Ok None) ↔ (number_of r.now self.old.rows ≡ None) }
        ensures named { IfOk result (λ found. IfSome found (λ bytes. IsOwnRef r.now bytes)) }
        ensures bytes { IfOk result (λ found. ForSome (D.packs self.old.disk)
            (λ held. found ≡ bytes_of r.now held self.old.rows)) }
        ensures damaged { IsDamage (entry_of r.now self.old.rows) (D.packs self.old.disk) result }
        ensures stays { StaysStill D.Disk self.old self.new }
        ensures failed { result ≡ Err GetFault.Disk → FaultsRose (D.faults self.old.disk) (D.faults self.new.disk) }
        ensures later { D.faults self.old.disk ≤ D.faults self.new.disk }
    {
        let Some(number) = self.number(r) else {
            return Ok(None);
        };
        let (_, bytes) = self.read_number(number)?;
        Ok(Some(bytes))
    }

    /// The arrival of a number, from 0, with its bytes (`docs/store.md`), and `None` exactly where the number is at
    /// or above the count. Else as `get`.
    pub fn arrival(&mut self, number: u64) -> Result<Option<(Ref, Octets)>, GetFault>
        ensures none { (result ≡ Ok None) ↔ (count self.old ≤ number) }
        ensures named { IfOk result (λ found. IfSome found
            (λ a. (ref_at number self.old.rows ≡ Some a.0) × IsOwnRef a.0 a.1)) }
        ensures bytes { IfOk result (λ found. ForSome (D.packs self.old.disk)
            (λ held. found ≡ slice_get (arrivals_in held self.old.rows) number)) }
        ensures damaged { IsDamage (entry_at number self.old.rows) (D.packs self.old.disk) result }
        ensures stays { StaysStill D.Disk self.old self.new }
        ensures failed { result ≡ Err GetFault.Disk → FaultsRose (D.faults self.old.disk) (D.faults self.new.disk) }
        ensures later { D.faults self.old.disk ≤ D.faults self.new.disk }
    {
        if number >= self.count() {
            return Ok(None);
        }
        let found = self.read_number(number)?;
        Ok(Some(found))
    }

    /// The blob under a ref, as it stands in its place, and `None` exactly where the ref hasn't arrived. Its digest
    /// isn't looked at: `UncheckedBlob::checked` does that. It has at most as many bytes as the blob; where the disk
    /// tells its packs they are the arrival's. `Disk` comes only where the disk's count of faults rose, and `Damaged`
    /// never. Nothing is changed, whatever is answered.
    pub fn find(&mut self, r: &Ref) -> Result<Option<UncheckedBlob>, GetFault>
        ensures none { (result ≡ Ok None) ↔ (number_of r.now self.old.rows ≡ None) }
        ensures placed { IfOk result (λ found. IfSome found (IsFound (entry_of r.now self.old.rows))) }
        ensures bytes { IfOk result (λ found. ForSome (D.packs self.old.disk)
            (λ held. bytes_found found ≡ bytes_of r.now held self.old.rows)) }
        ensures own { IfOk result (λ found. IfSome found
            (λ b. ForSome (D.packs self.old.disk) (λ held. IsOwnRef b.r b.bytes))) }
        ensures damaged { IsDamage None (D.packs self.old.disk) result }
        ensures stays { StaysStill D.Disk self.old self.new }
        ensures failed { result ≡ Err GetFault.Disk → FaultsRose (D.faults self.old.disk) (D.faults self.new.disk) }
        ensures later { D.faults self.old.disk ≤ D.faults self.new.disk }
    {
        let Some(number) = self.number(r) else {
            return Ok(None);
        };
        let found = self.found(number)?;
        Ok(Some(found))
    }

    /// The arrival of a number, from 0, as it stands in its place, and `None` exactly where the number is at or above
    /// the count. Else as `find`.
    pub fn find_number(&mut self, number: u64) -> Result<Option<UncheckedBlob>, GetFault>
        ensures none { (result ≡ Ok None) ↔ (count self.old ≤ number) }
        ensures placed { IfOk result (λ found. IfSome found (IsFound (entry_at number self.old.rows))) }
        ensures bytes { IfOk result (λ found. ForSome (D.packs self.old.disk)
            (λ held. arrival_found found ≡ slice_get (arrivals_in held self.old.rows) number)) }
        ensures own { IfOk result (λ found. IfSome found
            (λ b. ForSome (D.packs self.old.disk) (λ held. IsOwnRef b.r b.bytes))) }
        ensures damaged { IsDamage None (D.packs self.old.disk) result }
        ensures stays { StaysStill D.Disk self.old self.new }
        ensures failed { result ≡ Err GetFault.Disk → FaultsRose (D.faults self.old.disk) (D.faults self.new.disk) }
        ensures later { D.faults self.old.disk ≤ D.faults self.new.disk }
    {
        if number >= self.count() {
            return Ok(None);
        }
        let found = self.found(number)?;
        Ok(Some(found))
    }

    // The number of a ref.
    fn number(&self, r: &Ref) -> Option<u64>
        ensures { result ≡ number_of r.now self.now.rows }
    {
        self.places.number(r)
    }

    // The arrival of a number that there is.
    fn read_number(&mut self, number: u64) -> Result<(Ref, Octets), GetFault>
        requires { number < count self.old }
        ensures named { IfOk result (λ a. (ref_at number self.old.rows ≡ Some a.0) × IsOwnRef a.0 a.1) }
        ensures bytes { IfOk result (λ a. ForSome (D.packs self.old.disk)
            (λ held. Some a ≡ slice_get (arrivals_in held self.old.rows) number)) }
        ensures damaged { IsDamage (entry_at number self.old.rows) (D.packs self.old.disk) result }
        ensures stays { StaysStill D.Disk self.old self.new }
        ensures failed { result ≡ Err GetFault.Disk → FaultsRose (D.faults self.old.disk) (D.faults self.new.disk) }
        ensures later { D.faults self.old.disk ≤ D.faults self.new.disk }
    {
        let found = self.found(number)?;
        found.checked()
    }

    // The arrival of a number that there is, as it stands in its place.
    fn found(&mut self, number: u64) -> Result<UncheckedBlob, GetFault>
        requires { number < count self.old }
        ensures placed { IfOk result (IsFound (entry_at number self.old.rows)) }
        ensures bytes { IfOk result (λ b. ForSome (D.packs self.old.disk)
            (λ held. Some (b.r, b.bytes) ≡ slice_get (arrivals_in held self.old.rows) number)) }
        ensures own { IfOk result (λ b. ForSome (D.packs self.old.disk) (λ held. IsOwnRef b.r b.bytes)) }
        ensures damaged { IsDamage None (D.packs self.old.disk) result }
        ensures stays { StaysStill D.Disk self.old self.new }
        ensures failed { result ≡ Err GetFault.Disk → FaultsRose (D.faults self.old.disk) (D.faults self.new.disk) }
        ensures later { D.faults self.old.disk ≤ D.faults self.new.disk }
    {
        let row = self.rows[number as usize];
        found_row(self.alloc, &mut self.disk, &row)
    }
}

// A blob, as it stands in its place.
fn found_row<D: Disk>(alloc: Global, disk: &mut D, row: &Row) -> Result<UncheckedBlob, GetFault>
    requires kept { ForSome (D.packs disk.old) (λ held. IsKept held (D.images disk.old) row.now) }
    ensures placed { IfOk result (IsFound (Some (row.now.r, row.now.size))) }
    ensures bytes { IfOk result (λ b. ForSome (D.packs disk.old) (λ held. (b.r, b.bytes) ≡ arrival_of held row.now)) }
    ensures own { IfOk result (λ b. ForSome (D.packs disk.old) (λ held. IsOwnRef b.r b.bytes)) }
    ensures damaged { IsDamage None (D.packs disk.old) result }
    ensures stays { Stays D.Disk disk.old disk.new }
    ensures failed { result ≡ Err GetFault.Disk → FaultsRose (D.faults disk.old) (D.faults disk.new) }
    ensures later { D.faults disk.old ≤ D.faults disk.new }
{
    let bytes = read_place(alloc, disk, row)?;
    Ok(UncheckedBlob {
        r: row.r,
        bytes: Octets::from_vec(bytes),
    })
}

// The bytes at a row's place, whatever ref they have.
fn read_place<D: Disk>(alloc: Global, disk: &mut D, row: &Row) -> Result<Vec<u8>, GetFault>
    requires kept { ForSome (D.packs disk.old) (λ held. IsKept held (D.images disk.old) row.now) }
    ensures bytes { IfOk result (λ bytes. ForSome (D.packs disk.old)
        (λ held. (row.now.r, bytes.items) ≡ arrival_of held row.now)) }
    ensures short { IfOk result (λ bytes. length bytes.items ≤ row.now.size) }
    ensures damaged { IsDamage None (D.packs disk.old) result }
    ensures stays { Stays D.Disk disk.old disk.new }
    ensures failed { result ≡ Err GetFault.Disk → FaultsRose (D.faults disk.old) (D.faults disk.new) }
    ensures later { D.faults disk.old ≤ D.faults disk.new }
{
    let Ok(mut bytes) = vec![in alloc; 0u8; row.size as usize] else {
        return Err(GetFault::NoMemory);
    };
    let Ok(count) = disk.read(row.pack, row.at, &mut bytes) else {
        return Err(GetFault::Disk);
    };
    bytes.truncate(count);
    Ok(bytes)
}
