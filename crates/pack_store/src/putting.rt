//! Blobs are put into a store.
ghost use Rattle.std.specs.Prelude.{◌≡◌, ◌≤◌, ◌+◌, ◌^◌, ◌∷◌, ◌++◌, [], ℕ, length, OnOk, OnErr, IfSome, Some, None, false, Err, Vec, vec_len, vec_capacity};
ghost use Rattle.std.specs.FinMap as finite;
ghost use Rattle.blobref.specs.Blobref.{IsOwnRef};
ghost use Rattle.edge_base.specs.Edge.{FaultsRose};
ghost use Rattle.pack_format.specs.Header.{max_size};
ghost use Rattle.pack_store.specs.Packs.{HeldByAll, KeepsAll};
ghost use Rattle.pack_store.specs.Rows.{number_of};
ghost use Rattle.pack_store.specs.Archive.{count, needs_pack, is_full};
ghost use Rattle.pack_store.specs.Adding.{IsReady};
ghost use Rattle.pack_store.specs.Putting.{early_answer, early_answer_own, Answers, Leaves, target, fill, next_after};

use crate::adding::{AppendAt, write_blob};
use crate::places::Places;
use crate::records::record_of;
use crate::rows::{Current, Row};
use crate::store::Store;
use blobref::{NoMemory, Ref};
use edge_base::{Put, PutFault};
use pack_disk::Disk;
use pack_format::{MAX_SIZE, put_refusal};

impl<D: Disk> Store<D> {
    /// Stores a blob under the ref that is said (`docs/store.md`). The refusals are tried in this order, each exactly
    /// where it applies: `TooBig` where it has more than 16,777,216 bytes; `BadDigest` where its ref, under the
    /// digest that the said one names, isn't the said one, and carries both; `Already` where its ref has arrived;
    /// `Full` where there are as many blobs as there may be, or a new pack is needed and there is none to be had.
    /// Then `NoMemory` may come. After each of these the store and its disk are as they were. `Disk` comes only where
    /// the disk's count of faults rose: the arrivals are as they were, and the pack is never appended to again. At
    /// `Stored` the blob is the next arrival, and its record was appended to the current pack, or to the next one
    /// where a new one is needed, and synced. At `Ok` every image of the disk holds it. Whatever is answered, a crash
    /// at any moment leaves what holds every ref that each image held before.
    pub fn put(&mut self, said: &Ref, bytes: &[u8]) -> Result<Put, PutFault>
        ensures answer { Answers (early_answer self.old said.now bytes.now) (count self.old) result }
        ensures leaves { Leaves D.Disk self.old self.new said.now bytes.now result }
        ensures acknowledged { OnOk result (HeldByAll (D.images self.new.disk) said.now) }
        ensures any_moment { KeepsAll D.Disk self.old.disk self.new.disk }
        ensures failed { result ≡ Err PutFault.Disk → FaultsRose (D.faults self.old.disk) (D.faults self.new.disk) }
        ensures later { D.faults self.old.disk ≤ D.faults self.new.disk }
    {
        match put_refusal(said, bytes) {
            Some(fault) => Err(fault),
            None => self.put_own(said, bytes),
        }
    }

    /// Stores a blob under its own ref: `put`, but for the digest, which the caller has computed.
    pub fn put_own(&mut self, r: &Ref, bytes: &[u8]) -> Result<Put, PutFault>
        requires own { IsOwnRef r.now bytes.now }
        ensures answer { Answers (early_answer_own self.old r.now (length bytes.now)) (count self.old) result }
        ensures leaves { Leaves D.Disk self.old self.new r.now bytes.now result }
        ensures acknowledged { OnOk result (HeldByAll (D.images self.new.disk) r.now) }
        ensures any_moment { KeepsAll D.Disk self.old.disk self.new.disk }
        ensures failed { result ≡ Err PutFault.Disk → FaultsRose (D.faults self.old.disk) (D.faults self.new.disk) }
        ensures later { D.faults self.old.disk ≤ D.faults self.new.disk }
    {
        match self.early_answer(r, bytes.len() as u64) {
            Some(answer) => answer,
            None => self.add(r, bytes),
        }
    }

    // What is answered before anything is done, if anything is.
    fn early_answer(&self, r: &Ref, size: u64) -> Option<Result<Put, PutFault>>
        ensures answer { result ≡ early_answer_own self.now r.now size }
        ensures held { IfSome result (λ answer. OnOk answer (HeldByAll (D.images self.now.disk) r.now)) }
    {
        if size > MAX_SIZE {
            return Some(Err(PutFault::TooBig { size }));
        }
        if let Some(number) = self.places.number(r) {
            return Some(Ok(Put::Already { number }));
        }
        if self.is_full() {
            return Some(Err(PutFault::Full {
                blobs: self.count(),
                pack: self.greatest(),
            }));
        }
        None
    }

    // Stores a blob that hasn't arrived, for which there is room.
    fn add(&mut self, r: &Ref, bytes: &[u8]) -> Result<Put, PutFault>
        requires own { IsOwnRef r.now bytes.now }
        requires open { early_answer_own self.old r.now (length bytes.now) ≡ None }
        ensures answer { Answers None (count self.old) result }
        ensures leaves { Leaves D.Disk self.old self.new r.now bytes.now result }
        ensures acknowledged { OnOk result (HeldByAll (D.images self.new.disk) r.now) }
        ensures any_moment { KeepsAll D.Disk self.old.disk self.new.disk }
        ensures failed { result ≡ Err PutFault.Disk → FaultsRose (D.faults self.old.disk) (D.faults self.new.disk) }
        ensures later { D.faults self.old.disk ≤ D.faults self.new.disk }
    {
        let end = self.end();
        let number = self.count();
        let Ok(record) = record_of(self.alloc, r, bytes) else {
            return Err(PutFault::NoMemory);
        };
        if take_room(&mut self.rows, &mut self.places, r).is_err() {
            return Err(PutFault::NoMemory);
        }
        self.next = end.next;
        self.current = None;
        if write_blob(&mut self.disk, end, r, bytes, &record).is_err() {
            self.places.remove(r);
            return Err(PutFault::Disk);
        }
        let header = record.len() - bytes.len();
        push_row(
            &mut self.rows,
            Row {
                r: *r,
                pack: end.pack,
                at: end.size + header as u64,
                size: bytes.len() as u64,
            },
        );
        self.current = Some(Current {
            pack: end.pack,
            size: end.size + record.len() as u64,
        });
        Ok(Put::Stored { number })
    }

    // Where the next record goes.
    fn end(&self) -> AppendAt
        requires { is_full self.now ≡ false }
        ensures ready { IsReady D.Disk self.now.disk result.pack result.size result.is_new }
        ensures pack { result.pack ≡ target self.now }
        ensures size { result.size ≡ fill self.now }
        ensures is_new { result.is_new ≡ needs_pack self.now }
        ensures next { result.next ≡ next_after self.now }
        ensures small { result.size ≤ 2 ^ 63 }
    {
        match self.current {
            Some(current) if current.size < self.limits.pack_bytes => AppendAt {
                pack: current.pack,
                size: current.size,
                is_new: false,
                next: self.next,
            },
            _ => AppendAt {
                pack: self.next,
                size: 0,
                is_new: true,
                next: self.next + 1,
            },
        }
    }
}

// Makes room for one row more, and puts its number under its ref. Where there is no memory nothing changes.
fn take_room(rows: &mut Vec<Row>, places: &mut Places, r: &Ref) -> Result<(), NoMemory>
    ensures rows { rows.new.items ≡ rows.old.items }
    ensures room { OnOk result (vec_len rows.new + 1 ≤ vec_capacity rows.new) }
    ensures ok { OnOk result (places.new ≡ finite.insert places.old r.now (length rows.old.items)) }
    ensures err { OnErr result (places.new ≡ places.old) }
{
    rows.reserve(1)?;
    places.insert(r, rows.len() as u64)
}

// Puts a row behind the others, where there is room.
fn push_row(rows: &mut Vec<Row>, row: Row)
    requires { vec_len rows.old + 1 ≤ vec_capacity rows.old }
    ensures { rows.new.items ≡ rows.old.items ++ row ∷ [] }
{
    let _ = rows.push(row);
}
