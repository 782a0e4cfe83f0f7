//! The store and what it tells without its disk.
ghost use Rattle.std.specs.Prelude.{◌≡◌, length};
ghost use Rattle.pack_store.specs.Archive.{count, greatest, needs_pack, is_full};
ghost use Rattle.pack_store.specs.Reading.{size_of, AreHeld};

use crate::limits::Limits;
use crate::places::Places;
use crate::rows::{Current, Row};
use blobref::Ref;
use pack_disk::Disk;
use std::alloc::Global;
use std::marker::Model;

/// Blobs in packs on a disk (`docs/store.md`). A contract sees where each blob stands, in order of arrival, the
/// limits, the number of the next pack, the pack to which the next record may be added, and the disk. As long as the
/// store stands, every image of its disk holds each blob that has arrived.
#[derive(Drop)]
pub struct Store<D: Disk> {
    pub(crate) alloc: Global,
    pub(crate) disk: D,
    pub(crate) limits: Limits,
    // In order of arrival.
    pub(crate) rows: Vec<Row>,
    // The number of each ref's row.
    pub(crate) places: Places,
    // One more than the greatest number of a pack, 0 where there is none.
    pub(crate) next: u32,
    // The greatest pack, where it is clean and no call on it failed.
    pub(crate) current: Option<Current>,
}

impl<D: Disk> Model for Store<D> {
    ghost use Rattle.pack_store.specs.Archive.{Archive, IsSound};

    ghost Value = { Archive D };

    ghost view = { λ s. record { rows = s.rows.items; limits = s.limits; next = s.next; current = s.current; disk = s.disk } };

    ghost invariant = { λ s. IsSound D.Disk s.places (record { rows = s.rows.items; limits = s.limits; next = s.next; current = s.current; disk = s.disk }) };
}

impl<D: Disk> Store<D> {
    /// How many blobs have arrived (`docs/store.md`).
    pub fn count(&self) -> u64
        ensures { result ≡ count self.now }
    {
        self.rows.len() as u64
    }

    /// The size of a blob in bytes (`docs/store.md`), and `None` exactly where its ref hasn't arrived.
    pub fn stat(&self, r: &Ref) -> Option<u64>
        ensures { result ≡ size_of r.now self.now.rows }
    {
        let number = self.places.number(r)?;
        Some(self.rows[number as usize].size)
    }

    /// The disk. Nothing is done to it.
    pub fn give_back(self) -> D
        ensures { result ≡ self.disk }
    {
        let Store {
            alloc: _,
            disk,
            limits: _,
            rows: _,
            places: _,
            next: _,
            current: _,
        } = self;
        disk
    }

    /// How often a call on the disk has failed, as the disk counts it.
    pub fn faults(&self) -> u64
        ensures { result ≡ D.faults self.now.disk }
    {
        self.disk.faults()
    }

    /// Each arrival is of some bytes, at most 16,777,216 of them, under their own ref and with their number as its
    /// size, and no two have the same ref. Every image of the disk holds each. Where the disk tells its packs, the
    /// bytes are those that it has there, and no pack has the next number or a greater one. The current pack is the
    /// last one, and clean in every image.
    pub fn arrivals_are_held(&self)
        ensures { AreHeld D.Disk self.now }
    {
        // Reading a field brings the invariant of the store, which says this.
        let _rows = &self.rows;
    }

    // The greatest number of a pack, 0 where there is none.
    pub(crate) fn greatest(&self) -> u32
        ensures { result ≡ greatest self.now }
    {
        self.next.saturating_sub(1)
    }

    // Whether the next record needs a new pack.
    pub(crate) fn needs_pack(&self) -> bool
        ensures { result ≡ needs_pack self.now }
    {
        match self.current {
            Some(current) => current.size >= self.limits.pack_bytes,
            None => true,
        }
    }

    // Whether no blob may be added.
    pub(crate) fn is_full(&self) -> bool
        ensures { result ≡ is_full self.now }
    {
        self.count() >= self.limits.blobs
            || (self.needs_pack() && self.next > self.limits.last_pack)
    }
}
