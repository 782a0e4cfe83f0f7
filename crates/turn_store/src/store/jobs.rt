//! The jobs of one turn of the store.
ghost use Rattle.blobref.specs.Blobref.{IsOwnRef};

use super::turns::StoreJob;
use blobref::{BlobList, Listing, NoMemory, Ref, RefList};
use edge_base::{GetFault, Put, PutFault};
use pack_disk::Disk;
use pack_store::{Store, UncheckedBlob};
use std::alloc::Global;

/// Puts a blob under its own ref.
#[derive(Drop)]
pub struct PutOwn<'a> {
    pub r: &'a Ref,
    pub bytes: &'a [u8],
    pub ghost own: { IsOwnRef r.now bytes.now },
}

impl<'a, D: Disk> StoreJob<D> for PutOwn<'a> {
    ghost use Rattle.histories.specs.StoreCalls.{PutSpec};
    ghost use Rattle.store_history.specs.Represents.{put_entry};
    ghost use Rattle.turn_store.specs.StoreAbout.{limits_in};

    type Out = Result<Put, PutFault>;

    ghost says = { λ j about before result entry. PutSpec (limits_in about) j.r.now j.bytes.now before result entry };

    ghost adds = { λ j result before now. put_entry j.r.now j.bytes.now result before now };

    fn go(self, store: &mut Store<D>) -> Result<Put, PutFault> {
        store_history::put(store, self.r, self.bytes)
    }
}

/// Reads a blob by its ref. Its digest is checked after the turn.
#[derive(Drop)]
pub struct Find<'a> {
    pub r: &'a Ref,
}

impl<'a, D: Disk> StoreJob<D> for Find<'a> {
    ghost use Rattle.histories.specs.StoreCalls.{GetSpec};
    ghost use Rattle.store_history.specs.Finding.{find_entry, checked_get};

    type Out = Result<Option<UncheckedBlob>, GetFault>;

    ghost says = { λ j about before result entry. GetSpec about.tells j.r.now before (checked_get result) entry };

    ghost adds = { λ j result before now. find_entry result before now };

    fn go(self, store: &mut Store<D>) -> Result<Option<UncheckedBlob>, GetFault> {
        store_history::find(store, self.r)
    }
}

/// Reads a blob by its number. Its digest is checked after the turn.
#[derive(Drop)]
pub struct FindNumber {
    pub number: u64,
}

impl<D: Disk> StoreJob<D> for FindNumber {
    ghost use Rattle.histories.specs.StoreCalls.{ArrivalSpec};
    ghost use Rattle.store_history.specs.Finding.{find_entry, checked_arrival};

    type Out = Result<Option<UncheckedBlob>, GetFault>;

    ghost says = { λ j about before result entry.
        ArrivalSpec about.tells j.number before (checked_arrival result) entry };

    ghost adds = { λ j result before now. find_entry result before now };

    fn go(self, store: &mut Store<D>) -> Result<Option<UncheckedBlob>, GetFault> {
        store_history::find_number(store, self.number)
    }
}

/// Reads blobs of consecutive numbers, from one on, at most so many. Their digests are checked after the turn.
#[derive(Drop)]
pub struct FindNumbers {
    pub alloc: Global,
    pub number: u64,
    pub most: u64,
}

impl<D: Disk> StoreJob<D> for FindNumbers {
    ghost use Rattle.std.specs.Prelude.{IfOk};
    ghost use Rattle.histories.specs.StoreCalls.{ArrivalSpec};
    ghost use Rattle.store_history.specs.Finding.{find_entry, checked_arrival};
    ghost use Rattle.store_history.specs.Together.{AllFrom, IsReadAt, first_in};

    type Out = Result<BlobList, GetFault>;

    ghost says = { λ j about before result entry.
        ArrivalSpec about.tells j.number before (checked_arrival (first_in result)) entry
        × IfOk result (AllFrom (IsReadAt about.tells before) j.number) };

    ghost adds = { λ j result before now. find_entry (first_in result) before now };

    fn go(self, store: &mut Store<D>) -> Result<BlobList, GetFault> {
        store_history::find_numbers(self.alloc, store, self.number, self.most)
    }
}

/// Lists a page of the refs.
#[derive(Drop)]
pub struct Page<'a> {
    pub after: Option<&'a Ref>,
    pub limit: usize,
}

impl<'a, D: Disk> StoreJob<D> for Page<'a> {
    ghost use Rattle.std.specs.Prelude.{None, option_copied};
    ghost use Rattle.histories.specs.StoreCalls.{ListSpec};

    type Out = Result<Listing, NoMemory>;

    ghost says = { λ j about before result entry. ListSpec (option_copied j.after) j.limit before result entry };

    ghost adds = { λ j result before now. None };

    fn go(self, store: &mut Store<D>) -> Result<Listing, NoMemory> {
        store_history::list(store, self.after, self.limit)
    }
}

/// Finds the sizes of the blobs under the refs of a list. The list has each ref once.
#[derive(Drop)]
pub struct Sizes<'a> {
    pub alloc: Global,
    pub once: &'a RefList,
}

impl<'a, D: Disk> StoreJob<D> for Sizes<'a> {
    ghost use Rattle.std.specs.Prelude.{None, ◌≡◌, ℕ, List, []};
    ghost use Rattle.histories.specs.StoreCalls.{StatSpec, each_once};

    type Out = Result<Listing, NoMemory>;

    ghost says = { λ j about before result entry. (asked : List (List ℕ)) → j.once.now ≡ each_once [] asked
        → StatSpec asked before result entry };

    ghost adds = { λ j result before now. None };

    fn go(self, store: &mut Store<D>) -> Result<Listing, NoMemory> {
        store_history::stat(self.alloc, store, self.once)
    }
}

/// Returns how many blobs arrived. It changes nothing.
#[derive(Drop)]
pub struct Count;

impl<D: Disk> StoreJob<D> for Count {
    ghost use Rattle.std.specs.Prelude.{◌≡◌, None, length};

    type Out = u64;

    ghost says = { λ j about before result entry. (result ≡ length before) × (entry ≡ None) };

    ghost adds = { λ j result before now. None };

    fn go(self, store: &mut Store<D>) -> u64 {
        store_history::count(store)
    }
}
