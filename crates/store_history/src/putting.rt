//! Puts a blob in a turn.
ghost use Rattle.std.specs.Prelude.{◌≡◌, ℕ, length};
ghost use Rattle.blobref.specs.Blobref.{IsOwnRef};
ghost use Rattle.pack_store.specs.Archive.{count};
ghost use Rattle.pack_store.specs.Putting.{early_answer_own, Answers};
ghost use Rattle.histories.specs.StoreCalls.{PutSpec};
ghost use Rattle.store_history.specs.Represents.{limits_of, is_told, put_entry, AddsEntry};

use blobref::Ref;
use edge_base::{Put, PutFault};
use pack_disk::Disk;
use pack_store::Store;

/// Puts a blob under its own ref, whose digest the caller has taken. `TooBig` and `Already` come as `put_settled` says,
/// `BadDigest` never, and `Full` exactly as `pack_store` says. For the others `PutTried` says which may come within the
/// limits. `Full` and `Disk` come only with the entry that says the same. Of the other answers only `Stored` may come
/// if the disk's count rose. After an error nothing arrived.
pub fn put<D: Disk>(store: &mut Store<D>, r: &Ref, bytes: &[u8]) -> Result<Put, PutFault>
    requires own { IsOwnRef r.now bytes.now }
    ensures answer { Answers (early_answer_own store.old r.now (length bytes.now)) (count store.old) result }
    ensures limits { limits_of store.new ≡ limits_of store.old }
    ensures told { is_told D.Disk store.new ≡ is_told D.Disk store.old }
    ensures adds { (made : ℕ) → AddsEntry D.Disk made store.old store.new
        (put_entry r.now bytes.now result (D.faults store.old.disk) (D.faults store.new.disk))
        (λ before entry. PutSpec (limits_of store.old) r.now bytes.now before result entry) }
{
    store.put_own(r, bytes)
}
