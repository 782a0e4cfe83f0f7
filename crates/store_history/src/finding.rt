//! Reads blobs in a turn. Their digests are taken after it, so that no other turn waits for them.
ghost use Rattle.std.specs.Prelude.{◌≡◌, ℕ};
ghost use Rattle.histories.specs.StoreCalls.{GetSpec, ArrivalSpec};
ghost use Rattle.store_history.specs.Represents.{limits_of, is_told, AddsEntry};
ghost use Rattle.store_history.specs.Finding.{find_entry, checked_get, checked_arrival};

use blobref::{Octets, Ref};
use edge_base::GetFault;
use pack_disk::Disk;
use pack_store::{Store, UncheckedBlob};

/// The blob under a ref; `None` exactly if none arrived. The final answer is what `check` returns for it. The bytes
/// that were read decide whether the entry is a Damage. If it isn't, it is a Fault exactly if the disk's count rose in
/// the call, whatever is returned; `Disk` comes only with it.
pub fn find<D: Disk>(store: &mut Store<D>, r: &Ref) -> Result<Option<UncheckedBlob>, GetFault>
    ensures limits { limits_of store.new ≡ limits_of store.old }
    ensures told { is_told D.Disk store.new ≡ is_told D.Disk store.old }
    ensures adds { (made : ℕ) → AddsEntry D.Disk made store.old store.new
        (find_entry result (D.faults store.old.disk) (D.faults store.new.disk))
        (λ before entry. GetSpec (is_told D.Disk store.old) r.now before (checked_get result) entry) }
{
    store.find(r)
}

/// The blob of a number, counted from 0; `None` exactly if no more than that many arrived. The final answer is what
/// `check_arrival` returns for it; otherwise as `find`.
pub fn find_number<D: Disk>(
    store: &mut Store<D>,
    number: u64,
) -> Result<Option<UncheckedBlob>, GetFault>
    ensures limits { limits_of store.new ≡ limits_of store.old }
    ensures told { is_told D.Disk store.new ≡ is_told D.Disk store.old }
    ensures adds { (made : ℕ) → AddsEntry D.Disk made store.old store.new
        (find_entry result (D.faults store.old.disk) (D.faults store.new.disk))
        (λ before entry. ArrivalSpec (is_told D.Disk store.old) number before (checked_arrival result) entry) }
{
    store.find_number(number)
}

/// The bytes that were found. `Damaged` comes exactly if they have another ref. It takes their digest.
pub fn check(found: Result<Option<UncheckedBlob>, GetFault>) -> Result<Option<Octets>, GetFault>
    ensures { result ≡ checked_get found }
{
    let Some(found) = found? else {
        return Ok(None);
    };
    let (_, bytes) = found.checked()?;
    Ok(Some(bytes))
}

/// The ref and the bytes that were found. `Damaged` comes exactly if they have another ref. It takes their digest.
pub fn check_arrival(
    found: Result<Option<UncheckedBlob>, GetFault>,
) -> Result<Option<(Ref, Octets)>, GetFault>
    ensures { result ≡ checked_arrival found }
{
    let Some(found) = found? else {
        return Ok(None);
    };
    let blob = found.checked()?;
    Ok(Some(blob))
}
