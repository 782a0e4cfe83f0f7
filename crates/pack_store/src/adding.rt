//! What a store asks of its disk: to make the next pack, and to add a record to a pack that is clean.
ghost use Rattle.std.specs.Prelude.{◌≡◌, ◌≤◌, ℕ, List, [], length, OnOk, Some, None, IsSome};
ghost use Rattle.std.specs.Option.{ForSome};
ghost use Rattle.std.specs.FinMap.{get, insert};
ghost use Rattle.blobref.specs.Blobref.{IsOwnRef};
ghost use Rattle.edge_base.specs.Edge.{HasCause};
ghost use Rattle.pack_format.specs.Header.{max_size, record_under};
ghost use Rattle.pack_disk.specs.Packs.{Packs};
ghost use Rattle.pack_disk.specs.Disk.{last_number, SameOthers, Tells};
ghost use Rattle.pack_store.specs.Packs.{CleanIn, KeepsAll};
ghost use Rattle.pack_store.specs.Adding.{AddsRecord, SameBytes, row_at, IsReady, IsLong, IsAbsent, KeepsRows, HasRow};

use blobref::Ref;
use edge_base::Failed;
use pack_disk::Disk;

// Where the next record goes: a pack, its length in bytes, whether it has still to be made, and the number of the
// next pack then.
#[derive(Clone, Copy)]
pub(crate) struct AppendAt {
    pub(crate) pack: u32,
    pub(crate) size: u64,
    pub(crate) is_new: bool,
    pub(crate) next: u32,
}

// Adds the record of a blob under its ref, to a pack that is made first where it has to be, and syncs it. No other
// pack changes.
pub(crate) fn write_blob<D: Disk>(
    disk: &mut D,
    end: AppendAt,
    r: &Ref,
    bytes: &[u8],
    text: &[u8],
) -> Result<(), Failed>
    requires ready { IsReady D.Disk disk.old end.pack end.size end.is_new }
    requires own { IsOwnRef r.now bytes.now }
    requires small { length bytes.now ≤ max_size }
    requires text { text.now ≡ record_under r.now bytes.now }
    ensures told { Tells (D.packs disk.old) (D.packs disk.new) (SameOthers end.pack) }
    ensures added { OnOk result (Tells (D.packs disk.old) (D.packs disk.new) (AddsRecord end.pack r.now bytes.now)) }
    ensures clean { OnOk result (CleanIn (D.images disk.new) end.pack) }
    ensures row { OnOk result (HasRow D.Disk disk.new (row_at end.pack end.size r.now bytes.now) bytes.now) }
    ensures rows { KeepsRows D.Disk disk.old disk.new }
    ensures any_moment { KeepsAll D.Disk disk.old disk.new }
    ensures cause { HasCause (D.faults disk.old) (D.faults disk.new) result }
{
    ready_pack(disk, end)?;
    add_record(disk, end.pack, end.size, r, bytes, text)
}

// Makes the pack where it has to be. At Ok it is there, as long as it is said to be, and clean in each image that has
// it.
fn ready_pack<D: Disk>(disk: &mut D, end: AppendAt) -> Result<(), Failed>
    requires ready { IsReady D.Disk disk.old end.pack end.size end.is_new }
    ensures told { Tells (D.packs disk.old) (D.packs disk.new) (SameOthers end.pack) }
    ensures same { OnOk result (Tells (D.packs disk.old) (D.packs disk.new) (SameBytes end.pack)) }
    ensures long { OnOk result (IsLong D.Disk disk.new end.pack end.size) }
    ensures clean { OnOk result (CleanIn (D.images disk.new) end.pack) }
    ensures rows { KeepsRows D.Disk disk.old disk.new }
    ensures any_moment { KeepsAll D.Disk disk.old disk.new }
    ensures cause { HasCause (D.faults disk.old) (D.faults disk.new) result }
{
    if end.is_new {
        make_pack(disk, end.pack)
    } else {
        Ok(())
    }
}

// Makes a pack. At Ok it is there and empty, and in each image that has it it is clean.
fn make_pack<D: Disk>(disk: &mut D, pack: u32) -> Result<(), Failed>
    requires number { pack ≤ last_number }
    requires absent { IsAbsent D.Disk disk.old pack }
    ensures told { Tells (D.packs disk.old) (D.packs disk.new) (SameOthers pack) }
    ensures same { OnOk result (Tells (D.packs disk.old) (D.packs disk.new) (SameBytes pack)) }
    ensures long { OnOk result (IsLong D.Disk disk.new pack 0) }
    ensures clean { CleanIn (D.images disk.new) pack }
    ensures rows { KeepsRows D.Disk disk.old disk.new }
    ensures any_moment { KeepsAll D.Disk disk.old disk.new }
    ensures cause { HasCause (D.faults disk.old) (D.faults disk.new) result }
{
    disk.make(pack)
}

// Adds the record of a blob under its ref to a pack that is clean and has this length, and syncs it. At Ok it is
// clean again, and every image has the blob.
fn add_record<D: Disk>(
    disk: &mut D,
    pack: u32,
    size: u64,
    r: &Ref,
    bytes: &[u8],
    text: &[u8],
) -> Result<(), Failed>
    requires long { IsLong D.Disk disk.old pack size }
    requires clean { CleanIn (D.images disk.old) pack }
    requires own { IsOwnRef r.now bytes.now }
    requires small { length bytes.now ≤ max_size }
    requires text { text.now ≡ record_under r.now bytes.now }
    ensures told { Tells (D.packs disk.old) (D.packs disk.new) (SameOthers pack) }
    ensures added { OnOk result (Tells (D.packs disk.old) (D.packs disk.new) (AddsRecord pack r.now bytes.now)) }
    ensures clean { OnOk result (CleanIn (D.images disk.new) pack) }
    ensures row { OnOk result (HasRow D.Disk disk.new (row_at pack size r.now bytes.now) bytes.now) }
    ensures rows { KeepsRows D.Disk disk.old disk.new }
    ensures any_moment { KeepsAll D.Disk disk.old disk.new }
    ensures cause { HasCause (D.faults disk.old) (D.faults disk.new) result }
{
    disk.append(pack, text)?;
    disk.sync(pack)
}
