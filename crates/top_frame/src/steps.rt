//! The steps of commands: input, store, output. Each answers by the status that the run ends with.
ghost use Rattle.std.specs.Prelude.{◌≡◌, ◌≤◌, ◌<◌, ◌^◌, length, IfOk, IfErr};
ghost use Rattle.blobref.specs.Blobref.{ref_of};
ghost use Rattle.pack_format.specs.Header.{max_size};
ghost use Rattle.pack_disk.specs.Runs.{Stays};
ghost use Rattle.pack_store.specs.Calls.{IsReadFrom};
ghost use Rattle.pack_store.specs.Packs.{KeepsAll};
ghost use Rattle.pack_store.specs.Puts.{Stands, PutLeaves};
ghost use Rattle.top_frame.specs.Frame.{GaveWhole};
ghost use Rattle.top_frame.specs.Limits.{limits};
ghost use Rattle.top_frame.specs.Steps.{RefusesInput, too_long_status, Finds, NeverRefuses, Writes};

use crate::status::{InputFault, Status};
use blobref::Ref;
use edge_base::{Failed, Put, PutFault, ReadAllError, Sink, Source, read_all, write_all};
use pack_disk::Disk;
use pack_store::{Limits, Store, puts_last};
use std::alloc::Global;

/// How far the program's store may grow (`docs/formats/packs.md`).
pub const LIMITS: Limits = Limits {
    blobs: 4_194_304,
    pack_bytes: 536_870_912,
    last_pack: 99_999,
};

/// All that the source has left, at most so many bytes.
pub fn read_input<S: Source>(alloc: Global, source: &mut S, most: usize) -> Result<Vec<u8>, Status>
    requires { most < 2 ^ 63 }
    ensures read { IfOk result (λ bytes. GaveWhole most (S.left source.old) (S.left source.new) bytes.items) }
    ensures refused { IfErr result (RefusesInput S.Source most source.old source.new) }
    ensures later { S.faults source.old ≤ S.faults source.new }
{
    match read_all(alloc, source, most) {
        Ok(bytes) => Ok(bytes),
        Err(ReadAllError::ReadFault) => Err(Status::ReadFault),
        Err(ReadAllError::TooLong) => Err(Status::BadInput(InputFault::TooBig {
            size: most as u64 + 1,
        })),
        Err(ReadAllError::NoMemory) => Err(Status::NoMemory),
    }
}

/// A text that is too long is told as such, and not as a blob that is too big.
pub fn told_too_long(status: Status) -> Status
    ensures { result ≡ too_long_status status }
{
    match status {
        Status::BadInput(InputFault::TooBig { size }) => {
            Status::BadInput(InputFault::TooLong { len: size })
        }
        status => status,
    }
}

/// The store that a disk holds. Nothing is made and nothing added.
pub fn opened<D: Disk>(alloc: Global, disk: D) -> Result<Store<D>, (D, Status)>
    ensures stands { IfOk result (Stands D.Disk limits) }
    ensures read { IfOk result (IsReadFrom D.Disk disk) }
    ensures stays { IfOk result (λ store. Stays D.Disk disk store.disk) }
    ensures later { IfOk result (λ store. D.faults disk ≤ D.faults store.disk) }
    ensures stays_err { IfErr result (λ e. Stays D.Disk disk e.0) }
    ensures later_err { IfErr result (λ e. D.faults disk ≤ D.faults e.0) }
    ensures refused { IfErr result (λ e. Finds D.Disk disk e.0 NeverRefuses e.1) }
{
    match Store::open_on(alloc, disk, LIMITS) {
        Ok(store) => Ok(store),
        Err((disk, fault)) => Err((disk, Status::from(fault))),
    }
}

/// Puts a blob under the ref that `Ref::of` gives it, which the caller has computed.
pub fn put_blob<D: Disk>(store: &mut Store<D>, r: &Ref, bytes: &[u8]) -> Result<Put, PutFault>
    requires own { r.now ≡ ref_of bytes.now }
    requires small { length bytes.now ≤ max_size }
    ensures leaves { PutLeaves D.Disk limits store.old store.new (r.now, bytes.now) result }
    ensures keeps { KeepsAll D.Disk store.old.disk store.new.disk }
    ensures later { D.faults store.old.disk ≤ D.faults store.new.disk }
{
    puts_last::<D>();
    store.put_own(r, bytes)
}

/// Writes an answer, and says how that ended.
pub fn written<K: Sink>(bytes: &[u8], sink: &mut K) -> Status
    ensures wrote { Writes K.Sink sink.old sink.new bytes.now result }
    ensures later { K.faults sink.old ≤ K.faults sink.new }
{
    match write_all(sink, bytes) {
        Ok(()) => Status::Done,
        Err(Failed) => Status::WriteFault,
    }
}
