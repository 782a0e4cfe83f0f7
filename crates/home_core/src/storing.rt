//! Blobs that are put behind others.
ghost use Rattle.std.specs.Prelude.{◌≡◌, ◌++◌, ◌∷◌, [], IfOk, OnOk, OnErr, None, length};
ghost use mathlib.Core.List.{IsPrefix};
ghost use Rattle.std.specs.List.{position};
ghost use Rattle.histories.specs.StoreCalls.{put_settled};
ghost use Rattle.histories.specs.Stores.{number_of, is_ref};
ghost use Rattle.home_core.specs.Steps.{put_blob, put_blobs, put_reply, reply_of};

use crate::events::Reply;
use blobref::{NoMemory, Octets, Ref};
use edge_base::{Put, PutFault};
use pack_format::put_refusal;
use std::alloc::Global;

/// Puts a blob behind the others. They are as they were after a refusal for memory.
pub(crate) fn put_blob(
    alloc: Global,
    store: &mut Vec<(Ref, Octets)>,
    said: &Ref,
    bytes: &[u8],
) -> Result<Reply, NoMemory>
    ensures store { OnOk result (store.new.items ≡ put_blob (said.now, bytes.now) store.old.items) }
    ensures reply { IfOk result (λ reply. reply ≡ put_reply (said.now, bytes.now) store.old.items) }
    ensures refused { OnErr result (store.new.items ≡ store.old.items) }
{
    match settled(store.as_slice(), said, bytes) {
        Some(answer) => Ok(reply_of(&answer)),
        None => add_blob(alloc, store, said, bytes),
    }
}

// Adds a blob that didn't arrive before.
fn add_blob(
    alloc: Global,
    store: &mut Vec<(Ref, Octets)>,
    said: &Ref,
    bytes: &[u8],
) -> Result<Reply, NoMemory>
    requires { put_settled said.now bytes.now store.old.items ≡ None }
    ensures store { OnOk result (store.new.items ≡ store.old.items ++ (said.now, bytes.now) ∷ []) }
    ensures reply { IfOk result (λ reply. reply ≡ Reply.Kept (Put.Stored (length store.old.items))) }
    ensures refused { OnErr result (store.new.items ≡ store.old.items) }
{
    let number = store.len() as u64;
    let copy = Octets::copy(alloc, bytes)?;
    store.push((*said, copy))?;
    Ok(Reply::Kept(Put::Stored { number }))
}

/// What a put answers before anything is done, if that is settled.
pub(crate) fn settled(
    store: &[(Ref, Octets)],
    said: &Ref,
    bytes: &[u8],
) -> Option<Result<Put, PutFault>>
    ensures { result ≡ put_settled said.now bytes.now store.now }
{
    match put_refusal(said, bytes) {
        Some(fault) => Some(Err(fault)),
        None => number_of(store, said).map(|number| Ok(Put::Already { number })),
    }
}

// An answer of a put, as a reply. The faults of a disk and of memory never come.
fn reply_of(answer: &Result<Put, PutFault>) -> Reply
    ensures { result ≡ reply_of answer.now }
{
    match answer {
        Ok(put) => Reply::Kept(*put),
        Err(PutFault::TooBig { size }) => Reply::TooBig { size: *size },
        Err(PutFault::BadDigest { said, is }) => Reply::BadDigest {
            said: *said,
            is: *is,
        },
        Err(PutFault::Full { .. }) => Reply::Nothing,
        Err(PutFault::Disk) => Reply::Nothing,
        Err(PutFault::NoMemory) => Reply::Nothing,
    }
}

// The number of the blob under a ref.
fn number_of(store: &[(Ref, Octets)], r: &Ref) -> Option<u64>
    ensures { result ≡ number_of r.now store.now }
{
    match place_of(store, r) {
        Some(place) => Some(place as u64),
        None => None,
    }
}

fn place_of(store: &[(Ref, Octets)], r: &Ref) -> Option<usize>
    ensures { result ≡ position (λ b. is_ref r.now b.0) store.now }
{
    store.iter().position(|blob| *r == blob.0)
}

/// Puts blobs behind the others, one after the other. After a refusal for memory some of them may stand there.
pub(crate) fn put_blobs(
    alloc: Global,
    store: &mut Vec<(Ref, Octets)>,
    blobs: &[(Ref, Octets)],
) -> Result<(), NoMemory>
    ensures store { OnOk result (store.new.items ≡ put_blobs blobs.now store.old.items) }
    ensures longer { IsPrefix store.old.items store.new.items }
{
    'blobs: for blob in blobs {
        put_blob(alloc, store, &blob.0, blob.1.as_slice())?;
    }
    Ok(())
}
