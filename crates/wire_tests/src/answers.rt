//! Texts that no request to a store in memory is answered with, and texts that clients read.
use answer_text::{AnswerFault, Refusal, page_text, read_page, read_received, refusal_text};
use blobref::{Listing, NoMemory, Ref};
use std::alloc::Global;

const PAGE: &[u8] =
    b"{\"blobs\":[],\"continueAfter\":\"sha224-23097d223405d8228642a477bda255b32aadbce4bda0b3f7e36c9da7\"}";

const FULL: &[u8] = b"{\"error\":\"full\",\"blobs\":18446744073709551615,\"pack\":7}";

// A page of one blob under both of its names, after which others follow.
const BOTH_NAMES: &[u8] = b"{\"blobs\":[\
    {\"blobRef\":\"sha1-a9993e364706816aba3e25717850c26c9cd0d89d\",\"size\":3},\
    {\"blobRef\":\"sha224-23097d223405d8228642a477bda255b32aadbce4bda0b3f7e36c9da7\",\"size\":3}],\
    \"continueAfter\":\"sha224-23097d223405d8228642a477bda255b32aadbce4bda0b3f7e36c9da7\"}";

// What another server says that it received.
const RECEIVED: &[u8] = b"{ \"uploadUrlExpirationSeconds\": 86400, \
    \"received\": [ { \"size\": 3, \"blobRef\": \"sha1-a9993e364706816aba3e25717850c26c9cd0d89d\" } ] }";

// The older one of the names in them.
const OLDER: &[u8] = b"sha1-a9993e364706816aba3e25717850c26c9cd0d89d";

// Whether a page without blobs tells behind which ref others follow.
fn is_page_told(alloc: Global) -> Result<bool, NoMemory> {
    let page = page_text(alloc, &Listing::empty(alloc), Some(&Ref::of(b"abc")))?;
    Ok(page.as_slice() == PAGE)
}

// Whether a store that is full is told.
fn is_full_told(alloc: Global) -> Result<bool, NoMemory> {
    let full = Refusal::Full {
        blobs: 18_446_744_073_709_551_615,
        pack: 7,
    };
    Ok(full.code() == 507 && refusal_text(alloc, &full)?.as_slice() == FULL)
}

#[test]
fn pages_and_refusals_are_told(rt: HostRuntime) -> Result<(), NoMemory> {
    assert!(rt; is_page_told(rt.alloc())?);
    assert!(rt; is_full_told(rt.alloc())?);
    Ok(())
}

// Whether a page is read as what stands there.
fn is_page_read(alloc: Global) -> Result<bool, AnswerFault> {
    let (page, more) = read_page(alloc, BOTH_NAMES)?;
    let Some(older) = Ref::read(OLDER) else {
        return Ok(false);
    };
    let abc = Ref::of(b"abc");
    Ok(page.as_slice() == [(older, 3), (abc, 3)].as_slice() && more == Some(abc))
}

// Whether what was received is read as what stands there.
fn is_received_read(alloc: Global) -> Result<bool, AnswerFault> {
    let received = read_received(alloc, RECEIVED)?;
    let Some(older) = Ref::read(OLDER) else {
        return Ok(false);
    };
    Ok(received.as_slice() == [(older, 3)].as_slice())
}

#[test]
fn pages_and_what_was_received_are_read(rt: HostRuntime) -> Result<(), AnswerFault> {
    assert!(rt; is_page_read(rt.alloc())?);
    assert!(rt; is_received_read(rt.alloc())?);
    Ok(())
}
