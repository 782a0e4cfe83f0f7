//! Names of blobs, and small owned values.
use blobref::{NoMemory, Octets, Ref, RefList, RefSet, ShortText, Text};
use std::alloc::Global;

// FIPS 180-4's digests of no bytes and of `abc`, and their refs in older stores.
pub(crate) const EMPTY: &str = "sha224-d14a028c2a3a2bc9476102bb288234c415a2b01f828ea62ac5b3e42f";

pub(crate) const ABC: &str = "sha224-23097d223405d8228642a477bda255b32aadbce4bda0b3f7e36c9da7";

pub(crate) const OLDER_EMPTY: &str = "sha1-da39a3ee5e6b4b0d3255bfef95601890afd80709";

pub(crate) const OLDER_ABC: &str = "sha1-a9993e364706816aba3e25717850c26c9cd0d89d";

// The ref of a text that is one.
pub(crate) fn named(text: &str) -> Ref {
    Ref::read(text.as_bytes()).unwrap_or(Ref::least())
}

// Whether the text is that of the bytes' ref, and is read as it.
fn is_name_of(text: &str, bytes: &[u8]) -> bool {
    let r = Ref::of(bytes);
    r.spell().as_slice() == text.as_bytes()
        && Ref::read(text.as_bytes()) == Some(r)
        && r.like(bytes) == r
}

// Whether the text is read as a ref of the bytes, and as one that is less than what the program names them by.
fn is_older_name_of(text: &str, bytes: &[u8]) -> bool {
    let r = named(text);
    r.spell().as_slice() == text.as_bytes()
        && r.like(bytes) == r
        && r < Ref::of(bytes)
        && Ref::least() < r
}

// Refs are ordered as their texts.
#[test]
fn names_of_blobs(rt: HostRuntime) {
    assert!(rt; is_name_of(EMPTY, b"") && is_name_of(ABC, b"abc"));
    assert!(rt; is_older_name_of(OLDER_EMPTY, b"") && is_older_name_of(OLDER_ABC, b"abc"));
    assert!(rt; Ref::read(b"sha1-A9993E364706816ABA3E25717850C26C9CD0D89D").is_none());
    assert!(rt;
        Ref::read(b"sha224-D14A028C2A3A2BC9476102BB288234C415A2B01F828EA62AC5B3E42F").is_none()
    );
    let abc = named(ABC);
    abc.is_from_least();
    assert!(rt; Ref::least() < abc && abc < named(EMPTY));
}

fn is_listed(alloc: Global, r: Ref) -> Result<bool, NoMemory> {
    let mut refs = RefList::empty(alloc);
    refs.push(r)?;
    let copy = refs.copy(alloc)?;
    Ok(copy.len() == 1 && *copy.at(0) == r && copy.as_slice() == refs.as_slice())
}

fn listed(alloc: Global, texts: &[&str]) -> Result<RefList, NoMemory> {
    let mut refs = RefList::empty(alloc);
    for text in texts {
        refs.push(named(text))?;
    }
    Ok(refs)
}

// A set has each ref once, those of older stores first.
#[test]
fn refs_in_their_order(rt: HostRuntime) -> Result<(), NoMemory> {
    let refs = listed(rt.alloc(), &[EMPTY, ABC, OLDER_ABC, ABC])?;
    let set = RefSet::of(refs)?;
    assert!(rt; set.as_slice() == [named(OLDER_ABC), named(ABC), named(EMPTY)].as_slice());
    assert!(rt;
        set.contains(&named(EMPTY))
            && set.place(&named(ABC)) == Some(1)
            && !set.contains(&named(OLDER_EMPTY))
    );
    Ok(())
}

fn is_copied(alloc: Global, text: &str) -> Result<bool, NoMemory> {
    let octets = Octets::copy(alloc, text.as_bytes())?;
    let copy = Text::copy(alloc, text)?;
    Ok(octets.as_slice() == text.as_bytes() && copy.as_str() == text)
}

// The longest text that stands in the value has fourteen bytes.
#[test]
fn owned_values(rt: HostRuntime) -> Result<(), NoMemory> {
    let alloc = rt.alloc();
    assert!(rt; is_listed(alloc, named(ABC))?);
    for text in ["abc", "fourteen bytes", "fifteen letters"] {
        assert!(rt; is_copied(alloc, text)?, "{text}");
    }
    let mut short: ShortText<6> = ShortText::of(b"abc");
    short.extend(b"def");
    assert!(rt; short.copy().as_slice() == b"abcdef".as_slice());
    Ok(())
}
