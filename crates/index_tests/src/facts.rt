//! What blobs say that no command tells.
use blobref::{NoMemory, Ref, Text};
use schema_fact::{Fact, Kind, Origin, PartList};
use schema_json::fact;
use std::alloc::Global;

// Texts, and whether each is of a set: what isn't read is answered for as a set is.
const SETS: [(&str, bool); 3] = [
    (
        r#"{"camliVersion":1,"camliType":"static-set","members":["sha224-23097d223405d8228642a477bda255b32aadbce4bda0b3f7e36c9da7"]}"#,
        true,
    ),
    (
        r#"{"camliVersion":1,"camliType":"static-set","members":[1]}"#,
        false,
    ),
    (
        r#"{"camliVersion":1,"camliType":"static-set","members":[],"mergeSets":[]}"#,
        false,
    ),
];

const FILE: &str =
    r#"{"camliVersion":1,"camliType":"file","fileName":"a.txt","parts":[{"size":3,"blobRef":"sha224-23097d223405d8228642a477bda255b32aadbce4bda0b3f7e36c9da7"},{"size":4},{"size":5,"offset":6,"bytesRef":"sha224-d14a028c2a3a2bc9476102bb288234c415a2b01f828ea62ac5b3e42f"}]}"#;

fn is_set(found: &Fact) -> bool {
    match &found.kind {
        Kind::StaticSet(_) => true,
        _ => false,
    }
}

fn is_read_as_set(alloc: Global, text: &str) -> Result<bool, NoMemory> {
    Ok(is_set(&fact(alloc, text.as_bytes())?))
}

// Whether these parts are three, the second of which is zeros.
fn are_the_parts(name: &Text, parts: &PartList) -> bool {
    name.as_str() == "a.txt"
        && parts.len() == 3
        && matches!(parts.at(1).origin, Origin::Zeros)
        && parts.at(2).offset == 6
}

// Whether a fact is of that file, and needs its two refs.
fn is_the_file(found: &Fact) -> bool {
    let needs_both = found.dep_count() == 2
        && found.dep(0) == Ref::of(b"abc")
        && found.dep(1) == Ref::of(b"");
    match &found.kind {
        Kind::File { name, parts } => needs_both && are_the_parts(name, parts),
        _ => false,
    }
}

// Whether the file's fact is copied.
fn is_copied(alloc: Global) -> Result<bool, NoMemory> {
    Ok(is_the_file(&fact(alloc, FILE.as_bytes())?.copy(alloc)?))
}

#[test]
fn sets_and_copies_of_facts(rt: HostRuntime) -> Result<(), NoMemory> {
    for (text, want) in SETS {
        assert!(rt; is_read_as_set(rt.alloc(), text)? == want, "{text}");
    }
    assert!(rt; is_copied(rt.alloc())?);
    Ok(())
}
