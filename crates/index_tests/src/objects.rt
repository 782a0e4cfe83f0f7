//! JSON objects that are written.
use blobref::NoMemory;
use json_laws::{Leaf, write_object};
use std::alloc::Global;

// All that is escaped, DEL and letters that are not, and the marker.
const TEXT: &str = "a \"quoted\" \\ text\u{8}\u{c}\n\r\t\u{1f}\u{7f} é本 ,\"camliSig\":\"";

const PAIRS: [(&str, Leaf<'_>); 4] = [
    ("camliVersion", Leaf::Number(1)),
    ("camliType", Leaf::Text("claim")),
    ("value", Leaf::Text(TEXT)),
    (TEXT, Leaf::Number(18_446_744_073_709_551_615)),
];

// As Python's json writes the same pairs.
const OBJECT: &str =
    "{\"camliVersion\":1,\"camliType\":\"claim\",\"value\":\"a \\\"quoted\\\" \\\\ text\\b\\f\\n\\r\\t\\u001f\u{7f} é本 ,\\\"camliSig\\\":\\\"\",\"a \\\"quoted\\\" \\\\ text\\b\\f\\n\\r\\t\\u001f\u{7f} é本 ,\\\"camliSig\\\":\\\"\":18446744073709551615}";

fn is_written(alloc: Global, pairs: &[(&str, Leaf<'_>)], text: &str) -> Result<bool, NoMemory> {
    Ok(write_object(alloc, pairs)?.as_slice() == text.as_bytes())
}

#[test]
fn objects_are_written(rt: HostRuntime) -> Result<(), NoMemory> {
    assert!(rt; is_written(rt.alloc(), &PAIRS, OBJECT)?);
    assert!(rt; is_written(rt.alloc(), &[], "{}")?);
    Ok(())
}
