//! Generated stores, byte by byte.
use crate::names::named;
use blobref::{NoMemory, Ref};
use schema_write::load_blobs;

// The refs are those of the blobs of `docs/formats/generated.md`, one behind the other, by another program.
#[test]
fn generated_stores(rt: HostRuntime) -> Result<(), NoMemory> {
    let alloc = rt.alloc();
    for (start, name) in [
        (
            7,
            "sha224-24adf4a63aff388404cfaca0f002b66f4c13611e1cf184f4c8042b5c",
        ),
        (
            u64::MAX,
            "sha224-c4351b36a129fd900a356cd36d43248a9ca6325a2bb885d8a4bb8b65",
        ),
    ] {
        let blobs = load_blobs(alloc, 41, start)?;
        let mut all = Vec::new(alloc);
        for blob in blobs.as_slice() {
            all.extend_from_slice(blob.as_slice())?;
        }
        assert!(rt; Ref::of(&all) == named(name), "start {start}");
    }
    Ok(())
}
