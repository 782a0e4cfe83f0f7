//! What blobs say as shares, and what they link to.
use blobref::{NoMemory, Ref};
use schema_json::fact;
use share_model::{Share, links_of, share_in};
use std::alloc::Global;

const FILE: &str =
    r#"{"camliVersion":1,"camliType":"file","fileName":"abc.txt","parts":[{"blobRef":"sha224-23097d223405d8228642a477bda255b32aadbce4bda0b3f7e36c9da7","size":3}]}"#;

// Texts, and whether each is a share of that file, and transitive.
const SHARES: [(&str, Option<bool>); 3] = [
    (
        r#"{"camliVersion":1,"camliType":"claim","camliSigner":"sha224-da4a89851a3c8f7ce55ef510378a1b717451b9f0b152bb73f28508dc","claimDate":"2020-01-01T00:00:00Z","claimType":"share","authType":"haveref","target":"sha224-acf3a4f544fe52e339900ceed80919b30d491c01a21788c1360a78be","transitive":true,"camliSig":"16e9de3dc2a32d06e88a90a96ac32debec9218b6e766d85de6dc390bfab66a83"}"#,
        Some(true),
    ),
    (
        r#"{"camliVersion":1,"camliType":"claim","camliSigner":"sha224-da4a89851a3c8f7ce55ef510378a1b717451b9f0b152bb73f28508dc","claimDate":"2020-01-01T00:00:00Z","claimType":"share","authType":"haveref","target":"sha224-acf3a4f544fe52e339900ceed80919b30d491c01a21788c1360a78be","camliSig":"143087a49eb06cfd39d63a01bdf93efb1cc651b780ebbac41f2d78f8e4e372a3"}"#,
        Some(false),
    ),
    (
        r#"{"camliVersion":1,"camliType":"claim","camliSigner":"sha224-da4a89851a3c8f7ce55ef510378a1b717451b9f0b152bb73f28508dc","claimDate":"2020-01-02T00:00:00Z","claimType":"delete","target":"sha224-00db53ba77fcec2ea7615b58115a87c61172cd1895cdc5b127a46493","camliSig":"1eb218b9d9d377b758e9cb4fc4a149a0f7575694e75768cefa8b7523a106a5ef"}"#,
        None,
    ),
];

// Whether a share is one of that file: then whether it is transitive.
fn transitive_to(share: &Share, target: Option<Ref>) -> Option<bool> {
    if Some(share.target) == target {
        Some(share.transitive)
    } else {
        None
    }
}

// What a text says as a share of the file: whether it is transitive.
fn transitive_in(alloc: Global, text: &str) -> Result<Option<bool>, NoMemory> {
    let file = Ref::read(b"sha224-acf3a4f544fe52e339900ceed80919b30d491c01a21788c1360a78be");
    match share_in(alloc, text.as_bytes())? {
        Some(share) => Ok(transitive_to(&share, file)),
        None => Ok(None),
    }
}

fn links_to_abc(alloc: Global) -> Result<bool, NoMemory> {
    let links = links_of(alloc, &fact(alloc, FILE.as_bytes())?.kind)?;
    Ok(links.len() == 1 && *links.at(0) == Ref::of(b"abc"))
}

#[test]
fn shares_and_links(rt: HostRuntime) -> Result<(), NoMemory> {
    for (text, want) in SHARES {
        assert!(rt; transitive_in(rt.alloc(), text)? == want, "{text}");
    }
    assert!(rt; links_to_abc(rt.alloc())?);
    Ok(())
}
