//! Signatures of the standard, where a blob is split, and keyrings.
use blobref::NoMemory;
use claim_verify::{KeyName, Keyring, KeyringFault, Verifier, hmac_sha256, split_signed};
use std::alloc::Global;

// RFC 4231, case 2.
const JEFE: [u8; 32] = [
    0x5b, 0xdc, 0xc1, 0x46, 0xbf, 0x60, 0x75, 0x4e, 0x6a, 0x04, 0x24, 0x26, 0x08, 0x95, 0x75, 0xc7,
    0x5a, 0x00, 0x3f, 0x08, 0x9d, 0x27, 0x39, 0x83, 0x9d, 0xec, 0x58, 0xb9, 0x64, 0xec, 0x38, 0x43,
];

const MESSAGE: &[u8] = b"what do ya want for nothing?";

// RFC 4231, case 6.
const LONG_KEY: [u8; 32] = [
    0x60, 0xe4, 0x31, 0x59, 0x1e, 0xe0, 0xb6, 0x7f, 0x0d, 0x8a, 0x26, 0xaa, 0xcb, 0xf5, 0xb7, 0x7f,
    0x8e, 0x0b, 0xc6, 0x21, 0x37, 0x28, 0xc5, 0x14, 0x05, 0x46, 0x04, 0x0f, 0x0e, 0xe3, 0x7f, 0x54,
];

const LONG_KEY_MESSAGE: &[u8] = b"Test Using Larger Than Block-Size Key - Hash Key First";

#[test]
fn signatures_of_the_standard_and_their_place(rt: HostRuntime) {
    assert!(rt; hmac_sha256(b"Jefe", MESSAGE) == JEFE);
    assert!(rt; hmac_sha256(&[0xaa; 131], LONG_KEY_MESSAGE) == LONG_KEY);
    assert!(rt; split_signed(b"{,\"camliSig\":\"a\",\"camliSig\":\"b\"}") == Some(16));
    assert!(rt; split_signed(b"{}").is_none());
}

// Whether the standard's signature is accepted once the name's secret is replaced, and not before.
fn is_replaced(alloc: Global, name: &[u8]) -> Result<bool, NoMemory> {
    let Some(name) = KeyName::read(name) else {
        return Ok(false);
    };
    let mut keys = Keyring::empty(alloc);
    keys.add(&name, b"another")?;
    let before = keys.check(&name, MESSAGE, &JEFE);
    keys.add(&name, b"Jefe")?;
    Ok(!before && (&keys).check(&name, MESSAGE, &JEFE))
}

const FAULTS: [(&str, KeyringFault); 10] = [
    ("jefe 4a656665", KeyringFault::BadLine { line: 1 }),
    ("jefe 4A656665\n", KeyringFault::BadLine { line: 1 }),
    ("jefe 4a65666\n", KeyringFault::BadLine { line: 1 }),
    ("jefe \n", KeyringFault::BadLine { line: 1 }),
    ("jefe  4a\n", KeyringFault::BadLine { line: 1 }),
    ("Jefe 4a\n", KeyringFault::BadLine { line: 1 }),
    ("a 00\n\n", KeyringFault::BadLine { line: 2 }),
    ("a 00\nb\na 02\n", KeyringFault::BadLine { line: 2 }),
    ("a 00\na 02\nb\n", KeyringFault::Twice { line: 2 }),
    ("a 00\nb 01\na 02\n", KeyringFault::Twice { line: 3 }),
];

fn has_fault(alloc: Global, text: &str, fault: KeyringFault) -> bool {
    match Keyring::read(alloc, text.as_bytes()) {
        Ok(_) => false,
        Err(found) => found == fault,
    }
}

#[test]
fn keyrings_and_their_faults(rt: HostRuntime) -> Result<(), NoMemory> {
    for (text, fault) in FAULTS {
        assert!(rt; has_fault(rt.alloc(), text, fault), "{text}");
    }
    assert!(rt; is_replaced(rt.alloc(), b"jefe")?);
    Ok(())
}
