//! What written schema blobs say.
ghost use Rattle.schema_write.specs.Laws.{KeysAreRead, FilesAreRead, TreesAreRead, PermanodesAreRead, ClaimsAreRead};

/// The blob of a key is read as the key's name (`docs/formats/schema.md`).
pub fn keys_are_read()
    ensures { KeysAreRead }
{}

/// A written file blob is read as its name and its parts, and a bytes blob as its parts (`docs/formats/schema.md`).
pub fn files_are_read()
    ensures files { FilesAreRead }
    ensures trees { TreesAreRead }
{}

/// A written permanode is read as what is signed, and a claim as its date and what it says too
/// (`docs/formats/schema.md`).
pub fn signed_are_read()
    ensures permanodes { PermanodesAreRead }
    ensures claims { ClaimsAreRead }
{}
