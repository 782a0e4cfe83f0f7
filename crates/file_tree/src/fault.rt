//! Why a file isn't read.
use blobref::{NoMemory, Ref};
use edge_base::GetFault;

/// Why a file isn't read to its end.
#[derive(Clone, Copy, PartialEq, Eq)]
pub enum FileFault {
    /// The blob of this ref isn't there.
    Absent { r: Ref },
    /// The blob of this ref should be a file, or within one a file or bytes blob, and is something else.
    NotAFile { r: Ref },
    /// A part wants its referent to have at least `wants` bytes, and it has fewer.
    Short { r: Ref, has: u64, wants: u64 },
    /// The tree of this ref stands within 64 others.
    Deep { r: Ref },
    /// The sink failed.
    WriteFault,
    /// The shelf failed as it was asked for a blob.
    Get(GetFault),
    /// No memory was left.
    NoMemory,
}

impl From<NoMemory> for FileFault {
    ghost use Rattle.std.specs.Prelude.{◌≡◌};
    ghost use Rattle.file_tree.specs.declared.fault.FileFault.TheVariants as fault;

    ghost from_gives = { λ _ error. error ≡ fault.NoMemory };

    fn from(_error: NoMemory) -> FileFault {
        FileFault::NoMemory
    }
}
