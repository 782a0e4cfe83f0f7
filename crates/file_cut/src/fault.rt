//! Why a file isn't written.
use blobref::NoMemory;
use edge_base::PutFault;

/// Why a file isn't written to its end.
#[derive(Clone, Copy, PartialEq, Eq)]
pub enum CutFault {
    /// The source has more than 17,592,186,044,416 bytes.
    TooLong,
    /// The name has this many bytes, more than 4,096.
    NameTooLong { len: u64 },
    /// The source failed.
    ReadFault,
    /// The shelf refused the blob that was next, but never as `TooBig`.
    Put(PutFault),
    /// No memory was left.
    NoMemory,
}

impl From<NoMemory> for CutFault {
    ghost use Rattle.std.specs.Prelude.{◌≡◌};
    ghost use Rattle.file_cut.specs.declared.fault.CutFault.TheVariants as fault;

    ghost from_gives = { λ _ error. error ≡ fault.NoMemory };

    fn from(_error: NoMemory) -> CutFault {
        CutFault::NoMemory
    }
}
