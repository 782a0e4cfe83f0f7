//! The log entry of each request that is answered.
use blobref::Ref;

/// How a request was answered.
#[derive(Clone, Copy)]
pub enum ShareTold {
    /// With the reply that is defined for it, which may be a refusal.
    Defined,
    /// No memory was left.
    Memory,
    /// The shelf failed.
    Disk,
    /// The bytes of a blob had another ref than the wanted one.
    Damaged { want: Ref, is: Ref },
}
