//! Shares as values.
use blobref::Ref;
use schema_fact::Signed;

/// What a share says: what its signer signed, the ref that it shares, and whether all that links lead to from there is
/// shared too.
#[derive(Drop)]
pub struct Share {
    pub signed: Signed,
    pub target: Ref,
    pub transitive: bool,
}
