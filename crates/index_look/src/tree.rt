//! What single facts say as files, and whether their parts stand in their origins.
ghost use Rattle.std.specs.Prelude.{◌≡◌, ◌+◌, IfSome, nat_le, option_copied};
ghost use Rattle.schema_fact.specs.Limits.{total_size, IsShortPart, MeetsLimits};
ghost use Rattle.schema_fact.specs.Validity.{IsValid, IsValidKind};
ghost use Rattle.claim_model.specs.Facts.{passes};
ghost use Rattle.claim_model.specs.Trees.{is_file, own_size, tree_parts};

use schema_fact::{Fact, Kind, Part, PartList};

/// Whether it is a file.
pub fn is_file(kind: &Kind) -> bool
    ensures { result ≡ is_file kind.now }
{
    matches!(kind, Kind::File { .. })
}

/// The parts of a file or bytes blob; `None` of any other kind.
pub fn tree_parts(kind: &Kind) -> Option<&PartList>
    requires { IsValidKind kind.now }
    ensures value { option_copied result ≡ tree_parts kind.now }
    ensures valid { IfSome result (λ parts. MeetsLimits parts.now) }
{
    match kind {
        Kind::File { parts, .. } | Kind::Bytes(parts) => Some(parts),
        _ => None,
    }
}

/// How many bytes the parts of a file or bytes blob have together; `None` of any other kind.
pub fn own_size(fact: &Fact) -> Option<u64>
    requires { IsValid fact.now }
    ensures { result ≡ own_size fact.now }
{
    let parts = tree_parts(&fact.kind)?;
    Some(total_size(parts.as_slice()))
}

fn total_size(parts: &[Part]) -> u64
    requires { MeetsLimits parts.now }
    ensures { result ≡ total_size parts.now }
{
    let mut total = 0;
    for part in parts {
        total += part.size;
    }
    total
}

/// Where a part ends in its origin.
pub fn part_end(part: &Part) -> u64
    requires { IsShortPart part.now }
    ensures { result ≡ part.now.offset + part.now.size }
{
    part.offset + part.size
}

/// Whether a part that ends here stands in the blob of this fact; false where there is no fact.
pub fn blob_holds(fact: Option<&Fact>, end: u64) -> bool
    ensures { result ≡ passes (λ fact. nat_le end fact.size) (option_copied fact.entry) }
{
    match fact {
        Some(fact) => end <= fact.size,
        None => false,
    }
}

/// Whether a part that ends here stands in a tree of this size; false where there is no tree.
pub fn tree_holds(size: Option<u64>, end: u64) -> bool
    ensures { result ≡ passes (nat_le end) size }
{
    match size {
        Some(size) => end <= size,
        None => false,
    }
}
