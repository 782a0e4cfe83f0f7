//! The rule of the published copy.
use crate::book::Token;
use crate::copies::IndexCopy;
use atomic_table::{Join, Split};
use claim_verify::Verifier;
use crossbeam_utils::rule::{Outcome, Protocol};

/// What a reader knows of the published copies. No value of this type is made.
pub struct Shown<V> {
    /// The Inserts that it has seen.
    pub token: Option<Token>,
    /// The keys.
    pub keys: Option<V>,
}

/// The rule: the facts of the published copy are those of its Inserts. Those that readers have seen are a prefix of
/// these.
pub struct Published;

impl<V: Verifier> Protocol<IndexCopy<V>, Shown<V>> for Published {
    ghost use Rattle.snap_copies.specs.Shows.{Shows, newcomer};

    ghost holds = { Shows };

    ghost first = { newcomer };
}

/// A look at the published copy, and a publication.
pub struct Sees;

impl<V: Verifier> Outcome<IndexCopy<V>, Shown<V>> for Sees {
    ghost use Rattle.snap_copies.specs.Shows.{SeesNow};

    ghost then = { SeesNow };
}

/// The writer shares what it knows.
pub struct Tells;

impl<V> Split<Shown<V>> for Tells {
    ghost left = { λ v. v };

    ghost right = { λ v. v };
}

/// A new reader learns what the writer shares.
pub struct Learns;

impl<V> Join<Shown<V>> for Learns {
    ghost use Rattle.snap_copies.specs.Shows.{newcomer};

    ghost both = { λ v w. w };

    ghost spent = { newcomer };
}
