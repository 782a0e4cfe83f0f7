//! Answers to paths of refs.

/// The rule that denies a path, the first of them that holds (`docs/shares.md`, "Verdicts").
#[derive(Clone, Copy, PartialEq, Eq)]
pub enum Rule {
    /// The path doesn't begin with a share.
    NoShare,
    /// The share isn't signed as its key accepts.
    NotGenuine,
    /// The share was deleted.
    Deleted,
    /// The second ref isn't the target of the share.
    WrongTarget,
    /// There is a third ref, and the share isn't transitive.
    NotTransitive,
    /// The blob before this place, counted from 0, has no link to the ref at it.
    NoLink { at: u64 },
}

/// The answer to a path of refs, of which the last one is asked for.
#[derive(Clone, Copy, PartialEq, Eq)]
pub enum Verdict {
    /// The blob of the last ref is served.
    Served,
    /// No rule denies the path, and the blob of the last ref isn't held.
    Absent,
    /// A rule denies it.
    Denied(Rule),
}
