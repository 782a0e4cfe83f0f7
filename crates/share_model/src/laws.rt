//! Laws of shares.
ghost use Rattle.share_model.specs.Laws.{ServedIsHeld, SharesAreUnread, SharesReach};

/// A share is a blob of the type `claim` that facts don't know as a claim: its fact says `Unread`. So it depends on
/// nothing, and no query counts it or its deletion.
pub fn shares_are_unread()
    ensures { SharesAreUnread }
{}

/// For a genuine share that isn't deleted some path that begins with it and ends with a ref is served exactly where the
/// blob of that ref is held, and the share reaches it.
pub fn share_is_reached()
    ensures { SharesReach }
{}

/// What is served is held.
pub fn served_is_held()
    ensures { ServedIsHeld }
{}
