//! Laws of the permanodes for which the rows of holders have to be made again.
ghost use Rattle.index_meaning.specs.Concerns.{HeldButMore, NoneIsHeld, JudgingConcerns, EnteringConcerns};

/// They may be made again for more permanodes than necessary, in any order.
pub fn held_but_more()
    ensures { HeldButMore }
{}

/// If there are none, they have to be made for all genuine permanodes.
pub fn none_is_held()
    ensures { NoneIsHeld }
{}

/// After a ref was judged they have to be made for those that it touches: for itself if it is a genuine permanode, and
/// for those that it changes if it is a genuine attribute claim.
pub fn judging_concerns()
    ensures { JudgingConcerns }
{}

/// After delete claims were entered they have to be made for those that a ref whose deletion changed touches.
pub fn entering_concerns()
    ensures { EnteringConcerns }
{}
