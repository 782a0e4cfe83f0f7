//! Laws of rings.
ghost use Rattle.replica_ring.specs.Laws.{EventsKeep, EventsKeepValid, JoinIsUnion, OthersChangeNothing, FullPullsJoin, RoundsJoin};

/// What a store has, it has after any events.
pub fn events_keep()
    ensures { EventsKeep }
{}

/// Where each blob is under a ref of its own and none is too long, that holds after any events.
pub fn events_keep_valid()
    ensures { EventsKeepValid }
{}

/// The join of maps is associative, a map joined with itself is that map, and the refs of a join don't depend on the
/// order.
pub fn join_is_union()
    ensures { JoinIsUnion }
{}

/// An event that names a place without a store changes nothing.
pub fn others_change_nothing()
    ensures { OthersChangeNothing }
{}

/// After events of which no upload and no stop adds anything, and among which there is a full pull over each ordered
/// pair of stores, in any order, each store has the refs of the join of all. Where no two stores have other bytes under
/// one ref, each is that join.
pub fn full_pulls_join()
    ensures { FullPullsJoin }
{}

/// A hub that takes what it lacks of one map after the other becomes the join of all, and a map that is given what it
/// lacks of that has its refs.
pub fn rounds_join()
    ensures { RoundsJoin }
{}
