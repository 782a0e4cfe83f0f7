//! A reader with the Inserts that it has seen.
ghost use Rattle.std.specs.Prelude.{◌≡◌, Some};

use crate::book::Front;
use crate::showing::SnapReader;
use claim_verify::Verifier;

mod calls;

/// A reader with the Inserts that it has seen.
#[derive(Drop)]
pub struct Watch<V: Verifier + Drop> {
    /// The reader.
    pub reader: SnapReader<V>,
    /// The Inserts that it has seen.
    pub mine: Front,
    /// Whether the copy that it searched last was stale. False before the first search.
    pub stale: bool,
    pub ghost token: { reader.place.me.0.client.token ≡ Some mine.seen },
}
