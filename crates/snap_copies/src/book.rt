//! The list of Inserts, which only grows, and tokens that know a prefix of it.
ghost use Rattle.std.specs.Prelude.{◌≡◌, ◌+◌, ◌<◌, ◌^◌, ◌++◌, ◌∷◌, [], length, true, MatchBool, IfSome};
ghost use mathlib.Core.List.{IsPrefix};
ghost use Rattle.snap_copies.specs.Books.{head_of, is_fine, insertion};

use blobref::Ref;
use histories::Insertion;
use logbook::{Gain, Offer, Plain, Play, Rule, Seen, Start, Word};
use schema_fact::Fact;

/// An Insert that is to be added.
#[derive(Clone, Copy)]
pub struct Adding<'a> {
    pub turn: u64,
    pub number: u64,
    pub r: &'a Ref,
    pub fact: &'a Fact,
}

/// The rule of the list.
pub struct Law;

impl Rule<Insertion, u64> for Law {
    ghost use Rattle.std.specs.Prelude.{[]};
    ghost use base.Fml.{ftrue};
    ghost use Rattle.snap_copies.specs.Books.{IsKept};

    ghost holds = { λ cells log. IsKept cells log };

    ghost first = { [] };

    ghost hinted = { λ n log. Unit {0} };

    ghost shows = { λ log. [] };

    ghost keeps = { λ names log. ftrue };

    ghost moves = { λ ask before after answer. Unit {0} };
}

// Nothing is gained besides the list.
struct Nothing;

impl Gain<Insertion, u64> for Nothing {
    ghost use base.Fml.{ftrue};

    ghost after = { λ names about answer. ftrue };
}

// The step that adds.
struct Add;

impl Play<Insertion, u64> for Add {
    ghost use Rattle.snap_copies.specs.Books.{Adds};

    ghost then = { Adds };
}

impl<'a> Plain<Adding<'a>, Insertion, u64> for Add {
    ghost use Rattle.std.specs.Prelude.{None};
    ghost use Rattle.snap_copies.specs.Books.{insertion};

    ghost ask = { λ e. insertion e.turn e.number e.r.now e.fact.now };

    ghost state = { λ e. None };
}

/// A token that knows a prefix of the list. It has no bytes.
pub type Token = Seen<Insertion, u64, Law>;

/// A prefix of the list. It can be copied and shared.
#[derive(Drop)]
pub struct Front {
    /// How many Inserts it has.
    pub count: u64,
    /// The Inserts.
    pub seen: Token,
    pub ghost counted: { count ≡ length seen.log },
    pub ghost fine: { is_fine seen.log ≡ true },
}

impl Front {
    /// A copy.
    pub fn again(&self) -> Front
        ensures { result ≡ self.now }
    {
        Front {
            count: self.count,
            seen: self.seen.again(),
        }
    }

    /// Whether the other is a prefix of this one. If not, this one is a prefix of the other.
    pub fn has_all_of(&self, other: &Front) -> bool
        requires { other.now.seen.book ≡ self.now.seen.book }
        ensures { MatchBool result (IsPrefix other.now.seen.log self.now.seen.log)
            (IsPrefix self.now.seen.log other.now.seen.log) }
    {
        let mut both = self.seen.again();
        both.learn(&other.seen);
        other.count <= self.count
    }
}

/// The part that adds to the list.
#[derive(Drop)]
pub struct Pusher {
    /// Its one word in memory.
    pub head: Word<Insertion, u64, Law>,
    /// All Inserts that were seen.
    pub front: Front,
    pub ghost head_is: { head ≡ head_of front.seen.book },
}

impl Pusher {
    /// The list of no Inserts.
    pub fn new() -> Pusher
        ensures { result.front.seen.log ≡ [] }
    {
        let (seen, mut first, _second) = Seen::open(Start::alone(), 0, 0);
        Pusher {
            head: Word::tracked(0, &mut first),
            front: Front { count: 0, seen },
        }
    }

    /// All Inserts that were seen, and one more. It is added unless the list is longer.
    pub(crate) fn pushed(&self, entry: &Adding<'_>) -> Option<Front>
        requires room { length self.now.front.seen.log < 2 ^ 62 }
        requires fine { is_fine (self.now.front.seen.log
            ++ insertion entry.now.turn entry.now.number entry.now.r.now entry.now.fact.now ∷ []) ≡ true }
        ensures { IfSome result (λ f. (f.seen.book ≡ self.now.front.seen.book)
            × (f.seen.log ≡ self.now.front.seen.log
            ++ insertion entry.now.turn entry.now.number entry.now.r.now entry.now.fact.now ∷ [])) }
    {
        let count = self.front.count;
        let mut seen = self.front.seen.again();
        let mut offer: Offer<Insertion, u64, Law, Nothing> = seen.plain::<Nothing, Adding<'_>, Add>(
            entry,
        );
        let mut pen = seen.no_pen();
        let found = self
            .head
            .compare_exchange::<Add, Nothing>(count, count + 1, &mut seen, &mut offer, &mut pen);
        if found != count {
            return None;
        }
        Some(front_of(count + 1, seen))
    }
}

fn front_of(count: u64, seen: Token) -> Front
    requires counted { count ≡ length seen.log }
    requires fine { is_fine seen.log ≡ true }
    ensures { result.seen ≡ seen }
{
    Front { count, seen }
}
