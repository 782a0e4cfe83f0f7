//! The connections that are still to be accepted, counted across threads.
ghost use Rattle.std.specs.Prelude.{◌≡◌, ◌+◌, ◌<◌, ◌≤◌, ℕ, true, false};
ghost use Rattle.blob_server.specs.Counting.{HasParts, Adds};

use std::marker::{Brand, Model, PhantomData};
use std::sync::ledger::{Blank, Book, Ledger, Share};

/// A ledger of connections that are taken.
pub trait Connections: Ledger {
    /// How many there are to take.
    ghost all: { ℕ };

    /// The name of the ledger that counts how often none was found left.
    ghost dry_name: { ℕ };
}

impl Connections for Brand {
    ghost all = { 0 };

    ghost dry_name = { 0 };
}

/// The ledger that counts how often none was found left. It has as many parts.
#[derive(Drop)]
pub struct NoneLeft<J: Connections> {
    of: PhantomData<J>,
}

impl<J: Connections> Ledger for NoneLeft<J> {
    ghost name = { J.dry_name };

    ghost parts = { J.parts };
}

/// How many connections a thread took, and how often it found none left. It takes no bytes.
#[derive(Drop)]
pub struct TakenShare<J: Connections> {
    pub taken: Share<J>,
    pub dry: Share<NoneLeft<J>>,
}

impl<J: Connections> TakenShare<J> {
    /// Some of its parts, with nothing taken.
    pub fn split(&mut self, parts: u64) -> TakenShare<J>
        requires { (parts < self.old.taken.parts) × (parts < self.old.dry.parts) × (0 < parts) }
        ensures new { HasParts parts result.taken.parts result.dry.parts }
        ensures none { (result.taken.amount ≡ 0) × (result.dry.amount ≡ 0) }
        ensures left { (self.new.taken.parts + parts ≡ self.old.taken.parts)
            × (self.new.dry.parts + parts ≡ self.old.dry.parts) }
        ensures same { (self.new.taken.amount ≡ self.old.taken.amount)
            × (self.new.dry.amount ≡ self.old.dry.amount) }
    {
        TakenShare {
            taken: self.taken.split_off(parts, 0),
            dry: self.dry.split_off(parts, 0),
        }
    }

    /// Takes over what another thread took.
    pub fn merge(&mut self, other: TakenShare<J>)
        ensures taken { (self.new.taken.amount ≡ self.old.taken.amount + other.taken.amount)
            × (self.new.taken.parts ≡ self.old.taken.parts + other.taken.parts) }
        ensures dry { (self.new.dry.amount ≡ self.old.dry.amount + other.dry.amount)
            × (self.new.dry.parts ≡ self.old.dry.parts + other.dry.parts) }
    {
        let TakenShare { taken, dry } = other;
        self.taken.merge(taken);
        self.dry.merge(dry);
    }
}

/// How many connections are left to take. Once none was found left, none is.
#[derive(Drop)]
pub struct ConnectionsLeft<J: Connections> {
    left: u64,
    taken: Book<J>,
    dry: Book<NoneLeft<J>>,
}

impl<J: Connections> Model for ConnectionsLeft<J> {
    ghost use Rattle.std.specs.Prelude.{◌≡◌, ◌+◌, ◌<◌, ℕ};

    ghost Value = { ℕ };

    ghost view = { λ l. l.left };

    ghost invariant = { λ l. (l.left + l.taken.total ≡ J.all) × (0 < l.dry.total → l.left ≡ 0) };
}

impl<J: Connections> ConnectionsLeft<J> {
    /// All connections, and a hand with every part.
    pub fn open(connections: u64, taken: Blank, dry: Blank) -> (ConnectionsLeft<J>, TakenShare<J>)
        requires names { (taken.name ≡ J.name) × (dry.name ≡ J.dry_name) }
        requires parts { (taken.parts ≡ J.parts) × (dry.parts ≡ J.parts) }
        requires all { connections ≡ J.all }
        ensures parts { (result.1.taken.parts ≡ J.parts) × (result.1.dry.parts ≡ J.parts) }
        ensures none { (result.1.taken.amount ≡ 0) × (result.1.dry.amount ≡ 0) }
    {
        let (taken_book, taken) = taken.open::<J>();
        let (dry_book, dry) = dry.open::<NoneLeft<J>>();
        let left = ConnectionsLeft {
            left: connections,
            taken: taken_book,
            dry: dry_book,
        };
        (left, TakenShare { taken, dry })
    }

    /// Takes a connection, if one is left.
    pub fn take(&mut self, hand: &mut TakenShare<J>) -> bool
        requires { (0 < hand.old.taken.parts) × (0 < hand.old.dry.parts) }
        ensures parts { (hand.new.taken.parts ≡ hand.old.taken.parts) × (hand.new.dry.parts ≡ hand.old.dry.parts) }
        ensures taken { result ≡ true → (hand.new.taken.amount ≡ hand.old.taken.amount + 1)
            × (hand.new.dry.amount ≡ hand.old.dry.amount) }
        ensures none { result ≡ false → (hand.new.taken.amount ≡ hand.old.taken.amount)
            × (hand.new.dry.amount ≡ hand.old.dry.amount + 1) }
    {
        let ConnectionsLeft { left, taken, dry } = self;
        if *left == 0 {
            dry.add(&mut hand.dry, 1);
            return false;
        }
        taken.add(&mut hand.taken, 1);
        *left -= 1;
        true
    }

    /// What a hand with every part knows of all connections.
    pub fn audit(&mut self, hand: &mut TakenShare<J>)
        requires { (hand.old.taken.parts ≡ J.parts) × (hand.old.dry.parts ≡ J.parts) }
        ensures most { hand.old.taken.amount ≤ J.all }
        ensures all { 0 < hand.old.dry.amount → hand.old.taken.amount ≡ J.all }
    {
        self.taken.audit(&mut hand.taken);
        self.dry.audit(&mut hand.dry);
    }
}
