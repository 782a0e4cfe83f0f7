//! What a peer promises.
ghost use Rattle.std.specs.Prelude.{◌≡◌, ◌≤◌, ◌∷◌, [], ◌++◌, ℕ, List, length, Option, Result, IfOk, IfSome, OnOk, OnErr, option_copied};
ghost use Rattle.std.specs.FinMap.{get};
ghost use Rattle.std.specs.Option.{ForSome};
ghost use Rattle.blobref.specs.Blobref.{IsOwnRef};
ghost use Rattle.edge_base.specs.Shelf.{Blob, Blobs, Keeps, max_blob};
ghost use Rattle.peer_base.specs.Blobs.{AreHeld, IsPage, listed};
ghost use Rattle.peer_base.specs.Causes.{ListCause, FetchCause, PutLeaves, MayKeep};

use blobref::{Listing, NoMemory, Octets, Ref};

/// Why a peer didn't answer.
#[derive(Clone, Copy, PartialEq, Eq)]
pub enum PeerFault {
    /// The way to it failed, and its count of faults rose.
    Failed,
    /// Its reply can't be read, or isn't one to what was asked.
    BadReply,
    /// It replied with this status.
    Refused { status: u16 },
    /// The bytes that it gave for a ref have another one, under the digest that the ref names.
    Damaged { want: Ref, is: Ref },
    /// It has no room: it has so many blobs, and its last pack has this number, 0 where it has none.
    Full { blobs: u64, pack: u32 },
    /// No memory was left.
    NoMemory,
}

impl From<NoMemory> for PeerFault {
    ghost use Rattle.std.specs.Prelude.{◌≡◌};
    ghost use Rattle.peer_base.specs.declared.peer.PeerFault.TheVariants.{NoMemory as OutOfMemory};

    ghost from_gives = { λ _ fault. fault ≡ OutOfMemory };

    fn from(_error: NoMemory) -> PeerFault {
        PeerFault::NoMemory
    }
}

/// Another place of blobs under their refs. A blob stands there under the ref that it was given under, a SHA-224 or a
/// SHA-1; the same bytes under both are two blobs.
///
/// Where it tells what it holds, each call says what it does to that. Two relations of its own say what a run of calls
/// leaves of what lies below it, whether it tells or not: `follows` of any run, and `puts` of one in which no put
/// failed. A loop of calls carries them on by the four laws. Three more say what each call is, in the implementation's
/// own words.
pub trait Peer {
    ghost use Rattle.peer_base.specs.declared.peer.PeerFault.{PeerFault};

    /// The bytes of each ref, where it tells them.
    ghost content: { Self → Option Blobs };

    /// How often it has failed.
    ghost faults: { Self → ℕ };

    /// Whether it has no room for this blob, with so many blobs and a last pack of that number.
    ghost fills: { Self → Blob → ℕ → ℕ → Type 0 };

    /// Whether a run of its calls, and nothing else, may lead from one to the other.
    ghost follows: { Self → Self → Type 0 };

    /// Whether a run of its calls may lead from one to the other that has put these blobs in their order, each under
    /// the ref that stands with its bytes, and in which no `put` answered `Failed`.
    ghost puts: { Self → List Blob → Self → Type 0 };

    /// What a call of `list` is: the peer before, what follows which ref is asked, how many refs, the answer, and the
    /// peer after.
    ghost lists: { Self → Option (List ℕ) → ℕ → Result (List (List ℕ × ℕ)) PeerFault → Self → Type 0 };

    /// What a call of `fetch` is: the peer before, the ref, the answer, and the peer after.
    ghost fetches: { Self → List ℕ → Result (Option (List ℕ)) PeerFault → Self → Type 0 };

    /// What a call of `put` is: the peer before, the blob, the answer, and the peer after.
    ghost keeps: { Self → Blob → Result (Unit {0}) PeerFault → Self → Type 0 };

    /// A law: each blob that it tells stands under a ref of its own and has at most 16,777,216 bytes, and there are
    /// fewer than 2^64.
    fn blobs_are_small(&self)
        ensures { ForSome (content self.now) AreHeld };

    /// The refs that are greater than `after`, or all where it is `None`, ascending, the first `limit` of them where it
    /// tells what it holds, and else at most `limit`, each with the size of its blob in bytes. An empty page means that
    /// nothing follows. `Failed` comes only where the count of faults rose, `BadReply` and `Refused` never where it
    /// tells what it holds, and `Damaged` and `Full` never. Nothing is put, and what it holds is as before, whatever is
    /// answered.
    fn list(&mut self, after: Option<&Ref>, limit: usize) -> Result<Listing, PeerFault>
        requires some { 1 ≤ limit }
        ensures page { IfOk result (IsPage (option_copied after.entry) limit) }
        ensures found { IfOk result (λ page. ForSome (content self.old)
            (λ held. page ≡ listed (option_copied after.entry) limit held)) }
        ensures told { content self.new ≡ content self.old }
        ensures cause { ListCause (content self.old) (faults self.old) (faults self.new) result }
        ensures later { faults self.old ≤ faults self.new }
        ensures nothing { puts self.old [] self.new }
        ensures run { follows self.old self.new }
        ensures is { lists self.old (option_copied after.entry) limit result self.new };

    /// The bytes of a blob, and `None` where its ref isn't there; exactly there, where it tells what it holds. They
    /// have that ref, and are at most 16,777,216. `Failed` comes only where the count of faults rose, `BadReply`,
    /// `Refused` and `Damaged`, with this ref and the one that the bytes have, never where it tells what it holds, and
    /// `Full` never. Nothing is put, and what it holds is as before, whatever is answered.
    fn fetch(&mut self, r: &Ref) -> Result<Option<Octets>, PeerFault>
        ensures found { IfOk result (λ found. ForSome (content self.old) (λ held. found ≡ get held r.now)) }
        ensures named { IfOk result (λ found. IfSome found (λ bytes. IsOwnRef r.now bytes)) }
        ensures small { IfOk result (λ found. IfSome found (λ bytes. length bytes ≤ max_blob)) }
        ensures told { content self.new ≡ content self.old }
        ensures cause { FetchCause (content self.old) (faults self.old) (faults self.new) r.now result }
        ensures later { faults self.old ≤ faults self.new }
        ensures nothing { puts self.old [] self.new }
        ensures run { follows self.old self.new }
        ensures is { fetches self.old r.now result self.new };

    /// Gives it a blob under a ref of its own, which the caller has computed; where that ref is there nothing is done,
    /// whatever bytes stand under it. `Failed` comes only where the count of faults rose, `BadReply` and `Refused`
    /// never where it tells what it holds, `Full` only where there is no room for the blob, and `Damaged` never. After
    /// `Full` what it holds is as before, and nothing was put. After another error it is as before, or has this blob
    /// too.
    fn put(&mut self, r: &Ref, bytes: &[u8]) -> Result<(), PeerFault>
        requires own { IsOwnRef r.now bytes.now }
        requires small { length bytes.now ≤ max_blob }
        ensures kept { OnOk result (Keeps (content self.old) (content self.new) ((r.now, bytes.now) ∷ [])) }
        ensures refused { OnErr result (MayKeep (content self.old) (content self.new) (r.now, bytes.now)) }
        ensures leaves { PutLeaves (λ blobs. puts self.old blobs self.new) (fills self.new (r.now, bytes.now))
            (content self.old) (content self.new) (faults self.old) (faults self.new) (r.now, bytes.now) result }
        ensures later { faults self.old ≤ faults self.new }
        ensures run { follows self.old self.new }
        ensures is { keeps self.old (r.now, bytes.now) result self.new };

    /// How often it has failed. A count at the last value of its type stays there.
    fn faults(&self) -> u64
        ensures { result ≡ faults self.now };

    /// No call is a run.
    ghost puts_nothing: { (peer : Self) → puts peer [] peer };

    /// One run after another is a run, and puts the blobs of both.
    ghost puts_then: { (a b c : Self) (first second : List Blob) → puts a first b → puts b second c → puts a
        (first ++ second) c };

    /// A run that puts blobs is a run.
    ghost puts_follows: { (a b : Self) (blobs : List Blob) → puts a blobs b → follows a b };

    /// One run after another is a run.
    ghost follows_then: { (a b c : Self) → follows a b → follows b c → follows a c };
}
