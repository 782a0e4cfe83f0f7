//! What a crash takes of the bytes of a pack that aren't durable, by a choice.
ghost use Rattle.std.specs.Prelude.{◌≡◌, ◌≤◌, length};
ghost use Rattle.pack_disk.specs.Left.{loss_of, kept, garbage, garbled, claimed, spoilt, takes_packs};

// A header of a blob of 16,777,216 bytes, the longest there is.
const CLAIM: &[u8; 74] =
    b"[sha224-00000000000000000000000000000000000000000000000000000000 16777216]";

/// What is lost of a pack's tail, the bytes that were added since its last sync.
#[derive(Clone, Copy)]
pub enum Loss {
    /// Nothing.
    Nothing,
    /// All of it, and the pack too if it was never synced.
    Unsynced,
    /// The second half.
    Half,
    /// All but the first byte.
    AllButFirst,
    /// The last byte.
    Last,
    /// Its bytes: all are 0.
    Zeroed,
    /// Its bytes: they are others.
    Garbled,
    /// Its bytes: they begin with a header.
    Claimed,
}

impl Loss {
    /// One of the eight, by the choice modulo 8.
    pub fn of(choice: u64) -> Loss
        ensures { result ≡ loss_of choice }
    {
        match choice % 8 {
            0 => Loss::Nothing,
            1 => Loss::Unsynced,
            2 => Loss::Half,
            3 => Loss::AllButFirst,
            4 => Loss::Last,
            5 => Loss::Zeroed,
            6 => Loss::Garbled,
            _ => Loss::Claimed,
        }
    }

    /// Whether a pack that was never synced is gone.
    pub fn takes_packs(self) -> bool
        ensures { result ≡ takes_packs self }
    {
        match self {
            Loss::Unsynced => true,
            _ => false,
        }
    }

    /// How many bytes of a tail stay, spoilt or not.
    pub fn kept(self, tail: usize) -> usize
        ensures kept { result ≡ kept self tail }
        ensures bound { result ≤ tail }
    {
        match self {
            Loss::Unsynced => 0,
            Loss::Half => tail / 2,
            Loss::AllButFirst => tail.min(1),
            Loss::Last => tail.saturating_sub(1),
            _ => tail,
        }
    }

    /// Spoils the bytes of a tail that stay.
    pub fn spoil(self, choice: u64, bytes: &mut [u8])
        ensures { bytes.new ≡ spoilt self choice bytes.old }
    {
        match self {
            Loss::Zeroed => bytes.fill(0),
            Loss::Garbled => garble(choice, bytes),
            Loss::Claimed => claim(bytes),
            _ => {}
        }
    }
}

// Puts other bytes.
fn garble(choice: u64, bytes: &mut [u8])
    ensures { bytes.new ≡ garbled choice (length bytes.old) }
{
    for i in 0..bytes.len() {
        bytes[i] = garbage(choice, i as u64);
    }
}

// The byte at a place, by the choice.
fn garbage(choice: u64, place: u64) -> u8
    ensures { result ≡ garbage choice place }
{
    let seed = choice / 8 % 65_536 + 1;
    let factor = place % 65_536 + 1;
    (seed * factor * 40_503 / 256 % 256) as u8
}

// Puts the header in front, or as much of it as there is room for.
fn claim(bytes: &mut [u8])
    ensures { bytes.new ≡ claimed bytes.old }
{
    let n = CLAIM.len().min(bytes.len());
    bytes[..n].copy_from_slice(&CLAIM[..n]);
}
