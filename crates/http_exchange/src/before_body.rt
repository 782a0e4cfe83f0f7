//! What is known of a request before its body is read.
ghost use Rattle.std.specs.Prelude.{◌≡◌, ◌||◌, not, option_map, option_copied};
ghost use Rattle.http_exchange.specs.Before.{announced, within, is_read};
ghost use Rattle.http_exchange.specs.HeadPlaces.{HasPieces, piece};

use answer_text::Refusal;
use http_wire::{Framing, Head, Wire};

/// The most bytes of a body that is read as a whole.
pub const MAX_BODY: u64 = 1_048_576;

// How many bytes a head says that the body has. One in chunks says nothing.
fn announced(framing: &Framing) -> u64
    ensures { result ≡ announced framing.now }
{
    match framing {
        Framing::Length(n) => *n,
        Framing::Empty | Framing::Chunked | Framing::ToEnd => 0,
    }
}

/// Refuses a body that is said to have more bytes than this. How long one in chunks is, is known only as it is read. No
/// memory is taken.
pub fn check_length(most: u64, framing: &Framing) -> Result<(), Refusal>
    ensures { result ≡ within most framing.now }
{
    if announced(framing) > most {
        return Err(Refusal::TooLong { limit: most });
    }
    Ok(())
}

/// The value of the first content type.
pub fn content_type<'a>(wire: &'a Wire, head: &Head) -> Option<&'a [u8]>
    requires { HasPieces wire.now.head head.now }
    ensures { option_copied result ≡ option_map (piece wire.now.head) head.now.content_type }
{
    match head.content_type {
        Some(place) => Some(wire.piece(&place)),
        None => None,
    }
}

// Whether a body of this framing is read at once.
fn is_read(framing: Framing) -> bool
    ensures { result ≡ is_read framing }
{
    match framing {
        Framing::Empty => true,
        Framing::Length(n) => n == 0,
        Framing::Chunked | Framing::ToEnd => false,
    }
}

/// Whether the connection closes behind a refusal that comes before the body is read.
pub fn closes_early(head: &Head) -> bool
    ensures { result ≡ (head.now.closes || not (is_read head.now.framing)) }
{
    head.closes || !is_read(head.framing)
}
