//! Why a server couldn't be used.
use crate::misfits::MAX_PORT;
use crate::options::is_number;
use blobref::Text;
use perkeep_words::places;
use std::alloc::Global;
use top_frame::ReplyFault;

/// Why the way to the server at an address failed.
pub(crate) fn way_text(alloc: Global, address: &str) -> Option<String> {
    if is_address(address) {
        format!(in alloc;
            "no server answers at {address}, or the connection broke: is perkeep serve running there?"
        ).ok()
    } else {
        format!(in alloc; "{address:?} isn't HOST:PORT, as 127.0.0.1:3179 is").ok()
    }
}

/// Why a reply of the server at an address can't be used.
pub(crate) fn reply_text(alloc: Global, address: &str, fault: &ReplyFault) -> Option<String> {
    match fault {
        ReplyFault::Grammar => {
            format!(in alloc;
                "{address} gave no whole reply of perkeep serve: it was stopped, or another program listens there"
            ).ok()
        }
        ReplyFault::Refused { status: 503 } => {
            format!(in alloc;
                "the server at {address} answers 503: its disk is full or failed, or it has no memory left"
            ).ok()
        }
        ReplyFault::Refused { status: 500 } => {
            format!(in alloc;
                "the server at {address} answers 500: a blob of its store is damaged; see perkeep salvage there"
            ).ok()
        }
        ReplyFault::Refused { status: 507 } => {
            format!(in alloc; "the server at {address} answers 507: its store is full").ok()
        }
        ReplyFault::Refused { status } => {
            format!(in alloc;
                "{address} answers {status}, which perkeep serve doesn't: perhaps another program listens there"
            ).ok()
        }
        ReplyFault::Gone { .. } => {
            format!(in alloc; "the server at {address} lists a blob that it doesn't have").ok()
        }
    }
}

/// The address in words that name a single one.
pub(crate) fn address_in(words: &[Text]) -> Option<&str> {
    if words.first()?.as_str() == "mirror" {
        return None;
    }
    let place = places(words).addr?;
    Some(words.get(place)?.as_str())
}

/// Whether a text is an address as `push` takes one, HOST:PORT.
pub fn is_address(text: &str) -> bool {
    match text.rsplit_once(':') {
        Some((host, port)) => is_host(host) && is_number(port, MAX_PORT),
        None => false,
    }
}

// Whether a text may name a host: the beginning of a URL doesn't.
fn is_host(text: &str) -> bool {
    !text.is_empty() && text.bytes().all(|b| b != b'/')
}
