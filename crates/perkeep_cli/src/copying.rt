//! How far copying is, for a person at a terminal.
use blobref::Ref;
use edge_os::{Pace, Screen};

// How many seconds blobs are copied before anything is shown of it.
const SOON: u64 = 1;

/// How many blobs were copied so far, and how far through the refs the copying is. While it goes on that is shown once
/// a second on the passing line of the screen.
#[derive(Drop)]
pub(crate) struct Copying<'a> {
    screen: &'a Screen<'a>,
    pace: Pace<'a>,
    blobs: u64,
}

impl<'a> Copying<'a> {
    /// Nothing was copied so far.
    pub(crate) fn new(screen: &'a Screen<'a>) -> Copying<'a> {
        Copying {
            screen,
            pace: Pace::new(screen, SOON),
            blobs: 0,
        }
    }

    /// A blob was copied, or not, and the copying has come to its ref. Refs are copied in their order.
    pub(crate) fn passes(&mut self, r: &Ref, is_copied: bool) {
        self.blobs = self.blobs.saturating_add(u64::from(is_copied));
        self.comes_to(r);
    }

    /// The copying goes on behind a ref, or begins where there is none.
    pub(crate) fn goes_on_behind(&mut self, after: Option<&Ref>) {
        if let Some(r) = after {
            self.comes_to(r);
        }
    }

    fn comes_to(&mut self, r: &Ref) {
        if self.pace.is_due() {
            let name = if r.is_sha1() { "sha1" } else { "sha224" };
            let percent = percent_before(r.spell().as_slice(), name.len());
            self.screen.pass(format_args!(
                "perkeep: copied {} so far, {percent} % through the {name} refs",
                self.blobs
            ));
        }
    }
}

// How many hundredths of the digests of its kind come before that of a ref, by its first byte. Its text is a name of so
// many bytes, a hyphen and the digits.
fn percent_before(text: &[u8], name: usize) -> u32 {
    let high = digit(text.get(name.saturating_add(1)));
    let low = digit(text.get(name.saturating_add(2)));
    (u32::from(high) * 16 + u32::from(low)) * 100 / 256
}

// The number of a hexadecimal digit.
fn digit(byte: Option<&u8>) -> u8 {
    match byte {
        Some(byte) if byte.is_ascii_digit() => byte.saturating_sub(b'0'),
        Some(byte) => byte.saturating_sub(b'a').saturating_add(10),
        None => 0,
    }
}
