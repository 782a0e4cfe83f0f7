//! What a text of a line has to be.
ghost use Rattle.std.specs.Prelude.{◌≡◌, ◌<◌, ◌^◌, true, length, SomeIff};
ghost use Rattle.schema_date.specs.Dates.{are_digits, number};
ghost use Rattle.perkeep_words.specs.Kinds.{within, number_within, is_right, is_of_line, wrong, fits_kind, fault_of};

use crate::change::Change;
use blobref::Ref;
use claim_verify::KeyName;
use schema_date::Date;

/// What a text of a line has to be.
#[derive(Clone, Copy, PartialEq, Eq)]
pub enum TextKind {
    /// The folder of the store: any text, also the empty one.
    Dir,
    /// The address of a peer, `HOST:PORT`: any text, also the empty one. To one that isn't of this form no connection
    /// can be made.
    Addr,
    /// Any text, also the empty one.
    Any,
    /// A blobref.
    Blobref,
    /// A date.
    Date,
    /// A text that isn't empty.
    Name,
    /// The name of a key.
    Key,
    /// The word for a change. Words with another one are no line.
    Change,
    /// A number from the first to the second one.
    Number(u64, u64),
}

/// What is wrong with a text of a line.
#[derive(Clone, Copy, Debug, PartialEq, Eq)]
pub enum TextFault {
    /// It should be a blobref.
    BadRef,
    /// It should be a date.
    BadDate,
    /// It should be a number, of those that may stand there.
    BadNumber,
    /// It should be a name, and is empty; or the name of a key, and can't be one.
    BadName,
}

impl TextKind {
    fn is_right(self, text: &str) -> bool
        ensures { result ≡ is_right self text.now }
    {
        match self {
            TextKind::Dir | TextKind::Addr | TextKind::Any => true,
            TextKind::Blobref => Ref::read(text.as_bytes()).is_some(),
            TextKind::Date => Date::read(text.as_bytes()).is_some(),
            TextKind::Name => !text.is_empty(),
            TextKind::Key => KeyName::read(text.as_bytes()).is_some(),
            TextKind::Change => Change::read(text).is_some(),
            TextKind::Number(least, most) => number_within(least, most, text).is_some(),
        }
    }

    // Whether words with another text are no line at all.
    fn is_of_line(self) -> bool
        ensures { result ≡ is_of_line self }
    {
        match self {
            TextKind::Dir
            | TextKind::Addr
            | TextKind::Any
            | TextKind::Blobref
            | TextKind::Date
            | TextKind::Name
            | TextKind::Key
            | TextKind::Number(..) => false,
            TextKind::Change => true,
        }
    }

    fn wrong(self) -> TextFault
        ensures { result ≡ wrong self }
    {
        match self {
            TextKind::Blobref => TextFault::BadRef,
            TextKind::Date => TextFault::BadDate,
            TextKind::Name | TextKind::Key => TextFault::BadName,
            _ => TextFault::BadNumber,
        }
    }
}

/// Whether words with a text of the kind may be a line: not where there is no such part, nor where a text that is
/// judged with the line isn't right.
pub fn fits_kind(kind: Option<TextKind>, text: &str) -> bool
    ensures { result ≡ fits_kind kind text.now }
{
    match kind {
        None => false,
        Some(kind) => !kind.is_of_line() || kind.is_right(text),
    }
}

/// What is wrong with a text.
pub fn fault_of(kind: Option<TextKind>, text: &str) -> Option<TextFault>
    ensures { result ≡ fault_of kind text.now }
{
    let kind = kind?;
    if kind.is_right(text) {
        None
    } else {
        Some(kind.wrong())
    }
}

/// The number of a text: decimal digits, however many, from the least number to the most.
pub fn number_within(least: u64, most: u64, text: &str) -> Option<u64>
    ensures { result ≡ number_within least most text.now }
{
    if text.is_empty() || !are_digits(text) {
        return None;
    }
    within(least, most, number_in(text)?)
}

fn within(least: u64, most: u64, n: u64) -> Option<u64>
    ensures { result ≡ within least most n }
{
    if least <= n && n <= most {
        Some(n)
    } else {
        None
    }
}

// The number that digits are. None where it doesn't fit.
fn number_in(digits: &str) -> Option<u64>
    requires digits { are_digits digits.now ≡ true }
    requires some { 0 < length digits.now }
    ensures { SomeIff result (number digits.now < 2 ^ 64) (number digits.now) }
{
    digits.parse().ok()
}

fn are_digits(text: &str) -> bool
    ensures { result ≡ are_digits text.now }
{
    text.as_bytes().iter().all(|c| matches!(c, b'0'..=b'9'))
}
