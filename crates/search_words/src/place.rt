//! How far the reading of search words is.
use crate::buffer::Buffer;
use std::marker::Model;

/// What a text is for.
#[derive(Drop)]
pub enum Use {
    Tag,
    Title,
    /// The name after `attr:`.
    Name,
    /// The value after `attr:`, this name and a colon.
    Value(Buffer),
    Has,
    Ref,
}

/// What follows the colon of a word's first part.
#[derive(Drop)]
pub enum Aim {
    Text(Use),
    Ref,
}

/// Letters that are still to come. A contract sees them as a list.
#[derive(Drop)]
pub struct Letters {
    pub rest: &'static [u8],
}

impl Model for Letters {
    ghost use Rattle.std.specs.Prelude.{ℕ, List};

    ghost Value = { List ℕ };

    ghost view = { λ l. l.rest.now };
}

/// How far the reading of one word is.
#[derive(Drop)]
pub enum Place {
    /// At its beginning.
    Begins,
    /// After a `t`.
    InT,
    /// Within its first part, of which these are still to come.
    Spelling(u8, Letters, Aim),
    TextBegins(Use),
    InBare(Use, Buffer),
    InQuoted(Use, Buffer),
    InEscape(Use, Buffer),
    QuotedEnds(Use, Buffer),
    InRef(Buffer),
}

/// How far the reading of a line is, in the form that is open.
#[derive(Drop)]
pub enum Spot {
    /// A unit may begin.
    Between,
    /// After a `-`.
    AtMinus,
    InWord(Place),
    /// After the `o` of `or`.
    InO,
    /// After `or`.
    InOr,
    /// After a `)`.
    Closed,
}
