//! Reading one search word character by character.
ghost use Rattle.std.specs.Prelude.{◌≡◌, false, ◌<◌, ◌≤◌, ◌∷◌, [], ◌++◌, length, drop, IfOk, option_map};
ghost use Rattle.blobref.specs.Blobref.{is_blobref};
ghost use Rattle.std.specs.Char.{encode_utf8};
ghost use Rattle.search_query.specs.View.{view};
ghost use Rattle.search_words.specs.Grammar.{is_bare, is_escaped};
ghost use Rattle.search_words.specs.Words.{may_end, is_ref_front, first_letter, after_t, reached, begins, in_t, spelling, text_begins, in_bare, in_quoted, in_escape, quoted_ends, in_ref, word_asks, asks};
ghost use Rattle.search_words.specs.Characters.{wide_step};
ghost use Rattle.search_words.specs.Onward.{Moves};

use crate::asking::{attributed, children, prefixed, titled};
use crate::buffer::Buffer;
use crate::place::{Aim, Letters, Place, Use};
use blobref::{NoMemory, Ref, RefText, Text};
use search_query::Constraint;
use std::alloc::Global;

/// The place after a character, or the place as it was where the character doesn't go on with the word.
#[derive(Drop)]
pub enum Onward {
    On(Place),
    Off(Place),
}

/// Whether a byte may be part of a bare text: it is no space, `(`, `)`, `"` or `:`.
pub fn is_bare(byte: u8) -> bool
    ensures { result ≡ is_bare byte }
{
    !(byte == b' ' || byte == b'(' || byte == b')' || byte == b'"' || byte == b':')
}

/// Whether a byte has a `\` before it in a quoted text: it is a `"` or a `\`.
pub fn is_escaped(byte: u8) -> bool
    ensures { result ≡ is_escaped byte }
{
    byte == b'"' || byte == b'\\'
}

fn spelling(next: u8, rest: &'static [u8], aim: Aim) -> Place
    ensures { result ≡ spelling next rest.now aim }
{
    Place::Spelling(next, Letters { rest }, aim)
}

fn first_letter(byte: u8) -> Option<Place>
    ensures { result ≡ first_letter byte }
{
    match byte {
        b't' => Some(Place::InT),
        b'a' => Some(spelling(b't', b"tr:", Aim::Text(Use::Name))),
        b'h' => Some(spelling(b'a', b"s:", Aim::Text(Use::Has))),
        b'r' => Some(spelling(b'e', b"f:", Aim::Text(Use::Ref))),
        b'c' => Some(spelling(b'h', b"ildrenof:", Aim::Ref)),
        _ => None,
    }
}

fn after_t(byte: u8) -> Option<Place>
    ensures { result ≡ after_t byte }
{
    match byte {
        b'a' => Some(spelling(b'g', b":", Aim::Text(Use::Tag))),
        b'i' => Some(spelling(b't', b"le:", Aim::Text(Use::Title))),
        _ => None,
    }
}

fn asks(alloc: Global, of: Use, text: Text) -> Result<Option<Constraint>, NoMemory>
    ensures { IfOk result (λ o. option_map view o ≡ asks of text) }
{
    Ok(match of {
        Use::Tag => Some(attributed(Text::copy(alloc, "tag")?, Some(text))),
        Use::Title => Some(titled(Text::copy(alloc, "title")?, text)),
        Use::Name => None,
        Use::Value(name) => Some(attributed(name.text(alloc)?, Some(text))),
        Use::Has => Some(attributed(text, None)),
        Use::Ref => Some(prefixed(text)),
    })
}

fn of_children(alloc: Global, text: Buffer) -> Result<Option<Constraint>, NoMemory>
    ensures { IfOk result (λ o. option_map view o ≡ word_asks (in_ref text)) }
{
    match Ref::read(text.bytes()) {
        None => Ok(None),
        Some(_) => Ok(Some(children(alloc, text.text(alloc)?)?)),
    }
}

/// What the word asks, where it is whole.
pub fn word_asks(alloc: Global, place: Place) -> Result<Option<Constraint>, NoMemory>
    ensures { IfOk result (λ o. option_map view o ≡ word_asks place) }
{
    match place {
        Place::InBare(of, text) => asks(alloc, of, text.text(alloc)?),
        Place::QuotedEnds(of, text) => asks(alloc, of, text.text(alloc)?),
        Place::InRef(text) => of_children(alloc, text),
        _ => Ok(None),
    }
}

fn of_letter(byte: u8) -> Onward
    ensures { Moves begins byte result }
{
    match first_letter(byte) {
        Some(place) => Onward::On(place),
        None => Onward::Off(Place::Begins),
    }
}

fn of_second(byte: u8) -> Onward
    ensures { Moves in_t byte result }
{
    match after_t(byte) {
        Some(place) => Onward::On(place),
        None => Onward::Off(Place::InT),
    }
}

fn reached(alloc: Global, rest: Letters, aim: Aim) -> Place
    ensures { result ≡ reached rest aim }
{
    let rest = rest.rest;
    if !rest.is_empty() {
        return Place::Spelling(rest[0], Letters { rest: &rest[1..] }, aim);
    }
    match aim {
        Aim::Text(of) => Place::TextBegins(of),
        Aim::Ref => Place::InRef(Buffer::new(alloc)),
    }
}

fn spelled(alloc: Global, next: u8, rest: Letters, aim: Aim, byte: u8) -> Onward
    ensures { Moves (spelling next rest aim) byte result }
{
    if byte != next {
        return Onward::Off(Place::Spelling(next, rest, aim));
    }
    Onward::On(reached(alloc, rest, aim))
}

fn begun(alloc: Global, of: Use, byte: u8) -> Result<Onward, NoMemory>
    requires { byte < 128 }
    ensures { IfOk result (Moves (text_begins of) byte) }
{
    if byte == b'"' {
        return Ok(Onward::On(Place::InQuoted(of, Buffer::new(alloc))));
    }
    if !is_bare(byte) {
        return Ok(Onward::Off(Place::TextBegins(of)));
    }
    let mut text = Buffer::new(alloc);
    text.push_ascii(byte)?;
    Ok(Onward::On(Place::InBare(of, text)))
}

fn bare_past(of: Use, text: Buffer, byte: u8) -> Onward
    requires { is_bare byte ≡ false }
    ensures { Moves (in_bare of text) byte result }
{
    match of {
        Use::Name if byte == b':' => Onward::On(Place::TextBegins(Use::Value(text))),
        of => Onward::Off(Place::InBare(of, text)),
    }
}

fn quoted_past(of: Use, text: Buffer, byte: u8) -> Onward
    ensures { Moves (quoted_ends of text) byte result }
{
    match of {
        Use::Name if byte == b':' => Onward::On(Place::TextBegins(Use::Value(text))),
        of => Onward::Off(Place::QuotedEnds(of, text)),
    }
}

fn bare(of: Use, text: Buffer, byte: u8) -> Result<Onward, NoMemory>
    requires { byte < 128 }
    ensures { IfOk result (Moves (in_bare of text) byte) }
{
    if !is_bare(byte) {
        return Ok(bare_past(of, text, byte));
    }
    let mut text = text;
    text.push_ascii(byte)?;
    Ok(Onward::On(Place::InBare(of, text)))
}

fn may_end(of: &Use, text: &[u8]) -> bool
    ensures { result ≡ may_end of.now text.now }
{
    match of {
        Use::Name | Use::Has => !text.is_empty(),
        _ => true,
    }
}

fn quote(of: Use, text: Buffer) -> Onward
    ensures { Moves (in_quoted of text) 34 result }
{
    if may_end(&of, text.bytes()) {
        return Onward::On(Place::QuotedEnds(of, text));
    }
    Onward::Off(Place::InQuoted(of, text))
}

fn quoted(of: Use, text: Buffer, byte: u8) -> Result<Onward, NoMemory>
    requires { byte < 128 }
    ensures { IfOk result (Moves (in_quoted of text) byte) }
{
    if byte == b'"' {
        return Ok(quote(of, text));
    }
    if byte == b'\\' {
        return Ok(Onward::On(Place::InEscape(of, text)));
    }
    let mut text = text;
    text.push_ascii(byte)?;
    Ok(Onward::On(Place::InQuoted(of, text)))
}

fn escape(of: Use, text: Buffer, byte: u8) -> Result<Onward, NoMemory>
    requires { byte < 128 }
    ensures { IfOk result (Moves (in_escape of text) byte) }
{
    if !is_escaped(byte) {
        return Ok(Onward::Off(Place::InEscape(of, text)));
    }
    let mut text = text;
    text.push_ascii(byte)?;
    Ok(Onward::On(Place::InQuoted(of, text)))
}

// A blobref of each name, to make one of a front of one.
const SOME_SHA224: &[u8] = b"sha224-00000000000000000000000000000000000000000000000000000000";

const SOME_SHA1: &[u8] = b"sha1-0000000000000000000000000000000000000000";

// Whether a text, with what of the whole one lies past its length, is a blobref.
fn is_completed(text: &[u8], whole: &[u8]) -> bool
    requires { length whole.now ≤ 63 }
    ensures { result ≡ is_blobref (text.now ++ drop (length text.now) whole.now) }
{
    if text.len() > whole.len() {
        return Ref::read(text).is_some();
    }
    let mut longer = RefText::of(text);
    longer.extend(&whole[text.len()..]);
    Ref::read(longer.as_slice()).is_some()
}

fn is_ref_front(text: &[u8]) -> bool
    ensures { result ≡ is_ref_front text.now }
{
    is_completed(text, SOME_SHA224) || is_completed(text, SOME_SHA1)
}

fn digit(alloc: Global, text: Buffer, byte: u8) -> Result<Onward, NoMemory>
    requires { byte < 128 }
    ensures { IfOk result (Moves (in_ref text) byte) }
{
    let mut longer = text.copy(alloc)?;
    longer.push_ascii(byte)?;
    if !is_ref_front(longer.bytes()) {
        return Ok(Onward::Off(Place::InRef(text)));
    }
    Ok(Onward::On(Place::InRef(longer)))
}

/// The place after one more ASCII character. It takes time in the length of a blobref at most.
pub fn word_step(alloc: Global, place: Place, byte: u8) -> Result<Onward, NoMemory>
    requires { byte < 128 }
    ensures { IfOk result (Moves place byte) }
{
    match place {
        Place::Begins => Ok(of_letter(byte)),
        Place::InT => Ok(of_second(byte)),
        Place::Spelling(next, rest, aim) => Ok(spelled(alloc, next, rest, aim, byte)),
        Place::TextBegins(of) => begun(alloc, of, byte),
        Place::InBare(of, text) => bare(of, text, byte),
        Place::InQuoted(of, text) => quoted(of, text, byte),
        Place::InEscape(of, text) => escape(of, text, byte),
        Place::QuotedEnds(of, text) => Ok(quoted_past(of, text, byte)),
        Place::InRef(text) => digit(alloc, text, byte),
    }
}

/// The place after a character beyond ASCII, or None where it doesn't go on with the word.
pub fn wide_step(alloc: Global, place: Place, c: char) -> Result<Option<Place>, NoMemory>
    ensures { IfOk result (λ o. o ≡ wide_step place (encode_utf8 c)) }
{
    match place {
        Place::TextBegins(of) => {
            let mut text = Buffer::new(alloc);
            text.push(c)?;
            Ok(Some(Place::InBare(of, text)))
        }
        Place::InBare(of, text) => {
            let mut text = text;
            text.push(c)?;
            Ok(Some(Place::InBare(of, text)))
        }
        Place::InQuoted(of, text) => {
            let mut text = text;
            text.push(c)?;
            Ok(Some(Place::InQuoted(of, text)))
        }
        Place::Begins
        | Place::InT
        | Place::Spelling(..)
        | Place::InEscape(..)
        | Place::QuotedEnds(..)
        | Place::InRef(_) => Ok(None),
    }
}
