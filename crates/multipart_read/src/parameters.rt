//! Parameters of a header's value, as `; name=value` (`docs/formats/multipart.md`).
ghost use Rattle.std.specs.Prelude.{◌≡◌, ◌≤◌, ◌+◌, length, None, option_map, option_copied};
ghost use Rattle.std.specs.List.{prefix_len, list_all};
ghost use Rattle.httparse.specs.Grammar.{is_token_byte, skip_ows};
ghost use Rattle.multipart_read.specs.Parameters.{is_like, is_quoted_byte, begins_with, token_at, quoted_at, value_at};
ghost use Rattle.multipart_read.specs.Parameters.{parameter_at, is_blank, first_of, value_in, value_of};
ghost use Rattle.multipart_read.specs.Parameters.{is_boundary, is_boundary_byte, boundary_of};

use httparse::{is_header_name_token, is_header_value_token, is_space_or_tab};

/// Whether two texts are the same but for the case of ASCII letters.
pub fn is_like(a: &[u8], b: &[u8]) -> bool
    ensures { result ≡ is_like a.now b.now }
{
    a.eq_ignore_ascii_case(b)
}

fn is_quoted_byte(byte: u8) -> bool
    ensures { result ≡ is_quoted_byte byte }
{
    is_header_value_token(byte) && byte != b'"' && byte != b'\\'
}

// Whether a token may have the byte. A dash is asked for first, since boundaries have many of them.
#[tactic(auto, unfolding(httparse::specs::Grammar::is_token_byte))]
fn is_token_byte(byte: u8) -> bool
    ensures { result ≡ is_token_byte byte }
{
    byte == b'-' || is_header_name_token(byte)
}

fn token_len(text: &[u8]) -> usize
    ensures value { result ≡ prefix_len is_token_byte text.now }
    ensures within { result ≤ length text.now }
{
    for i in 0..text.len() {
        if !is_token_byte(text[i]) {
            return i;
        }
    }
    text.len()
}

fn quoted_len(text: &[u8]) -> usize
    ensures value { result ≡ prefix_len is_quoted_byte text.now }
    ensures within { result ≤ length text.now }
{
    for i in 0..text.len() {
        if !is_quoted_byte(text[i]) {
            return i;
        }
    }
    text.len()
}

/// The text from its first byte on that is no white space.
fn skip_ows(text: &[u8]) -> &[u8]
    ensures { result.now ≡ skip_ows text.now }
{
    for i in 0..text.len() {
        if !is_space_or_tab(text[i]) {
            return &text[i..];
        }
    }
    &text[text.len()..]
}

fn begins_with(byte: u8, text: &[u8]) -> bool
    ensures { result ≡ begins_with byte text.now }
{
    text.len() > 0 && text[0] == byte
}

fn token_at(text: &[u8]) -> Option<(&[u8], &[u8])>
    ensures { option_map (λ p. (p.0.now, p.1.now)) result ≡ token_at text.now }
{
    let len = token_len(text);
    if len == 0 {
        return None;
    }
    Some((&text[..len], &text[len..]))
}

fn quoted_at(text: &[u8]) -> Option<(&[u8], &[u8])>
    ensures { option_map (λ p. (p.0.now, p.1.now)) result ≡ quoted_at text.now }
{
    let len = quoted_len(text);
    if !begins_with(b'"', &text[len..]) {
        return None;
    }
    Some((&text[..len], &text[len + 1..]))
}

#[tactic(auto, unfolding(crate::specs::Parameters::value_at))]
fn value_at(text: &[u8]) -> Option<(&[u8], &[u8])>
    ensures { option_map (λ p. (p.0.now, p.1.now)) result ≡ value_at text.now }
{
    if begins_with(b'"', text) {
        return quoted_at(&text[1..]);
    }
    token_at(text)
}

#[tactic(auto, unfolding(crate::specs::Parameters::parameter_at))]
fn parameter_at(text: &[u8]) -> Option<(&[u8], &[u8], &[u8])>
    ensures { option_map (λ p. (p.0.now, p.1.now, p.2.now)) result ≡ parameter_at text.now }
{
    let text = skip_ows(text);
    if !begins_with(b';', text) {
        return None;
    }
    let (name, rest) = token_at(skip_ows(&text[1..]))?;
    if !begins_with(b'=', rest) {
        return None;
    }
    let (value, rest) = value_at(&rest[1..])?;
    Some((name, value, rest))
}

fn is_blank(text: &[u8]) -> bool
    ensures { result ≡ is_blank text.now }
{
    skip_ows(text).len() == 0
}

/// The value that counts: what was found, or else the next one where its name fits.
fn first_of<'a>(found: Option<&'a [u8]>, fits: bool, next: &'a [u8]) -> Option<&'a [u8]>
    ensures { option_copied result ≡ first_of (option_copied found.entry) fits next.now }
{
    match found {
        Some(value) => Some(value),
        None => { if fits { Some(next) } else { None } }
    }
}

/// The first value of a name, in parameters up to the text's end.
fn value_in<'a>(wanted: &[u8], text: &'a [u8]) -> Option<&'a [u8]>
    ensures { option_copied result ≡ value_in (length text.now + 1) wanted.now None text.now }
{
    let mut found: Option<&'a [u8]> = None;
    let mut rest = text;
    'parameters: for _ in 0..text.len() + 1 {
        match parameter_at(rest) {
            None => {
                if is_blank(rest) {
                    return found;
                }
                return None;
            }
            Some((name, value, behind)) => {
                found = first_of(found, is_like(name, wanted), value);
                rest = behind;
            }
        }
    }
    None
}

/// The value of a name in the parameters behind a word.
#[tactic(auto, unfolding(crate::specs::Parameters::value_of))]
pub fn value_of<'a>(word: &[u8], wanted: &[u8], text: &'a [u8]) -> Option<&'a [u8]>
    ensures { option_copied result ≡ value_of word.now wanted.now text.now }
{
    if text.len() < word.len() {
        return None;
    }
    if !is_like(&text[..word.len()], word) {
        return None;
    }
    value_in(wanted, &text[word.len()..])
}

fn is_boundary_byte(byte: u8) -> bool
    ensures { result ≡ is_boundary_byte byte }
{
    byte.is_ascii_alphanumeric()
        || matches!(byte, b' ' | b'\''..=b')' | b'+'..=b'/' | b':' | b'=' | b'?' | b'_')
}

fn are_boundary_bytes(text: &[u8]) -> bool
    ensures { result ≡ list_all is_boundary_byte text.now }
{
    text.iter().all(|byte| is_boundary_byte(*byte))
}

/// Whether the text is a boundary.
pub fn is_boundary(text: &[u8]) -> bool
    ensures { result ≡ is_boundary text.now }
{
    if text.len() == 0 {
        return false;
    }
    if text.len() > 70 {
        return false;
    }
    if !are_boundary_bytes(text) {
        return false;
    }
    text[text.len() - 1] != b' '
}

/// The boundary that a content type of `multipart/form-data` gives (`docs/formats/multipart.md`), and `None` exactly
/// where it gives none.
pub fn boundary_of(content_type: &[u8]) -> Option<&[u8]>
    ensures { option_copied result ≡ boundary_of content_type.now }
{
    let boundary = value_of(b"multipart/form-data", b"boundary", content_type)?;
    if !is_boundary(boundary) {
        return None;
    }
    Some(boundary)
}
