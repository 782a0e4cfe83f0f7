//! Tests of numbers and of texts.
ghost use Rattle.std.specs.Prelude.{◌≡◌, ◌==◌, length, nat_eq, nat_le};
ghost use Rattle.std.specs.List.{ends_with, starts_with};
ghost use Rattle.std.specs.Str.{bytes_eq};
ghost use Rattle.search_meets.specs.Tests.{emptiness_is, if_asked, int_holds, int_meets, stands_in};
ghost use Rattle.search_meets.specs.Tests.{ends_hold, length_holds, text_holds, text_meets, words_hold};

use blobref::Text;
use search_query::{IntTest, TextTest};

fn is_at_least(low: Option<u64>, n: u64) -> bool
    ensures { result ≡ if_asked (λ l. nat_le l n) low }
{
    match low {
        None => true,
        Some(low) => low <= n,
    }
}

fn is_at_most(high: Option<u64>, n: u64) -> bool
    ensures { result ≡ if_asked (λ h. nat_le n h) high }
{
    match high {
        None => true,
        Some(high) => n <= high,
    }
}

// Whether a number is between both ends.
pub(crate) fn int_holds(test: &IntTest, n: u64) -> bool
    ensures { result ≡ int_holds test.now n }
{
    is_at_least(test.min, n) && is_at_most(test.max, n)
}

pub(crate) fn int_meets(test: &Option<IntTest>, n: u64) -> bool
    ensures { result ≡ int_meets test.now n }
{
    match test {
        None => true,
        Some(test) => int_holds(test, n),
    }
}

// Whether a text is the one asked.
pub(crate) fn equals(asked: &Option<Text>, text: &str) -> bool
    ensures { result ≡ if_asked (λ t. bytes_eq t text.now) asked.now }
{
    match asked {
        None => true,
        Some(whole) => whole.as_str() == text,
    }
}

fn contains(asked: &Option<Text>, text: &str) -> bool
    ensures { result ≡ if_asked (λ t. stands_in t text.now) asked.now }
{
    match asked {
        None => true,
        Some(part) => stands_in(part.as_str(), text),
    }
}

fn stands_in(part: &str, text: &str) -> bool
    ensures { result ≡ stands_in part.now text.now }
{
    text.contains(part)
}

pub(crate) fn has_prefix(asked: &Option<Text>, text: &[u8]) -> bool
    ensures { result ≡ if_asked (λ t. starts_with nat_eq text.now t) asked.now }
{
    match asked {
        None => true,
        Some(prefix) => text.starts_with(prefix.as_str().as_bytes()),
    }
}

fn has_suffix(asked: &Option<Text>, text: &[u8]) -> bool
    ensures { result ≡ if_asked (λ t. ends_with nat_eq text.now t) asked.now }
{
    match asked {
        None => true,
        Some(suffix) => text.ends_with(suffix.as_str().as_bytes()),
    }
}

fn emptiness_is(asked: Option<bool>, text: &str) -> bool
    ensures { result ≡ if_asked (λ empty. emptiness_is empty text.now) asked }
{
    match asked {
        None => true,
        Some(true) => text.len() == 0,
        Some(false) => text.len() != 0,
    }
}

fn words_hold(test: &TextTest, text: &str) -> bool
    ensures { result ≡ words_hold test.now text.now }
{
    equals(&test.equals, text) && contains(&test.contains, text)
}

fn ends_hold(test: &TextTest, text: &str) -> bool
    ensures { result ≡ ends_hold test.now text.now }
{
    has_prefix(&test.has_prefix, text.as_bytes()) && has_suffix(&test.has_suffix, text.as_bytes())
}

fn length_holds(test: &TextTest, text: &str) -> bool
    ensures { result ≡ length_holds test.now text.now }
{
    emptiness_is(test.empty, text) && int_meets(&test.byte_length, text.len() as u64)
}

fn text_holds(test: &TextTest, text: &str) -> bool
    ensures { result ≡ text_holds test.now text.now }
{
    words_hold(test, text) && ends_hold(test, text) && length_holds(test, text)
}

// Whether a text meets the test, byte by byte.
pub(crate) fn text_meets(test: &Option<TextTest>, text: &str) -> bool
    ensures { result ≡ text_meets test.now text.now }
{
    match test {
        None => true,
        Some(test) => text_holds(test, text),
    }
}
