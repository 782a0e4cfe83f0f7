//! Boundaries that stand in bytes.
ghost use Rattle.std.specs.Prelude.{◌≡◌, ◌<◌, ◌≤◌, ◌++◌, true, [], length, Some, IfOk, IfSome, OnOk};
ghost use Rattle.std.specs.List.{list_all};
ghost use Rattle.std.specs.Char.{is_ascii_digit};
ghost use Rattle.std.specs.Str.Parse.{digits_value};
ghost use Rattle.peer_requests.specs.Boundaries.{number_of, number_in, number_behind, numbers_in, numbers_from, listed};

use blobref::NoMemory;
use memchr::memchr;
use std::alloc::Global;

/// The numbers of the boundaries that stand in a blob behind a line's end and two hyphens, or at its front behind two
/// hyphens, in their order. It takes memory only where there are some, and the time of one walk over the blob.
pub(crate) fn numbers_in(alloc: Global, blob: &[u8]) -> Result<Vec<u32>, NoMemory>
    ensures { IfOk result (λ numbers. numbers.items ≡ listed (number_in blob.now) (numbers_in blob.now)) }
{
    let mut numbers = Vec::new(alloc);
    push_number(&mut numbers, number_in(blob))?;
    let mut rest = blob;
    'lines: loop {
        let Some(end) = behind_return(rest) else {
            return Ok(numbers);
        };
        let (_, behind) = rest.split_at(end);
        push_number(&mut numbers, number_behind(behind))?;
        rest = behind;
    }
}

// How many bytes end with the first carriage return.
fn behind_return(text: &[u8]) -> Option<usize>
    ensures within { IfSome result (λ n. (0 < n) × (n ≤ length text.now)) }
    ensures numbers { numbers_in text.now ≡ numbers_from text.now result }
{
    match memchr(b'\r', text) {
        Some(at) => Some(at + 1),
        None => None,
    }
}

fn push_number(numbers: &mut Vec<u32>, number: Option<u32>) -> Result<(), NoMemory>
    ensures { OnOk result (numbers.new.items ≡ numbers.old.items ++ listed number []) }
{
    if let Some(number) = number {
        numbers.push(number)?;
    }
    Ok(())
}

// The number of the boundary that stands in front, behind a line feed and two hyphens.
fn number_behind(text: &[u8]) -> Option<u32>
    ensures { result ≡ number_behind text.now }
{
    if text.is_empty() || text[0] != b'\n' {
        return None;
    }
    number_in(&text[1..])
}

// The number of the boundary that stands in front, behind two hyphens.
fn number_in(text: &[u8]) -> Option<u32>
    ensures { result ≡ number_in text.now }
{
    if !text.starts_with(b"--pk") || text.len() < 12 {
        return None;
    }
    number_of(&text[4..12])
}

// The number that eight digits are.
fn number_of(digits: &[u8]) -> Option<u32>
    requires { length digits.now ≡ 8 }
    ensures { result ≡ number_of digits.now }
{
    if !are_digits(digits) {
        return None;
    }
    match str::from_utf8(digits) {
        Ok(text) => parsed(text),
        Err(_) => unreachable!(),
    }
}

fn are_digits(text: &[u8]) -> bool
    ensures { result ≡ list_all is_ascii_digit text.now }
{
    text.iter().all(|byte| byte.is_ascii_digit())
}

fn parsed(digits: &str) -> Option<u32>
    requires digits { list_all is_ascii_digit digits.now ≡ true }
    requires eight { length digits.now ≡ 8 }
    ensures { result ≡ Some (digits_value 10 digits.now) }
{
    digits.parse().ok()
}
