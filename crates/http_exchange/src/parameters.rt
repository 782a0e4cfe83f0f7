//! Parameters: the names and values of a text, as forms write them.
ghost use Rattle.std.specs.Prelude.{◌≡◌, IfOk, OnOk, option_map, bytes_eq};
ghost use Rattle.std.specs.Cow.{cow_str_bytes};
ghost use Rattle.form_urlencoded.specs.Form.{raw_pairs};
ghost use Rattle.http_exchange.specs.Parameters.{decoded_text, first_value};

use blobref::NoMemory;
use form_urlencoded::{decode, raw_pairs};
use std::alloc::Global;
use std::borrow::CowStr;

/// What some bytes of a text mean.
pub fn decoded_text<'a>(alloc: Global, bytes: &'a [u8]) -> Result<CowStr<'a>, NoMemory>
    ensures { IfOk result (λ text. cow_str_bytes text ≡ decoded_text bytes.now) }
{
    Ok(decode(alloc, bytes)?)
}

// Whether they mean this name.
fn means(alloc: Global, bytes: &[u8], name: &[u8]) -> Result<bool, NoMemory>
    ensures { IfOk result (λ same. same ≡ bytes_eq (decoded_text bytes.now) name.now) }
{
    let text = decoded_text(alloc, bytes)?;
    Ok(text.as_bytes() == name)
}

/// The first value of a name.
pub fn first_value<'a>(
    alloc: Global,
    text: &'a [u8],
    name: &[u8],
) -> Result<Option<CowStr<'a>>, NoMemory>
    ensures { IfOk result (λ found. option_map cow_str_bytes found ≡ first_value name.now (raw_pairs text.now)) }
{
    for pair in raw_pairs(text) {
        let (key, value) = pair;
        if means(alloc, key, name)? {
            return Ok(Some(decoded_text(alloc, value)?));
        }
    }
    Ok(None)
}
