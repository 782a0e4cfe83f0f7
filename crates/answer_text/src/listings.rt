//! The texts of answers that list blobs with their sizes.
ghost use Rattle.std.specs.Prelude.{◌≡◌, ◌++◌, IfOk, OnOk, Some, option_copied};
ghost use Rattle.answer_text.specs.Listings.{stat_text, page_text, page_end, upload_text, upload_end};

use crate::entries::push_entries;
use crate::fields::push_ref;
use crate::refusal::Refusal;
use crate::refusals::push_fields;
use blobref::{Listing, NoMemory, Octets, Ref};
use std::alloc::Global;

/// The JSON text of the blobs that stand of those asked, in their order (`docs/formats/answers.md`).
pub fn stat_text(alloc: Global, found: &Listing) -> Result<Octets, NoMemory>
    ensures { IfOk result (λ octets. octets ≡ stat_text found.now) }
{
    let mut text = Vec::new(alloc);
    text.extend_from_slice(b"{\"stat\":[")?;
    push_entries(&mut text, found.as_slice())?;
    text.extend_from_slice(b"]}")?;
    Ok(Octets::from_vec(text))
}

/// The JSON text of a page of blobs, with the ref after which to go on where further ones follow
/// (`docs/formats/answers.md`).
pub fn page_text(alloc: Global, page: &Listing, more: Option<&Ref>) -> Result<Octets, NoMemory>
    ensures { IfOk result (λ octets. octets ≡ page_text page.now (option_copied more.entry)) }
{
    let mut text = Vec::new(alloc);
    text.extend_from_slice(b"{\"blobs\":[")?;
    push_entries(&mut text, page.as_slice())?;
    push_page_end(&mut text, more)?;
    Ok(Octets::from_vec(text))
}

fn push_page_end(text: &mut Vec<u8>, more: Option<&Ref>) -> Result<(), NoMemory>
    ensures { OnOk result (text.new.items ≡ text.old.items ++ page_end (option_copied more.entry)) }
{
    match more {
        Some(r) => push_more(text, r),
        None => {
            text.extend_from_slice(b"]}")?;
            Ok(())
        }
    }
}

fn push_more(text: &mut Vec<u8>, r: &Ref) -> Result<(), NoMemory>
    ensures { OnOk result (text.new.items ≡ text.old.items ++ page_end (Some r.now)) }
{
    text.extend_from_slice(b"]")?;
    push_ref(text, b"continueAfter", r)?;
    text.extend_from_slice(b"}")?;
    Ok(())
}

/// The JSON text of the blobs that an upload kept, in their order, and of why it was refused, where it was
/// (`docs/formats/answers.md`).
pub fn upload_text(
    alloc: Global,
    kept: &Listing,
    refusal: Option<&Refusal>,
) -> Result<Octets, NoMemory>
    ensures { IfOk result (λ octets. octets ≡ upload_text kept.now (option_copied refusal.entry)) }
{
    let mut text = Vec::new(alloc);
    text.extend_from_slice(b"{\"received\":[")?;
    push_entries(&mut text, kept.as_slice())?;
    push_upload_end(alloc, &mut text, refusal)?;
    Ok(Octets::from_vec(text))
}

fn push_upload_end(
    alloc: Global,
    text: &mut Vec<u8>,
    refusal: Option<&Refusal>,
) -> Result<(), NoMemory>
    ensures { OnOk result (text.new.items ≡ text.old.items ++ upload_end (option_copied refusal.entry)) }
{
    let Some(refusal) = refusal else {
        text.extend_from_slice(b"]}")?;
        return Ok(());
    };
    text.extend_from_slice(b"],")?;
    push_fields(alloc, text, refusal)?;
    text.extend_from_slice(b"}")?;
    Ok(())
}
