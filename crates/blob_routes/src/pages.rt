//! Which page of the refs is asked.
ghost use Rattle.std.specs.Prelude.{◌≡◌, IfOk, IfErr, Ok, codes, option_map};
ghost use Rattle.std.specs.Cow.{cow_str_bytes};
ghost use Rattle.form_urlencoded.specs.Form.{raw_pairs};
ghost use Rattle.blob_routes.specs.Faults.{Refuses};
ghost use Rattle.http_exchange.specs.Parameters.{first_value};
ghost use Rattle.blob_routes.specs.Pages.{after_of, limit_of, page_of};

use crate::faults::AskFault;
use crate::numbers::number_in;
use answer_text::Refusal;
use blobref::Ref;
use http_exchange::first_value;
use std::alloc::Global;
use std::borrow::CowStr;

/// The most refs of a page.
pub const MAX_PAGE: usize = 1000;

/// A page of the refs: the first `limit` of those after a ref, or of all.
#[derive(Clone, Copy)]
pub struct Page {
    pub after: Option<Ref>,
    pub limit: usize,
}

fn after_of(found: Option<CowStr<'_>>) -> Result<Option<Ref>, Refusal>
    ensures ok { IfOk result (λ after. after_of (option_map cow_str_bytes found.entry) ≡ Ok after) }
    ensures err { IfErr result (λ refusal. after_of (option_map cow_str_bytes found.entry) ≡ Err refusal) }
{
    let Some(text) = found else {
        return Ok(None);
    };
    if text.as_bytes().is_empty() {
        return Ok(None);
    }
    match Ref::read(text.as_bytes()) {
        Some(r) => Ok(Some(r)),
        None => Err(Refusal::BadRef),
    }
}

fn limit_of(found: Option<CowStr<'_>>) -> Result<usize, Refusal>
    ensures ok { IfOk result (λ limit. limit_of (option_map cow_str_bytes found.entry) ≡ Ok limit) }
    ensures err { IfErr result (λ refusal. limit_of (option_map cow_str_bytes found.entry) ≡ Err refusal) }
{
    let Some(text) = found else {
        return Ok(MAX_PAGE);
    };
    match number_in(text.as_str()) {
        None | Some(0) => Err(Refusal::BadNumber),
        Some(n) => Ok(MAX_PAGE.min(n as usize)),
    }
}

/// The page that a query asks (`docs/http.md`, "Routes"). The error is `NoMemory`, or the refusal.
#[tactic(auto, unfolding(crate::specs::Pages::page_of))]
pub fn page_asked(alloc: Global, query: &[u8]) -> Result<Page, AskFault>
    ensures ok { IfOk result (λ page. page_of query.now ≡ Ok page) }
    ensures err { IfErr result (Refuses (page_of query.now)) }
{
    let after = after_of(first_value(alloc, query, b"after")?)?;
    let limit = limit_of(first_value(alloc, query, b"limit")?)?;
    Ok(Page { after, limit })
}
