//! Heads that another origin's page sent, or that are for another name than this machine's.
ghost use Rattle.std.specs.Prelude.{◌≡◌, ◌&&◌, not, length, drop, map, All, codes};
ghost use Rattle.std.specs.List.{list_any};
ghost use Rattle.httparse.specs.Spans.{IsHeaderWithin, header_bytes};
ghost use Rattle.http_admission.specs.Admissions.{is_foreign, says_foreign, says_page, is_own, is_own_site, gives_origin, gives_address, begins, is_http_of, is_address_of, is_path};

use crate::texts::{begins, is_host, same_text};
use httparse::spans::HeaderSpan;

/// Whether some header says that the head is of another origin, or for another name.
pub(crate) fn is_foreign(text: &[u8], headers: &[HeaderSpan]) -> bool
    requires { All (IsHeaderWithin (length text.now)) headers.now }
    ensures { result ≡ is_foreign (map (header_bytes text.now) headers.now) }
{
    let mut is = false;
    for header in headers {
        is |= says_foreign(text, headers, *header);
    }
    is
}

fn says_foreign(text: &[u8], headers: &[HeaderSpan], header: HeaderSpan) -> bool
    requires all { All (IsHeaderWithin (length text.now)) headers.now }
    requires one { IsHeaderWithin (length text.now) header }
    ensures { result ≡ says_foreign (map (header_bytes text.now) headers.now) (header_bytes text.now header) }
{
    let name = header.name.of(text);
    let value = header.value.of(text);
    if same_text(name, b"host") {
        !is_own(value)
    } else if same_text(name, b"sec-fetch-site") {
        !is_own_site(value)
    } else if same_text(name, b"origin") {
        !has_origin(text, headers, value)
    } else if same_text(name, b"referer") {
        is_foreign_address(text, headers, value)
    } else {
        false
    }
}

fn is_own(host: &[u8]) -> bool
    ensures { result ≡ is_own host.now }
{
    is_host(b"localhost", host) || (is_host(b"127.0.0.1", host) || is_host(b"[::1]", host))
}

fn is_own_site(value: &[u8]) -> bool
    ensures { result ≡ is_own_site value.now }
{
    same_text(value, b"none") || same_text(value, b"same-origin")
}

// Whether an origin is that of some host.
fn has_origin(text: &[u8], headers: &[HeaderSpan], origin: &[u8]) -> bool
    requires { All (IsHeaderWithin (length text.now)) headers.now }
    ensures { result ≡ list_any (gives_origin origin.now) (map (header_bytes text.now) headers.now) }
{
    let mut is = false;
    for header in headers {
        is |= gives_origin(text, *header, origin);
    }
    is
}

fn gives_origin(text: &[u8], header: HeaderSpan, origin: &[u8]) -> bool
    requires { IsHeaderWithin (length text.now) header }
    ensures { result ≡ gives_origin origin.now (header_bytes text.now header) }
{
    same_text(header.name.of(text), b"host") && is_http_of(origin, header.value.of(text))
}

fn is_http_of(origin: &[u8], host: &[u8]) -> bool
    ensures { result ≡ is_http_of origin.now host.now }
{
    if origin.len() < 7 {
        return false;
    }
    let (scheme, rest) = origin.split_at(7);
    same_text(scheme, b"http://") && same_text(rest, host)
}

// Whether the address of the page that it comes from is no host's, where nothing else says which page that is.
fn is_foreign_address(text: &[u8], headers: &[HeaderSpan], address: &[u8]) -> bool
    requires { All (IsHeaderWithin (length text.now)) headers.now }
    ensures { let all = map (header_bytes text.now) headers.now in
        result ≡ (not (list_any says_page all) && not (list_any (gives_address address.now) all)) }
{
    !names_page(text, headers) && !has_address(text, headers, address)
}

// Whether some header says by itself which page the head comes from.
fn names_page(text: &[u8], headers: &[HeaderSpan]) -> bool
    requires { All (IsHeaderWithin (length text.now)) headers.now }
    ensures { result ≡ list_any says_page (map (header_bytes text.now) headers.now) }
{
    let mut is = false;
    for header in headers {
        is |= says_page(text, *header);
    }
    is
}

fn says_page(text: &[u8], header: HeaderSpan) -> bool
    requires { IsHeaderWithin (length text.now) header }
    ensures { result ≡ says_page (header_bytes text.now header) }
{
    let name = header.name.of(text);
    same_text(name, b"sec-fetch-site") || same_text(name, b"origin")
}

// Whether an address is one of some host's.
fn has_address(text: &[u8], headers: &[HeaderSpan], address: &[u8]) -> bool
    requires { All (IsHeaderWithin (length text.now)) headers.now }
    ensures { result ≡ list_any (gives_address address.now) (map (header_bytes text.now) headers.now) }
{
    let mut is = false;
    for header in headers {
        is |= gives_address(text, *header, address);
    }
    is
}

fn gives_address(text: &[u8], header: HeaderSpan, address: &[u8]) -> bool
    requires { IsHeaderWithin (length text.now) header }
    ensures { result ≡ gives_address address.now (header_bytes text.now header) }
{
    same_text(header.name.of(text), b"host") && is_address_of(address, header.value.of(text))
}

fn is_address_of(address: &[u8], host: &[u8]) -> bool
    ensures { result ≡ is_address_of address.now host.now }
{
    if address.len() < 7 {
        return false;
    }
    let (scheme, rest) = address.split_at(7);
    same_text(scheme, b"http://") && is_below(rest, host)
}

// Whether the text is the host, with nothing or a path behind it.
fn is_below(text: &[u8], host: &[u8]) -> bool
    ensures { result ≡ (begins text.now host.now && is_path (drop (length host.now) text.now)) }
{
    begins(text, host) && is_path(text.get(host.len()..).unwrap_or(b""))
}

fn is_path(text: &[u8]) -> bool
    ensures { result ≡ is_path text.now }
{
    text.is_empty() || text[0] == 47
}
