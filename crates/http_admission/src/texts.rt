//! Texts of headers, compared in any case.
ghost use Rattle.std.specs.Prelude.{◌≡◌};
ghost use Rattle.std.specs.List.{list_all};
ghost use Rattle.std.specs.Char.{is_ascii_digit};
ghost use Rattle.http_admission.specs.Admissions.{is_host, is_port, begins, same_text};

pub(crate) fn same_text(a: &[u8], b: &[u8]) -> bool
    ensures { result ≡ same_text a.now b.now }
{
    a.eq_ignore_ascii_case(b)
}

/// Whether the text begins so.
pub(crate) fn begins(text: &[u8], front: &[u8]) -> bool
    ensures { result ≡ begins text.now front.now }
{
    if front.len() > text.len() {
        return false;
    }
    let (first, _) = text.split_at(front.len());
    same_text(first, front)
}

/// Whether the host has this name, with a port or without one.
pub(crate) fn is_host(name: &[u8], host: &[u8]) -> bool
    ensures { result ≡ is_host name.now host.now }
{
    if name.len() > host.len() {
        return false;
    }
    let (front, rest) = host.split_at(name.len());
    same_text(front, name) && is_port(rest)
}

fn is_port(text: &[u8]) -> bool
    ensures { result ≡ is_port text.now }
{
    if text.is_empty() {
        return true;
    }
    text[0] == 58 && are_digits(&text[1..])
}

fn are_digits(text: &[u8]) -> bool
    ensures { result ≡ list_all is_ascii_digit text.now }
{
    text.iter().all(|b| b.is_ascii_digit())
}
