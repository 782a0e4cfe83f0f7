//! Texts of search words.
ghost use Rattle.std.specs.Prelude.{◌≡◌, ◌++◌, OnOk};
ghost use Rattle.std.specs.List.{list_all};
ghost use Rattle.search_words.specs.Grammar.{is_bare};
ghost use Rattle.words_write.specs.Writing.{escaped_text, quoted_text, is_bare_text, text_of};
ghost use Rattle.words_write.specs.Pushing.{escaped_char};

use blobref::NoMemory;
use search_words::{Buffer, is_bare};

/// Writes a text: bare where it can be, and else between quotes.
pub(crate) fn push_text(out: &mut Buffer, text: &str) -> Result<(), NoMemory>
    ensures { OnOk result (out.new ≡ out.old ++ text_of text.now) }
{
    if is_bare_text(text) {
        return out.append(text);
    }
    push_quoted(out, text)
}

fn is_bare_text(text: &str) -> bool
    ensures { result ≡ is_bare_text text.now }
{
    !text.is_empty() && are_bare(text.as_bytes())
}

fn are_bare(bytes: &[u8]) -> bool
    ensures { result ≡ list_all is_bare bytes.now }
{
    bytes.iter().all(|byte| is_bare(*byte))
}

fn push_quoted(out: &mut Buffer, text: &str) -> Result<(), NoMemory>
    ensures { OnOk result (out.new ≡ out.old ++ quoted_text text.now) }
{
    out.push_ascii(b'"')?;
    push_all_escaped(out, text)?;
    out.push_ascii(b'"')
}

fn push_all_escaped(out: &mut Buffer, text: &str) -> Result<(), NoMemory>
    ensures { OnOk result (out.new ≡ out.old ++ escaped_text text.now) }
{
    for c in text.chars() {
        push_escaped(out, c)?;
    }
    Ok(())
}

fn push_escaped(out: &mut Buffer, c: char) -> Result<(), NoMemory>
    ensures { OnOk result (out.new ≡ out.old ++ escaped_char c) }
{
    if c == '"' || c == '\\' {
        out.push_ascii(b'\\')?;
    }
    out.push(c)
}
