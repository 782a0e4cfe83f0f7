//! The text of a denial.
ghost use Rattle.std.specs.Prelude.{◌≡◌, ◌++◌, IfOk, OnOk};
ghost use Rattle.share_http.specs.Denials.{rule_name, rule_place, denied_text};

use blobref::{NoMemory, Octets};
use itoa::Buffer;
use share_gate::Rule;
use std::alloc::Global;

// The name of the rule in the text of a denial.
fn rule_name(rule: &Rule) -> &'static str
    ensures { result.now ≡ rule_name rule.now }
{
    match rule {
        Rule::NoShare => "no share",
        Rule::NotGenuine => "not genuine",
        Rule::Deleted => "deleted",
        Rule::WrongTarget => "wrong target",
        Rule::NotTransitive => "not transitive",
        Rule::NoLink { .. } => "no link",
    }
}

/// The text of a denial: the rule, and the place of the link that is missing. It fails only if no memory is left.
pub(crate) fn denied_text(alloc: Global, rule: &Rule) -> Result<Octets, NoMemory>
    ensures { IfOk result (λ text. text ≡ denied_text rule.now) }
{
    let mut text = Vec::new(alloc);
    text.extend_from_slice(b"{\"error\":\"share\",\"rule\":\"")?;
    text.extend_from_slice(rule_name(rule).as_bytes())?;
    text.extend_from_slice(b"\"")?;
    push_place(&mut text, rule)?;
    text.extend_from_slice(b"}")?;
    Ok(Octets::from_vec(text))
}

fn push_place(text: &mut Vec<u8>, rule: &Rule) -> Result<(), NoMemory>
    ensures { OnOk result (text.new.items ≡ text.old.items ++ rule_place rule.now) }
{
    match rule {
        Rule::NoLink { at } => {
            text.extend_from_slice(b",\"at\":")?;
            text.extend_from_slice(Buffer::new().format(*at).as_bytes())?;
            Ok(())
        }
        _ => Ok(()),
    }
}
