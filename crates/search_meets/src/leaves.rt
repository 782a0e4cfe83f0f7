//! What a constraint asks of a blob by itself.
ghost use Rattle.std.specs.Prelude.{◌≡◌, IfOk, option_copied, option_and_then};
ghost use Rattle.std.specs.Str.{bytes_eq};
ghost use Rattle.claim_model.specs.Facts.{camli_type, passes};
ghost use Rattle.claim_model.specs.Ready.{ready_fact};
ghost use Rattle.index_look.specs.Known.{IsSo};
ghost use Rattle.search_query.specs.View.{leaves_of};
ghost use Rattle.search_query.specs.declared.query.Constraint.TheViews.{out-Constraint};
ghost use Rattle.search_meets.specs.Meaning.{file_holds, file_name, leaves_meet, size_holds, type_holds};
ghost use Rattle.search_meets.specs.Tests.{if_asked, int_holds, text_meets};

use crate::testing::{has_prefix, int_holds, int_meets, text_meets};
use blobref::{NoMemory, Ref, Text};
use edge_base::Steps;
use index_look::{Known, Look};
use schema_fact::Kind;
use search_query::{Constraint, FileTest, IntTest, TextTest};
use std::sync::ledger::Ledger;

fn camli_type(kind: &Kind) -> Option<&str>
    ensures { option_copied result ≡ camli_type kind.now }
{
    match kind {
        Kind::Plain | Kind::Key(_) => None,
        Kind::File { .. } => Some("file"),
        Kind::Bytes(_) => Some("bytes"),
        Kind::Directory { .. } => Some("directory"),
        Kind::StaticSet(_) => Some("static-set"),
        Kind::Permanode(_) => Some("permanode"),
        Kind::Claim { .. } => Some("claim"),
        Kind::Unread(name) => Some(name.as_str()),
    }
}

fn file_name(kind: &Kind) -> Option<&str>
    ensures { option_copied result ≡ file_name kind.now }
{
    match kind {
        Kind::File { name, .. } => Some(name.as_str()),
        _ => None,
    }
}

fn is_type(asked: &str, kind: &Kind) -> bool
    ensures { result ≡ passes (bytes_eq asked.now) (camli_type kind.now) }
{
    match camli_type(kind) {
        None => false,
        Some(name) => asked == name,
    }
}

fn type_meets<K: Look, L: Ledger>(
    look: &K,
    known: &mut Known,
    asked: &Option<Text>,
    r: &Ref,
    steps: &mut Steps<L>,
) -> Result<bool, NoMemory>
    requires so { IsSo (K.facts look.now) known.old }
    ensures value { IfOk result (λ met. met ≡ if_asked (λ t. type_holds (K.facts look.now) t r.now) asked.now) }
    ensures so { IsSo (K.facts look.now) known.new }
{
    match asked {
        None => Ok(true),
        Some(asked) => match look.fact_known(known, r, steps)? {
            None => Ok(false),
            Some(fact) => Ok(is_type(asked.as_str(), &fact.kind)),
        },
    }
}

fn size_meets<K: Look, L: Ledger>(
    look: &K,
    known: &mut Known,
    test: &Option<IntTest>,
    r: &Ref,
    steps: &mut Steps<L>,
) -> Result<bool, NoMemory>
    requires so { IsSo (K.facts look.now) known.old }
    ensures value { IfOk result (λ met. met ≡ size_holds (K.facts look.now) test.now r.now) }
    ensures so { IsSo (K.facts look.now) known.new }
{
    match test {
        None => Ok(true),
        Some(test) => match look.fact_known(known, r, steps)? {
            None => Ok(false),
            Some(fact) => Ok(int_holds(test, fact.size)),
        },
    }
}

fn is_named(test: &Option<TextTest>, kind: &Kind) -> bool
    ensures { result ≡ passes (text_meets test.now) (file_name kind.now) }
{
    match file_name(kind) {
        None => false,
        Some(name) => text_meets(test, name),
    }
}

fn name_holds<K: Look, L: Ledger>(
    look: &K,
    known: &mut Known,
    test: &Option<TextTest>,
    r: &Ref,
    steps: &mut Steps<L>,
) -> Result<bool, NoMemory>
    requires so { IsSo (K.facts look.now) known.old }
    ensures value { IfOk result (λ met. met ≡ passes (text_meets test.now)
        (option_and_then (λ fact. file_name fact.kind) (ready_fact (K.facts look.now) r.now))) }
    ensures so { IsSo (K.facts look.now) known.new }
{
    match look.fact_known(known, r, steps)? {
        None => Ok(false),
        Some(fact) => Ok(is_named(test, &fact.kind)),
    }
}

fn file_holds<K: Look, L: Ledger>(
    look: &K,
    known: &mut Known,
    test: &FileTest,
    r: &Ref,
    steps: &mut Steps<L>,
) -> Result<bool, NoMemory>
    requires so { IsSo (K.facts look.now) known.old }
    ensures value { IfOk result (λ met. met ≡ file_holds (K.facts look.now) test.now r.now) }
    ensures so { IsSo (K.facts look.now) known.new }
{
    match look.size_known(known, r, steps)? {
        None => Ok(false),
        Some(size) => Ok(
            int_meets(&test.file_size, size) && name_holds(look, known, &test.file_name, r, steps)?,
        ),
    }
}

fn file_meets<K: Look, L: Ledger>(
    look: &K,
    known: &mut Known,
    test: &Option<FileTest>,
    r: &Ref,
    steps: &mut Steps<L>,
) -> Result<bool, NoMemory>
    requires so { IsSo (K.facts look.now) known.old }
    ensures value { IfOk result (λ met. met ≡ if_asked (λ t. file_holds (K.facts look.now) t r.now) test.now) }
    ensures so { IsSo (K.facts look.now) known.new }
{
    match test {
        None => Ok(true),
        Some(test) => file_holds(look, known, test, r, steps),
    }
}

// Whether a blob meets what the constraint asks beside `logical` and `permanode`.
pub(crate) fn leaves_meet<K: Look, L: Ledger>(
    look: &K,
    known: &mut Known,
    constraint: &Constraint,
    r: &Ref,
    steps: &mut Steps<L>,
) -> Result<bool, NoMemory>
    requires so { IsSo (K.facts look.now) known.old }
    ensures value { IfOk result (λ met. met
        ≡ leaves_meet (K.facts look.now) (leaves_of (out-Constraint constraint.now)) r.now) }
    ensures so { IsSo (K.facts look.now) known.new }
{
    Ok(
        type_meets(look, known, &constraint.camli_type, r, steps)?
            && has_prefix(&constraint.blob_ref_prefix, r.spell().as_slice())
            && size_meets(look, known, &constraint.blob_size, r, steps)?
            && file_meets(look, known, &constraint.file, r, steps)?,
    )
}
