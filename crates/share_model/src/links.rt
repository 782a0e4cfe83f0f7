//! What blobs link to.
ghost use Rattle.std.specs.Prelude.{◌≡◌, ◌++◌, IfOk, OnOk};
ghost use Rattle.schema_fact.specs.Dependencies.{part_refs, origin_ref};
ghost use Rattle.share_model.specs.Links.{links_of};

use blobref::{NoMemory, RefList};
use schema_fact::{Kind, Origin, Part};
use std::alloc::Global;

/// The refs that a blob of this kind links to, in their order, each as often as it comes there: those of the parts of a
/// file or bytes blob, of the entries of a directory, of the members of a static set. The only error is want of memory.
pub fn links_of(alloc: Global, kind: &Kind) -> Result<RefList, NoMemory>
    ensures { IfOk result (λ refs. refs ≡ links_of kind.now) }
{
    match kind {
        Kind::File { parts, .. } | Kind::Bytes(parts) => part_refs(alloc, parts.as_slice()),
        Kind::Directory { entries, .. } => {
            let mut refs = RefList::empty(alloc);
            refs.push(*entries)?;
            Ok(refs)
        }
        Kind::StaticSet(members) => members.copy(alloc),
        _ => Ok(RefList::empty(alloc)),
    }
}

fn part_refs(alloc: Global, parts: &[Part]) -> Result<RefList, NoMemory>
    ensures { IfOk result (λ refs. refs ≡ part_refs parts.now) }
{
    let mut refs = RefList::empty(alloc);
    for part in parts {
        match part.origin {
            Origin::Zeros => {}
            Origin::Blob(r) | Origin::Tree(r) => refs.push(r)?,
        }
    }
    Ok(refs)
}
