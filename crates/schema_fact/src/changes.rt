//! The changes of attributes that claims say.
ghost use Rattle.std.specs.Prelude.{◌≡◌, ◌∷◌, [], ◌++◌, length, slice_get, option_map, IfOk, OnErr, OnOk};
ghost use Rattle.schema_fact.specs.Changes.{change_seen};

use blobref::{ListOf, NoMemory, Ref, Text};
use std::alloc::Global;

/// What a change does to the values of an attribute.
#[derive(Clone, Copy, Debug, PartialEq, Eq)]
pub enum Act {
    /// The attribute has this value alone.
    Set,
    /// The attribute has this value too.
    Add,
    /// The attribute has this value no more; with an empty value it has none.
    Del,
}

/// A change of an attribute of a permanode.
#[derive(Drop, PartialEq, Eq)]
pub struct Change {
    /// The permanode.
    pub on: Ref,
    pub act: Act,
    pub attr: Text,
    pub value: Text,
}

/// Changes, in the order in which they count.
pub type ChangeList = ListOf<Change>;

/// A change that a claim lends.
#[derive(Clone, Copy)]
pub struct ChangeView<'a> {
    /// The permanode.
    pub on: &'a Ref,
    pub act: Act,
    pub attr: &'a Text,
    pub value: &'a Text,
}

impl Change {
    // The change, lent.
    pub(crate) fn view(&self) -> ChangeView<'_>
        ensures { change_seen result ≡ self.now }
    {
        ChangeView {
            on: &self.on,
            act: self.act,
            attr: &self.attr,
            value: &self.value,
        }
    }

    // An equal change.
    fn copy(&self, alloc: Global) -> Result<Change, NoMemory>
        ensures { IfOk result (λ copy. copy ≡ self.now) }
    {
        Ok(Change {
            on: self.on,
            act: self.act,
            attr: Text::copy(alloc, self.attr.as_str())?,
            value: Text::copy(alloc, self.value.as_str())?,
        })
    }
}

// An only change, which stands at the place 0.
pub(crate) fn only<'a>(change: ChangeView<'a>, place: usize) -> Option<ChangeView<'a>>
    ensures { option_map change_seen result ≡ slice_get (change_seen change.entry ∷ []) place }
{
    if place == 0 { Some(change) } else { None }
}

// The change at a place of a list.
pub(crate) fn change_at(changes: &[Change], place: usize) -> Option<ChangeView<'_>>
    ensures { option_map change_seen result ≡ slice_get changes.now place }
{
    match changes.get(place) {
        Some(change) => Some(change.view()),
        None => None,
    }
}

// An equal list.
pub(crate) fn copied(alloc: Global, changes: &[Change]) -> Result<ChangeList, NoMemory>
    ensures { IfOk result (λ copies. copies ≡ changes.now) }
{
    let mut copies = ChangeList::empty(alloc);
    for change in changes {
        push_change(&mut copies, change.copy(alloc)?)?;
    }
    Ok(copies)
}

/// Puts a change behind the others. The list is unchanged after a refusal.
pub fn push_change(changes: &mut ChangeList, change: Change) -> Result<(), NoMemory>
    ensures ok { OnOk result (changes.new ≡ changes.old ++ change ∷ []) }
    ensures err { OnErr result (changes.new ≡ changes.old) }
{
    let Change {
        on,
        act,
        attr,
        value,
    } = change;
    changes.push(Change {
        on,
        act,
        attr,
        value,
    })
}
