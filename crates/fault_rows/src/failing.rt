//! Which call fails.

use blobref::NoMemory;
use edge_base::CallList;
use std::alloc::Global;

/// What a command, a connection or a server calls.
#[derive(Clone, Copy, PartialEq, Eq)]
pub(crate) enum Object {
    Disk,
    Peer,
    SecondPeer,
    Source,
    Sink,
    Clock,
    Dice,
    Listener,
}

impl Object {
    /// The object that a word names.
    pub(crate) fn named(word: &str) -> Option<Object> {
        match word {
            "disk" => Some(Object::Disk),
            "peer" => Some(Object::Peer),
            "second" => Some(Object::SecondPeer),
            "source" => Some(Object::Source),
            "sink" => Some(Object::Sink),
            "clock" => Some(Object::Clock),
            "dice" => Some(Object::Dice),
            "listener" => Some(Object::Listener),
            _ => None,
        }
    }
}

/// The call of an object that fails, if one does.
#[derive(Clone, Copy)]
pub(crate) struct Failing {
    pub(crate) object: Object,
    pub(crate) call: Option<u64>,
}

/// No call fails.
pub(crate) const NONE: Failing = Failing {
    object: Object::Disk,
    call: None,
};

impl Failing {
    /// The number of the call of an object that fails, if one does, where so many were made before they are counted.
    pub(crate) fn calls(
        self,
        alloc: Global,
        object: Object,
        before: u64,
    ) -> Result<CallList, NoMemory> {
        let mut calls = CallList::empty(alloc);
        if self.object == object {
            if let Some(call) = self.call {
                calls.push(call.saturating_add(before))?;
            }
        }
        Ok(calls)
    }
}
