//! How a run ends.
ghost use Rattle.std.specs.Prelude.{◌≡◌};
ghost use Rattle.top_frame.specs.Status.{code, word};

use blobref::{NoMemory, Ref};
use edge_base::{GetFault, PutFault};
use file_cut::{CutFault, MAX_FILE};
use file_tree::FileFault;
use pack_store::OpenFault;
use query_read::QueryFault;
use schema_write::DraftFault;
use search_words::WordsFault;

/// What was wrong with what the words or the input say (`docs/commands.md`).
#[derive(Drop)]
pub enum InputFault {
    /// A text that should be a blobref is none.
    BadRef,
    /// A text that should be a date is none.
    BadDate,
    /// A text that should be a number is none, or the number is out of its range.
    BadNumber,
    /// An attribute's name is empty.
    BadName,
    /// The input is longer than it may be. It was read up to this number of bytes, and no further.
    TooBig { size: u64 },
    /// The blob of this ref should be a file, or within one a file or bytes blob, and is something else.
    NotAFile { r: Ref },
    /// A part of a file wants the blob or tree of this ref to have at least `wants` bytes, and it has fewer.
    Short { r: Ref, has: u64, wants: u64 },
    /// The tree of this ref stands within 64 others.
    Deep { r: Ref },
    /// The keyring doesn't hold the key.
    NoKey,
    /// A text is too long for its blob, which would have this number of bytes; or a file, its name, a query or a list
    /// of changes is longer than it may be, the name with this number of bytes, the others with this number or more.
    TooLong { len: u64 },
    /// The input is no query: its first fault.
    BadQuery(QueryFault),
    /// The input is no JSON list of 1 to 1,000 changes.
    BadChanges,
    /// A text that should be a line of search words isn't read as one: why.
    Words(WordsFault),
}

/// Why a peer's reply can't be used (`docs/commands.md`).
#[derive(Clone, Copy, PartialEq, Eq)]
pub enum ReplyFault {
    /// It can't be read, or isn't one to what was asked.
    Grammar,
    /// The peer replied with this status.
    Refused { status: u16 },
    /// A ref that was listed isn't there any more.
    Gone { r: Ref },
}

/// How a run ended (`docs/commands.md`).
#[derive(Drop)]
pub enum Status {
    /// All was done and written.
    Done,
    /// No memory was left.
    NoMemory,
    /// The words are no line of a command.
    BadWords,
    /// The store has no blob of that ref.
    Absent { r: Ref },
    /// A text or the input can't be used.
    BadInput(InputFault),
    /// A read of the input failed.
    ReadFault,
    /// A write of the output failed.
    WriteFault,
    /// The disk failed.
    Disk,
    /// The way to the peer failed.
    Peer,
    /// A reply of the peer can't be used.
    BadReply(ReplyFault),
    /// The clock or the source of random bytes failed.
    HandFault,
    /// The store, or the peer that is pushed to, is full: it has so many blobs, and its last pack has this number, 0
    /// where it has none.
    Full { blobs: u64, pack: u32 },
    /// The bytes stored under a ref have another one.
    Damaged { want: Ref, is: Ref },
    /// The port is taken, or no connection could be accepted. It is a server's, and no command ends so.
    ListenerFault,
}

impl Status {
    /// The exit status of the process.
    pub fn code(&self) -> u8
        ensures { result ≡ code self.now }
    {
        match self {
            Status::Done => 0,
            Status::NoMemory => 1,
            Status::BadWords => 2,
            Status::Absent { .. } => 3,
            Status::BadInput(_) => 4,
            Status::ReadFault => 5,
            Status::WriteFault => 6,
            Status::Disk => 7,
            Status::Peer => 8,
            Status::Full { .. } => 9,
            Status::Damaged { .. } => 10,
            Status::BadReply(_) => 11,
            Status::HandFault => 12,
            Status::ListenerFault => 14,
        }
    }

    /// The word for it on standard error.
    pub fn word(&self) -> &'static str
        ensures { result.now ≡ word self.now }
    {
        match self {
            Status::Done => "done",
            Status::NoMemory => "memory",
            Status::BadWords => "words",
            Status::Absent { .. } => "absent",
            Status::BadInput(_) => "input",
            Status::ReadFault => "read",
            Status::WriteFault => "write",
            Status::Disk => "disk",
            Status::Peer => "peer",
            Status::Full { .. } => "full",
            Status::Damaged { .. } => "damaged",
            Status::BadReply(_) => "reply",
            Status::HandFault => "hand",
            Status::ListenerFault => "listener",
        }
    }
}

impl From<NoMemory> for Status {
    ghost use Rattle.top_frame.specs.declared.status.Status.TheVariants.{NoMemory as OutOfMemory};

    ghost from_gives = { λ _ status. status ≡ OutOfMemory };

    fn from(_error: NoMemory) -> Status {
        Status::NoMemory
    }
}

impl From<OpenFault> for Status {
    ghost use Rattle.top_frame.specs.Faults.{open_status};

    ghost from_gives = { λ fault status. status ≡ open_status fault };

    fn from(fault: OpenFault) -> Status {
        match fault {
            OpenFault::Disk => Status::Disk,
            OpenFault::NoMemory => Status::NoMemory,
        }
    }
}

impl From<GetFault> for Status {
    ghost use Rattle.top_frame.specs.Faults.{get_status};

    ghost from_gives = { λ fault status. status ≡ get_status fault };

    fn from(fault: GetFault) -> Status {
        match fault {
            GetFault::Disk => Status::Disk,
            GetFault::Damaged { want, is } => Status::Damaged { want, is },
            GetFault::NoMemory => Status::NoMemory,
        }
    }
}

impl From<PutFault> for Status {
    ghost use Rattle.top_frame.specs.Faults.{put_status};

    ghost from_gives = { λ fault status. status ≡ put_status fault };

    fn from(fault: PutFault) -> Status {
        match fault {
            PutFault::TooBig { size } => Status::BadInput(InputFault::TooBig { size }),
            PutFault::BadDigest { said, is } => Status::Damaged { want: said, is },
            PutFault::Full { blobs, pack } => Status::Full { blobs, pack },
            PutFault::Disk => Status::Disk,
            PutFault::NoMemory => Status::NoMemory,
        }
    }
}

impl From<FileFault> for Status {
    ghost use Rattle.top_frame.specs.Faults.{file_status};

    ghost from_gives = { λ fault status. status ≡ file_status fault };

    fn from(fault: FileFault) -> Status {
        match fault {
            FileFault::Absent { r } => Status::Absent { r },
            FileFault::NotAFile { r } => Status::BadInput(InputFault::NotAFile { r }),
            FileFault::Short { r, has, wants } => {
                Status::BadInput(InputFault::Short { r, has, wants })
            }
            FileFault::Deep { r } => Status::BadInput(InputFault::Deep { r }),
            FileFault::WriteFault => Status::WriteFault,
            FileFault::Get(fault) => Status::from(fault),
            FileFault::NoMemory => Status::NoMemory,
        }
    }
}

impl From<CutFault> for Status {
    ghost use Rattle.top_frame.specs.Faults.{cut_status};

    ghost from_gives = { λ fault status. status ≡ cut_status fault };

    fn from(fault: CutFault) -> Status {
        match fault {
            CutFault::TooLong => Status::BadInput(InputFault::TooLong { len: MAX_FILE + 1 }),
            CutFault::NameTooLong { len } => Status::BadInput(InputFault::TooLong { len }),
            CutFault::ReadFault => Status::ReadFault,
            CutFault::Put(fault) => Status::from(fault),
            CutFault::NoMemory => Status::NoMemory,
        }
    }
}

impl From<DraftFault> for Status {
    ghost use Rattle.top_frame.specs.Faults.{draft_status};

    ghost from_gives = { λ fault status. status ≡ draft_status fault };

    fn from(fault: DraftFault) -> Status {
        match fault {
            DraftFault::TooLong { len } => Status::BadInput(InputFault::TooLong { len }),
            DraftFault::NoMemory => Status::NoMemory,
        }
    }
}

impl From<QueryFault> for Status {
    ghost use Rattle.top_frame.specs.Faults.{query_status};

    ghost from_gives = { λ fault status. status ≡ query_status fault };

    fn from(fault: QueryFault) -> Status {
        match fault {
            QueryFault::NoMemory => Status::NoMemory,
            fault => Status::BadInput(InputFault::BadQuery(fault)),
        }
    }
}

impl From<WordsFault> for Status {
    ghost use Rattle.top_frame.specs.Faults.{words_status};

    ghost from_gives = { λ fault status. status ≡ words_status fault };

    fn from(fault: WordsFault) -> Status {
        match fault {
            WordsFault::NoMemory => Status::NoMemory,
            fault => Status::BadInput(InputFault::Words(fault)),
        }
    }
}
