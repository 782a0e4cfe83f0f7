//! How long the other end of a connection is waited for. What counts is the time for which calls wait for it, and no
//! other.
use http_admission::Door;
use std::sync::atomic::{AtomicU64, Ordering};
use std::time::Duration;

// How many seconds are waited for the first head in all, at a server's own door and at one for anyone.
const MAX_FOR_HEAD: u64 = 10;

const MAX_FOR_HEAD_OF_ANYONE: u64 = 2;

// How many seconds anyone is waited for in all, where others wait until the connection has ended.
const MAX_FOR_ANYONE: u64 = 300;

// How many seconds a reply may take to begin: by a server that may be reading its store, or that a long request may
// still be on its way to; and over another connection, by a server whose workers may all be with clients that say
// nothing.
const MAX_FOR_SLOW_REPLY: u64 = 600;

const MAX_FOR_REPLY: u64 = 150;

// How many seconds are waited for the next request; and, within a request or a reply, for so many bytes.
const MAX: u64 = 60;

const ENOUGH: u64 = 1_024;

/// What is waited for in reads, and for how long it was.
#[derive(Clone, Copy)]
pub(crate) enum Patience {
    /// Something of which nothing has come: for so many seconds at most.
    Idle { waited: Duration, most: u64 },
    /// The first head, whole: for so many seconds at most.
    FirstHead { waited: Duration, most: u64 },
    /// More of a request, or of a reply.
    Message(Progress),
}

impl Patience {
    /// With a client of which nothing has come so far.
    pub(crate) fn at_first(door: Door) -> Patience {
        Patience::FirstHead {
            waited: Duration::from_secs(0),
            most: match door {
                Door::Own => MAX_FOR_HEAD,
                Door::Anyone => MAX_FOR_HEAD_OF_ANYONE,
            },
        }
    }

    /// Behind a reply.
    pub(crate) fn behind_a_reply() -> Patience {
        Patience::idle(MAX)
    }

    /// Before the first reply of all, and before one to a long request.
    pub(crate) fn before_a_slow_reply() -> Patience {
        Patience::idle(MAX_FOR_SLOW_REPLY)
    }

    /// Before the first reply over another connection, of a server that has replied before.
    pub(crate) fn before_another_reply() -> Patience {
        Patience::idle(MAX_FOR_REPLY)
    }

    fn idle(most: u64) -> Patience {
        Patience::Idle {
            waited: Duration::from_secs(0),
            most,
        }
    }

    /// With a message, whether or not something of it has come.
    pub(crate) fn within_a_message() -> Patience {
        Patience::Message(Progress::new())
    }

    /// For how long it was waited so far.
    pub(crate) fn waited(&self) -> Duration {
        match self {
            Patience::FirstHead { waited, .. } | Patience::Idle { waited, .. } => *waited,
            Patience::Message(progress) => progress.waited,
        }
    }

    /// Whether the next call is to be timed by a clock. Where nothing was waited for so far it counts as a whole pause,
    /// or as no wait, so that a client that is never waited for costs no look at the clock.
    pub(crate) fn needs_clock(&self) -> bool {
        match self {
            Patience::FirstHead { .. } => true,
            Patience::Idle { waited, .. } => !waited.is_zero(),
            Patience::Message(progress) => progress.needs_clock(),
        }
    }

    /// After a call that waited so long and in which so many bytes came; None where it is over.
    pub(crate) fn after(self, took: Duration, came: usize) -> Option<Patience> {
        match self {
            Patience::FirstHead { waited, most } => {
                let waited = within(waited, took, most)?;
                Some(Patience::FirstHead { waited, most })
            }
            Patience::Idle { .. } if came > 0 => Some(Patience::within_a_message()),
            Patience::Idle { waited, most } => {
                let waited = within(waited, took, most)?;
                Some(Patience::Idle { waited, most })
            }
            Patience::Message(progress) => Some(Patience::Message(progress.after(took, came)?)),
        }
    }
}

/// For how long more of a request or of a reply was waited for, and how many of its bytes went by meanwhile.
#[derive(Clone, Copy)]
pub(crate) struct Progress {
    waited: Duration,
    bytes: u64,
}

impl Progress {
    /// Before anything was waited for.
    pub(crate) fn new() -> Progress {
        Progress {
            waited: Duration::from_secs(0),
            bytes: 0,
        }
    }

    /// Whether the next call is to be timed by a clock: all but the first since it began anew.
    pub(crate) fn needs_clock(&self) -> bool {
        self.bytes > 0 || !self.waited.is_zero()
    }

    /// After a call that waited so long and in which so many bytes went by; None where it is over. It begins anew with
    /// every 1,024 bytes.
    pub(crate) fn after(self, took: Duration, went: usize) -> Option<Progress> {
        let bytes = self.bytes.saturating_add(went as u64);
        if bytes >= ENOUGH {
            return Some(Progress::new());
        }
        let waited = within(self.waited, took, MAX)?;
        Some(Progress { waited, bytes })
    }
}

/// For how long a client is waited for in all, over both ends of its connection.
#[derive(Drop)]
pub(crate) struct Allowance {
    // How many nanoseconds there are, where there is a limit, and how many were waited for so far.
    most: Option<u64>,
    waited: AtomicU64,
}

impl Allowance {
    /// At a server's own door there is no limit, since others are served beside it.
    pub(crate) fn at(door: Door) -> Allowance {
        Allowance {
            most: match door {
                Door::Own => None,
                Door::Anyone => Some(nanoseconds(Duration::from_secs(MAX_FOR_ANYONE))),
            },
            waited: AtomicU64::new(0),
        }
    }

    /// No limit.
    pub(crate) fn endless() -> Allowance {
        Allowance {
            most: None,
            waited: AtomicU64::new(0),
        }
    }

    /// Whether each call is to be timed by a clock.
    pub(crate) fn needs_clock(&self) -> bool {
        self.most.is_some()
    }

    /// After a call that waited so long; whether something of it is left.
    pub(crate) fn after(&self, took: Duration) -> bool {
        let Some(most) = self.most else {
            return true;
        };
        let took = nanoseconds(took);
        let before = self.waited.fetch_add(took, Ordering::Relaxed);
        before.saturating_add(took) < most
    }
}

fn nanoseconds(time: Duration) -> u64 {
    u64::try_from(time.as_nanos()).unwrap_or(u64::MAX)
}

// What was waited for in all, where that is below so many seconds.
fn within(waited: Duration, took: Duration, seconds: u64) -> Option<Duration> {
    let waited = waited.saturating_add(took);
    if waited.as_secs() < seconds {
        Some(waited)
    } else {
        None
    }
}
