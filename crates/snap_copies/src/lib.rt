//! Two copies of an index in the kit's `left_right`, of which readers see the one that was published last
//! (`docs/turns.md`). Each copy has a token of the list of Inserts; the rule of the published copy says that its facts
//! are those of its token. There is no lock here: the holder of the writer adds the Inserts one by one.
#![tactic(auto)]

mod book;
mod copies;
mod ended;
mod prepared;
mod publishing;
mod readers;
mod rule;
mod showing;
mod watch;

pub use book::{Front, Law, Pusher, Token};
pub use copies::{Addition, Common, IndexCopy};
pub use ended::Ended;
pub use prepared::Prepared;
pub use publishing::show;
pub use readers::{linked, new_writer};
pub use rule::{Published, Sees, Shown};
pub use showing::{SnapEnded, SnapReader, SnapWriter};
pub use watch::Watch;
