//! The command line: which words are which command.
#![tactic(auto)]

mod change;
mod finding;
mod forms;
mod kinds;
mod mirroring;
mod parts;
mod place;
mod reading;
mod serving;
mod sharing;
mod table;
mod words;

pub use change::Change;
pub use finding::{places, places_agree};
pub use forms::{Form, OptionForm};
pub use kinds::{TextFault, TextKind};
pub use mirroring::{mirror_count, mirror_words};
pub use parts::parts_agree;
pub use place::Places;
pub use reading::{Command, Line, readings_agree};
pub use serving::{ServePlan, serve_words};
pub use sharing::{SharePlan, share_words};
pub use table::CommandName;
pub use words::{BlobCount, NonEmptyWord, Word};
