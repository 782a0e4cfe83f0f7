//! How a run of the program ends, whatever the command: what it is given, how it may end, and the steps of commands.
#![tactic(auto)]

mod environment;
mod status;
mod steps;

pub use environment::Environment;
pub use status::{InputFault, ReplyFault, Status};
pub use steps::{LIMITS, opened, put_blob, read_input, told_too_long, written};
