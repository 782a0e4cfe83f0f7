//! The lines that commands write of refs, of sizes, and of what packs hold (`docs/commands.md`).
#![tactic(auto)]

mod lines;

pub use lines::{push_load_line, ref_line, report_of, size_line, size_lines};
