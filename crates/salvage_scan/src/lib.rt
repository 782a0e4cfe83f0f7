//! Salvage: the blobs that can be found in a pack, whatever stands between them.
#![tactic(auto)]

mod ahead;
mod found;
mod heads;
mod laws;
mod scanner;
mod scanning;

pub use found::{Clean, Found, FoundList};
pub use laws::{arrival_rules, clean_rules, cutting_rules, salvage_rules};
pub use scanner::Scanner;
pub use scanning::scan;
