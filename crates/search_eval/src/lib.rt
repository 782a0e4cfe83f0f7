//! Search: the permanodes that a query asks for, over any index.
#![tactic(auto)]

mod answering;
mod held;
mod laws;
mod ordering;
mod uncounted;

pub use answering::answer;
pub use laws::{answers_are_asked, same_answers, value_queries_ask};
pub use uncounted::answer_of;
