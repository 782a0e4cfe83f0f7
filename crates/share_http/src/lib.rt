//! Serves shares on a connection, over any shelf (`docs/shares.md`, "Over HTTP").
#![tactic(auto)]

mod asking;
mod denials;
mod entries;
mod replies;
mod requests;
mod serving;

pub use asking::Question;
pub use entries::ShareTold;
pub use http_exchange::{AnswerLog, Ended, NoLog};
pub use serving::share_session;
