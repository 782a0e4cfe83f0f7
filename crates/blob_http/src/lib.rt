//! Serves the requests of a connection over any home (`docs/http.md`).
#![tactic(auto)]

mod entries;
mod handling;
mod laws;
mod operations;
mod replies;
mod requests;
mod serving;
mod uploads;

pub use entries::{Answered, Outcome};
pub use http_exchange::{AnswerLog, Ended, NoLog};
pub use laws::{searches_find, valid_requests_are_served};
pub use operations::Operation;
pub use replies::ReplyText;
pub use serving::serve_connection;
