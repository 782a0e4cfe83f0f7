//! What a server does on a connection, whatever it serves (`docs/http.md`).
#![tactic(auto)]

mod answer_log;
mod before_body;
mod ended;
mod gathering;
mod laws;
mod parameters;
mod replies;
mod reply_heads;

pub use answer_log::{AnswerLog, NoLog};
pub use before_body::{MAX_BODY, check_length, closes_early, content_type};
pub use ended::{Ended, head_says};
pub use gathering::{BodyFault, gather};
pub use laws::phrases;
pub use parameters::{decoded_text, first_value};
pub use replies::{Kind, Reply, make_refusal, make_reply, write_memory_reply, write_reply};
pub use reply_heads::reply_head;
