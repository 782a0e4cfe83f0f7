//! Heads and bodies of HTTP messages, read from a source in any cuts.
#![tactic(auto)]

mod ahead;
mod body;
mod chunk_end;
mod chunks;
mod closing;
mod content;
mod ends;
mod fields;
mod filling;
mod head;
mod heads;
mod judging;
mod kept;
mod laws;
mod line_state;
mod reading;
mod reply_heads;
mod reply_judging;
mod scanning;
mod stop;
mod taking;
mod target;
mod trailers;
mod wire;

pub use body::Body;
pub use ends::WireEnd;
pub use head::{Framing, Head, HeadFault, Piece, ReplyHead};
pub use laws::{
    ends_are_last, ends_begin_no_request, heads_are_lines, one_head_text, one_more_request,
    one_reading, short_heads_begin_no_request, trailers_are_lines,
    unfinished_bodies_begin_no_request,
};
pub use wire::Wire;
