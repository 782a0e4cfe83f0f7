//! What a blob says, read from its bytes.
#![tactic(auto)]

mod change_items;
mod claims;
mod fields;
mod part_list;
mod reading;
mod signing;

pub use change_items::change_list;
pub use claims::date_of;
pub use fields::{has_type, ref_at, text_at};
pub use reading::fact;
pub use signing::signed_in;
