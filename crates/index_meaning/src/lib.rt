//! What the tables of an index mean, by the definitions over facts and the meaning of keys. There is no code here: the
//! definitions are in `specs/`, and each law is the contract of a function with an empty body.
#![tactic(auto)]

mod concerns;
mod laws;
mod progress;
mod steps;

pub use concerns::{entering_concerns, held_but_more, judging_concerns, none_is_held};
pub use laws::{
    row_is_of_holder, rows_are_listed, rows_are_ringless, rows_tell_deletion, rows_tell_holders,
    rows_tell_last_change, rows_tell_states, rows_tell_values, unconcerned_stay,
};
pub use progress::{
    facts_are_added, nothing_is_taken_up, one_arrives, one_is_entered, one_is_judged,
    rest_is_taken_up, taken_up_is_at_rest, taking_up_is_listed,
};
pub use steps::{
    all_have_arrived, arrived_grows, arrived_is_known, arrived_stays, changes_are_left,
    counted_stays, deletes_are_left, fewer_are_left, held_stays, held_stays_with_facts,
    judged_is_left, left_is_new, left_says_nothing, one_has_arrived, one_less_is_left,
    row_deletion_stays, rows_are_as_before, rows_stay_listed, rows_stay_ringless, waiting_stays,
};
