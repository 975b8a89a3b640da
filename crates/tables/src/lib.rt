// What the commands' functions share: clear records and tests of a block's, what a page and a list tell of it, the
// questions and how they are put one after the other, and what a command changes.
//
// These functions serve the crates of the commands. What a host calls is in `manager`.
#![tactic(auto)]

mod arguments;
mod change;
mod fields;
mod questions;
mod records;
mod served;

pub use arguments::{ends_within, is_count};
pub use change::{
    Change, Outcome, answer_from, block_change, deletion, domain_change, opening_change,
    outcome_from, pulse_change, refusal, unchanged,
};
pub use fields::{integrity, state_byte, wear_index};
pub use questions::{ask, is_held, may_open, reserved_by, serials_left, within_quota};
pub use records::{clear_block, clear_domain, is_closed, is_free, is_open, is_open_by_erase};
pub use served::Served;
