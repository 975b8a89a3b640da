// Write by placement: user addresses into the placement's open block, and into others that are opened for it while ADUs
// remain.
#![tactic(auto)]

mod filling;
mod placing;
mod rest;
mod room;
mod writing;

pub use filling::{Filled, fill_next};
pub use rest::{Partial, Rest, complete, nothing_left, partial_from};
pub use writing::write_by_placement;
