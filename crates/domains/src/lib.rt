// The commands on domains, and Pulse: Create, Change Capacity, Delete.
#![tactic(auto)]

mod deleting;
mod pulsing;
mod reserving;

pub use deleting::delete;
pub use pulsing::pulse;
pub use reserving::{change_capacity, create};
