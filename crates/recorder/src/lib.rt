// The van recorder, a product above the manager: samples go into a domain of their own, one after the other, and the
// oldest give way to the newest. It calls the manager's `serve_in` and reads the lent table; it knows nothing of how a
// command is served. Read `append_in` and `latest_in` first.
#![tactic(auto)]

mod appending;
mod choice;
mod newest;
mod reading;
mod samples;
mod serving;

pub use appending::{append, append_in};
pub use reading::{latest, latest_in};
pub use tables::Served;
