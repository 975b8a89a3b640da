// The manager: what starts a drive and serves its commands, each function equal to document 01's
// rules for every table, argument and lent buffer.
//
// A command is served in three parts. Scans of the table find all that it asks for. Its questions are put in 01's order,
// first those that every command is asked, then those of its own function, which says what changes. That is put into
// the table; what a write has left goes into blocks that are opened for it.
#![tactic(auto)]

mod answering;
mod looking;
mod serving;
mod starting;
mod subjects;

pub use serving::{serve, serve_in};
pub use starting::start;
pub use tables::Served;
