// The manager and the recorder above it as the C boundary of `trial_c` needs them, for the benchmark and for the
// comparison with another implementation: a table crosses as a row of numbers, and so does a command or a call of the
// recorder.
#![tactic(auto)]

mod asking;
mod commands;
mod host;
mod rows;
mod running;

pub use commands::{Request, request_of};
pub use host::{run, serve, start};
