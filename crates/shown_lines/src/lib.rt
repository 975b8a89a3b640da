// What the program `drive` writes to standard output: answers, and what is said of a line that is no
// command.
#![tactic(auto)]

mod answers;
mod errors;
mod output;

pub use answers::say_line;
pub use errors::LineError;
pub use output::say;
