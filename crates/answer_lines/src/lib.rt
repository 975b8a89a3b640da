// The line that is printed for an answer.
#![tactic(auto)]

mod answers;
mod lines;
mod puts;

pub use answers::{print_address, print_answer, print_outcome, print_samples};
