// A line of a script of cases: its parts, each a number or a word.
#![tactic(auto)]

mod line;
mod number;
mod reading;
#[cfg(test)]
mod tests;

pub use line::{Line, Word, config_of};
pub use reading::read_script;
