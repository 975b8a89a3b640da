// The script language: what a line of a script asks of the drive, or where it goes wrong.
#![tactic(auto)]

mod arguments;
mod keywords;
mod lines;
mod numbers;
mod words;

pub use arguments::{Buffer, Length};
pub use keywords::Expected;
pub use lines::{Line, parse};
pub use words::{Lines, line_end};
