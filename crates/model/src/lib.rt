// The drive as values: blocks and how they change, domains, the table, the commands and their
// answers (document 01, "Domains" and "Blocks").
#![tactic(auto)]

mod answer;
mod block;
mod command;
mod table;

pub use answer::{Answer, Refusal};
pub use block::{Block, State, Way, free_block};
pub use command::{Command, Listed};
pub use table::{Domain, Table};
