// The drive that a script of cases works on: made, set record by record, and compared.
#![tactic(auto)]

mod drive;
mod settings;

pub use drive::{Drive, drive_with, table_with};
