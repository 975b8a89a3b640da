// What every command begins with: a scan of the blocks and one of the domains test whether the table is sound and count
// each domain's blocks; what the command is about is then looked up, and what all are asked first is answered.
#![tactic(auto)]

mod clauses;
mod first;
mod free;
mod listing;
mod marks;
mod questions;
mod records;
mod scan;
mod summary;

pub use clauses::holder_index;
pub use first::first_verdict;
pub use free::{Candidate, choose, no_candidate};
pub use listing::Keys;
pub use marks::Marks;
pub use questions::covered_with;
pub use records::{put_record, record_at};
pub use scan::{About, Subject, same_serial, scan_block};
pub use summary::{Covering, Summary, block_about, place, scan_domain, summary_of};
