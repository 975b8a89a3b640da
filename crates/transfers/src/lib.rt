// The commands that move user addresses: Write by block and Read. A write into a block serves Write by
// placement too.
#![tactic(auto)]

mod reads;
mod writes;

pub use reads::read;
pub use writes::{write_by_block, written_into};
