// The commands on blocks: Erase, Close and Free. Write by placement opens blocks too: what is asked
// for a new block and the opening itself serve it from here.
#![tactic(auto)]

mod closing;
mod erasing;
mod opening;

pub use closing::{close, free};
pub use erasing::{ANY_BLOCK, erase};
pub use opening::{Opened, new_blocks_verdict, opened_for};
