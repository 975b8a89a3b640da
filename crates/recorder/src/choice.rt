// The block that a domain gives up: of its Closed blocks the one with the least serial.
ghost use Rattle.std.specs.Prelude.{◌≡◌, ◌<◌, min, length};
ghost use Rattle.model.specs.declared.command.Command.TheVariants.{Free};
ghost use Rattle.recorder.specs.Choice.{NarrowTo, found_in, older_of};

use model::{Block, Command};
use tables::{is_closed, is_held};

// The oldest block so far, by its number and its serial. Where there is none, they are a number that no drive has and a
// serial above those of all blocks. It is no enum: the gap beside an enum's tag is copied through memory for every
// block.
#[derive(Clone, Copy)]
pub(crate) struct Oldest {
    number: u64,
    serial: u64,
}

// Block n, or the one found before it. The block's serial has four bytes.
fn older(found: Oldest, n: u64, block: Block, domain: u64) -> Oldest
    ensures found { result ≡ older_of found n block domain }
    ensures narrow { block.serial < 4294967296 }
{
    let serial = u64::from(block.serial);
    if is_held(block, domain) & is_closed(block) & (serial < found.serial) {
        Oldest { number: n, serial }
    } else {
        found
    }
}

// How many records are looked at: those of the drive, and no more than there are.
pub(crate) fn records_of(blocks: u64) -> usize
    ensures { result ≡ min blocks 256 }
{
    blocks.min(256) as usize
}

// The oldest Closed block of a domain, in lent records. Their serials have four bytes, as every record's have.
pub(crate) fn oldest_closed(blocks: &[Block], domain: u64) -> Oldest
    ensures found { result ≡ found_in blocks.now domain (length blocks.now) }
    ensures narrow { NarrowTo blocks.now (length blocks.now) }
{
    let mut found = Oldest {
        number: u64::MAX,
        serial: u64::MAX,
    };
    for (n, &block) in blocks.iter().enumerate() {
        found = older(found, n as u64, block, domain);
    }
    found
}

// Free of the block that was found.
pub(crate) fn freeing_command(found: Oldest, domain: u64) -> Command
    ensures { result ≡ Free domain found.number }
{
    Command::Free {
        domain,
        block: found.number,
    }
}
