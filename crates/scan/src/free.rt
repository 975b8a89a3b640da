// The Free block to be opened next.
ghost use Rattle.std.specs.Prelude.{◌≡◌, ◌<◌};
ghost use Rattle.scan.specs.Free.{chosen_next, no_candidate};

use model::Block;
use tables::is_free;

// A Free block that may be opened next, by its number and its erases; with 2^32 of them, more than any block has, it is
// none. An Option was not tried: it would go through a loop over all blocks.
#[derive(Clone, Copy)]
pub struct Candidate {
    pub number: u64,
    pub erases: u64,
}

pub fn no_candidate() -> Candidate
    ensures { result ≡ no_candidate }
{
    Candidate {
        number: 256,
        erases: 4294967296,
    }
}

// With one block more: that one, if it is Free and has fewer erases than the best so far.
pub fn choose(best: Candidate, n: u64, block: Block) -> Candidate
    ensures { (result ≡ chosen_next best n block) × (block.erases < 4294967296) }
{
    let erases = u64::from(block.erases);
    if is_free(block) & (erases < best.erases) {
        Candidate { number: n, erases }
    } else {
        best
    }
}
