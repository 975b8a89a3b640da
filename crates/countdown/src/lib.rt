// A pulse over a lent slice of block records.
#![tactic(auto)]

ghost use Rattle.std.specs.Prelude.{map, ◌≡◌};
ghost use Rattle.model.specs.Blocks.{counted_down};

use model::Block;

// So many seconds pass for each record of the slice: an open block has them less, and is Closed where none are left; no
// other record changes.
pub fn count_down(blocks: &mut [Block], seconds: u32)
    ensures { blocks.new ≡ map (counted_down seconds) blocks.old }
{
    for block in blocks.iter_mut() {
        *block = block.counted_down(seconds);
    }
}
