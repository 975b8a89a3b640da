// What a page and a list tell of a block.
ghost use Rattle.std.specs.Prelude.{◌≡◌, ◌<◌};
ghost use Rattle.rules.specs.LogPages.{integrity, state_byte, wear_index};

use crate::records::is_closed;
use model::{Block, State, Way};

pub fn state_byte(state: State) -> u64
    ensures { (result ≡ state_byte state) × (result < 16) }
{
    match state {
        State::Free => 1,
        State::Open(Way::Erase) => 8,
        State::Open(Way::Placement(_)) => 4,
        State::Closed(Way::Erase) => 10,
        State::Closed(Way::Placement(_)) => 6,
    }
}

pub fn integrity(block: Block) -> u64
    ensures { (result ≡ integrity block) × (result < 16) }
{
    if is_closed(block) { 1 } else { 0 }
}

// P/E index: count × 200 / N to the nearest whole, halves up, and then at most 255. It is 0 for a rated count of 0,
// which no configuration within limits has.
pub fn wear_index(rated: u64, erases: u32) -> u64
    ensures { (result ≡ wear_index rated erases) × (result < 256) }
{
    if rated == 0 {
        return 0;
    }
    let scaled = erases as u64 * 200;
    let below = scaled / rated;
    let rest = scaled % rated;
    let index = if rest < rated - rest {
        below
    } else {
        below + 1
    };
    index.min(255)
}
