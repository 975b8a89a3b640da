// Fields of a page that no list has.
ghost use Rattle.std.specs.Prelude.{cond, ◌≡◌};
ghost use Rattle.rules.specs.Drive.{is_open};
ghost use Rattle.rules.specs.LogPages.{placement_field, placement_of};

use model::{Block, State, Way};
use tables::is_open;

fn placement_of(way: Way) -> u64
    ensures { result ≡ placement_of way }
{
    match way {
        Way::Erase => 65535,
        Way::Placement(p) => u64::from(p),
    }
}

pub(crate) fn placement_field(state: State) -> u64
    ensures { result ≡ placement_field state }
{
    match state {
        State::Free => 65535,
        State::Open(way) | State::Closed(way) => placement_of(way),
    }
}

pub(crate) fn written_if_open(block: Block) -> u64
    ensures { result ≡ cond (is_open block) block.written.0 0 }
{
    if is_open(block) { block.written.0 } else { 0 }
}
