// Clear records, and what the state of a block's record tells.
ghost use Rattle.std.specs.Prelude.{◌≡◌};
ghost use Rattle.rules.specs.Drive.{clear_block, clear_domain, is_closed, is_free, is_open, is_open_by_erase};

use model::{Block, Domain, State, Way, free_block};

pub fn clear_block() -> Block
    ensures { result ≡ clear_block }
{
    free_block(0)
}

pub fn clear_domain() -> Domain
    ensures { result ≡ clear_domain }
{
    Domain {
        exists: false,
        reserved: 0,
        quota: 0,
        placements: 0,
        limit: 0,
        last: 0,
    }
}

pub fn is_free(block: Block) -> bool
    ensures { result ≡ is_free block }
{
    matches!(block.state, State::Free)
}

pub fn is_open(block: Block) -> bool
    ensures { result ≡ is_open block }
{
    matches!(block.state, State::Open(_))
}

pub fn is_closed(block: Block) -> bool
    ensures { result ≡ is_closed block }
{
    matches!(block.state, State::Closed(_))
}

pub fn is_open_by_erase(block: Block) -> bool
    ensures { result ≡ is_open_by_erase block }
{
    matches!(block.state, State::Open(Way::Erase))
}
