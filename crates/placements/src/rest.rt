// What is left to write of a write by placement, once its questions are answered and the placement's open block has
// what it takes.
ghost use Rattle.std.specs.Prelude.{true, ◌≡◌, ◌+◌, ◌^◌, ◌<◌};
ghost use Rattle.placements.specs.Onwards.{complete_of, nothing_left, partial_from, rest_after};
ghost use Rattle.rules.specs.Questions.{user_addresses_fit};

use buffers::user_address;
use geometry::Adus;
use model::Refusal;
use tables::{Outcome, refusal};

// So many ADUs, whose user addresses go on from a start, for blocks that are opened for the placement. Their flash
// addresses go behind so many words.
#[derive(Clone, Copy)]
pub struct Rest {
    pub placement: u8,
    pub start: u64,
    pub count: Adus,
    pub done: usize,
}

// What a command answers and changes, and what it has left to write.
#[derive(Clone, Copy)]
pub struct Partial {
    pub outcome: Outcome,
    pub rest: Rest,
}

// The one value for nothing to write.
pub fn nothing_left() -> Rest
    ensures { result ≡ nothing_left }
{
    Rest {
        placement: 0,
        start: 0,
        count: Adus(0),
        done: 0,
    }
}

// What is left of it once a block has taken of it what it takes.
pub(crate) fn rest_after(rest: Rest, room: Adus) -> Rest
    requires { (user_addresses_fit rest.start rest.count.0 ≡ true) × (rest.done + rest.count.0 < 2 ^ 64) }
    ensures { result ≡ rest_after rest room.0 }
{
    let count = rest.count;
    if count.0 <= room.0 {
        return nothing_left();
    }
    Rest {
        placement: rest.placement,
        start: user_address(rest.start, room.0),
        count: Adus(count.0 - room.0),
        done: rest.done + room.0 as usize,
    }
}

// An outcome that leaves nothing to write.
pub fn complete(outcome: Outcome) -> Partial
    ensures { result ≡ complete_of outcome }
{
    Partial {
        outcome,
        rest: nothing_left(),
    }
}

// What Write by placement hands back, with what it has left to write: after a refusal nothing.
pub fn partial_from(given: Result<Partial, Refusal>) -> Partial
    ensures { result ≡ partial_from given }
{
    match given {
        Ok(partial) => partial,
        Err(reason) => complete(refusal(reason)),
    }
}
