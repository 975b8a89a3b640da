// A super block's record, and the only ways in which it changes.
ghost use Rattle.std.specs.Prelude.{◌≡◌, ◌+◌, min};
ghost use Rattle.model.specs.Blocks.{closed, counted_down, free_block, freed, opened, written_on};

use geometry::Adus;

// How a block was opened. No Option: by an erase is a way too.
#[derive(Clone, Copy, Debug, PartialEq, Eq)]
pub enum Way {
    Erase,
    // by a nameless write, for a placement ID
    Placement(u8),
}

// A block that closes remembers its way of opening.
#[derive(Clone, Copy, Debug, PartialEq, Eq)]
pub enum State {
    Free,
    Open(Way),
    Closed(Way),
}

#[derive(Clone, Copy, Debug, PartialEq, Eq)]
pub struct Block {
    pub state: State,
    // the domain that holds it, 0 for none, as a host lends it and a log page tells it: with an Option there would be a holder 0
    pub holder: u8,
    pub written: Adus,
    // seconds until it closes by itself
    pub left: u32,
    // the P/E count
    pub erases: u32,
    // the erase serial number
    pub serial: u32,
}

// The written count with so many ADUs more, at most the capacity.
fn filled_to(written: Adus, count: Adus, capacity: Adus) -> Adus
    ensures { result.0 ≡ min (written.0 + count.0) capacity.0 }
{
    Adus(written.0.saturating_add(count.0).min(capacity.0))
}

// The record of a Free block, which is clear but for the P/E count.
pub fn free_block(erases: u32) -> Block
    ensures { result ≡ free_block erases }
{
    Block {
        state: State::Free,
        holder: 0,
        written: Adus(0),
        left: 0,
        erases,
        serial: 0,
    }
}

impl Block {
    // An open, empty block of a domain, erased once more.
    pub fn opened(self, holder: u8, way: Way, serial: u32, period: u32) -> Block
        ensures { result ≡ opened holder way serial period self }
    {
        Block {
            state: State::Open(way),
            holder,
            written: Adus(0),
            left: period,
            erases: self.erases.saturating_add(1),
            serial,
        }
    }

    // An open block with so many ADUs more, Closed where that makes it full. It takes no more than
    // its capacity, and a block that is not open takes none.
    #[tactic(auto, unfolding(crate::specs::Blocks::written_on))]
    pub fn written_on(self, count: Adus, capacity: Adus) -> Block
        ensures { result ≡ written_on count capacity self }
    {
        match self.state {
            State::Open(_) => {
                let written = filled_to(self.written, count, capacity);
                let block = Block { written, ..self };
                if written.0 < capacity.0 {
                    block
                } else {
                    block.closed()
                }
            }
            _ => self,
        }
    }

    // An open block Closed, with no seconds left; any other as it was.
    #[tactic(auto, unfolding(crate::specs::Blocks::closed))]
    pub fn closed(self) -> Block
        ensures { result ≡ closed self }
    {
        match self.state {
            State::Open(way) => Block {
                state: State::Closed(way),
                left: 0,
                ..self
            },
            _ => self,
        }
    }

    // Free, with nothing of the record but its P/E count.
    pub fn freed(self) -> Block
        ensures { result ≡ freed self }
    {
        free_block(self.erases)
    }

    // So many seconds later: an open block has them less, and is Closed where none are left.
    #[tactic(auto, unfolding(crate::specs::Blocks::counted_down, crate::specs::Blocks::closed))]
    pub fn counted_down(self, seconds: u32) -> Block
        ensures { result ≡ counted_down seconds self }
    {
        match self.state {
            State::Open(_) if seconds < self.left => Block {
                left: self.left - seconds,
                ..self
            },
            _ => self.closed(),
        }
    }
}
