// The twelve kinds of command, each with its own arguments. An argument may be any number: a
// command with one out of range is refused.
use geometry::{Adus, Planes};

#[derive(Clone, Copy, Debug, PartialEq, Eq)]
pub enum Command {
    Create {
        domain: u64,
        guarantee: Planes,
        quota: Planes,
        placements: u64,
        limit: u64,
    },
    ChangeCapacity {
        domain: u64,
        guarantee: Planes,
        quota: Planes,
    },
    Delete {
        domain: u64,
    },
    // The block FFFFFFFFh leaves the choice to the manager.
    Erase {
        domain: u64,
        block: u64,
    },
    Close {
        domain: u64,
        block: u64,
    },
    Free {
        domain: u64,
        block: u64,
    },
    // The start is the first ADU's user address.
    WriteByPlacement {
        domain: u64,
        placement: u64,
        start: u64,
        count: Adus,
    },
    WriteByBlock {
        domain: u64,
        block: u64,
        start: u64,
        count: Adus,
    },
    // From a flash address on, with the user address that is expected there.
    Read {
        domain: u64,
        address: u64,
        count: Adus,
        expected: u64,
    },
    Page {
        domain: u64,
        block: u64,
    },
    List {
        domain: u64,
        listed: Listed,
    },
    Pulse {
        seconds: u64,
    },
}

// Which blocks of a domain a List names.
#[derive(Clone, Copy, Debug, PartialEq, Eq)]
pub enum Listed {
    Open,
    Closed,
}
