// The table of a drive: its configuration, its QoS domains and its blocks.
use crate::block::Block;
use geometry::Config;

#[derive(Clone, Copy, Debug, PartialEq, Eq)]
pub struct Domain {
    // beside the numbers: a host may lend a missing domain with any numbers, which `domain_sound` refuses
    pub exists: bool,
    // the guarantee and the quota, in whole blocks
    pub reserved: u32,
    pub quota: u32,
    // how many placement IDs it has
    pub placements: u8,
    // how many of its blocks may be open
    pub limit: u32,
    // the last erase serial number that it gave
    pub last: u32,
}

// Domain d stands at d - 1 and block n at n. Entries at S and above are no blocks of the drive.
#[derive(Clone, Copy, Debug, PartialEq, Eq)]
pub struct Table {
    pub config: Config,
    pub domains: [Domain; 16],
    pub blocks: [Block; 256],
}
