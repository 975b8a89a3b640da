// A table with its store, and the words and bytes that a command may fill.
use geometry::Config;
use model::Table;
use tables::{clear_block, clear_domain};

#[derive(Clone, Copy, Debug, PartialEq, Eq)]
pub struct Drive {
    pub table: Table,
    pub store: [u64; 1280],
    pub words: [u64; 264],
    pub bytes: [u8; 2304],
}

// A table with this configuration and nothing else. It is not made by the manager, which it is compared with.
pub fn table_with(config: Config) -> Table {
    Table {
        config,
        domains: [clear_domain(); 16],
        blocks: [clear_block(); 256],
    }
}

// A drive with this configuration and nothing else.
pub fn drive_with(config: Config) -> Drive {
    Drive {
        table: table_with(config),
        store: [0; 1280],
        words: [0; 264],
        bytes: [0; 2304],
    }
}
