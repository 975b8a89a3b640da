// The drive's fixed shape and its flash addresses (document 01, "The drive's fixed shape" and
// "Flash addresses"; document 000, 3.11).
//
// A configuration may hold any numbers: no function asks for one within the limits, each says what
// it answers where it is not.
#![tactic(auto)]

mod address;
mod bytes;
mod host;
mod shape;

pub use address::{
    Elements, FlashAddress, Refusal, create_flash_address, flash_word, is_domain_id, offset_bits,
    parse_flash_address, word_fields,
};
pub use host::{create_into, parse_into, verdict_number};
pub use shape::{
    Adus, Config, Planes, adus_per_block, drive_planes, no_config, planes_per_block, store_length,
    stretch_start, whole_blocks, within_limits,
};
