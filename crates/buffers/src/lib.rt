// What is put into lent buffers and compared in them: rows of user and flash addresses, and fields of
// bytes. A stretch of a buffer is handed on as that part alone.
#![tactic(auto)]

mod fills;
mod user_addresses;

pub use fills::{put_field, put_rising, put_stretch};
pub use user_addresses::{ALL_ONES, all_match, user_address, user_addresses_fit};
