// The log pages: Page and List.
#![tactic(auto)]

mod fields;
mod lists;
mod pages;

pub use lists::list;
pub use pages::page;
