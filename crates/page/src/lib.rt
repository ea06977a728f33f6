// A station as one page of bytes, and back.
#![tactic(auto)]

mod fields;
mod from_page;
mod keeping;
mod laws;
mod links;
mod messages;
mod reading;
mod reasons;
mod serving;
#[cfg(test)]
mod tests;
mod to_page;
mod writing;

pub use keeping::{Kept, keep};
pub use laws::{page_read_only, page_returns, page_short};
pub use reading::read;
pub use reasons::{Unread, Unwritten};
pub use serving::serves;
pub use writing::write;
