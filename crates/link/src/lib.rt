// One end of a link: messages numbered from 1, sent again until they are acknowledged, and taken once.
#![tactic(auto)]

mod ends;
mod laws;
mod unreceived;

pub use ends::Link;
pub use laws::{all_delivered, can_deliver, numbers_end, taken_in_order};
pub use unreceived::Unreceived;
