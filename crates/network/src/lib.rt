// Stations and the copper between them, an event at a time.
#![tactic(auto)]

mod fate;
mod theorem;

pub use fate::Fate;
pub use theorem::boxes_together;
