// What stands in a box: a node, its links to its neighbours, and what it does with all that comes.
#![tactic(auto)]

mod events;
mod laws;
mod making;
mod outcome;
mod place;
mod state;
#[cfg(test)]
mod tests;
mod work;

pub use laws::{
    acknowledged_is_held, inboxes_calm, marks_by_messages, nothing_forgotten,
    refused_changes_nothing,
};
pub use outcome::{Outcome, Transmission};
pub use state::Station;
