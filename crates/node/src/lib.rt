// One node of the protocol: what it holds, and what it does with each message.
#![tactic(auto)]

mod edges;
mod laws;
mod rules;
mod state;
#[cfg(test)]
mod tests;

pub use graph::mark::Mark;
pub use laws::{
    always_fit, fresh_fit, level_kept, marks_last, marks_stay, nothing_lost, sends_fit,
    tests_lightest, untaken_unchanged, within_edges,
};
pub use state::{Best, Node, Sends, Status, Taking, Turn};
