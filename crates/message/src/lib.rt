// Messages between neighbouring nodes, the packets and acknowledgements that carry them, and their bytes.
#![tactic(auto)]

mod laws;
mod messages;
mod packets;
mod refusals;
#[cfg(test)]
mod tests;

pub use laws::{
    acknowledgement_decoded_only, acknowledgement_returns, message_decoded_only, message_returns,
    packet_decoded_only, packet_returns,
};
pub use messages::{Message, Phase, TOP_LEVEL, Unsent};
pub use packets::{Acknowledgement, Packet, seal};
pub use refusals::Refusal;
