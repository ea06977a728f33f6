// What comes of an event.
use super::state::Station;
use message::{Acknowledgement, Packet, Refusal};

// What goes over the copper, and to which neighbour.
#[derive(Clone, Copy)]
pub enum Transmission {
    Packet {
        to: usize,
        packet: Packet,
    },
    Acknowledgement {
        to: usize,
        acknowledgement: Acknowledgement,
    },
}

// The station after an event, what it sends, in order, and what it turned away.
// No model: the box reads these fields, so clauses see them through `did_of`. No constructor: the literals name the fields,
// and say more plainly what is sent and what is refused.
#[derive(Drop)]
pub struct Outcome {
    pub station: Station,
    pub sends: Vec<Transmission>,
    pub refusals: Vec<Refusal>,
}
