// Messages, and their bytes, high byte first.
ghost use Rattle.std.specs.Prelude.{◌≡◌, true, false, MatchResult};
ghost use Rattle.message.specs.Bytes.{fits, phase_of, message_bytes, message_of, WhyUnsent};
ghost use Rattle.message.specs.declared.messages.Unsent.TheVariants.{Memory};

use super::Refusal;
use std::alloc::{AllocError, AllocFailed, Global};

// Does the fragment search for its least outgoing edge, or has the node found its part of the answer.
#[derive(Clone, Copy, Debug, PartialEq, Eq)]
pub enum Phase {
    Find = 1,
    Found = 2,
}

impl TryFrom<u8> for Phase {
    type Error = Refusal;

    ghost try_from_gives = { λ byte r. r ≡ phase_of byte };

    fn try_from(byte: u8) -> Result<Phase, Refusal> {
        match byte {
            1 => Ok(Phase::Find),
            2 => Ok(Phase::Found),
            _ => Err(Refusal::Malformed),
        }
    }
}

// `best`: the weight of the least outgoing edge that was heard of, or that there is none.
#[derive(Clone, Copy, Debug, PartialEq, Eq)]
pub enum Message {
    Connect { level: u8 },
    Initiate { level: u8, name: u32, phase: Phase },
    Test { level: u8, name: u32 },
    Accept,
    Reject,
    Report { best: Option<u32> },
    Change,
}

// Why there are no bytes: no memory, or a field that has no bytes (a level above 8, a weight of 0). An enum of its own,
// since it names its own second case.
#[derive(Clone, Copy, Debug, PartialEq, Eq)]
pub enum Unsent {
    Memory,
    Unfit,
}

// By hand, since thiserror's `From` has no contract and clauses name the case.
impl From<AllocError> for Unsent {
    ghost from_gives = { λ _ r. r ≡ Memory };

    fn from(_e: AllocError) -> Unsent {
        Unsent::Memory
    }
}

impl<T: Drop> From<AllocFailed<T>> for Unsent {
    ghost from_gives = { λ _ r. r ≡ Memory };

    fn from(_e: AllocFailed<T>) -> Unsent {
        Unsent::Memory
    }
}

// The highest level that a message may have: 256 nodes reach no higher one.
pub const TOP_LEVEL: u8 = 8;

impl Message {
    // Has every field its place in the bytes.
    pub fn fits(self) -> bool
        ensures { result ≡ fits self }
    {
        match self {
            Message::Connect { level } => level <= TOP_LEVEL,
            Message::Initiate { level, .. } => level <= TOP_LEVEL,
            Message::Test { level, .. } => level <= TOP_LEVEL,
            Message::Report { best } => best != Some(0),
            Message::Accept | Message::Reject | Message::Change => true,
        }
    }

    // The bytes of a message that fits. A kind's number stands beside its fields, here and in `decode`.
    pub fn encode(self, heap: Global) -> Result<Vec<u8>, Unsent>
        ensures { MatchResult result (λ v. (fits self ≡ true) × (v.items ≡ message_bytes self)) (λ e. WhyUnsent e (fits self)) }
    {
        if !self.fits() {
            return Err(Unsent::Unfit);
        }
        match self {
            Message::Connect { level } => Ok(vec![in heap; 1, level]?),
            Message::Initiate { level, name, phase } => {
                let [a, b, c, d] = name.to_be_bytes();
                Ok(vec![in heap; 2, level, a, b, c, d, phase as u8]?)
            }
            Message::Test { level, name } => {
                let [a, b, c, d] = name.to_be_bytes();
                Ok(vec![in heap; 3, level, a, b, c, d]?)
            }
            Message::Accept => Ok(vec![in heap; 4]?),
            Message::Reject => Ok(vec![in heap; 5]?),
            // No weight is 0, so that 0 can stand for none.
            Message::Report { best } => {
                let [a, b, c, d] = best.unwrap_or(0).to_be_bytes();
                Ok(vec![in heap; 6, a, b, c, d]?)
            }
            Message::Change => Ok(vec![in heap; 7]?),
        }
    }

    // The message that these bytes are.
    pub fn decode(bytes: &[u8]) -> Result<Message, Refusal>
        ensures { result ≡ message_of bytes.now }
    {
        match bytes {
            [1, level] if *level <= TOP_LEVEL => Ok(Message::Connect { level: *level }),
            [2, level, a, b, c, d, status] if *level <= TOP_LEVEL => {
                let name = u32::from_be_bytes([*a, *b, *c, *d]);
                Ok(Message::Initiate {
                    level: *level,
                    name,
                    phase: Phase::try_from(*status)?,
                })
            }
            [3, level, a, b, c, d] if *level <= TOP_LEVEL => {
                let name = u32::from_be_bytes([*a, *b, *c, *d]);
                Ok(Message::Test {
                    level: *level,
                    name,
                })
            }
            [4] => Ok(Message::Accept),
            [5] => Ok(Message::Reject),
            [6, a, b, c, d] => {
                let weight = u32::from_be_bytes([*a, *b, *c, *d]);
                Ok(Message::Report {
                    best: (weight != 0).then_some(weight),
                })
            }
            [7] => Ok(Message::Change),
            _ => Err(Refusal::Malformed),
        }
    }
}
