// Packets and acknowledgements: a number, and a sum that shows damage.
ghost use Rattle.std.specs.Prelude.{◌≡◌, true, false, ◌∷◌, ◌++◌, IfOk, MatchOption, MatchResult};
ghost use Rattle.message.specs.Bytes.{fits, WhyUnsent, word, word_at, checksum_of, sealed, is_frame, framed, packet_bytes, packet_of, acknowledgement_bytes, acknowledgement_of};

use super::{Message, Refusal, Unsent};
use std::alloc::{AllocError, Global};

const PACKET: u8 = 71;

const ACKNOWLEDGEMENT: u8 = 72;

// A message with its number on its directed edge; the first one is 1.
#[derive(Clone, Copy, Debug, PartialEq, Eq)]
pub struct Packet {
    pub number: u32,
    pub message: Message,
}

// The last number that was taken on a directed edge.
#[derive(Clone, Copy, Debug, PartialEq, Eq)]
pub struct Acknowledgement {
    pub number: u32,
}

// The sum of the bytes, cut to 16 bits.
fn checksum(bytes: &[u8]) -> u16
    ensures { result ≡ checksum_of bytes.now }
{
    bytes
        .iter()
        .fold(0u16, |sum, byte| sum.wrapping_add(u16::from(*byte)))
}

// The bytes with their sum behind.
pub fn seal(mut bytes: Vec<u8>) -> Result<Vec<u8>, AllocError>
    ensures { IfOk result (λ v. v.items ≡ sealed bytes.items) }
{
    let sum = checksum(&bytes);
    bytes.extend_from_slice(&sum.to_be_bytes())?;
    Ok(bytes)
}

// A kind, a number, what comes behind it, and the sum of these.
fn frame(heap: Global, kind: u8, number: u32, body: &[u8]) -> Result<Vec<u8>, AllocError>
    ensures { IfOk result (λ v. v.items ≡ sealed (kind ∷ (word number ++ body.now))) }
{
    let mut bytes = vec![in heap; kind]?;
    bytes.extend_from_slice(&number.to_be_bytes())?;
    bytes.extend_from_slice(body)?;
    seal(bytes)
}

// The number of a frame of this kind, and what stands behind it; none where the kind or the sum is another.
fn opened(kind: u8, bytes: &[u8]) -> Option<(u32, &[u8])>
    ensures { MatchOption result (is_frame kind bytes.now ≡ false) (λ p. (is_frame kind bytes.now ≡ true) × (p.0 ≡ word_at bytes.now 1) × (p.1.now ≡ framed bytes.now)) }
{
    let (summed, sum) = bytes.split_last_chunk::<2>()?;
    let [first, a, b, c, d, body @ ..] = summed else {
        return None;
    };
    let is_right = *first == kind && checksum(summed) == u16::from_be_bytes(*sum);
    is_right.then_some((u32::from_be_bytes([*a, *b, *c, *d]), body))
}

impl Packet {
    // The bytes of a packet whose message fits.
    pub fn encode(self, heap: Global) -> Result<Vec<u8>, Unsent>
        ensures { MatchResult result (λ v. (fits self.message ≡ true) × (v.items ≡ packet_bytes self)) (λ e. WhyUnsent e (fits self.message)) }
    {
        let message = self.message.encode(heap)?;
        Ok(frame(heap, PACKET, self.number, &message)?)
    }

    // The packet that these bytes are.
    pub fn decode(bytes: &[u8]) -> Result<Packet, Refusal>
        ensures { result ≡ packet_of bytes.now }
    {
        let (number, message) = opened(PACKET, bytes).ok_or(Refusal::Malformed)?;
        let message = Message::decode(message)?;
        Ok(Packet { number, message })
    }
}

impl Acknowledgement {
    pub fn encode(self, heap: Global) -> Result<Vec<u8>, AllocError>
        ensures { IfOk result (λ v. v.items ≡ acknowledgement_bytes self) }
    {
        frame(heap, ACKNOWLEDGEMENT, self.number, &[])
    }

    // The acknowledgement that these bytes are.
    pub fn decode(bytes: &[u8]) -> Result<Acknowledgement, Refusal>
        ensures { result ≡ acknowledgement_of bytes.now }
    {
        // The length first, so that no sum is taken of bytes that are too many.
        let [_, _, _, _, _, _, _] = bytes else {
            return Err(Refusal::Malformed);
        };
        let (number, _) = opened(ACKNOWLEDGEMENT, bytes).ok_or(Refusal::Malformed)?;
        Ok(Acknowledgement { number })
    }
}
