// Bytes as lower-case hexadecimal text, two digits a byte, and back.
ghost use Rattle.std.specs.Prelude.{◌≡◌, IfOk, vec_items, string_bytes};
ghost use Rattle.housebox.specs.Hex.{hex_of, value_of, pair_of, bytes_of, HexReturns, HexOnly};
ghost use Rattle.std.specs.Option.{option_map};

use std::alloc::{AllocError, Global};

// The text of some bytes.
#[tactic(auto, using(crate::proofs::Digits::lower_hex))]
pub fn encode(heap: Global, bytes: &[u8]) -> Result<String, AllocError>
    ensures { IfOk result (λ s. string_bytes s ≡ hex_of bytes.now) }
{
    hex::encode(heap, bytes)
}

fn value(digit: u8) -> Option<u8>
    ensures { result ≡ value_of digit }
{
    match digit {
        b'0'..=b'9' => Some(digit - b'0'),
        b'a'..=b'f' => Some(digit - b'a' + 10),
        _ => None,
    }
}

// The byte of two digits.
fn byte(digits: &[u8]) -> Option<u8>
    ensures { result ≡ pair_of digits.now }
{
    let [high, low] = digits else {
        return None;
    };
    Some(16 * value(*high)? + value(*low)?)
}

// The bytes of a text; none where it is no hexadecimal of whole bytes. The kit's `hex::decode` takes upper case too, and
// its error for want of memory is no `AllocError`. A `for`, as in `neighbours_of`.
pub fn decode(heap: Global, text: &[u8]) -> Result<Option<Vec<u8>>, AllocError>
    ensures { IfOk result (λ o. option_map vec_items o ≡ bytes_of text.now) }
{
    let mut bytes = Vec::new(heap);
    for digits in text.chunks(2) {
        let Some(byte) = byte(digits) else {
            return Ok(None);
        };
        bytes.push(byte)?;
    }
    Ok(Some(bytes))
}

// What is encoded is decoded to itself. A law is proved only where a contract names it.
pub fn hex_returns()
    ensures { HexReturns }
{}

// What is decoded is the text of what comes of it, and of nothing else.
pub fn hex_only()
    ensures { HexOnly }
{}
