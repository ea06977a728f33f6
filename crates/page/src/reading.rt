// Reading a page.
ghost use Rattle.std.specs.Prelude.{◌≡◌};
ghost use Rattle.station.specs.State.{state_of};
ghost use Rattle.page.specs.Reading.{state_front, reads_page, ReadAs};

use super::Unread;
use super::from_page::{FromPage, Reader};
use super::writing::write;
use node::Node;
use station::Station;
use std::alloc::Global;

// The station that the bytes would be; what follows its links is not looked at.
#[tactic(auto, using(std::proofs::lemmas::List::take_rest), unfolding(crate::specs::Reading::state_front))]
fn station_front(heap: Global, bytes: &[u8]) -> Result<Station, Unread>
    ensures { ReadAs state_of result (state_front bytes.now) }
{
    let [_, _, _, _, _, high, low, rest @ ..] = bytes else {
        return Err(Unread::Foreign);
    };
    let mut reader = Reader { heap, left: rest };
    let node = Node::read(&mut reader)?;
    let links = reader.all(node.edges)?;
    Ok(Station {
        number: usize::from(u16::from_be_bytes([*high, *low])),
        node,
        links,
    })
}

// The station whose page these bytes are: what they would be is written again, and has to be these bytes.
pub fn read(heap: Global, bytes: &[u8]) -> Result<Station, Unread>
    ensures { ReadAs state_of result (reads_page bytes.now) }
{
    let station = station_front(heap, bytes)?;
    let page = write(heap, &station)?;
    if page.as_slice() != bytes {
        return Err(Unread::Foreign);
    }
    Ok(station)
}
