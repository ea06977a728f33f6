// Writing a page.
ghost use Rattle.std.specs.Prelude.{◌≡◌};
ghost use Rattle.station.specs.State.{state_of};
ghost use Rattle.page.specs.Page.{head_fits, fields_fit, body_bytes, page_bytes, fits, WrittenAs};

use super::Unwritten;
use super::fields::node_fits;
use super::to_page::{ToPage, pair, put_all};
use message::seal;
use station::Station;
use std::alloc::Global;

// The most bytes that a page may have.
const PAGE_SIZE: usize = 16384;

// Fits all but the links, and is there a link for each edge?
fn head_fits(station: &Station) -> bool
    ensures { result ≡ head_fits (state_of station.now) }
{
    station.number < 65536 && station.node.edges == station.links.len() && node_fits(station.node)
}

// All of a page but its sum. Whether the head fits is asked before memory is.
impl ToPage for Station {
    ghost bytes_of = { λ s. body_bytes (state_of s) };

    ghost is_fit = { λ s. fields_fit (state_of s) };

    #[tactic(auto, using(crate::proofs::Parts::parts), unfolding(crate::specs::Page::fields_fit))]
    fn put(&self, page: &mut Vec<u8>) -> Result<(), Unwritten> {
        if !head_fits(self) {
            return Err(Unwritten::Full);
        }
        page.extend_from_slice(b"LAMP\x01")?;
        page.extend_from_slice(&pair(self.number))?;
        self.node.put(page)?;
        put_all(&self.links, page)?;
        Ok(())
    }
}

// The page of a station.
pub fn write(heap: Global, station: &Station) -> Result<Vec<u8>, Unwritten>
    ensures { WrittenAs (page_bytes (state_of station.now)) (fits (state_of station.now)) result }
{
    let mut bytes = Vec::new(heap);
    station.put(&mut bytes)?;
    let page = seal(bytes)?;
    if page.len() > PAGE_SIZE {
        return Err(Unwritten::Full);
    }
    Ok(page)
}
