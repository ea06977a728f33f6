// The bytes of a link, and back.
ghost use Rattle.std.specs.Prelude.{◌≡◌};
ghost use Rattle.link.specs.Ends.{End, end_of};
ghost use Rattle.page.specs.Page.{numbers_fit, link_bytes, link_fits};
ghost use Rattle.page.specs.Reading.{link_front};

use super::from_page::{FromPage, Reader};
use super::to_page::{ToPage, pair};
use super::{Unread, Unwritten};
use link::Link;
use std::collections::VecDeque;

// Has the neighbour's number two bytes, and each waiting message a number?
fn numbers_fit(link: &Link) -> bool
    ensures { result ≡ numbers_fit (end_of link.now) }
{
    let left = u32::MAX - link.acknowledged;
    link.neighbour < 65536 && link.outbox.len() <= left as usize
}

impl ToPage for Link {
    ghost bytes_of = { λ l. link_bytes (end_of l) };

    ghost is_fit = { λ l. link_fits (end_of l) };

    fn put(&self, page: &mut Vec<u8>) -> Result<(), Unwritten> {
        if !numbers_fit(self) {
            return Err(Unwritten::Full);
        }
        page.extend_from_slice(&pair(self.neighbour))?;
        self.acknowledged.put(page)?;
        self.taken.put(page)?;
        self.outbox.put(page)?;
        self.inbox.put(page)
    }
}

impl FromPage for Link {
    ghost Value = { End };

    ghost view = { end_of };

    ghost front = { link_front };

    #[tactic(auto, using(std::proofs::lemmas::List::take_rest), unfolding(crate::specs::Reading::link_front))]
    fn read(reader: &mut Reader) -> Result<Link, Unread> {
        let [high, low, a, b, c, d, e, f, g, h, rest @ ..] = reader.left else {
            return Err(Unread::Foreign);
        };
        reader.left = rest;
        Ok(Link {
            neighbour: usize::from(u16::from_be_bytes([*high, *low])),
            acknowledged: u32::from_be_bytes([*a, *b, *c, *d]),
            outbox: VecDeque::read(reader)?,
            taken: u32::from_be_bytes([*e, *f, *g, *h]),
            inbox: VecDeque::read(reader)?,
        })
    }
}
