// The bytes of messages, alone and in queues, and back.
ghost use Rattle.std.specs.Prelude.{◌≡◌, List};
ghost use Rattle.std.specs.List.{list_all};
ghost use Rattle.message.specs.declared.messages.Message.{Message};
ghost use Rattle.message.specs.Bytes.{fits, message_bytes};
ghost use Rattle.page.specs.Page.{queue_bytes};
ghost use Rattle.page.specs.Reading.{size_of, message_front, queue_front, viewed};

use super::from_page::{FromPage, Reader};
use super::to_page::{ToPage, pair, put_all};
use super::{Unread, Unwritten};
use message::Message;
use std::collections::VecDeque;

impl ToPage for Message {
    ghost bytes_of = { message_bytes };

    ghost is_fit = { fits };

    fn put(&self, page: &mut Vec<u8>) -> Result<(), Unwritten> {
        let bytes = self.encode(*page.allocator())?;
        page.extend_from_slice(&bytes)?;
        Ok(())
    }
}

// How many bytes a message of this kind has. By its number, since this is asked before it is decoded.
fn size_of(kind: u8) -> usize
    ensures { result ≡ size_of kind }
{
    match kind {
        1 => 2,
        2 => 7,
        3 => 6,
        6 => 5,
        _ => 1,
    }
}

// The message that the bytes begin with, and what is left of them.
#[tactic(auto, unfolding(crate::specs::Reading::message_front))]
fn message_front(bytes: &[u8]) -> Option<(Message, &[u8])>
    ensures { viewed result ≡ message_front bytes.now }
{
    let [kind, ..] = bytes else {
        return None;
    };
    let (bytes, rest) = bytes.split_at_checked(size_of(*kind))?;
    let message = Message::decode(bytes).ok()?;
    Some((message, rest))
}

impl FromPage for Message {
    ghost Value = { Message };

    ghost view = { λ m. m };

    ghost front = { message_front };

    fn read(reader: &mut Reader) -> Result<Message, Unread> {
        let Some((message, rest)) = message_front(reader.left) else {
            return Err(Unread::Foreign);
        };
        reader.left = rest;
        Ok(message)
    }
}

// How many messages, and then each.
impl ToPage for VecDeque<Message> {
    ghost bytes_of = { λ q. queue_bytes q.items };

    ghost is_fit = { λ q. list_all fits q.items };

    fn put(&self, page: &mut Vec<u8>) -> Result<(), Unwritten> {
        let (front, back) = self.as_slices();
        page.extend_from_slice(&pair(self.len()))?;
        put_all(front, page)?;
        put_all(back, page)
    }
}

impl FromPage for VecDeque<Message> {
    ghost Value = { List Message };

    ghost view = { λ q. q.items };

    ghost front = { queue_front };

    #[tactic(auto, using(std::proofs::lemmas::List::take_rest), unfolding(crate::specs::Reading::queue_front))]
    fn read(reader: &mut Reader) -> Result<VecDeque<Message>, Unread> {
        let [high, low, rest @ ..] = reader.left else {
            return Err(Unread::Foreign);
        };
        reader.left = rest;
        let count = u16::from_be_bytes([*high, *low]);
        Ok(VecDeque::from_vec(reader.all(usize::from(count))?))
    }
}
