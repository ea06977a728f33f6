// What stands at one end of a link, and what it does with packets and acknowledgements.
ghost use Rattle.std.specs.Prelude.{◌≡◌, length, IfOk, MatchResult};
ghost use Rattle.std.specs.Result.{result_err};
ghost use Rattle.link.specs.Ends.{end_of, new_end, giving, oldest, received, why_not_taken, WhyUnreceived, settled, why_not_settled, head_of, is_idle, taking, deferring};

use super::unreceived::Unreceived;
use message::{Acknowledgement, Message, Packet, Refusal};
use std::alloc::{AllocError, Global};
use std::collections::VecDeque;

// No model: the page writes and reads these fields, so clauses see them through `end_of`.
// `acknowledged`: the number of the last message that the neighbour is known to have taken. `outbox`: those that
// it is not known to have, the oldest first. `taken`: the number of the last message taken from it. `inbox`: those
// of them that wait for the node.
#[derive(Drop)]
pub struct Link {
    pub neighbour: usize,
    pub acknowledged: u32,
    pub outbox: VecDeque<Message>,
    pub taken: u32,
    pub inbox: VecDeque<Message>,
}

// The same messages in the same order. By blocks: a queue's own `clone` goes message by message.
fn copied(queue: &VecDeque<Message>) -> Result<VecDeque<Message>, AllocError>
    ensures { IfOk result (λ q. q.items ≡ queue.now.items) }
{
    let heap = *queue.allocator();
    let (front, back) = queue.as_slices();
    let mut messages = Vec::from_slice(heap, front)?;
    messages.extend_from_slice(back)?;
    Ok(VecDeque::from_vec(messages))
}

// By hand, since its clause speaks of the end that the copy holds: a derived one speaks of each field.
impl Clone for Link {
    ghost is_clone = { λ l m. end_of m ≡ end_of l };

    fn clone(&self) -> Result<Link, AllocError> {
        Ok(Link {
            neighbour: self.neighbour,
            acknowledged: self.acknowledged,
            outbox: copied(&self.outbox)?,
            taken: self.taken,
            inbox: copied(&self.inbox)?,
        })
    }
}

impl Link {
    // An end from which nothing was sent and at which nothing came.
    pub fn new(heap: Global, neighbour: usize) -> Link
        ensures { end_of result ≡ new_end neighbour }
    {
        Link {
            neighbour,
            acknowledged: 0,
            outbox: VecDeque::new(heap),
            taken: 0,
            inbox: VecDeque::new(heap),
        }
    }

    // A message more to hand over, behind the others. For want of memory nothing changes.
    pub fn give(&mut self, message: Message) -> Result<(), AllocError>
        ensures { MatchResult result (λ _. end_of self.new ≡ giving message (end_of self.old)) (λ _. end_of self.new ≡ end_of self.old) }
    {
        self.outbox.push_back(message)?;
        Ok(())
    }

    // Has it nothing to hand over.
    pub fn is_idle(&self) -> bool
        ensures { result ≡ is_idle (end_of self.now) }
    {
        self.outbox.is_empty()
    }

    // The packet that is sent again and again: the oldest message that is not acknowledged. Behind the last number
    // of 32 bits there is none, and nothing is sent any more.
    pub fn oldest(&self) -> Option<Packet>
        ensures { result ≡ oldest (end_of self.now) }
    {
        let message = *self.outbox.front()?;
        let number = self.acknowledged.checked_add(1)?;
        Some(Packet { number, message })
    }

    // A packet comes: its message is taken if its number is the next. Otherwise, and for want of memory, nothing changes.
    pub fn receive(&mut self, packet: Packet) -> Result<(), Unreceived>
        ensures { MatchResult result (λ _. (why_not_taken packet (end_of self.old) ≡ None) × (end_of self.new ≡ received packet (end_of self.old))) (λ e. WhyUnreceived e packet (end_of self.old) × (end_of self.new ≡ end_of self.old)) }
    {
        if self.taken.checked_add(1) != Some(packet.number) {
            return Err(Unreceived::Refused(Refusal::NotNext));
        }
        self.inbox.push_back(packet.message)?;
        self.taken = packet.number;
        Ok(())
    }

    // What a packet is answered by: the last number taken.
    pub fn acknowledgement(&self) -> Acknowledgement
        ensures { result.number ≡ (end_of self.now).taken }
    {
        Acknowledgement { number: self.taken }
    }

    // An acknowledgement comes: the oldest message is done with, if it is the one waited for. Otherwise nothing changes.
    pub fn settle(&mut self, acknowledgement: Acknowledgement) -> Result<(), Refusal>
        ensures why { result_err result ≡ why_not_settled acknowledgement (end_of self.old) }
        ensures after { end_of self.new ≡ settled acknowledgement (end_of self.old) }
    {
        if self.outbox.is_empty()
            || self.acknowledged.checked_add(1) != Some(acknowledgement.number)
        {
            return Err(Refusal::NotAwaited);
        }
        let _ = self.outbox.pop_front();
        self.acknowledged = acknowledgement.number;
        Ok(())
    }

    // The message that waits longest for the node.
    pub fn head(&self) -> Option<Message>
        ensures { result ≡ head_of (end_of self.now).inbox }
    {
        self.inbox.front().copied()
    }

    // How many messages wait for the node.
    pub fn waiting(&self) -> usize
        ensures { result ≡ length (end_of self.now).inbox }
    {
        self.inbox.len()
    }

    // The node has taken the head.
    pub fn take_head(&mut self)
        ensures { end_of self.new ≡ taking (end_of self.old) }
    {
        let _ = self.inbox.pop_front();
    }

    // The node defers the head: it goes behind the others.
    pub fn defer_head(&mut self)
        ensures { end_of self.new ≡ deferring (end_of self.old) }
    {
        if !self.inbox.is_empty() {
            self.inbox.rotate_left(1);
        }
    }
}
