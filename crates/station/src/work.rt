// Working off the inboxes: each head is taken or put behind the others, until a round took nothing.
ghost use Rattle.std.specs.Prelude.{◌≡◌, Bool, false, ◌||◌, IfOk, OnOk};
ghost use Rattle.link.specs.Ends.{deferring};
ghost use Rattle.station.specs.State.{state_of, link_at, with_link, give_at, acted, woken};
ghost use Rattle.station.specs.Work.{progress_of, look, looks, waiting_at, lap, works, at_work};

use super::state::Station;
use link::Link;
use message::{Message, Refusal};
use node::{Taking, Turn};
use std::alloc::{AllocError, Global};

// A station at work, and what it has turned away.
#[derive(Drop)]
pub(crate) struct Work {
    pub(crate) station: Station,
    pub(crate) refusals: Vec<Refusal>,
}

impl Station {
    // What the node sends over one edge goes into the outbox there.
    fn give_at(&mut self, place: usize, send: Option<Message>) -> Result<(), AllocError>
        ensures { OnOk result (state_of self.new ≡ give_at place send (state_of self.old)) }
    {
        let Some(message) = send else {
            return Ok(());
        };
        let Some(link) = self.links.get_mut(place) else {
            return Ok(());
        };
        link.give(message)
    }

    // The node defers the head of an inbox: it goes behind the others there.
    fn defer_at(&mut self, place: usize)
        ensures { state_of self.new ≡ with_link place (deferring (link_at (state_of self.old) place)) (state_of self.old) }
    {
        if let Some(link) = self.links.get_mut(place) {
            link.defer_head();
        }
    }

    // The node has done a turn: what it sends goes into the outboxes at once. By place: of what `iter_mut` lends a
    // proof knows nothing.
    fn act(&mut self, turn: Turn) -> Result<(), AllocError>
        ensures { OnOk result (state_of self.new ≡ acted turn (state_of self.old)) }
    {
        self.node = turn.node;
        for (place, send) in turn.sends.iter().enumerate() {
            self.give_at(place, *send)?;
        }
        Ok(())
    }

    // A sleeping node wakes.
    pub(crate) fn rouse(&mut self) -> Result<(), AllocError>
        ensures { OnOk result (state_of self.new ≡ woken (state_of self.old)) }
    {
        let turn = self.node.wake();
        self.act(turn)
    }
}

// Each but the last says whether it took something; in clauses `before` is whether something was taken before. They go
// by place, since each look changes the whole station.
impl Work {
    // One look at the head of an inbox.
    fn look(&mut self, place: usize) -> Result<bool, AllocError>
        ensures { IfOk result (λ took. (before : Bool) → progress_of self.new (took || before) ≡ look place (progress_of self.old before)) }
    {
        let Some(link) = self.station.links.get_mut(place) else {
            return Ok(false);
        };
        let Some(message) = link.head() else {
            return Ok(false);
        };
        match self.station.node.take(place, message) {
            Taking::Taken(turn) => {
                link.take_head();
                self.station.act(turn)?;
                Ok(true)
            }
            Taking::Deferred(_) => {
                // By place: the clause of `defer_at` says what comes of the whole station.
                self.station.defer_at(place);
                Ok(false)
            }
            Taking::Refused(_, refusal) => {
                link.take_head();
                self.refusals.push(refusal)?;
                Ok(true)
            }
        }
    }

    // As many looks as messages wait at this place now.
    fn look_all(&mut self, place: usize) -> Result<bool, AllocError>
        ensures { IfOk result (λ took. (before : Bool) → progress_of self.new (took || before) ≡ looks place (waiting_at place (progress_of self.old before)) (progress_of self.old before)) }
    {
        let waiting = self.station.links.get(place).map_or(0, Link::waiting);
        let mut took = false;
        for _look in 0..waiting {
            took |= self.look(place)?;
        }
        Ok(took)
    }

    // Once over all places.
    fn round(&mut self) -> Result<bool, AllocError>
        ensures { IfOk result (λ took. progress_of self.new took ≡ lap (progress_of self.old false)) }
    {
        let mut took = false;
        for place in 0..self.station.links.len() {
            took |= self.look_all(place)?;
        }
        Ok(took)
    }

    // Rounds until one took nothing.
    pub(crate) fn work_off(&mut self) -> Result<(), AllocError>
        ensures { OnOk result (progress_of self.new false ≡ works (progress_of self.old false)) }
    {
        while self.round()? {}
        Ok(())
    }
}

// A station with its inboxes worked off, and what it turned away.
pub(crate) fn worked_off(heap: Global, station: Station) -> Result<Work, AllocError>
    ensures { IfOk result (λ w. progress_of w false ≡ at_work (state_of station)) }
{
    let mut work = Work {
        station,
        refusals: Vec::new(heap),
    };
    work.work_off()?;
    Ok(work)
}
