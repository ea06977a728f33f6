// One event: the station before is left as it is, the one after is handed back with what it sends.
ghost use Rattle.std.specs.Prelude.{◌≡◌, ℕ, Bool, ◌<◌, ◌++◌, length, IfOk, vec_len, OnOk};
ghost use Rattle.link.specs.Ends.{end_of};
ghost use Rattle.station.specs.State.{state_of, place_of};
ghost use Rattle.station.specs.Events.{did_of, oldest_to, answer_to, firsts, idle_in, turned_away, on_wake, over_link, arrived, on_packet, acknowledged, on_acknowledgement};

use super::outcome::{Outcome, Transmission};
use super::state::Station;
use super::work::{Work, worked_off};
use link::{Link, Unreceived};
use message::{Acknowledgement, Packet, Refusal};
use std::alloc::{AllocError, Global};

// The oldest message of a link goes out, if one waits.
fn push_oldest(sends: &mut Vec<Transmission>, link: &Link) -> Result<(), AllocError>
    ensures { OnOk result (sends.new.items ≡ sends.old.items ++ oldest_to (end_of link.now)) }
{
    if let Some(packet) = link.oldest() {
        sends.push(Transmission::Packet {
            to: link.neighbour,
            packet,
        })?;
    }
    Ok(())
}

// What a packet that came over a link is answered by.
fn answer(link: &Link) -> Transmission
    ensures { result ≡ answer_to (end_of link.now) }
{
    Transmission::Acknowledgement {
        to: link.neighbour,
        acknowledgement: link.acknowledgement(),
    }
}

impl Station {
    // The oldest message of each link whose place is picked. A `for`, since a push may fail.
    fn push_picked<F: Fn(usize) -> bool>(
        &self,
        picks: F,
        sends: &mut Vec<Transmission>,
    ) -> Result<(), AllocError>
        requires { F.IsAlwaysCallable picks }
        ensures { OnOk result ((chosen : ℕ → Bool) → ((k : ℕ) (b : Bool) → F.post picks k b → b ≡ chosen k) → sends.new.items ≡ sends.old.items ++ firsts chosen (state_of self.now).links (length (state_of self.now).links)) }
    {
        for (place, link) in self.links.iter().enumerate() {
            if picks(place) {
                push_oldest(sends, link)?;
            }
        }
        Ok(())
    }

    // Has a link nothing to hand over.
    fn is_idle(&self, place: usize) -> bool
        ensures { result ≡ idle_in (state_of self.now).links place }
    {
        self.links.get(place).is_none_or(|link| link.is_idle())
    }

    // Nothing changes.
    fn turn_away(&self, heap: Global, refusal: Refusal) -> Result<Outcome, AllocError>
        ensures { IfOk result (λ o. did_of o ≡ turned_away refusal (state_of self.now)) }
    {
        Ok(Outcome {
            station: self.clone()?,
            sends: Vec::new(heap),
            refusals: vec![in heap; refusal]?,
        })
    }

    // A sleeping node wakes; one that is awake sends the oldest message of each link again.
    pub fn wake(&self, heap: Global) -> Result<Outcome, AllocError>
        ensures { IfOk result (λ o. did_of o ≡ on_wake (state_of self.now)) }
    {
        let mut station = self.clone()?;
        station.rouse()?;
        let mut sends = Vec::new(heap);
        station.push_picked(|_| true, &mut sends)?;
        Ok(Outcome {
            station,
            sends,
            refusals: Vec::new(heap),
        })
    }

    // What was read of the bytes that came, and the place of the link over which it came.
    fn over_link<T: Drop>(
        &self,
        from: usize,
        read: Result<T, Refusal>,
    ) -> Result<(usize, T), Refusal>
        ensures { result ≡ over_link read (place_of (state_of self.now).links from) }
    {
        let it = read?;
        let place = self.place_of(from).ok_or(Refusal::NoSuchEdge)?;
        Ok((place, it))
    }

    // A packet over the link at a place.
    fn arrive(&self, heap: Global, place: usize, packet: Packet) -> Result<Outcome, AllocError>
        requires { place < vec_len self.now.links }
        ensures { IfOk result (λ o. did_of o ≡ arrived packet (Some place) (state_of self.now)) }
    {
        let mut station = self.clone()?;
        let received = station.links[place].receive(packet);
        let mut sends = vec![in heap; answer(&station.links[place])]?;
        match received {
            Ok(()) => {
                station.rouse()?;
                let Work { station, refusals } = worked_off(heap, station)?;
                station.push_picked(|place| self.is_idle(place), &mut sends)?;
                Ok(Outcome {
                    station,
                    sends,
                    refusals,
                })
            }
            Err(Unreceived::Refused(refusal)) => Ok(Outcome {
                station,
                sends,
                refusals: vec![in heap; refusal]?,
            }),
            // The two errors leave on two ways, so no `?`.
            Err(Unreceived::Memory(error)) => Err(error),
        }
    }

    // Bytes come from a neighbour as a packet.
    pub fn receive(&self, heap: Global, from: usize, bytes: &[u8]) -> Result<Outcome, AllocError>
        ensures { IfOk result (λ o. did_of o ≡ on_packet from bytes.now (state_of self.now)) }
    {
        match self.over_link(from, Packet::decode(bytes)) {
            Ok((place, packet)) => self.arrive(heap, place, packet),
            Err(refusal) => self.turn_away(heap, refusal),
        }
    }

    // An acknowledgement over the link at a place.
    fn settle(
        &self,
        heap: Global,
        place: usize,
        acknowledgement: Acknowledgement,
    ) -> Result<Outcome, AllocError>
        requires { place < vec_len self.now.links }
        ensures { IfOk result (λ o. did_of o ≡ acknowledged acknowledgement (Some place) (state_of self.now)) }
    {
        let mut station = self.clone()?;
        if let Err(refusal) = station.links[place].settle(acknowledgement) {
            return self.turn_away(heap, refusal);
        }
        let mut sends = Vec::new(heap);
        push_oldest(&mut sends, &station.links[place])?;
        Ok(Outcome {
            station,
            sends,
            refusals: Vec::new(heap),
        })
    }

    // Bytes come from a neighbour as an acknowledgement.
    pub fn acknowledge(
        &self,
        heap: Global,
        from: usize,
        bytes: &[u8],
    ) -> Result<Outcome, AllocError>
        ensures { IfOk result (λ o. did_of o ≡ on_acknowledgement from bytes.now (state_of self.now)) }
    {
        match self.over_link(from, Acknowledgement::decode(bytes)) {
            Ok((place, acknowledgement)) => self.settle(heap, place, acknowledgement),
            Err(refusal) => self.turn_away(heap, refusal),
        }
    }
}
