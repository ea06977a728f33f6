// What is kept after an event.
ghost use Rattle.page.specs.Serving.{Keeps};

use super::Unwritten;
use super::writing::write;
use station::Outcome;
use std::alloc::Global;

// An outcome, and the page of its station.
#[derive(Drop)]
pub struct Kept {
    pub outcome: Outcome,
    pub page: Vec<u8>,
}

// The page of the station after an event. Where there is none the event has no effect, as if what came had been lost.
pub fn keep(heap: Global, outcome: Outcome) -> Result<Kept, Unwritten>
    ensures { Keeps outcome result }
{
    let page = write(heap, &outcome.station)?;
    Ok(Kept { outcome, page })
}
