// What an event comes to: the station after it, the page to keep, and then the words to print.
ghost use Rattle.housebox.specs.Step.{Steps};
ghost use Rattle.housebox.specs.Unstepped.{unkept_by, untold_by};
ghost use Rattle.station.specs.Events.{did_of};
ghost use Rattle.std.specs.Prelude.{◌≡◌};

use crate::report::told;
use message::Unsent;
use page::{Kept, Unwritten, keep};
use station::{Outcome, Station};
use std::alloc::Global;

#[derive(Drop)]
pub struct Step {
    pub station: Station,
    pub page: Vec<u8>,
    pub words: String,
}

// Why there is no step: no memory, a page that would not fit, or a message that has no bytes.
#[derive(Clone, Copy)]
pub enum Unstepped {
    Memory,
    Full,
    Unfit,
}

impl From<Unwritten> for Unstepped {
    ghost from_gives = { λ e r. r ≡ unkept_by e };

    fn from(e: Unwritten) -> Unstepped {
        match e {
            Unwritten::Memory => Unstepped::Memory,
            Unwritten::Full => Unstepped::Full,
        }
    }
}

impl From<Unsent> for Unstepped {
    ghost from_gives = { λ e r. r ≡ untold_by e };

    fn from(e: Unsent) -> Unstepped {
        match e {
            Unsent::Memory => Unstepped::Memory,
            Unsent::Unfit => Unstepped::Unfit,
        }
    }
}

pub fn step_of(heap: Global, outcome: Outcome) -> Result<Step, Unstepped>
    ensures { Steps (did_of outcome) result }
{
    let Kept { outcome, page } = keep(heap, outcome)?;
    let words = told(heap, &outcome)?;
    let Outcome { station, .. } = outcome;
    Ok(Step {
        station,
        page,
        words,
    })
}
