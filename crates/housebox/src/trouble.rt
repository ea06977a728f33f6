// Why a box stops, in the words that it says on standard error.
ghost use Rattle.std.specs.Prelude.{◌≡◌};
ghost use Rattle.housebox.specs.Trouble.{unmade_by, unresumed_by, unsettled_by};

use crate::step::Unstepped;
use graph::fault::Fault;
use message::Refusal;
use page::{Unread, Unwritten};
use std::io;
use thiserror::Error;

#[derive(Debug, Drop, Error)]
pub enum Trouble {
    #[error("box: out of memory")]
    Memory,
    #[error("box: the words have to be a number I, and then J:L for each line")]
    WrongWords,
    #[error("box: {0}")]
    NoStation(Fault),
    #[error("refused {}: `lamp` is no page of this house and these lines", Refusal::ForeignPage.number())]
    Foreign,
    #[error("box: the page would not fit")]
    Full,
    #[error("box: `lamp`: {0}")]
    Lamp(io::Error),
}

// A fresh house has no page.
impl From<Unwritten> for Trouble {
    ghost from_gives = { λ e r. r ≡ unmade_by e };

    fn from(e: Unwritten) -> Trouble {
        match e {
            Unwritten::Memory => Trouble::Memory,
            Unwritten::Full => Trouble::Full,
        }
    }
}

// The page in the file is not read.
impl From<Unread> for Trouble {
    ghost from_gives = { λ e r. r ≡ unresumed_by e };

    fn from(e: Unread) -> Trouble {
        match e {
            Unread::Memory => Trouble::Memory,
            Unread::Foreign => Trouble::Foreign,
        }
    }
}

// An event comes to no step.
impl From<Unstepped> for Trouble {
    ghost from_gives = { λ e r. r ≡ unsettled_by e };

    fn from(e: Unstepped) -> Trouble {
        match e {
            Unstepped::Memory => Trouble::Memory,
            Unstepped::Full | Unstepped::Unfit => Trouble::Full,
        }
    }
}
