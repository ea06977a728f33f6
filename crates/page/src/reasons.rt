// Why there is no page of a station, and no station on a page.
ghost use Rattle.std.specs.Prelude.{◌≡◌};
ghost use Rattle.page.specs.declared.reasons.Unwritten.TheVariants as unwritten;
ghost use Rattle.page.specs.declared.reasons.Unread.TheVariants as unread;
ghost use Rattle.page.specs.Reasons.{unwritten_by, unread_by};
ghost use Rattle.page.specs.Serving.{refusal_of};

use message::{Refusal, Unsent};
use std::alloc::{AllocError, AllocFailed};

// No memory, or the station does not fit on a page. Enums of their own, since each names its own second case.
#[derive(Clone, Copy)]
pub enum Unwritten {
    Memory,
    Full,
}

// No memory, or bytes that are no page.
#[derive(Clone, Copy)]
pub enum Unread {
    Memory,
    Foreign,
}

impl Unread {
    // What it is refused by, if it is: want of memory is no refusal.
    pub fn refusal(self) -> Option<Refusal>
        ensures { result ≡ refusal_of self }
    {
        match self {
            Unread::Memory => None,
            Unread::Foreign => Some(Refusal::ForeignPage),
        }
    }
}

// By hand, since thiserror's `From` has no contract and clauses name the case.
impl From<AllocError> for Unwritten {
    ghost from_gives = { λ _ r. r ≡ unwritten.Memory };

    fn from(_e: AllocError) -> Unwritten {
        Unwritten::Memory
    }
}

impl<T: Drop> From<AllocFailed<T>> for Unwritten {
    ghost from_gives = { λ _ r. r ≡ unwritten.Memory };

    fn from(_e: AllocFailed<T>) -> Unwritten {
        Unwritten::Memory
    }
}

// A message that has no bytes of its own has none on a page.
impl From<Unsent> for Unwritten {
    ghost from_gives = { λ e r. r ≡ unwritten_by e };

    fn from(e: Unsent) -> Unwritten {
        match e {
            Unsent::Memory => Unwritten::Memory,
            Unsent::Unfit => Unwritten::Full,
        }
    }
}

// By hand, since thiserror's `From` has no contract and clauses name the case.
impl<T: Drop> From<AllocFailed<T>> for Unread {
    ghost from_gives = { λ _ r. r ≡ unread.Memory };

    fn from(_e: AllocFailed<T>) -> Unread {
        Unread::Memory
    }
}

// Bytes of what has no page are no page.
impl From<Unwritten> for Unread {
    ghost from_gives = { λ e r. r ≡ unread_by e };

    fn from(e: Unwritten) -> Unread {
        match e {
            Unwritten::Memory => Unread::Memory,
            Unwritten::Full => Unread::Foreign,
        }
    }
}
