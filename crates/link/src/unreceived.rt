// Why the message of a packet was not taken.
ghost use Rattle.std.specs.Prelude.{◌≡◌, alloc_error};
ghost use Rattle.link.specs.declared.unreceived.Unreceived.TheVariants.{Memory};

use message::Refusal;
use std::alloc::{AllocError, AllocFailed};

// No memory, or what the packet is refused by. The first has its error, to be handed on.
#[derive(Clone, Copy)]
pub enum Unreceived {
    Memory(AllocError),
    Refused(Refusal),
}

// By hand, since thiserror's `From` has no contract and clauses name the case.
impl<T: Drop> From<AllocFailed<T>> for Unreceived {
    ghost from_gives = { λ _ r. r ≡ Memory alloc_error };

    fn from(failed: AllocFailed<T>) -> Unreceived {
        Unreceived::Memory(AllocError::from(failed))
    }
}
