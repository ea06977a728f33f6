// Why a valley file is refused.
ghost use Rattle.graph.specs.Faults.{code_of, refusal_of, words_of};
ghost use Rattle.graph.specs.declared.fault.Fault.TheVariants.{NoMemory};
ghost use Rattle.std.specs.Prelude.{◌≡◌, Some};

use message::Refusal;
use std::alloc::{AllocError, AllocFailed};
use std::error::Error;
use std::fmt;

// What is wrong with a line of the file, or with the whole. Each has its number, which `code` tells.
#[derive(Clone, Copy, PartialEq, Eq, Debug)]
pub enum Fault {
    NotUnderstood = 1,
    NoCount,
    CountTwice,
    CountOutOfRange,
    NodeOutOfRange,
    OwnNode,
    WeightOutOfRange,
    EdgeTwice,
    WeightTwice,
    TooManyEdges,
    Apart,
    NoMemory,
}

impl Fault {
    // Which refusal it is; want of memory is none.
    pub fn refusal(self) -> Option<Refusal>
        ensures { result ≡ refusal_of self }
    {
        match self {
            Fault::NoMemory => None,
            _ => Some(Refusal::UnsoundGraph),
        }
    }

    // A number for each fault, for who rests on them: the enum alone would not hold them.
    pub fn code(&self) -> u8
        ensures { result ≡ code_of self.now }
    {
        *self as u8
    }

    // What a person is told. `Display` uses it; this cannot fail, and what that writes to can.
    pub fn reason(self) -> &'static str
        ensures { result.now ≡ words_of self }
    {
        match self {
            Fault::NotUnderstood => "neither `houses N` nor `line A B L`",
            Fault::NoCount => "`houses N` has to come first",
            Fault::CountTwice => "`houses N` stands here a second time",
            Fault::CountOutOfRange => "there have to be 1 to 256 houses",
            Fault::NodeOutOfRange => "there is no such house",
            Fault::OwnNode => "the line leads from a house to itself",
            Fault::WeightOutOfRange => "a length has to be 1 to 1000000",
            Fault::EdgeTwice => "these two houses have a line already",
            Fault::WeightTwice => "another line has the same length",
            Fault::TooManyEdges => "a house has more than 16 lines",
            Fault::Apart => "the houses can't all be joined",
            Fault::NoMemory => "out of memory",
        }
    }
}

impl fmt::Display for Fault {
    ghost output = { λ fault. Some (words_of fault) };

    fn fmt<W: fmt::Write>(&self, f: &mut fmt::Formatter<W>) -> fmt::Result {
        f.write_str(self.reason())
    }
}

impl Error for Fault {}

// By hand, since thiserror's `From` has no contract and clauses name the case.
impl From<AllocError> for Fault {
    ghost from_gives = { λ _ fault. fault ≡ NoMemory };

    fn from(_e: AllocError) -> Fault {
        Fault::NoMemory
    }
}

impl<T: Drop> From<AllocFailed<T>> for Fault {
    ghost from_gives = { λ _ fault. fault ≡ NoMemory };

    fn from(_e: AllocFailed<T>) -> Fault {
        Fault::NoMemory
    }
}
