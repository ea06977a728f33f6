// Why something is turned away.
ghost use Rattle.std.specs.Prelude.{◌≡◌, Some};
ghost use Rattle.message.specs.Refusals.{number_of, words_of};

use std::fmt;

#[derive(Clone, Copy, Debug, PartialEq, Eq)]
pub enum Refusal {
    Malformed,
    NotNext,
    NotAwaited,
    NoSuchEdge,
    OutOfPlace,
    ForeignPage,
    UnsoundGraph,
}

impl Refusal {
    // The number by which people know it; of two the lower one is told.
    // A rule of the project: each number is a definition that the contract uses.
    pub fn number(self) -> u8
        ensures { result ≡ number_of self }
    {
        match self {
            Refusal::Malformed => 1,
            Refusal::NotNext => 2,
            Refusal::NotAwaited => 3,
            Refusal::NoSuchEdge => 4,
            Refusal::OutOfPlace => 5,
            Refusal::ForeignPage => 6,
            Refusal::UnsoundGraph => 7,
        }
    }

    // What a person is told of it. `Display` uses it; this cannot fail, and what that writes to can.
    pub fn words(self) -> &'static str
        ensures { result.now ≡ words_of self }
    {
        match self {
            Refusal::Malformed => "not understood",
            Refusal::NotNext => "not the next number",
            Refusal::NotAwaited => "no answer that is waited for",
            Refusal::NoSuchEdge => "no such line",
            Refusal::OutOfPlace => "cannot come now",
            Refusal::ForeignPage => "no page of this house and its lines",
            Refusal::UnsoundGraph => "an unsound valley",
        }
    }
}

impl fmt::Display for Refusal {
    ghost output = { λ r. Some (words_of r) };

    fn fmt<W: fmt::Write>(&self, f: &mut fmt::Formatter<W>) -> fmt::Result {
        f.write_str(self.words())
    }
}
