// A node's edges: their marks and weights, and which is the lightest.
ghost use Rattle.std.specs.Prelude.{◌≡◌, ℕ, Bool};
ghost use Rattle.node.specs.Rules.{has_edge, mark_of, weight_of, sending, branching, rejecting, lightest, lighter_of, lighter, Picks};

use super::state::{Node, SLOTS, Sends};
use graph::mark::Mark;
use message::Message;

// One message more. (Of an element that `get_mut` lends a proof knows nothing: so this, `with_branch` and `reject`
// ask for the place.)
pub(crate) fn send(mut sends: Sends, edge: usize, message: Message) -> Sends
    ensures { result ≡ sending edge message sends }
{
    if edge < SLOTS {
        sends[edge] = Some(message);
    }
    sends
}

// Is one weight lighter than another; any weight is lighter than none. (In the order of `Option` none is the least.)
pub(crate) fn is_lighter(a: Option<u32>, b: Option<u32>) -> bool
    ensures { result ≡ lighter a b }
{
    match (a, b) {
        (None, _) => false,
        (Some(_), None) => true,
        (Some(x), Some(y)) => x < y,
    }
}

impl Node {
    pub(crate) fn has_edge(self, edge: usize) -> bool
        ensures { result ≡ has_edge self edge }
    {
        edge < self.edges && edge < SLOTS
    }

    // Where there is no such place a mark is basic and a weight 0, as the definitions have it.
    pub(crate) fn mark(self, edge: usize) -> Mark
        ensures { result ≡ mark_of self edge }
    {
        self.marks.get(edge).copied().unwrap_or(Mark::Basic)
    }

    pub(crate) fn weight(self, edge: usize) -> u32
        ensures { result ≡ weight_of self edge }
    {
        self.weights.get(edge).copied().unwrap_or(0)
    }

    pub(crate) fn with_branch(mut self, edge: usize) -> Node
        ensures { result ≡ branching edge self }
    {
        if edge < SLOTS {
            self.marks[edge] = Mark::Branch;
        }
        self
    }

    // An edge that is basic becomes rejected.
    pub(crate) fn reject(mut self, edge: usize) -> Node
        ensures { result ≡ rejecting edge self }
    {
        if edge < SLOTS && self.marks[edge] == Mark::Basic {
            self.marks[edge] = Mark::Rejected;
        }
        self
    }

    // The lighter of an edge and of what was found before.
    fn lighter_of(self, edge: usize, found: Option<usize>) -> Option<usize>
        ensures { result ≡ lighter_of self edge found }
    {
        match found {
            Some(other) if self.weight(other) <= self.weight(edge) => found,
            _ => Some(edge),
        }
    }

    // The lightest of the edges that are picked.
    pub(crate) fn lightest<F: Fn(usize) -> bool>(self, picks: F) -> Option<usize>
        requires { F.IsAlwaysCallable picks }
        ensures { (p : ℕ → Bool) → Picks (F.post picks) p → result ≡ lightest self p 16 }
    {
        // A `fold` whose closure holds this `if` says no more; with `filter` before it the proof did not close.
        let mut found = None;
        for edge in 0..SLOTS {
            if picks(edge) {
                found = self.lighter_of(edge, found);
            }
        }
        found
    }
}
