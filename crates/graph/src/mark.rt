// What the two ends of an edge think of it.
ghost use Rattle.graph.specs.Marks.{Both, with_mark};
ghost use Rattle.std.specs.Prelude.{◌≡◌, Decides};

use crate::edge::WeightedEdge;

// Not decided yet, in the net, or left out of it.
#[derive(Clone, Copy, PartialEq, Eq, Debug)]
pub enum Mark {
    Basic,
    Branch,
    Rejected,
}

// The mark that node `at` has for its edge to node `to`.
#[derive(Clone, Copy, PartialEq, Eq, Debug)]
pub struct MarkLine {
    pub at: usize,
    pub to: usize,
    pub mark: Mark,
}

// The marks of an edge at its ends `a` and `b`.
#[derive(Clone, Copy, PartialEq, Eq, Debug)]
pub struct EndMarks {
    pub a: Mark,
    pub b: Mark,
}

impl EndMarks {
    // Do both ends have this mark?
    pub(crate) fn both(self, mark: Mark) -> bool
        ensures { Decides result (Both self mark) }
    {
        self.a == mark && self.b == mark
    }
}

// An edge with its marks.
#[derive(Clone, Copy, PartialEq, Eq, Debug)]
pub struct MarkedEdge {
    pub edge: WeightedEdge,
    pub ends: EndMarks,
}

impl MarkedEdge {
    // Sets the mark at one end.
    pub(crate) fn set(&mut self, line: MarkLine)
        ensures { self.new ≡ with_mark self.old line }
    {
        if self.edge.a == line.at {
            self.ends.a = line.mark;
        } else {
            self.ends.b = line.mark;
        }
    }
}
