// Edges, and what a node knows of its own.
ghost use Rattle.std.specs.Prelude.{◌≡◌, nat_lt};
ghost use Rattle.graph.specs.Edges.{between};

// An edge between two nodes.
#[derive(Clone, Copy, PartialEq, Eq, Debug)]
pub struct WeightedEdge {
    pub a: usize,
    pub b: usize,
    pub weight: u32,
}

impl WeightedEdge {
    // Does it run between these two nodes, in either direction? Two numbers and no pair: who asks has them apart.
    pub fn joins(&self, a: usize, b: usize) -> bool
        ensures { result ≡ between self.now a b }
    {
        self.a == a && self.b == b || self.a == b && self.b == a
    }
}

// The other end of an edge, as one end sees it.
#[derive(Clone, Copy, PartialEq, Eq, Debug, Default)]
pub struct Neighbour {
    pub node: usize,
    pub weight: u32,
}

impl Neighbour {
    // Is its edge lighter than this weight?
    pub(crate) fn lighter(&self, than: u32) -> bool
        ensures { result ≡ nat_lt self.now.weight than }
    {
        self.weight < than
    }
}
