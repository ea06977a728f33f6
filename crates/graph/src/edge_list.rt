// The edges of a graph, in the order in which they came, and beside them the neighbours of each node.
ghost use Rattle.graph.specs.Edges.{Sound, Beside};

use crate::edge::{Neighbour, WeightedEdge};
use arrayvec::ArrayVec;

// A list of edges is sound: every function that changes one shows it again. `nodes` is how many `adjacent` has: the
// definitions of a graph speak of it.
#[derive(Drop)]
pub struct EdgeList {
    pub(crate) nodes: usize,
    pub(crate) edges: Vec<WeightedEdge>,
    pub(crate) adjacent: Vec<ArrayVec<Neighbour, 16>>,
    ghost sound: { Sound nodes edges.items },
    ghost beside: { Beside nodes edges.items adjacent.items },
}
