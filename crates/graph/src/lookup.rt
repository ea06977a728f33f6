// What a list of edges answers.
ghost use Rattle.graph.specs.Edges.{between, weight_in, has_weight, neighbours_of};
ghost use Rattle.graph.specs.Lists.{edges_of, some_weight};
ghost use Rattle.std.specs.List.{find};
ghost use Rattle.std.specs.Option.{option_map};
ghost use Rattle.std.specs.Prelude.{◌≡◌};

use crate::edge::{Neighbour, WeightedEdge};
use crate::edge_list::EdgeList;

// The weight of the first edge between two nodes.
fn weight_between(edges: &[WeightedEdge], a: usize, b: usize) -> Option<u32>
    ensures { result ≡ option_map (λ e. e.weight) (find (λ e. between e a b) edges.now) }
{
    edges.iter().find(|e| e.joins(a, b)).map(|e| e.weight)
}

impl EdgeList {
    // How many nodes the graph has.
    pub fn nodes(&self) -> usize
        ensures { result ≡ self.now.nodes }
    {
        self.nodes
    }

    // The edges, in the order in which they came.
    pub fn edges(&self) -> &[WeightedEdge]
        ensures { result.now ≡ edges_of self.now }
    {
        self.edges.as_slice()
    }

    // The weight of the edge between two nodes.
    pub fn weight(&self, a: usize, b: usize) -> Option<u32>
        ensures { result ≡ some_weight (weight_in (edges_of self.now) a b) }
    {
        weight_between(&self.edges, a, b)
    }

    // Has some edge this weight?
    pub(crate) fn has_weight(&self, weight: u32) -> bool
        ensures { result ≡ has_weight (edges_of self.now) weight }
    {
        self.edges.iter().any(|e| e.weight == weight)
    }

    // The neighbours of a node, in the order of its edges. A `match`, since `map_or` takes no `&[]` for a slice.
    pub fn neighbours(&self, node: usize) -> &[Neighbour]
        ensures { result.now ≡ neighbours_of (edges_of self.now) node }
    {
        match self.adjacent.get(node) {
            Some(neighbours) => neighbours.as_slice(),
            None => &[],
        }
    }
}
