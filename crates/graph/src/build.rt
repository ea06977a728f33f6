// A list of edges is built one edge at a time: each is taken, or refused and nothing changes.
ghost use Rattle.std.specs.Prelude.{◌≡◌, ◌<◌, vec_len, slice_index_or};
ghost use Rattle.arrayvec.specs.ArrayVec.{array_vec_len};
ghost use Rattle.graph.specs.Build.{Grows, Started, Added};
ghost use Rattle.graph.specs.Edges.{alone};
ghost use Rattle.graph.specs.Faults.{edge_fault, unless_fault};
ghost use Rattle.graph.specs.Lists.{edges_of};

use crate::edge::{Neighbour, WeightedEdge};
use crate::edge_list::EdgeList;
use crate::fault::Fault;
use arrayvec::ArrayVec;
use std::alloc::Global;

// Node `at` has one neighbour more.
fn grow(adjacent: &mut Vec<ArrayVec<Neighbour, 16>>, at: usize, node: usize, weight: u32)
    requires within { at < vec_len adjacent.old }
    requires room { array_vec_len (slice_index_or adjacent.old.items at alone) < 16 }
    ensures { Grows adjacent.old.items adjacent.new.items at (record { node = node; weight = weight }) }
{
    adjacent[at].push(Neighbour { node, weight });
}

impl EdgeList {
    // Nodes and no edges yet.
    pub fn new(heap: Global, nodes: usize) -> Result<EdgeList, Fault>
        ensures { Started nodes result }
    {
        if !(1..=256).contains(&nodes) {
            return Err(Fault::CountOutOfRange);
        }
        let adjacent = vec![in heap; ArrayVec::new(); nodes]?;
        Ok(EdgeList {
            nodes,
            edges: Vec::new(heap),
            adjacent,
        })
    }

    // Would an edge be taken, but for want of memory?
    pub fn admits(&self, e: WeightedEdge) -> Result<(), Fault>
        ensures { result ≡ unless_fault (edge_fault self.now.nodes (edges_of self.now) e) }
    {
        if e.a >= self.nodes || e.b >= self.nodes {
            return Err(Fault::NodeOutOfRange);
        }
        if e.a == e.b {
            return Err(Fault::OwnNode);
        }
        if !(1..=1_000_000).contains(&e.weight) {
            return Err(Fault::WeightOutOfRange);
        }
        if self.weight(e.a, e.b).is_some() {
            return Err(Fault::EdgeTwice);
        }
        if self.has_weight(e.weight) {
            return Err(Fault::WeightTwice);
        }
        if self.neighbours(e.a).len() >= 16 || self.neighbours(e.b).len() >= 16 {
            return Err(Fault::TooManyEdges);
        }
        Ok(())
    }

    // One edge more, behind the others.
    pub fn add(&mut self, e: WeightedEdge) -> Result<(), Fault>
        ensures { Added self.old self.new e result }
    {
        self.admits(e)?;
        self.edges.push(e)?;
        grow(&mut self.adjacent, e.a, e.b, e.weight);
        grow(&mut self.adjacent, e.b, e.a, e.weight);
        Ok(())
    }
}
