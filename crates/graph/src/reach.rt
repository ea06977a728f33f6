// Which nodes are joined by lighter edges, by recursion on the nodes not seen yet.
ghost use Rattle.std.specs.Prelude.{◌≡◌, ℕ, ◌<◌, ◌≤◌, false, Decides, slice_index_or};
ghost use Rattle.std.specs.List.{list_all};
ghost use Rattle.graph.specs.Graph.{Joined, Belongs, Connected};
ghost use Rattle.graph.specs.Lists.{graph_of};
ghost use Rattle.graph.specs.Reach.{Visited};

use crate::edge_list::EdgeList;

// What is seen stands in an array: joining is asked where nothing may fail, and a `Vec` could.

// Are all of these nodes seen?
fn all_seen(seen: &[bool]) -> bool
    ensures { result ≡ list_all (λ s. s) seen.now }
{
    seen.iter().all(|s| *s)
}

impl EdgeList {
    // Sees a node, and all that lighter edges join to it by way of nodes not seen yet. By recursion, a rule of the project.
    fn visit(&self, under: u32, at: usize, seen: &mut [bool; 256])
        requires inside { at < self.now.nodes }
        requires fresh { slice_index_or seen.old at false ≡ false }
        ensures { Visited (graph_of self.now) under at seen.old seen.new }
    {
        seen[at] = true;
        for n in self.neighbours(at) {
            if n.lighter(under) && !seen[n.node] {
                self.visit(under, n.node, seen);
            }
        }
    }

    // Are two nodes joined by edges that are all lighter than a weight?
    pub fn joined(&self, under: u32, a: usize, b: usize) -> bool
        ensures { Decides result (Joined (graph_of self.now) under a b) }
    {
        if a == b {
            return true;
        }
        if a >= self.nodes || b >= self.nodes {
            return false;
        }
        let mut seen = [false; 256];
        self.visit(under, a, &mut seen);
        seen[b]
    }

    // Does the edge between two nodes belong to the lightest net?
    pub fn belongs(&self, a: usize, b: usize) -> bool
        ensures { Decides result (Belongs (graph_of self.now) a b) }
    {
        let Some(weight) = self.weight(a, b) else {
            return false;
        };
        !self.joined(weight, a, b)
    }

    // Can all nodes be joined? No weight is as great as the greatest number of 32 bits.
    pub fn connected(&self) -> bool
        ensures { Decides result (Connected (graph_of self.now)) }
    {
        let mut seen = [false; 256];
        self.visit(u32::MAX, 0, &mut seen);
        all_seen(&seen[..self.nodes])
    }
}
