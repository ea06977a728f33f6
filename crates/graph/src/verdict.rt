// Are the edges marked as the lightest net has them?
ghost use Rattle.graph.specs.Edges.{between};
ghost use Rattle.graph.specs.Lists.{edges_of, graph_of};
ghost use Rattle.graph.specs.Marks.{Right, TellsWrong, Judged, marked, fresh};
ghost use Rattle.std.specs.Prelude.{◌≡◌, map, position, IfOk, Decides};

use crate::edge::WeightedEdge;
use crate::edge_list::EdgeList;
use crate::mark::{EndMarks, Mark, MarkLine, MarkedEdge};
use std::alloc::{AllocError, Global};

impl EdgeList {
    // Is an edge marked right at both ends?
    pub fn right(&self, e: WeightedEdge, m: EndMarks) -> bool
        ensures { Decides result (Right (graph_of self.now) e m) }
    {
        if self.belongs(e.a, e.b) {
            m.both(Mark::Branch)
        } else {
            m.both(Mark::Rejected)
        }
    }

    // Is it marked wrong at one end at least?
    pub(crate) fn wrong(&self, m: &MarkedEdge) -> bool
        ensures { TellsWrong (graph_of self.now) m.now result }
    {
        !self.right(m.edge, m.ends)
    }

    // None where all of these are marked right at both ends, else the lightest that is not.
    pub fn lightest_wrong(&self, edges: &[MarkedEdge]) -> Option<WeightedEdge>
        ensures { Judged (graph_of self.now) edges.now result }
    {
        edges
            .iter()
            .filter(|m| self.wrong(m))
            .map(|m| m.edge)
            .min_by_key(|e| e.weight)
    }
}

// The place of the first edge between two nodes.
fn place_of(edges: &[MarkedEdge], at: usize, to: usize) -> Option<usize>
    ensures { result ≡ position (λ m. between m.edge at to) edges.now }
{
    edges.iter().position(|m| m.edge.joins(at, to))
}

// All edges, and no end has decided yet.
fn fresh(heap: Global, edges: &[WeightedEdge]) -> Result<Vec<MarkedEdge>, AllocError>
    ensures { IfOk result (λ v. v.items ≡ fresh edges.now) }
{
    let ends = EndMarks {
        a: Mark::Basic,
        b: Mark::Basic,
    };
    edges
        .iter()
        .map(|e| MarkedEdge { edge: *e, ends })
        .collect(heap)
}

// The edges of a list, and their marks.
#[derive(Drop)]
pub struct Marks<'a> {
    list: &'a EdgeList,
    edges: Vec<MarkedEdge>,
    ghost same: { map (λ m. m.edge) edges.items ≡ edges_of list.now },
}

impl<'a> Marks<'a> {
    // No end has decided yet.
    pub fn new(heap: Global, list: &'a EdgeList) -> Result<Marks<'a>, AllocError>
        ensures { IfOk result (λ m. (m.list.now ≡ list.now) × (m.edges.items ≡ fresh (edges_of list.now))) }
    {
        let edges = fresh(heap, list.edges())?;
        Ok(Marks { list, edges })
    }

    // The edges as they are marked.
    pub fn edges(&self) -> &[MarkedEdge]
        ensures { result.now ≡ self.now.edges.items }
    {
        self.edges.as_slice()
    }

    // Sets the mark of the edge between `at` and `to` at its end `at`; where there is no such edge nothing changes.
    pub fn set(&mut self, line: MarkLine)
        ensures list { self.new.list.now ≡ self.old.list.now }
        ensures marks { self.new.edges.items ≡ marked self.old.edges.items line }
    {
        if let Some(i) = place_of(&self.edges, line.at, line.to) {
            self.edges[i].set(line);
        }
    }

    // None where all edges are marked right at both ends, else the lightest that is not.
    pub fn verdict(&self) -> Option<WeightedEdge>
        ensures { Judged (graph_of self.now.list.now) self.now.edges.items result }
    {
        self.list.lightest_wrong(&self.edges)
    }
}
