// Marks beside the edges of a list, each at the place of its edge: two bytes an edge.
ghost use Rattle.graph.specs.Edges.{between};
ghost use Rattle.graph.specs.Lists.{edges_of, graph_of};
ghost use Rattle.graph.specs.Marks.{Judged, marks_with, unmarked, with_marks};
ghost use Rattle.std.specs.Prelude.{◌≡◌, length, position, replicate, IfOk, slice_index_or};

use crate::edge::WeightedEdge;
use crate::edge_list::EdgeList;
use crate::mark::{EndMarks, Mark, MarkLine, MarkedEdge};
use std::alloc::{AllocError, Global};

// No end has decided yet.
const UNMARKED: EndMarks = EndMarks {
    a: Mark::Basic,
    b: Mark::Basic,
};

// The marks at a place; past their end nothing is decided.
fn marks_at(marks: &[EndMarks], place: usize) -> EndMarks
    ensures { result ≡ slice_index_or marks.now place unmarked }
{
    marks.get(place).copied().unwrap_or(UNMARKED)
}

// The place of the first edge between two nodes.
fn place_of(edges: &[WeightedEdge], at: usize, to: usize) -> Option<usize>
    ensures { result ≡ position (λ e. between e at to) edges.now }
{
    edges.iter().position(|e| e.joins(at, to))
}

impl EdgeList {
    // Marks for all edges, none decided yet.
    pub fn unmarked(&self, heap: Global) -> Result<Vec<EndMarks>, AllocError>
        ensures { IfOk result (λ v. v.items ≡ replicate (length (edges_of self.now)) unmarked) }
    {
        vec![in heap; UNMARKED; self.edges().len()]
    }

    // Sets the mark of the edge between `at` and `to` at its end `at`. Where there is no such edge, or no mark at its
    // place, nothing changes.
    pub fn set_mark(&self, marks: &mut [EndMarks], at: usize, to: usize, mark: Mark)
        ensures { marks.new ≡ marks_with (edges_of self.now) marks.old (record { at = at; to = to; mark = mark }) }
    {
        let Some(place) = place_of(self.edges(), at, to) else {
            return;
        };
        // No `get_mut`: what a slice holds after it can't be proved.
        if place < marks.len() {
            let mut marked = MarkedEdge {
                edge: self.edges()[place],
                ends: marks[place],
            };
            marked.set(MarkLine { at, to, mark });
            marks[place] = marked.ends;
        }
    }

    // None where these edges, each with the marks at its place, are all marked right, else the lightest that is not.
    fn lightest_of(&self, edges: &[WeightedEdge], marks: &[EndMarks]) -> Option<WeightedEdge>
        ensures { Judged (graph_of self.now) (with_marks edges.now marks.now) result }
    {
        edges
            .iter()
            .enumerate()
            .map(|(place, edge)| MarkedEdge {
                edge: *edge,
                ends: marks_at(marks, place),
            })
            .filter(|m| self.wrong(m))
            .map(|m| m.edge)
            .min_by_key(|e| e.weight)
    }

    // None where all edges of the list are marked right at both ends, else the lightest that is not.
    pub fn verdict(&self, marks: &[EndMarks]) -> Option<WeightedEdge>
        ensures { Judged (graph_of self.now) (with_marks (edges_of self.now) marks.now) result }
    {
        self.lightest_of(self.edges(), marks)
    }
}
