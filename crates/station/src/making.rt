// A station is made from the neighbours of its node.
ghost use Rattle.std.specs.Prelude.{◌≡◌, map, IfOk};
ghost use Rattle.std.specs.Result.{result_err};
ghost use Rattle.link.specs.Ends.{end_of, new_end};
ghost use Rattle.station.specs.Making.{neighbour_fault, station_fault, Made};

use super::state::Station;
use graph::edge::Neighbour;
use graph::fault::Fault;
use link::Link;
use node::Node;
use std::alloc::{AllocError, Global};

// Can a node have this neighbour behind others?
fn check_neighbour(number: usize, earlier: &[Neighbour], neighbour: Neighbour) -> Result<(), Fault>
    ensures { result_err result ≡ neighbour_fault number earlier.now neighbour }
{
    if neighbour.node >= 256 {
        return Err(Fault::NodeOutOfRange);
    }
    if neighbour.node == number {
        return Err(Fault::OwnNode);
    }
    if !(1..=1_000_000).contains(&neighbour.weight) {
        return Err(Fault::WeightOutOfRange);
    }
    if earlier.iter().any(|other| other.node == neighbour.node) {
        return Err(Fault::EdgeTwice);
    }
    if earlier.iter().any(|other| other.weight == neighbour.weight) {
        return Err(Fault::WeightTwice);
    }
    Ok(())
}

// Can a station be made of these?
fn check_station(number: usize, neighbours: &[Neighbour]) -> Result<(), Fault>
    ensures { result_err result ≡ station_fault number neighbours.now }
{
    if number >= 256 {
        return Err(Fault::NodeOutOfRange);
    }
    if neighbours.len() > 16 {
        return Err(Fault::TooManyEdges);
    }
    // Each is looked at beside those before it.
    for (place, neighbour) in neighbours.iter().enumerate() {
        check_neighbour(number, &neighbours[..place], *neighbour)?;
    }
    Ok(())
}

// The weights of the edges, in order.
fn weights_of(heap: Global, neighbours: &[Neighbour]) -> Result<Vec<u32>, AllocError>
    ensures { IfOk result (λ v. v.items ≡ map (λ n. n.weight) neighbours.now) }
{
    neighbours
        .iter()
        .map(|neighbour| neighbour.weight)
        .collect(heap)
}

// A link for each, over which nothing was sent.
fn links_of(heap: Global, neighbours: &[Neighbour]) -> Result<Vec<Link>, AllocError>
    ensures { IfOk result (λ v. map end_of v.items ≡ map (λ n. new_end n.node) neighbours.now) }
{
    neighbours
        .iter()
        .map(|neighbour| Link::new(heap, neighbour.node))
        .collect(heap)
}

impl Station {
    // A station that sleeps, with links to these neighbours. Number and neighbours come in no struct, which would be made
    // only to be taken apart.
    pub fn new(heap: Global, number: usize, neighbours: &[Neighbour]) -> Result<Station, Fault>
        ensures { Made number neighbours.now result }
    {
        check_station(number, neighbours)?;
        let weights = weights_of(heap, neighbours)?;
        Ok(Station {
            number,
            node: Node::new(&weights).ok_or(Fault::TooManyEdges)?,
            links: links_of(heap, neighbours)?,
        })
    }
}
