// What a station holds.
ghost use Rattle.std.specs.Prelude.{◌≡◌};
ghost use Rattle.station.specs.State.{state_of};

use link::Link;
use node::Node;
use std::alloc::AllocError;

// Its own number, the node, and a link for each of the node's edges, in the order of the node's places.
// No model: the page makes a station of these fields and the box reads them, so clauses see them through `state_of`.
#[derive(Drop)]
pub struct Station {
    pub number: usize,
    pub node: Node,
    pub links: Vec<Link>,
}

// By hand, since its clause speaks of the state that the copy holds: a derived one speaks of each field.
impl Clone for Station {
    ghost is_clone = { λ s t. state_of t ≡ state_of s };

    fn clone(&self) -> Result<Station, AllocError> {
        Ok(Station {
            number: self.number,
            node: self.node,
            links: self.links.clone()?,
        })
    }
}
