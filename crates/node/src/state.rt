// What a node holds, and what comes of a message.
ghost use Rattle.std.specs.Prelude.{◌≡◌, ◌<◌, ◌≤◌, length, MatchOption};
ghost use Rattle.node.specs.Laws.{best_edge};
ghost use Rattle.node.specs.Rules.{fresh, phase_of, status_of, best_weight};

use graph::mark::Mark;
use message::{Message, Phase, Refusal};

// The most edges that a node can have.
pub const SLOTS: usize = 16;

#[derive(Clone, Copy, Debug, PartialEq, Eq)]
pub enum Status {
    Sleeping,
    Find,
    Found,
}

// What a node says of its status to those that join it.
impl From<Status> for Phase {
    ghost from_gives = { λ status r. r ≡ phase_of status };

    fn from(status: Status) -> Phase {
        match status {
            Status::Find => Phase::Find,
            Status::Found | Status::Sleeping => Phase::Found,
        }
    }
}

impl From<Phase> for Status {
    ghost from_gives = { λ phase r. r ≡ status_of phase };

    fn from(phase: Phase) -> Status {
        match phase {
            Phase::Find => Status::Find,
            Phase::Found => Status::Found,
        }
    }
}

// The lightest outgoing edge heard of at this level: its weight, and the node's own edge that leads to it; or none.
// An enum of its own by a rule of the project: a node has the best edge and its weight, or none.
#[derive(Clone, Copy, Debug, PartialEq, Eq)]
pub enum Best {
    Nothing,
    Over { edge: usize, weight: u32 },
}

impl Best {
    // The node's own edge, if there is one.
    pub fn edge(self) -> Option<usize>
        ensures { result ≡ best_edge self }
    {
        match self {
            Best::Nothing => None,
            Best::Over { edge, .. } => Some(edge),
        }
    }

    // The weight of the lightest outgoing edge, if there is one.
    pub fn weight(self) -> Option<u32>
        ensures { result ≡ best_weight self }
    {
        match self {
            Best::Nothing => None,
            Best::Over { weight, .. } => Some(weight),
        }
    }
}

// A node has arrays of sixteen marks and weights by a rule of the project. `edges` of the sixteen places are in use.
// `find_count`: how many have still to report. `parent`: the edge towards the core of the fragment. `testing`: the
// edge asked about. `halted`: it knows that the net is complete.
#[derive(Clone, Copy)]
pub struct Node {
    pub status: Status,
    pub edges: usize,
    pub weights: [u32; SLOTS],
    pub marks: [Mark; SLOTS],
    pub level: u8,
    pub name: u32,
    pub find_count: u8,
    pub parent: Option<usize>,
    pub best: Best,
    pub testing: Option<usize>,
    pub halted: bool,
}

// At most one message over each edge: an array, since a node is handed back with what it sends, a rule of the project.
pub type Sends = [Option<Message>; SLOTS];

// A node after a step, and what it sends.
#[derive(Clone, Copy)]
pub struct Turn {
    pub node: Node,
    pub sends: Sends,
}

// What comes of a message: it is taken; or put back behind the others of its edge; or turned away. No Result: by a rule
// of the project each of the three hands the node back.
#[derive(Clone, Copy)]
pub enum Taking {
    Taken(Turn),
    Deferred(Node),
    Refused(Node, Refusal),
}

impl Node {
    // A sleeping node with edges of these weights; none where these are more than sixteen.
    pub fn new(weights: &[u32]) -> Option<Node>
        ensures { MatchOption result (16 < length weights.now) (λ n. (length weights.now ≤ 16) × (n ≡ fresh weights.now)) }
    {
        if weights.len() > SLOTS {
            return None;
        }
        let mut places = [0; SLOTS];
        places[..weights.len()].copy_from_slice(weights);
        Some(Node {
            status: Status::Sleeping,
            edges: weights.len(),
            weights: places,
            marks: [Mark::Basic; SLOTS],
            level: 0,
            name: 0,
            find_count: 0,
            parent: None,
            best: Best::Nothing,
            testing: None,
            halted: false,
        })
    }
}
