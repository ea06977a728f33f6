// What a node does when it wakes, and with each message.
ghost use Rattle.std.specs.Prelude.{◌≡◌};
ghost use Rattle.node.specs.Rules.{wakes, reports, tests, changes, changes_by, goes_on, onward, branches_but, better_by, silent, turn, sending, absorbs, merges, takes_connect, takes_initiate, takes_test, takes_accept, takes_reject, takes_child_report, decides, follows, takes};

use super::edges::{is_lighter, send};
use super::state::{Best, Node, SLOTS, Sends, Status, Taking, Turn};
use graph::mark::Mark;
use message::{Message, Phase, Refusal, TOP_LEVEL};

// Nothing over any edge.
const SILENT: Sends = [None; SLOTS];

impl Best {
    // What an edge leads to, if that is lighter.
    fn better_by(self, edge: usize, outgoing: Option<u32>) -> Best
        ensures { result ≡ better_by edge outgoing self }
    {
        match outgoing {
            Some(weight) if is_lighter(outgoing, self.weight()) => Best::Over { edge, weight },
            _ => self,
        }
    }
}

impl Node {
    // This node, and nothing to send.
    fn silent(self) -> Turn
        ensures { result ≡ turn self silent }
    {
        Turn {
            node: self,
            sends: SILENT,
        }
    }

    // This node, and one message to send.
    fn sends(self, edge: usize, message: Message) -> Turn
        ensures { result ≡ turn self (sending edge message silent) }
    {
        Turn {
            node: self,
            sends: send(SILENT, edge, message),
        }
    }

    // A sleeping node wakes: its lightest edge becomes a branch, and it connects over it. One that is awake does nothing.
    pub fn wake(mut self) -> Turn
        ensures { result ≡ wakes self }
    {
        if self.status != Status::Sleeping {
            return self.silent();
        }
        let lightest = self.lightest(|edge| self.has_edge(edge));
        self.status = Status::Found;
        self.level = 0;
        self.find_count = 0;
        match lightest {
            None => {
                self.halted = true;
                self.silent()
            }
            Some(edge) => {
                let node = self.with_branch(edge);
                node.sends(edge, Message::Connect { level: 0 })
            }
        }
    }

    // Once it waits for nobody and tests nothing it has found, and tells its parent.
    fn report_if_ready(mut self, sends: Sends) -> Turn
        ensures { result ≡ reports self sends }
    {
        if self.find_count != 0 || self.testing.is_some() {
            return Turn { node: self, sends };
        }
        self.status = Status::Found;
        let best = self.best.weight();
        match self.parent {
            None => Turn { node: self, sends },
            Some(edge) => Turn {
                node: self,
                sends: send(sends, edge, Message::Report { best }),
            },
        }
    }

    // It tests its lightest basic edge; if there is none, it reports if it may.
    fn test_next(mut self, sends: Sends) -> Turn
        ensures { result ≡ tests self sends }
    {
        self.testing = self.lightest(|edge| self.has_edge(edge) && self.mark(edge) == Mark::Basic);
        let test = Message::Test {
            level: self.level,
            name: self.name,
        };
        match self.testing {
            None => self.report_if_ready(sends),
            Some(edge) => Turn {
                node: self,
                sends: send(sends, edge, test),
            },
        }
    }

    // Towards the best edge: the word is passed on, or the fragment connects.
    fn change_root(self, edge: usize) -> Turn
        ensures { result ≡ changes edge self }
    {
        if self.mark(edge) == Mark::Branch {
            return self.sends(edge, Message::Change);
        }
        let connect = Message::Connect { level: self.level };
        self.with_branch(edge).sends(edge, connect)
    }

    // A fragment of a lower level joins this one; a node that searches waits for one more.
    fn absorb(mut self, edge: usize) -> Taking
        ensures { result ≡ absorbs edge self }
    {
        let joiners = u8::from(self.status == Status::Find);
        let Some(count) = self.find_count.checked_add(joiners) else {
            return Taking::Refused(self, Refusal::OutOfPlace);
        };
        self.find_count = count;
        let initiate = Message::Initiate {
            level: self.level,
            name: self.name,
            phase: Phase::from(self.status),
        };
        Taking::Taken(self.with_branch(edge).sends(edge, initiate))
    }

    // Two fragments of one level that chose the same edge become one of the next level, named by that edge.
    fn merge(self, edge: usize) -> Taking
        ensures { result ≡ merges edge self }
    {
        if self.mark(edge) == Mark::Basic {
            return Taking::Deferred(self);
        }
        if self.level >= TOP_LEVEL {
            return Taking::Refused(self, Refusal::OutOfPlace);
        }
        let initiate = Message::Initiate {
            level: self.level + 1,
            name: self.weight(edge),
            phase: Phase::Find,
        };
        Taking::Taken(self.sends(edge, initiate))
    }

    fn take_connect(self, edge: usize, level: u8) -> Taking
        ensures { result ≡ takes_connect edge level self }
    {
        let is_lower = level < self.level;
        if is_lower {
            self.absorb(edge)
        } else {
            self.merge(edge)
        }
    }

    fn goes_on(self, from: usize, edge: usize) -> bool
        ensures { result ≡ goes_on self from edge }
    {
        edge != from && self.has_edge(edge) && self.mark(edge) == Mark::Branch
    }

    // The message over all branches but one, and how many these are. A loop over the edges that sends and counts, by a
    // rule of the project.
    fn pass_on(self, from: usize, message: Message) -> (Sends, u8)
        ensures sent { result.0 ≡ onward self from message 16 }
        ensures counted { result.1 ≡ branches_but self from 16 }
    {
        let mut sends = SILENT;
        let mut count = 0u8;
        for edge in 0..SLOTS {
            if self.goes_on(from, edge) {
                sends[edge] = Some(message);
                count += 1;
            }
        }
        (sends, count)
    }

    fn take_initiate(self, edge: usize, level: u8, name: u32, phase: Phase) -> Taking
        ensures { result ≡ takes_initiate edge level name phase self }
    {
        let (sends, branches) = self.pass_on(edge, Message::Initiate { level, name, phase });
        let mut node = Node {
            status: Status::from(phase),
            level,
            name,
            parent: Some(edge),
            best: Best::Nothing,
            ..self
        };
        match phase {
            Phase::Find => {
                let Some(count) = self.find_count.checked_add(branches) else {
                    return Taking::Refused(self, Refusal::OutOfPlace);
                };
                node.find_count = count;
                Taking::Taken(node.test_next(sends))
            }
            Phase::Found => Taking::Taken(Turn { node, sends }),
        }
    }

    fn take_test(self, edge: usize, level: u8, name: u32) -> Taking
        ensures { result ≡ takes_test edge level name self }
    {
        if level > self.level {
            return Taking::Deferred(self);
        }
        if name != self.name {
            return Taking::Taken(self.sends(edge, Message::Accept));
        }
        let node = self.reject(edge);
        Taking::Taken(if self.testing == Some(edge) {
            node.test_next(SILENT)
        } else {
            node.sends(edge, Message::Reject)
        })
    }

    fn take_accept(mut self, edge: usize) -> Taking
        ensures { result ≡ takes_accept edge self }
    {
        if self.testing != Some(edge) {
            return Taking::Refused(self, Refusal::OutOfPlace);
        }
        self.testing = None;
        self.best = self.best.better_by(edge, Some(self.weight(edge)));
        Taking::Taken(self.report_if_ready(SILENT))
    }

    fn take_reject(self, edge: usize) -> Taking
        ensures { result ≡ takes_reject edge self }
    {
        if self.testing != Some(edge) {
            return Taking::Refused(self, Refusal::OutOfPlace);
        }
        Taking::Taken(self.reject(edge).test_next(SILENT))
    }

    // From elsewhere than the parent: one less to wait for.
    fn take_child_report(mut self, edge: usize, best: Option<u32>) -> Taking
        ensures { result ≡ takes_child_report edge best self }
    {
        self.find_count = self.find_count.saturating_sub(1);
        self.best = self.best.better_by(edge, best);
        Taking::Taken(self.report_if_ready(SILENT))
    }

    fn take_change(self) -> Taking
        ensures { result ≡ changes_by self.best self }
    {
        match self.best {
            Best::Nothing => Taking::Refused(self, Refusal::OutOfPlace),
            Best::Over { edge, .. } => Taking::Taken(self.change_root(edge)),
        }
    }

    // From the parent, over the core, to a node that has found: the end with the lighter best edge changes root; if
    // neither has one, the net is complete.
    fn decide(mut self, best: Option<u32>) -> Taking
        ensures { result ≡ decides best self }
    {
        let own = self.best.weight();
        if is_lighter(own, best) {
            return self.take_change();
        }
        if own.is_none() && best.is_none() {
            self.halted = true;
        }
        Taking::Taken(self.silent())
    }

    // The rules, row by row: a match over messages and state, a rule of the project. One that sleeps leaves the message until it is awake.
    fn follow_rules(self, edge: usize, message: Message) -> Taking
        ensures { result ≡ follows edge message self }
    {
        let from_parent = self.parent == Some(edge);
        match (message, self.status, from_parent) {
            (_, Status::Sleeping, _) => Taking::Deferred(self),
            (Message::Connect { level }, _, _) => self.take_connect(edge, level),
            (Message::Initiate { level, name, phase }, _, _) => self.take_initiate(
                edge, level, name, phase,
            ),
            (Message::Test { level, name }, _, _) => self.take_test(edge, level, name),
            (Message::Accept, _, _) => self.take_accept(edge),
            (Message::Reject, _, _) => self.take_reject(edge),
            (Message::Report { best }, _, false) => self.take_child_report(edge, best),
            (Message::Report { .. }, Status::Find, true) => Taking::Deferred(self),
            (Message::Report { best }, Status::Found, true) => self.decide(best),
            (Message::Change, _, _) => self.take_change(),
        }
    }

    // What a node does with a message from one of its edges.
    pub fn take(self, edge: usize, message: Message) -> Taking
        ensures { result ≡ takes edge message self }
    {
        if !self.has_edge(edge) {
            return Taking::Refused(self, Refusal::NoSuchEdge);
        }
        if !message.fits() {
            return Taking::Refused(self, Refusal::OutOfPlace);
        }
        self.follow_rules(edge, message)
    }
}
