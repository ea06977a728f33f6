// One node, by examples.
use super::{Best, Mark, Node, Sends, Status, Taking, Turn};
use message::{Message, Phase, Refusal};
use std::test::Fail;

const INITIATE: Message = Message::Initiate {
    level: 1,
    name: 3,
    phase: Phase::Find,
};

const NONE: Message = Message::Report { best: None };

fn woken(weights: &[u32]) -> Result<Turn, &'static str> {
    let node = Node::new(weights).ok_or("more than sixteen edges")?;
    Ok(node.wake())
}

// The turn of a node that takes the message. These have no contract, so that a test's proof has only its own lines to follow.
fn taken(node: Node, edge: usize, message: Message) -> Result<Turn, &'static str> {
    match node.take(edge, message) {
        Taking::Taken(turn) => Ok(turn),
        Taking::Deferred(_) => Err("deferred"),
        Taking::Refused(_, _) => Err("refused"),
    }
}

fn is_deferred(node: Node, edge: usize, message: Message) -> bool {
    matches!(node.take(edge, message), Taking::Deferred(_))
}

fn is_out_of_place(node: Node, edge: usize, message: Message) -> bool {
    matches!(
        node.take(edge, message),
        Taking::Refused(_, Refusal::OutOfPlace)
    )
}

fn has_no_edge(node: Node, edge: usize, message: Message) -> bool {
    matches!(
        node.take(edge, message),
        Taking::Refused(_, Refusal::NoSuchEdge)
    )
}

// What goes over one edge, if nothing goes over any other.
fn only_over(sends: Sends, edge: usize) -> Option<Message> {
    let mut others = sends.iter().enumerate().filter(|(k, _)| *k != edge);
    if others.any(|(_, sent)| sent.is_some()) {
        return None;
    }
    *sends.get(edge)?
}

fn is_silent(sends: Sends) -> bool {
    sends.iter().all(|sent| sent.is_none())
}

fn reports_none(turn: Turn, edge: usize) -> bool {
    matches!(
        only_over(turn.sends, edge),
        Some(Message::Report { best: None })
    )
}

fn is_find(node: Node) -> bool {
    node.status == Status::Find
}

#[test]
fn wakes_alone(rt: HostRuntime) -> Result<(), Fail> {
    let turn = woken(&[])?;
    assert!(rt; turn.node.halted);
    assert!(rt; is_silent(turn.sends));
    Ok(())
}

#[test]
fn wakes(rt: HostRuntime) -> Result<(), Fail> {
    let turn = woken(&[5, 3])?;
    assert!(rt;
        matches!(
            only_over(turn.sends, 1),
            Some(Message::Connect { level: 0 })
        )
    );
    assert!(rt; turn.node.marks[1] == Mark::Branch);
    assert!(rt; turn.node.marks[0] == Mark::Basic);
    assert!(rt; is_silent(turn.node.wake().sends));
    Ok(())
}

#[test]
fn connects(rt: HostRuntime) -> Result<(), Fail> {
    let mut node = woken(&[5, 3])?.node;
    assert!(rt; is_deferred(node, 0, Message::Connect { level: 0 }));
    let turn = taken(node, 1, Message::Connect { level: 0 })?;
    assert!(rt;
        matches!(
            only_over(turn.sends, 1),
            Some(Message::Initiate {
                level: 1,
                name: 3,
                phase: Phase::Find
            })
        )
    );
    node.level = 8;
    assert!(rt; is_out_of_place(node, 1, Message::Connect { level: 8 }));
    Ok(())
}

#[test]
fn tests_next(rt: HostRuntime) -> Result<(), Fail> {
    let turn = taken(woken(&[5, 3])?.node, 1, INITIATE)?;
    assert!(rt;
        matches!(
            only_over(turn.sends, 0),
            Some(Message::Test { level: 1, name: 3 })
        )
    );
    assert!(rt; turn.node.testing == Some(0));
    assert!(rt; is_find(turn.node));
    Ok(())
}

#[test]
fn is_tested(rt: HostRuntime) -> Result<(), Fail> {
    let node = woken(&[5, 3, 7])?.node;
    assert!(rt; is_deferred(node, 0, Message::Test { level: 1, name: 9 }));
    let node = taken(node, 1, INITIATE)?.node;
    let turn = taken(node, 2, Message::Test { level: 1, name: 9 })?;
    assert!(rt; matches!(only_over(turn.sends, 2), Some(Message::Accept)));
    let turn = taken(node, 2, Message::Test { level: 1, name: 3 })?;
    assert!(rt; matches!(only_over(turn.sends, 2), Some(Message::Reject)));
    assert!(rt; turn.node.marks[2] == Mark::Rejected);
    Ok(())
}

// A test of its own fragment over the edge that it tests is the answer.
#[test]
fn tests_cross(rt: HostRuntime) -> Result<(), Fail> {
    let node = taken(woken(&[5, 3])?.node, 1, INITIATE)?.node;
    let turn = taken(node, 0, Message::Test { level: 1, name: 3 })?;
    assert!(rt; reports_none(turn, 1));
    Ok(())
}

#[test]
fn refuses(rt: HostRuntime) -> Result<(), Fail> {
    let node = woken(&[5, 3])?.node;
    assert!(rt; is_out_of_place(node, 1, Message::Accept));
    assert!(rt; is_out_of_place(node, 1, Message::Change));
    assert!(rt; has_no_edge(node, 2, Message::Accept));
    assert!(rt; has_no_edge(node, 16, Message::Accept));
    Ok(())
}

// A test of a higher level waits; the report behind it is taken first.
#[test]
fn report_overtakes(rt: HostRuntime) -> Result<(), Fail> {
    let mut node = woken(&[5, 3])?.node;
    node.status = Status::Find;
    node.find_count = 1;
    assert!(rt; is_deferred(node, 1, Message::Test { level: 1, name: 9 }));
    let report = Message::Report { best: Some(9) };
    let turn = taken(node, 1, report)?;
    assert!(rt; turn.node.find_count == 0);
    assert!(rt; matches!(turn.node.best, Best::Over { edge: 1, weight: 9 }));
    Ok(())
}

// With nobody to wait for, a report leaves the count at 0.
#[test]
fn count_stays(rt: HostRuntime) -> Result<(), Fail> {
    let node = woken(&[5, 3])?.node;
    assert!(rt; taken(node, 1, NONE)?.node.find_count == 0);
    Ok(())
}

#[test]
fn halts(rt: HostRuntime) -> Result<(), Fail> {
    let turn = taken(woken(&[3])?.node, 0, INITIATE)?;
    assert!(rt; reports_none(turn, 0));
    assert!(rt; !is_find(turn.node));
    let last = taken(turn.node, 0, NONE)?;
    assert!(rt; last.node.halted);
    assert!(rt; is_silent(last.sends));
    Ok(())
}
