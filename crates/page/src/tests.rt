// A page that comes back, bytes that are no page, and what is kept.
use super::{Unwritten, keep, read, serves, write};
use graph::edge::Neighbour;
use link::Link;
use message::{Message, seal};
use node::{Best, Mark, Node, Status};
use station::{Outcome, Station};
use std::alloc::{AllocError, Global};
use std::test::Fail;

const LINES: [Neighbour; 2] = [
    Neighbour {
        node: 3,
        weight: 1_000_000,
    },
    Neighbour {
        node: 9,
        weight: 70_000,
    },
];

const OTHER_LINES: [Neighbour; 2] = [
    Neighbour {
        node: 3,
        weight: 1_000_000,
    },
    Neighbour {
        node: 9,
        weight: 70_001,
    },
];

// A node that searches, with two edges.
fn sample_node() -> Node {
    let mut weights = [0; 16];
    weights[0] = 1_000_000;
    weights[1] = 70_000;
    let mut marks = [Mark::Basic; 16];
    marks[0] = Mark::Branch;
    Node {
        status: Status::Find,
        edges: 2,
        weights,
        marks,
        level: 1,
        name: 0x0102_0304,
        find_count: 1,
        parent: Some(0),
        best: Best::Over {
            edge: 1,
            weight: 70_000,
        },
        testing: Some(1),
        halted: false,
    }
}

// Station 261, with messages waiting both ways.
fn sample(heap: Global) -> Result<Station, AllocError> {
    let mut first = Link::new(heap, 3);
    first.give(Message::Test {
        level: 1,
        name: 0x0102_0304,
    })?;
    first.give(Message::Change)?;
    let mut second = Link::new(heap, 9);
    second.acknowledged = 65_536;
    second.taken = 4_294_967_295;
    second.inbox.push_back(Message::Report { best: Some(500) })?;
    let links = vec![in heap; first, second]?;
    Ok(Station {
        number: 261,
        node: sample_node(),
        links,
    })
}

fn sample_page(heap: Global) -> Result<Vec<u8>, Fail> {
    let station = sample(heap)?;
    write(heap, &station).map_err(|_| Fail::new("not written"))
}

#[test]
fn a_page_comes_back(rt: HostRuntime) -> Result<(), Fail> {
    let page = sample_page(rt.alloc())?;
    let Ok(station) = read(rt.alloc(), &page) else {
        return Err(Fail::new("not read"));
    };
    let Ok(again) = write(rt.alloc(), &station) else {
        return Err(Fail::new("not written again"));
    };
    assert!(rt; again.as_slice() == page.as_slice());
    assert!(rt; serves(&station, 261, &LINES));
    assert!(rt; !serves(&station, 261, &OTHER_LINES));
    assert!(rt; !serves(&station, 5, &LINES));
    Ok(())
}

#[test]
fn damage_at_any_byte_and_lost_bytes_are_refused(rt: HostRuntime) -> Result<(), Fail> {
    let page = sample_page(rt.alloc())?;
    for place in 0..page.len() {
        let mut damaged = Vec::from_slice(rt.alloc(), &page)?;
        if let Some(byte) = damaged.get_mut(place) {
            *byte ^= 1;
        }
        assert!(rt; read(rt.alloc(), &damaged).is_err());
        assert!(rt; read(rt.alloc(), &page[0..place]).is_err());
    }
    Ok(())
}

#[test]
fn another_version_is_refused_by_6(rt: HostRuntime) -> Result<(), Fail> {
    let mut body = sample_page(rt.alloc())?;
    let _ = body.pop();
    let _ = body.pop();
    if let Some(version) = body.get_mut(4) {
        *version = 2;
    }
    let page = seal(body)?;
    let Err(unread) = read(rt.alloc(), &page) else {
        return Err(Fail::new("read"));
    };
    let Some(refusal) = unread.refusal() else {
        return Err(Fail::new("no memory"));
    };
    assert!(rt; refusal.number() == 6);
    Ok(())
}

fn outcome_of(heap: Global, station: Station) -> Outcome {
    Outcome {
        station,
        sends: Vec::new(heap),
        refusals: Vec::new(heap),
    }
}

#[test]
fn an_outcome_is_kept_with_its_page(rt: HostRuntime) -> Result<(), Fail> {
    let outcome = outcome_of(rt.alloc(), sample(rt.alloc())?);
    let Ok(kept) = keep(rt.alloc(), outcome) else {
        return Err(Fail::new("not kept"));
    };
    assert!(rt; kept.page.as_slice() == sample_page(rt.alloc())?.as_slice());
    assert!(rt; kept.outcome.station.number == 261);
    Ok(())
}

#[test]
fn what_does_not_fit_is_not_kept(rt: HostRuntime) -> Result<(), Fail> {
    let mut station = sample(rt.alloc())?;
    station.number = 65_536;
    let Err(unwritten) = keep(rt.alloc(), outcome_of(rt.alloc(), station)) else {
        return Err(Fail::new("kept"));
    };
    assert!(rt; matches!(unwritten, Unwritten::Full));
    Ok(())
}
