// One station, and all that can come over bad copper: each with the number that it is refused by, and how much is sent.
use super::{Outcome, Station};
use graph::edge::Neighbour;
use graph::fault::Fault;
use std::alloc::Global;
use std::test::Fail;

#[derive(Clone, Copy)]
enum Given {
    Wake,
    Packet(usize, &'static [u8]),
    Answer(usize, &'static [u8]),
}

// What comes, the number of the refusal if there is one, and how many transmissions go out.
#[derive(Clone, Copy)]
struct Row {
    given: Given,
    refused: Option<u8>,
    sends: usize,
}

const CONNECT: &[u8] = &[71, 0, 0, 0, 1, 1, 0, 0, 73];

// The house has lines of 5 to house 1 and of 9 to house 2.
const ROWS: [Row; 15] = [
    // A damaged packet does not wake a sleeper.
    Row {
        given: Given::Packet(1, &[71, 0, 0, 0, 1, 1, 0, 0, 74]),
        refused: Some(1),
        sends: 0,
    },
    Row {
        given: Given::Packet(7, CONNECT),
        refused: Some(4),
        sends: 0,
    },
    // The first packet wakes it: an answer, and its own connect; the initiate waits behind that.
    Row {
        given: Given::Packet(1, CONNECT),
        refused: None,
        sends: 2,
    },
    // Doubled, and from beyond the next number.
    Row {
        given: Given::Packet(1, CONNECT),
        refused: Some(2),
        sends: 1,
    },
    Row {
        given: Given::Packet(1, &[71, 0, 0, 0, 3, 4, 0, 78]),
        refused: Some(2),
        sends: 1,
    },
    // The same packet as an answer, an answer as a packet, a number not waited for, and one where nothing waits.
    Row {
        given: Given::Answer(1, CONNECT),
        refused: Some(1),
        sends: 0,
    },
    Row {
        given: Given::Packet(1, &[72, 0, 0, 0, 1, 0, 73]),
        refused: Some(1),
        sends: 0,
    },
    Row {
        given: Given::Answer(1, &[72, 0, 0, 0, 2, 0, 74]),
        refused: Some(3),
        sends: 0,
    },
    Row {
        given: Given::Answer(2, &[72, 0, 0, 0, 1, 0, 73]),
        refused: Some(3),
        sends: 0,
    },
    Row {
        given: Given::Answer(7, &[72, 0, 0, 0, 1, 0, 73]),
        refused: Some(4),
        sends: 0,
    },
    // The answer that is waited for: the initiate goes out. Late, it is waited for no more.
    Row {
        given: Given::Answer(1, &[72, 0, 0, 0, 1, 0, 73]),
        refused: None,
        sends: 1,
    },
    Row {
        given: Given::Answer(1, &[72, 0, 0, 0, 1, 0, 73]),
        refused: Some(3),
        sends: 0,
    },
    // An accept without a test is taken as nothing, and told.
    Row {
        given: Given::Packet(1, &[71, 0, 0, 0, 2, 4, 0, 77]),
        refused: Some(5),
        sends: 1,
    },
    // Trying again sends the oldest message of each line that has one.
    Row {
        given: Given::Wake,
        refused: None,
        sends: 1,
    },
    // A test of a higher level is kept: only the answer goes out.
    Row {
        given: Given::Packet(2, &[71, 0, 0, 0, 1, 3, 1, 0, 0, 0, 5, 0, 81]),
        refused: None,
        sends: 1,
    },
];

fn house(heap: Global) -> Result<Station, Fail> {
    let neighbours = [
        Neighbour { node: 1, weight: 5 },
        Neighbour { node: 2, weight: 9 },
    ];
    Station::new(heap, 0, &neighbours).map_err(|_| Fail::new("not made"))
}

fn happen(heap: Global, station: &Station, given: Given) -> Result<Outcome, Fail> {
    match given {
        Given::Wake => Ok(station.wake(heap)?),
        Given::Packet(from, bytes) => Ok(station.receive(heap, from, bytes)?),
        Given::Answer(from, bytes) => Ok(station.acknowledge(heap, from, bytes)?),
    }
}

#[test]
fn each_with_its_number(rt: HostRuntime) -> Result<(), Fail> {
    let mut station = house(rt.alloc())?;
    for row in ROWS.iter() {
        let outcome = happen(rt.alloc(), &station, row.given)?;
        let refused = outcome.refusals.first().map(|refusal| refusal.number());
        assert_eq!(rt; refused, row.refused);
        assert!(rt; outcome.refusals.len() <= 1);
        assert_eq!(rt; outcome.sends.len(), row.sends);
        station = outcome.station;
    }
    assert!(rt; station.links.len() == 2);
    assert_eq!(rt; station.links[0].taken, 2);
    assert_eq!(rt; station.links[1].waiting(), 1);
    Ok(())
}

fn fault_of(heap: Global, number: usize, neighbours: &[Neighbour]) -> Option<Fault> {
    Station::new(heap, number, neighbours).err()
}

#[test]
fn neighbours_that_no_house_has(rt: HostRuntime) {
    let heap = rt.alloc();
    let one = Neighbour { node: 1, weight: 5 };
    let far = Neighbour {
        node: 256,
        weight: 5,
    };
    let weightless = Neighbour { node: 1, weight: 0 };
    let twice = [one, Neighbour { node: 1, weight: 6 }];
    let as_heavy = [one, Neighbour { node: 2, weight: 5 }];
    let out_of_range = Some(Fault::NodeOutOfRange);
    assert_eq!(rt; fault_of(heap, 256, &[one]), out_of_range);
    assert_eq!(rt; fault_of(heap, 0, &[far]), out_of_range);
    assert_eq!(rt; fault_of(heap, 1, &[one]), Some(Fault::OwnNode));
    assert_eq!(rt;
        fault_of(heap, 0, &[weightless]),
        Some(Fault::WeightOutOfRange)
    );
    assert_eq!(rt; fault_of(heap, 0, &twice), Some(Fault::EdgeTwice));
    assert_eq!(rt; fault_of(heap, 0, &as_heavy), Some(Fault::WeightTwice));
    assert_eq!(rt; fault_of(heap, 0, &[one; 17]), Some(Fault::TooManyEdges));
    assert_eq!(rt; fault_of(heap, 255, &[one]), None);
}
