// Bytes of every kind, and bytes that are refused.
use super::{Acknowledgement, Message, Packet, Phase, Refusal};
use std::test::Fail;

#[derive(Clone, Copy)]
struct Row {
    number: u32,
    message: Message,
    bytes: &'static [u8],
}

const NAME: u32 = 0x0001_0203;

const ROWS: [Row; 9] = [
    Row {
        number: 1,
        message: Message::Connect { level: 0 },
        bytes: &[71, 0, 0, 0, 1, 1, 0, 0, 73],
    },
    Row {
        number: 2,
        message: Message::Initiate {
            level: 1,
            name: NAME,
            phase: Phase::Find,
        },
        bytes: &[71, 0, 0, 0, 2, 2, 1, 0, 1, 2, 3, 1, 0, 83],
    },
    Row {
        number: 3,
        message: Message::Initiate {
            level: 8,
            name: 5,
            phase: Phase::Found,
        },
        bytes: &[71, 0, 0, 0, 3, 2, 8, 0, 0, 0, 5, 2, 0, 91],
    },
    Row {
        number: 4,
        message: Message::Test {
            level: 2,
            name: NAME,
        },
        bytes: &[71, 0, 0, 0, 4, 3, 2, 0, 1, 2, 3, 0, 86],
    },
    Row {
        number: 5,
        message: Message::Accept,
        bytes: &[71, 0, 0, 0, 5, 4, 0, 80],
    },
    Row {
        number: 6,
        message: Message::Reject,
        bytes: &[71, 0, 0, 0, 6, 5, 0, 82],
    },
    Row {
        number: 7,
        message: Message::Report { best: None },
        bytes: &[71, 0, 0, 0, 7, 6, 0, 0, 0, 0, 0, 84],
    },
    Row {
        number: 0xffff_ffff,
        message: Message::Report {
            best: Some(1_000_000),
        },
        bytes: &[71, 255, 255, 255, 255, 6, 0, 15, 66, 64, 4, 218],
    },
    Row {
        number: 256,
        message: Message::Change,
        bytes: &[71, 0, 0, 1, 0, 7, 0, 79],
    },
];

#[test]
fn packets_of_every_kind(rt: HostRuntime) -> Result<(), Fail> {
    for row in ROWS.iter() {
        let packet = Packet {
            number: row.number,
            message: row.message,
        };
        let Ok(bytes) = packet.encode(rt.alloc()) else {
            return Err(Fail::new("not encoded"));
        };
        assert!(rt; bytes.as_slice() == row.bytes);
        let Ok(back) = Packet::decode(row.bytes) else {
            return Err(Fail::new("not decoded"));
        };
        assert!(rt; back == packet);
    }
    Ok(())
}

const REFUSED: [&[u8]; 14] = [
    &[],
    &[71],
    &[71, 0, 0, 0, 1, 0, 72],
    &[70, 0, 0, 0, 1, 4, 0, 75],
    &[72, 0, 0, 0, 5, 4, 0, 81],
    &[71, 0, 0, 0, 5, 4, 0, 81],
    &[71, 0, 0, 0, 5, 4, 0, 0, 80],
    &[71, 0, 0, 0, 5, 8, 0, 84],
    &[71, 0, 0, 0, 5, 0, 0, 76],
    &[71, 0, 0, 0, 1, 1, 9, 0, 82],
    &[71, 0, 0, 0, 3, 2, 9, 0, 0, 0, 5, 2, 0, 92],
    &[71, 0, 0, 0, 3, 2, 8, 0, 0, 0, 5, 3, 0, 92],
    &[71, 0, 0, 0, 3, 2, 8, 0, 0, 0, 5, 0, 0, 89],
    &[71, 0, 0, 0, 4, 3, 9, 0, 1, 2, 3, 0, 93],
];

#[test]
fn what_is_no_packet_is_refused_by_1(rt: HostRuntime) -> Result<(), Fail> {
    for bytes in REFUSED.iter() {
        assert_eq!(rt; Packet::decode(bytes), Err(Refusal::Malformed));
    }
    assert_eq!(rt; Refusal::Malformed.number(), 1);
    Ok(())
}

#[test]
fn acknowledgements(rt: HostRuntime) -> Result<(), Fail> {
    let last = Acknowledgement {
        number: 0xff00_0102,
    };
    let bytes = last.encode(rt.alloc())?;
    assert!(rt; bytes.as_slice() == [72, 255, 0, 1, 2, 1, 74].as_slice());
    let Ok(back) = Acknowledgement::decode(bytes.as_slice()) else {
        return Err(Fail::new("not decoded"));
    };
    assert!(rt; back == last);
    assert!(rt; Acknowledgement::decode(&[72, 255, 0, 1, 2, 1, 75]).is_err());
    assert!(rt; Acknowledgement::decode(&[71, 255, 0, 1, 2, 1, 73]).is_err());
    assert!(rt; Acknowledgement::decode(&[72, 255, 0, 1, 2, 0, 1, 74]).is_err());
    assert!(rt; Acknowledgement::decode(&[]).is_err());
    Ok(())
}

#[test]
fn what_does_not_fit_has_no_bytes(rt: HostRuntime) {
    assert!(rt; Message::Connect { level: 9 }.encode(rt.alloc()).is_err());
    assert!(rt;
        Message::Test {
            level: 255,
            name: 1,
        }
        .encode(rt.alloc())
        .is_err()
    );
    assert!(rt;
        Message::Report { best: Some(0), }
            .encode(rt.alloc())
            .is_err()
    );
}
