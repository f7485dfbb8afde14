// Datagrams at both sides of each limit, read, and written back where they are accepted.
use packet::Packet;
use std::alloc::{AllocError, Global};
use std::process::Abort;
use std::test::Fail;
use wire::order::ByteOrder;
use wire::refusal::{Layer, Refusal};

// What a datagram shows, its length, the bytes that are changed in it, each with its place, and the number and
// the place of its refusal. Without the changes it has number 0, no count, no stop, the id 0x41 and a body of
// zeros. The changes are those of a big-endian datagram.
type Case = (&'static str, usize, &'static [(usize, u8)], (u8, usize));

const ORDERS: [ByteOrder; 2] = [ByteOrder::Big, ByteOrder::Little];

// Accepted. Numbers and no `Result`: rows stay short, and a refusal is told by the number that users are promised.
const OK: (u8, usize) = (0, 0);

const CASES: [Case; 47] = [
    ("no byte", 0, &[], (1, 0)),
    ("19 bytes", 19, &[], (1, 0)),
    ("20 bytes", 20, &[], (5, 16)),
    ("1 of body", 25, &[], OK),
    ("1,472 bytes", 1472, &[], OK),
    ("1,473 bytes", 1473, &[], (1, 0)),
    ("magic, byte 0", 32, &[(0, 0x4c)], (2, 0)),
    ("magic, byte 1", 32, &[(1, 0x4a)], (2, 0)),
    ("magic, byte 2", 32, &[(2, 0x4e)], (2, 0)),
    ("magic, byte 3", 32, &[(3, 0x51)], (2, 0)),
    ("version below", 32, &[(4, 15)], (3, 4)),
    ("version above", 32, &[(4, 17)], (3, 4)),
    ("stop", 32, &[(5, 2)], OK),
    ("third flag", 32, &[(5, 4)], (4, 5)),
    ("highest flag", 32, &[(5, 0x80)], (4, 5)),
    ("empty id", 32, &[(19, 0)], (5, 16)),
    ("id of 252", 280, &[(7, 8), (6, 0), (19, 252)], OK),
    ("id of 253", 288, &[(7, 8), (6, 0), (19, 253)], (5, 16)),
    (
        "id of 2^32 - 1",
        32,
        &[(16, 0xff), (17, 0xff), (18, 0xff), (19, 0xff)],
        (5, 16),
    ),
    ("id of 2^24", 32, &[(16, 1), (19, 0)], (5, 16)),
    ("id past the end", 31, &[(19, 5)], (5, 16)),
    ("id to the end", 32, &[(19, 5)], (6, 6)),
    ("id of 4", 32, &[(19, 4)], OK),
    ("empty body", 24, &[], (6, 6)),
    ("body length 0", 32, &[(7, 0)], (6, 6)),
    ("body one less", 32, &[(7, 7)], (6, 6)),
    ("body one more", 32, &[(7, 9)], (6, 6)),
    ("body of 65,535", 32, &[(6, 0xff), (7, 0xff)], (6, 6)),
    ("number 63", 32, &[(11, 63)], OK),
    ("number 64", 32, &[(11, 64)], (7, 8)),
    (
        "number 2^32 - 1",
        32,
        &[(8, 0xff), (9, 0xff), (10, 0xff), (11, 0xff)],
        (7, 8),
    ),
    ("0 of 64", 32, &[(15, 64)], OK),
    ("0 of 65", 32, &[(15, 65)], (7, 8)),
    (
        "count 2^32 - 1",
        32,
        &[(12, 0xff), (13, 0xff), (14, 0xff), (15, 0xff)],
        (7, 8),
    ),
    ("63 of 64, stop", 32, &[(5, 2), (11, 63), (15, 64)], OK),
    ("63 of 64", 32, &[(11, 63), (15, 64)], (7, 8)),
    ("62 of 64, stop", 32, &[(5, 2), (11, 62), (15, 64)], (7, 8)),
    ("62 of 64", 32, &[(11, 62), (15, 64)], OK),
    ("2 of 2", 32, &[(11, 2), (15, 2)], (7, 8)),
    ("2 of 2, stop", 32, &[(5, 2), (11, 2), (15, 2)], (7, 8)),
    ("0 of 1, stop", 32, &[(5, 2), (15, 1)], OK),
    ("0 of 1", 32, &[(15, 1)], (7, 8)),
    (
        "faults 2 to 7",
        32,
        &[(0, 0), (4, 0), (5, 0xff), (7, 0), (11, 64), (19, 0)],
        (2, 0),
    ),
    (
        "faults 3 to 7",
        32,
        &[(4, 0), (5, 0xff), (7, 0), (11, 64), (19, 0)],
        (3, 4),
    ),
    (
        "faults 4 to 7",
        32,
        &[(5, 0xff), (7, 0), (11, 64), (19, 0)],
        (4, 5),
    ),
    ("faults 5 to 7", 32, &[(7, 0), (11, 64), (19, 0)], (5, 16)),
    ("faults 6 and 7", 32, &[(7, 0), (11, 64)], (6, 6)),
];

// Puts `part` at `at`, byte by byte, as far as there is room.
fn set_all(bytes: &mut Vec<u8>, at: usize, part: &[u8]) {
    for (i, byte) in part.iter().enumerate() {
        if let Some(place) = bytes.get_mut(at.saturating_add(i)) {
            *place = *byte;
        }
    }
}

// Where the byte of a number stands in the other byte order.
fn mirrored(at: usize) -> usize {
    match at {
        6..=7 => 13 - at,
        8..=11 => 19 - at,
        12..=15 => 27 - at,
        16..=19 => 35 - at,
        _ => at,
    }
}

// The flags of the other byte order; any other byte as it is.
fn turned(at: usize, byte: u8) -> u8 {
    if at == 5 { byte | 1 } else { byte }
}

fn datagram(
    heap: Global,
    order: ByteOrder,
    length: usize,
    changes: &[(usize, u8)],
) -> Result<Vec<u8>, AllocError> {
    let body = (length.saturating_sub(24) % 65_536) as u16;
    let flags = match order {
        ByteOrder::Big => 0,
        ByteOrder::Little => 1,
    };
    let mut bytes = vec![in heap; 0; length]?;
    set_all(&mut bytes, 0, b"MIOP");
    set_all(&mut bytes, 4, &[16, flags]);
    let body_length: [u8; 2] = order.encode(body);
    let id_length: [u8; 4] = order.encode(1u32);
    set_all(&mut bytes, 6, &body_length);
    set_all(&mut bytes, 16, &id_length);
    set_all(&mut bytes, 20, &[0x41]);
    for (at, byte) in changes {
        match order {
            ByteOrder::Big => set_all(&mut bytes, *at, &[*byte]),
            ByteOrder::Little => set_all(&mut bytes, mirrored(*at), &[turned(*at, *byte)]),
        }
    }
    Ok(bytes)
}

// The number and the place of a refusal by the packet layer: the tables have the numbers, which users are promised.
fn told(refusal: &Refusal) -> (u8, usize) {
    match refusal.layer {
        Layer::Packet => (refusal.fault.number(), refusal.place),
        _ => (255, 0),
    }
}

fn check_case(rt: &impl Abort, heap: Global, order: ByteOrder, case: &Case) -> Result<(), Fail> {
    let (what, length, changes, refused) = *case;
    let bytes = datagram(heap, order, length, changes)?;
    match Packet::read(bytes.as_slice()) {
        Ok(packet) => {
            assert_eq!(rt; OK, refused, "{}", what);
            let mut back = vec![in heap; 0xEE; length]?;
            assert!(rt; packet.write(back.as_mut_slice()).is_ok(), "{}", what);
            assert!(rt; back == bytes, "{}", what);
            Ok(())
        }
        Err(refusal) => {
            assert_eq!(rt; told(&refusal), refused, "{}", what);
            Ok(())
        },
    }
}

#[test]
fn each_side_of_each_limit(rt: HostRuntime) -> Result<(), Fail> {
    for order in ORDERS {
        for case in &CASES {
            check_case(&rt, rt.alloc(), order, case)?;
        }
    }
    Ok(())
}

#[test]
fn short_datagrams(rt: HostRuntime) -> Result<(), Fail> {
    for length in 0..20usize {
        let bytes = vec![in rt.alloc(); 0x4D; length]?;
        match Packet::read(bytes.as_slice()) {
            Ok(_) => return Err(Fail::new("accepted")),
            Err(refusal) => assert_eq!(rt; told(&refusal), (1, 0)),
        }
    }
    Ok(())
}

const WORKED: [u8; 27] = [
    0x4D, 0x49, 0x4F, 0x50, 0x10, 0x02, 0x00, 0x03, 0x00, 0x00, 0x00, 0x00, 0x00, 0x00, 0x00, 0x00,
    0x00, 0x00, 0x00, 0x01, 0x41, 0x00, 0x00, 0x00, 0x78, 0x79, 0x7A,
];

#[test]
fn packet_of_27_bytes(rt: HostRuntime) -> Result<(), Fail> {
    let packet = Packet::read(&WORKED)?;
    assert_eq!(rt; packet.order, ByteOrder::Big);
    assert!(rt; packet.stop);
    assert_eq!(rt; packet.number, 0);
    assert_eq!(rt; packet.count, 0);
    assert!(rt; packet.id == b"A".as_slice());
    assert!(rt; packet.body == b"xyz".as_slice());
    let mut padded = WORKED;
    padded[22] = 7;
    assert!(rt; Packet::read(&padded).is_ok(), "padding is not read");
    let mut back = [9; 29];
    assert_eq!(rt; packet.write(&mut back)?, 27);
    assert!(rt; &back[0..27] == WORKED.as_slice());
    assert!(rt;
        back[27] == 9 && back[28] == 9,
        "the rest of the buffer stays"
    );
    Ok(())
}

// The lengths of a packet's id and body, its number and count, the room in the buffer, and the number and the
// place of the refusal.
type Writing = (usize, usize, u32, u32, usize, (u8, usize));

const WRITINGS: [Writing; 15] = [
    (1, 1448, 63, 0, 1472, OK),
    (1, 1449, 0, 0, 2000, (1, 0)),
    (1473, 1, 0, 0, 2000, (1, 0)),
    (0, 1450, 64, 0, 0, (1, 0)),
    (0, 0, 64, 0, 0, (5, 16)),
    (253, 0, 64, 0, 0, (5, 16)),
    (252, 1200, 0, 0, 1472, OK),
    (252, 1201, 0, 0, 2000, (1, 0)),
    (1, 0, 64, 0, 0, (6, 6)),
    (1, 1, 64, 0, 0, (7, 8)),
    (1, 1, 1, 2, 2000, (7, 8)),
    (1, 1, 0, 2, 24, (10, 0)),
    (1, 1, 0, 2, 25, OK),
    (12, 1440, 0, 0, 1471, (10, 0)),
    (12, 1440, 0, 0, 1472, OK),
];

fn check_writing(
    rt: &impl Abort,
    heap: Global,
    order: ByteOrder,
    case: &Writing,
) -> Result<(), Fail> {
    let (id, body, number, count, room, refused) = *case;
    let id = vec![in heap; 3; id]?;
    let body = vec![in heap; 5; body]?;
    let mut buffer = vec![in heap; 7; room]?;
    let packet = Packet {
        order,
        stop: number == 63,
        number,
        count,
        id: id.as_slice(),
        body: body.as_slice(),
    };
    match packet.write(buffer.as_mut_slice()) {
        Ok(_) => {
            assert_eq!(rt; OK, refused);
            Ok(())
        },
        Err(refusal) => {
            assert_eq!(rt; told(&refusal), refused);
            assert!(rt;
                buffer == vec![in heap; 7; room]?,
                "a refused packet leaves the buffer alone"
            );
            Ok(())
        }
    }
}

#[test]
fn writes_and_refuses(rt: HostRuntime) -> Result<(), Fail> {
    for order in ORDERS {
        for case in &WRITINGS {
            check_writing(&rt, rt.alloc(), order, case)?;
        }
    }
    Ok(())
}
