// Blocks, lawful and not, alone and in a dump.
use block::dump::inspect;
use block::{BLOCK_LENGTH, crc, is_lawful};
use std::alloc::{AllocError, Global};
use std::test::Fail;
use wire::order::ByteOrder;
use wire::refusal::Refusal;

#[test]
fn published_checks(rt: HostRuntime) {
    assert_eq!(rt; crc::check(b""), 0xFFFF);
    assert_eq!(rt; crc::check(b"A"), 0xB915);
    assert_eq!(rt; crc::check(b"123456789"), 0x29B1);
}

// A block with these fields in front, zeros up to its check, and the check of all that.
fn sealed(heap: Global, front: &[u8]) -> Result<Vec<u8>, AllocError> {
    let mut block = vec![in heap; 0; 510]?;
    for (place, byte) in block.iter_mut().zip(front.iter()) {
        *place = *byte;
    }
    let [high, low]: [u8; 2] = ByteOrder::Big.encode(crc::check(block.as_slice()));
    block.push(high)?;
    block.push(low)?;
    Ok(block)
}

// What the block shows, its front, and whether it is lawful.
type Case = (&'static str, &'static [u8], bool);

const CASES: [Case; 19] = [
    ("free", &[], true),
    ("free, with a slot", &[0, 1], false),
    ("neither free nor used", &[2], false),
    ("used, all fields zero", &[1], false),
    ("1 of 1 byte", &[1, 0, 0, 0, 0, 1, 0, 1, 0x78], true),
    (
        "a byte after the data",
        &[1, 0, 0, 0, 0, 1, 0, 1, 0x78, 1],
        false,
    ),
    ("slot 7", &[1, 7, 0, 0, 0, 1, 0, 1, 0x78], true),
    ("slot 8", &[1, 8, 0, 0, 0, 1, 0, 1, 0x78], false),
    ("number 63", &[1, 0, 63, 0, 0, 1, 0, 1, 0x78], true),
    ("number 64", &[1, 0, 64, 0, 0, 1, 0, 1, 0x78], false),
    (
        "second part of 1 byte",
        &[1, 0, 0, 1, 0, 1, 0, 1, 0x78],
        false,
    ),
    ("no data of 1 byte", &[1, 0, 0, 0, 0, 0, 0, 1], false),
    ("2 of 1 byte", &[1, 0, 0, 0, 0, 2, 0, 1, 0x78], false),
    ("500 of 1,448", &[1, 0, 0, 0, 1, 0xF4, 5, 0xA8], true),
    ("499 of 1,448", &[1, 0, 0, 0, 1, 0xF3, 5, 0xA8], false),
    ("500 of 1,449", &[1, 0, 0, 0, 1, 0xF4, 5, 0xA9], false),
    ("last 448 of 1,448", &[1, 0, 0, 2, 1, 0xC0, 5, 0xA8], true),
    ("fourth part of 1,448", &[1, 0, 0, 3, 0, 1, 5, 0xA8], false),
    ("second part of 500", &[1, 0, 0, 1, 0, 1, 1, 0xF4], false),
];

#[test]
fn each_side_of_each_limit(rt: HostRuntime) -> Result<(), Fail> {
    for (what, front, lawful) in &CASES {
        let block = sealed(rt.alloc(), *front)?;
        assert_eq!(rt; is_lawful(block.as_slice()), *lawful, "{}", *what);
    }
    Ok(())
}

const PART: [u8; 9] = [1, 0, 0, 0, 0, 1, 0, 1, 0x78];

#[test]
fn one_changed_byte(rt: HostRuntime) -> Result<(), Fail> {
    let mut block = sealed(rt.alloc(), &PART)?;
    for at in [0usize, 3, 8, 9, 507, 508, 509, 510, 511] {
        if let Some(byte) = block.get_mut(at) {
            *byte ^= 0x10;
        }
        assert!(rt; !is_lawful(block.as_slice()), "{}", at);
        if let Some(byte) = block.get_mut(at) {
            *byte ^= 0x10;
        }
        assert!(rt; is_lawful(block.as_slice()), "{}", at);
    }
    Ok(())
}

#[test]
fn other_lengths(rt: HostRuntime) -> Result<(), Fail> {
    let mut block = sealed(rt.alloc(), &PART)?;
    block.push(0)?;
    assert!(rt; !is_lawful(block.as_slice()));
    block.truncate(BLOCK_LENGTH - 1);
    assert!(rt; !is_lawful(block.as_slice()));
    assert!(rt; !is_lawful(b""));
    Ok(())
}

// The number of used blocks, or the number and the place of the refusal, as users are promised them.
fn told(inspected: Result<usize, Refusal>) -> (usize, u8, usize) {
    match inspected {
        Ok(used) => (used, 0, 0),
        Err(refusal) => (0, refusal.fault.number(), refusal.place),
    }
}

#[test]
fn dumps(rt: HostRuntime) -> Result<(), Fail> {
    let heap = rt.alloc();
    assert_eq!(rt; told(inspect(b"")), (0, 0, 0), "an empty dump");
    assert_eq!(rt; told(inspect(&[1; 511])), (0, 0, 0), "no whole block");
    let free = sealed(heap, b"")?;
    let used = sealed(heap, &PART)?;
    let mut dump = Vec::new(heap);
    dump.extend_from_slice(used.as_slice())?;
    dump.extend_from_slice(free.as_slice())?;
    dump.extend_from_slice(used.as_slice())?;
    dump.extend_from_slice(&[1; 500])?;
    assert_eq!(rt; told(inspect(dump.as_slice())), (2, 0, 0), "a remainder");
    dump.extend_from_slice(&[1; 12])?;
    assert_eq!(rt; told(inspect(dump.as_slice())), (0, 13, 3), "block 3");
    if let Some(byte) = dump.get_mut(600) {
        *byte = 1;
    }
    assert_eq!(rt;
        told(inspect(dump.as_slice())),
        (0, 13, 1),
        "block 1 is lower"
    );
    Ok(())
}
