// Runs of a receiver on both kinds of shelf.
use crate::rig::Rig;
use blocks::BlockShelf;
use cells::{CELL_LENGTH, CellShelf};
use receiver::answers::{IdState, Outcome};
use shelf::Shelf;
use std::process::Abort;
use std::test::Fail;
use wire::refusal::Fault;

// A gathering stay ends after as many ticks as the patience; a whole one waits, a fetched one ends.
fn ages<S: Shelf + Drop>(rt: &impl Abort, shelf: S) {
    let mut rig = Rig::new(shelf, 2);
    assert_eq!(rt; rig.hear(b"A", 0, false, b"12"), Ok(Outcome::Kept));
    assert_eq!(rt;
        rig.state(b"A"),
        IdState::Gathering {
            heard: 1,
            lowest_unheard: 1
        }
    );
    rig.ticks(1);
    assert_eq!(rt;
        rig.state(b"A"),
        IdState::Gathering {
            heard: 1,
            lowest_unheard: 1
        }
    );
    rig.ticks(1);
    assert_eq!(rt; rig.state(b"A"), IdState::None, "ended");
    assert_eq!(rt; rig.hear(b"A", 1, true, b"3"), Ok(Outcome::Kept));
    assert_eq!(rt; rig.hear(b"A", 0, false, b"12"), Ok(Outcome::Whole));
    rig.ticks(9);
    assert_eq!(rt; rig.state(b"A"), IdState::Whole { length: 3 }, "waits");
    let mut buffer = *b"-----";
    assert_eq!(rt; rig.fetch(b"A", &mut buffer), Ok(3));
    assert!(rt; &buffer == b"123--");
    rig.ticks(1);
    assert_eq!(rt; rig.state(b"A"), IdState::Fetched);
    assert_eq!(rt;
        rig.hear(b"A", 0, false, b"12"),
        Err(Fault::Fetched),
        "late"
    );
    rig.ticks(1);
    assert_eq!(rt; rig.state(b"A"), IdState::Fetched);
    rig.ticks(1);
    assert_eq!(rt; rig.state(b"A"), IdState::None);
}

// A contradicting packet is heard: it spoils the stay and sets its age to 0, and so does one that comes after it.
fn contradiction<S: Shelf + Drop>(rt: &impl Abort, shelf: S) {
    let mut rig = Rig::new(shelf, 2);
    assert_eq!(rt; rig.hear(b"A", 2, true, b"12345678"), Ok(Outcome::Kept));
    assert_eq!(rt; rig.hear(b"A", 2, true, b"12345678"), Ok(Outcome::Repeated));
    rig.ticks(1);
    assert_eq!(rt;
        rig.hear(b"A", 3, false, b"12345678"),
        Err(Fault::Contradiction),
        "past the stop"
    );
    assert_eq!(rt; rig.fetch(b"A", &mut [0; 9]), Err(Fault::Spoiled));
    rig.ticks(1);
    assert_eq!(rt; rig.state(b"A"), IdState::Spoiled);
    assert_eq!(rt; rig.hear(b"A", 0, false, b"12345678"), Err(Fault::Spoiled));
    rig.ticks(1);
    assert_eq!(rt; rig.state(b"A"), IdState::Spoiled);
    rig.ticks(1);
    assert_eq!(rt; rig.state(b"A"), IdState::None);
    assert_eq!(rt; rig.hear(b"A", 1, true, b"12345678"), Ok(Outcome::Kept));
    assert_eq!(rt;
        rig.hear(b"A", 0, false, b"1234567890123456"),
        Ok(Outcome::Whole),
        "a shorter stop"
    );
    assert_eq!(rt;
        rig.hear(b"C", 0, false, b"1234567890123456"),
        Ok(Outcome::Kept)
    );
    assert_eq!(rt;
        rig.hear(b"C", 1, true, b"123456789012345678901234"),
        Err(Fault::Contradiction),
        "a longer stop"
    );
    assert_eq!(rt; rig.receiver.state(b"B").refused, 3);
}

// On a shelf that takes one packet: a packet without room is not heard, a contradiction goes first, a repeat needs no room.
fn no_room<S: Shelf + Drop>(rt: &impl Abort, shelf: S) {
    let mut rig = Rig::new(shelf, 2);
    assert_eq!(rt; rig.hear(b"A", 0, false, b"12"), Ok(Outcome::Kept));
    rig.ticks(1);
    assert_eq!(rt; rig.hear(b"A", 1, false, b"34"), Err(Fault::ShelfFull));
    assert_eq!(rt; rig.hear(b"B", 0, true, b"34"), Err(Fault::ShelfFull));
    assert_eq!(rt; rig.state(b"B"), IdState::None);
    rig.ticks(1);
    assert_eq!(rt; rig.state(b"A"), IdState::None, "the age was not reset");
    assert_eq!(rt; rig.hear(b"A", 0, false, b"12"), Ok(Outcome::Kept));
    assert_eq!(rt; rig.hear(b"A", 0, false, b"12"), Ok(Outcome::Repeated));
    assert_eq!(rt; rig.hear(b"A", 1, false, b"345"), Err(Fault::Contradiction));
    assert_eq!(rt;
        rig.hear(b"B", 0, true, b"34"),
        Ok(Outcome::Whole),
        "the room of the spoiled"
    );
}

// What a fetch refuses, in its order, and what the buffer holds then.
fn fetches<S: Shelf + Drop>(rt: &impl Abort, shelf: S) {
    let mut rig = Rig::new(shelf, 0);
    let mut buffer = *b"-----";
    assert_eq!(rt; rig.fetch(b"A", &mut buffer), Err(Fault::NoSlot));
    assert_eq!(rt; rig.hear(b"A", 1, true, b"c"), Ok(Outcome::Kept));
    assert_eq!(rt; rig.fetch(b"A", &mut buffer), Err(Fault::Gathering));
    assert_eq!(rt; rig.hear(b"A", 0, false, b"ab"), Ok(Outcome::Whole));
    assert_eq!(rt;
        rig.fetch(b"A", &mut buffer[0..2]),
        Err(Fault::BufferLength)
    );
    assert!(rt; &buffer == b"-----");
    assert_eq!(rt; rig.fetch(b"A", &mut buffer[0..3]), Ok(3));
    assert!(rt; &buffer == b"abc--");
    assert_eq!(rt; rig.fetch(b"A", &mut buffer), Err(Fault::Fetched));
    assert_eq!(rt;
        rig.fetch(b"A\0", &mut buffer),
        Err(Fault::NoSlot),
        "another id"
    );
    assert!(rt; &buffer == b"abc--");
    rig.ticks(49);
    assert_eq!(rt; rig.state(b"A"), IdState::Fetched, "patience 50");
    rig.ticks(1);
    assert_eq!(rt; rig.state(b"A"), IdState::None);
}

// Eight ids have a slot, and a ninth has none.
fn slots<S: Shelf + Drop>(rt: &impl Abort, shelf: S) {
    let mut rig = Rig::new(shelf, 3);
    for id in 0..8u8 {
        assert_eq!(rt; rig.hear(&[id], 0, true, &[id]), Ok(Outcome::Whole));
    }
    assert_eq!(rt; rig.hear(b"ninth", 0, true, b"x"), Err(Fault::SlotsTaken));
    assert_eq!(rt; rig.hear(&[3], 0, true, &[3]), Ok(Outcome::Repeated));
    let mut buffer = [0; 1];
    assert_eq!(rt; rig.fetch(&[7], &mut buffer), Ok(1));
    assert_eq!(rt; buffer[0], 7);
    rig.ticks(3);
    assert_eq!(rt; rig.hear(b"ninth", 0, true, b"x"), Ok(Outcome::Whole));
    assert_eq!(rt; rig.receiver.state(b"ninth").refused, 1);
}

// The same runs on each kind: a shelf borrows its memory, so each test makes its own.
#[test]
fn on_cells(rt: HostRuntime) -> Result<(), Fail> {
    let mut memory = vec![in rt.alloc(); 0; 9 * CELL_LENGTH]?;
    ages(&rt, CellShelf::new(memory.as_mut_slice()));
    contradiction(&rt, CellShelf::new(memory.as_mut_slice()));
    fetches(&rt, CellShelf::new(memory.as_mut_slice()));
    slots(&rt, CellShelf::new(memory.as_mut_slice()));
    no_room(&rt, CellShelf::new(&mut memory[0..CELL_LENGTH]));
    Ok(())
}

#[test]
fn on_blocks(rt: HostRuntime) -> Result<(), Fail> {
    let mut memory = vec![in rt.alloc(); 0; 9 * 512]?;
    ages(&rt, BlockShelf::new(memory.as_mut_slice()));
    contradiction(&rt, BlockShelf::new(memory.as_mut_slice()));
    fetches(&rt, BlockShelf::new(memory.as_mut_slice()));
    slots(&rt, BlockShelf::new(memory.as_mut_slice()));
    no_room(&rt, BlockShelf::new(&mut memory[0..512]));
    Ok(())
}
