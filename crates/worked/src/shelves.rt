// The calls of a shelf, at both sides of their limits.
use block::dump::inspect;
use blocks::BlockShelf;
use cells::CellShelf;
use shelf::{Place, Shelf};
use std::alloc::Global;
use std::process::Abort;
use std::test::Fail;

fn at(slot: usize, number: usize) -> Place {
    Place { slot, number }
}

// What an empty shelf with room for the longest piece and one more answers.
fn answers<S: Shelf>(rt: &impl Abort, shelf: &mut S, longest: &[u8]) {
    let free = shelf.free();
    assert!(rt; !shelf.put(at(8, 0), b"a"), "slot 8");
    assert!(rt; !shelf.put(at(0, 64), b"a"), "number 64");
    assert!(rt; !shelf.put(at(0, 0), b""), "no byte");
    assert_eq!(rt; shelf.free(), free, "refused pieces cost nothing");
    assert!(rt; shelf.put(at(7, 63), longest), "the last place");
    assert!(rt; !shelf.put(at(7, 63), b"a"), "a place that is not empty");
    assert!(rt; shelf.put(at(0, 0), b"abc"), "the first place");
    assert_eq!(rt; shelf.length(at(7, 63)), longest.len());
    assert_eq!(rt; shelf.length(at(7, 62)), 0);
    assert!(rt; shelf.holds(at(7, 63), longest));
    assert!(rt; shelf.holds(at(0, 0), b"abc"));
    assert!(rt; !shelf.holds(at(0, 0), b"abd") && !shelf.holds(at(0, 0), b"ab"));
    assert!(rt; !shelf.holds(at(1, 0), b""), "nothing is no piece");
    let mut buffer = *b"-----";
    assert_eq!(rt; shelf.copy_out(at(0, 0), &mut buffer[0..2]), 0);
    assert!(rt; &buffer == b"-----", "too short");
    assert_eq!(rt; shelf.copy_out(at(0, 0), &mut buffer), 3);
    assert!(rt; &buffer == b"abc--");
    shelf.clear(7);
    assert_eq!(rt; shelf.length(at(7, 63)), 0);
    assert!(rt; shelf.holds(at(0, 0), b"abc"), "the other slot");
    shelf.clear(0);
    assert_eq!(rt; shelf.free(), free, "all is free again");
}

// Pieces at both sides of the lengths that cost one block more, each alone on an empty shelf.
fn lengths<S: Shelf>(rt: &impl Abort, heap: Global, shelf: &mut S) -> Result<(), Fail> {
    let unit = S::unit_size().max(1);
    let free = shelf.free();
    for length in [1usize, 500, 501, 1000, 1001, 1448] {
        let bytes = vec![in heap; 0x5A; length]?;
        let mut back = vec![in heap; 0xEE; length]?;
        assert!(rt; shelf.put(at(3, 5), bytes.as_slice()), "{}", length);
        assert_eq!(rt;
            free.saturating_sub(shelf.free()),
            length.div_ceil(unit),
            "{}",
            length
        );
        assert!(rt; shelf.holds(at(3, 5), bytes.as_slice()), "{}", length);
        assert_eq!(rt; shelf.copy_out(at(3, 5), back.as_mut_slice()), length);
        assert!(rt; back == bytes, "{}", length);
        shelf.clear(3);
        assert_eq!(rt; shelf.free(), free, "{}", length);
    }
    Ok(())
}

// A shelf without a unit takes nothing.
fn nothing_fits<S: Shelf>(rt: &impl Abort, shelf: &mut S) {
    assert_eq!(rt; shelf.free(), 0);
    assert!(rt; !shelf.put(at(0, 0), b"a"));
    assert_eq!(rt; shelf.length(at(0, 0)), 0);
}

#[test]
fn no_room(rt: HostRuntime) -> Result<(), Fail> {
    let mut none = vec![in rt.alloc(); 0; 0]?;
    nothing_fits(&rt, &mut CellShelf::new(none.as_mut_slice()));
    let mut short = vec![in rt.alloc(); 9; 1455]?;
    nothing_fits(&rt, &mut CellShelf::new(short.as_mut_slice()));
    nothing_fits(&rt, &mut BlockShelf::new(none.as_mut_slice()));
    assert!(rt; short == vec![in rt.alloc(); 9; 1455]?, "the memory stays");
    Ok(())
}

#[test]
fn cell_shelf(rt: HostRuntime) -> Result<(), Fail> {
    let heap = rt.alloc();
    let longest = vec![in heap; 7; 1448]?;
    let mut memory = vec![in heap; 1; 2 * 1456 + 5]?;
    {
        let mut shelf = CellShelf::new(memory.as_mut_slice());
        assert_eq!(rt; shelf.free(), 2, "whatever stood in the memory");
        assert!(rt; !shelf.put(at(0, 0), &[7; 1449]), "a byte too many");
        answers(&rt, &mut shelf, longest.as_slice());
        lengths(&rt, heap, &mut shelf)?;
        assert!(rt; shelf.put(at(1, 1), b"a") && shelf.put(at(1, 2), b"b"));
        assert!(rt; !shelf.put(at(1, 3), b"c"), "no cell is free");
    }
    assert!(rt; memory.ends_with(&[1; 5]), "the rest of the memory stays");
    Ok(())
}

#[test]
fn block_shelf(rt: HostRuntime) -> Result<(), Fail> {
    let heap = rt.alloc();
    let longest = vec![in heap; 7; 1448]?;
    let mut memory = vec![in heap; 1; 4 * 512 + 5]?;
    {
        let mut shelf = BlockShelf::new(memory.as_mut_slice());
        assert_eq!(rt; shelf.free(), 4, "whatever stood in the memory");
        answers(&rt, &mut shelf, longest.as_slice());
        lengths(&rt, heap, &mut shelf)?;
        assert!(rt; shelf.put(at(1, 1), longest.as_slice()));
        assert!(rt;
            !shelf.put(at(1, 2), &[9; 501]),
            "one block is free, and two are wanted"
        );
        assert!(rt; shelf.put(at(1, 2), &[9; 500]), "one block is enough");
        assert!(rt; !shelf.put(at(1, 3), b"c"), "no block is free");
        assert_eq!(rt; inspect(shelf.blocks())?, 4);
    }
    assert!(rt; memory.ends_with(&[1; 5]), "the rest of the memory stays");
    assert_eq!(rt; inspect(memory.as_slice())?, 4, "the dump passes");
    Ok(())
}
