// The packet shelf: it keeps the bodies of packets by slot and packet number.
#![tactic(auto)]

ghost use Rattle.std.specs.Prelude.{◌≡◌, ◌↔◌, IsTrue, ℕ, List, length};
ghost use Rattle.std.specs.Borrow.{GName};
ghost use Rattle.shelf.specs.Pieces.{HoldsJust, copied_length, copied_over};
ghost use Rattle.shelf.specs.Units.{range_test, free_units, takes, Puts, Clears, Tidy};

use wire::limits::{MAX_PACKETS, MAX_PIECE, MAX_SLOTS};

pub mod units;

/// Where a piece stands: in a slot, by the number of its packet.
#[derive(Clone, Copy, Debug, PartialEq, Eq)]
pub struct Place {
    /// The slot.
    pub slot: usize,
    /// The packet number.
    pub number: usize,
}

impl Place {
    /// Whether a piece of this length can stand here: the place and the length are in range.
    pub fn in_range(self, length: usize) -> bool
        ensures { result ≡ range_test self.slot self.number length }
    {
        self.slot < MAX_SLOTS
            && (self.number < MAX_PACKETS as usize && (0 < length && length <= MAX_PIECE))
    }
}

/// A shelf of any kind. Each slot and packet number is a place, which holds nothing or a piece of
/// bytes.
///
/// A shelf has a fixed number of units, its capacity, and a piece costs as many units as it begins.
/// Every call is answered for every argument: a place out of range holds nothing and takes nothing.
pub trait Shelf {
    /// The size of a unit in bytes.
    const UNIT: usize;

    // the size of a unit in bytes
    ghost unit: { ℕ };

    // the piece at a slot and number, empty for nothing
    ghost piece: { Self → ℕ → ℕ → List ℕ };

    // how many units there are
    ghost capacity: { Self → ℕ };

    // the memory that the shelf stands on, as its lender knows it
    ghost loan: { Self → GName };

    // what stands in that memory past the shelf's units
    ghost rest: { Self → List ℕ };

    /// The size of a unit in bytes, with its promise.
    // A constant's own promise, a ghost member of its name, is not proved for a type that borrows its memory.
    fn unit_size() -> usize
        ensures { result ≡ unit };

    /// Puts the bytes at a place, and answers whether it did: where the place and the length are in
    /// range, the place is empty and the units suffice.
    fn put(&mut self, place: Place, bytes: &[u8]) -> bool
        ensures answer { result ≡
            takes unit (capacity self.old) (piece self.old) place.slot place.number bytes.now }
        ensures after { Puts result (piece self.old) place.slot place.number bytes.now
            (piece self.new) }
        ensures size { capacity self.new ≡ capacity self.old }
        ensures loan { loan self.new ≡ loan self.old }
        ensures rest { rest self.new ≡ rest self.old };

    /// Whether the place holds just these bytes.
    fn holds(&self, place: Place, bytes: &[u8]) -> bool
        ensures { IsTrue result ↔
            HoldsJust (piece self.now place.slot place.number) bytes.now };

    /// The length of the piece at the place, 0 for nothing.
    // It is no Option: a piece has a byte, so 0 tells nothing from a piece.
    fn length(&self, place: Place) -> usize
        ensures { result ≡ length (piece self.now place.slot place.number) };

    /// The number of free units.
    fn free(&self) -> usize
        ensures { result ≡ free_units unit (capacity self.now) (piece self.now) };

    /// Writes the piece at the start of the buffer, and answers its length.
    /// Where the place holds nothing or the buffer is too short, it writes nothing and answers 0.
    // It is no Option: what was written is so many bytes, and 0 says that none were.
    fn copy_out(&self, place: Place, buffer: &mut [u8]) -> usize
        ensures answer { result ≡
            copied_length (piece self.now place.slot place.number) buffer.old }
        ensures wrote { buffer.new ≡
            copied_over (piece self.now place.slot place.number) buffer.old };

    /// Empties every place of the slot.
    fn clear(&mut self, slot: usize)
        ensures after { Clears (piece self.old) slot (piece self.new) }
        ensures size { capacity self.new ≡ capacity self.old }
        ensures loan { loan self.new ≡ loan self.old }
        ensures rest { rest self.new ≡ rest self.old };

    // what holds of every shelf
    ghost tidy: { (x : Self) → Tidy unit (capacity x) (piece x) };
}
