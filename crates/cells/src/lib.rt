// The cell shelf: every piece in a cell of its own, on memory that is lent.
#![tactic(auto)]

ghost use Rattle.std.specs.Prelude.{◌≡◌, ℕ, ◌*◌, ◌<◌, ◌≤◌, length, drop, MatchOption};
ghost use Rattle.wire.specs.Limits.{max_piece};
ghost use Rattle.shelf.specs.Memories.{nth_unit, NoneHit, LastHit};
ghost use Rattle.cells.specs.Limits.{cell_length, max_cells};
ghost use Rattle.cells.specs.Cells.{sits, cell_at, piece_in, Sound};
ghost use Rattle.cells.specs.Steps.{Made, GivenBack};
ghost use Rattle.cells.specs.Props.{sound_of};
ghost use Rattle.cells.specs.Sounds.{sound_tidy};

pub use cell::CELL_LENGTH;
use cell::Cell;
use shelf::units::{count_used, find_free, free_all, free_slot};
use shelf::{Place, Shelf};
use wire::limits::MAX_PIECE;

mod cell;

/// The most cells that a shelf takes.
pub const MAX_CELLS: usize = 512;

/// A shelf with a cell of 1,456 bytes for each piece, so that each piece costs one unit.
// The block shelf has the same fields and makes itself alike: each its own kind, by its own limit and length. A struct of
// the fields, lent out for each write, is no plainer. No derives: nothing compares or prints lent memory.
#[derive(Drop)]
pub struct CellShelf<'a> {
    memory: &'a mut [u8],
    // how many cells it has: no length of the memory, which the lender gets back with the bytes after them
    count: usize,
    ghost fits: { count * cell_length ≤ length memory.now },
    ghost sound: { ∥ Sound (cell_at memory.now) count ∥₁ },
}

impl<'a> CellShelf<'a> {
    /// An empty shelf on as many whole cells as the memory has, and at most `MAX_CELLS`.
    /// What stands in the memory after them stays.
    pub fn new(memory: &'a mut [u8]) -> CellShelf<'a>
        ensures made { Made memory.old result.count result.memory.now }
        ensures loan { result.memory.ghost_name ≡ memory.entry.ghost_name }
    {
        let count = (memory.len() / CELL_LENGTH).min(MAX_CELLS);
        free_all::<Cell, CELL_LENGTH>(&mut memory[..count * CELL_LENGTH]);
        CellShelf { memory, count }
    }

    // The library's `as_chunks` at this length, as the block shelf has it at its own.
    fn cells(&self) -> &[[u8; CELL_LENGTH]]
        ensures size { length result.now ≡ self.now.count }
        ensures each { (i : ℕ) → i < self.now.count →
            nth_unit result.now i ≡ cell_at self.now.memory.now i }
    {
        self.memory[..self.count * CELL_LENGTH].as_chunks().0
    }

    // The piece at this place, empty where there is none.
    fn piece(&self, place: Place) -> &[u8]
        ensures { result.now ≡
            piece_in (cell_at self.now.memory.now) self.now.count place.slot place.number }
    {
        let cells = self.cells();
        match find(cells, place) {
            Some(i) => cell::content(&cells[i]),
            None => &[],
        }
    }
}

// The last cell that is used for this place. Beside the block shelf's `find_part` it has only its own test.
fn find(cells: &[[u8; CELL_LENGTH]], place: Place) -> Option<usize>
    ensures { MatchOption result
        (NoneHit (λ x. sits x place.slot place.number) (nth_unit cells.now) (length cells.now))
        (λ i. LastHit (λ x. sits x place.slot place.number)
        (nth_unit cells.now) (length cells.now) i) }
{
    cells.iter().rposition(|cell| cell::is_at(cell, place))
}

impl<'a> Shelf for CellShelf<'a> {
    const UNIT: usize = MAX_PIECE;

    ghost unit = { max_piece };

    ghost piece = { λ x. piece_in (cell_at x.memory.now) x.count };

    ghost capacity = { λ x. x.count };

    ghost loan = { λ x. x.memory.ghost_name };

    ghost rest = { λ x. drop (x.count * cell_length) x.memory.now };

    fn unit_size() -> usize
        ensures { result ≡ max_piece }
    {
        Self::UNIT
    }

    fn put(&mut self, place: Place, bytes: &[u8]) -> bool {
        if !place.in_range(bytes.len()) || !self.piece(place).is_empty() {
            return false;
        }
        let Some(index) = find_free::<Cell, CELL_LENGTH>(self.cells()) else {
            return false;
        };
        // By place: the library says nothing of what a slice ends as after `as_chunks_mut`.
        let at = index * CELL_LENGTH;
        cell::fill(&mut self.memory[at..at + CELL_LENGTH], place, bytes);
        true
    }

    fn holds(&self, place: Place, bytes: &[u8]) -> bool {
        !bytes.is_empty() && self.piece(place) == bytes
    }

    fn length(&self, place: Place) -> usize {
        self.piece(place).len()
    }

    fn free(&self) -> usize {
        self.count - count_used::<Cell, CELL_LENGTH>(self.cells())
    }

    fn copy_out(&self, place: Place, buffer: &mut [u8]) -> usize {
        let piece = self.piece(place);
        if piece.len() > buffer.len() {
            return 0;
        }
        buffer[0..piece.len()].copy_from_slice(piece);
        piece.len()
    }

    fn clear(&mut self, slot: usize) {
        free_slot::<Cell, CELL_LENGTH>(&mut self.memory[..self.count * CELL_LENGTH], slot);
    }

    ghost tidy = { λ x. sound_tidy (cell_at x.memory.now) x.count
        (sound_of (cell_at x.memory.now) x.count x.sound) };
}

/// Whether an empty shelf on this memory takes the bytes at the place. The memory is lent to such a
/// shelf and given back; what stands in it after the cells is as it was.
// The block shelf's also promises that a dump of its blocks passes inspection.
pub fn takes_one(memory: &mut [u8], place: Place, bytes: &[u8]) -> bool
    ensures { GivenBack memory.old place.slot place.number bytes.now result memory.new }
{
    let mut shelf = CellShelf::new(memory);
    shelf.put(place, bytes)
}
