// One cell: eight bytes of notes, and then the bytes of one piece.
ghost use Rattle.std.specs.Prelude.{◌≡◌, ◌<◌, ◌≤◌, length};
ghost use Rattle.wire.specs.Limits.{max_packets, max_piece, max_slots};
ghost use Rattle.cells.specs.Limits.{cell_length};
ghost use Rattle.cells.specs.Cells.{is_used, in_slot, slot_in, number_in, sits, length_in, content_of, Filled, Freed};
ghost use Rattle.cells.specs.Limits.{some_byte};

use shelf::Place;
use shelf::units::Unit;
use wire::limits::MAX_PIECE;
use wire::order::ByteOrder;

const NOTES_LENGTH: usize = 8;

/// The length of a cell.
pub const CELL_LENGTH: usize = NOTES_LENGTH + MAX_PIECE;

// Where the notes stand, and what the first of them says.
const STATE_AT: usize = 0;

const SLOT_AT: usize = 1;

const NUMBER_AT: usize = 2;

const LENGTH_AT: usize = 4;

// Bytes of the notes and no enum: they are tested for `USED` alone. That a block has its state, slot and number at the
// same places is chance: a format of its own, which may change alone.
const FREE: u8 = 0;

const USED: u8 = 1;

/// The cell, as a kind of unit.
pub(crate) struct Cell;

impl Unit<CELL_LENGTH> for Cell {
    ghost used = { is_used };

    ghost in_slot = { in_slot };

    ghost Freed = { Freed };

    fn is_used(cell: &[u8; CELL_LENGTH]) -> bool {
        cell[STATE_AT] == USED
    }

    fn is_in_slot(cell: &[u8; CELL_LENGTH], slot: usize) -> bool {
        cell[STATE_AT] == USED && usize::from(cell[SLOT_AT]) == slot
    }

    fn free(cell: &mut [u8; CELL_LENGTH]) {
        cell[STATE_AT] = FREE;
    }

    ghost some_byte = { some_byte };

    ghost unused = { λ x f. f.unused };
}

// Whether the cell is used for this place.
pub(crate) fn is_at(cell: &[u8; CELL_LENGTH], place: Place) -> bool
    ensures { result ≡ sits cell.now place.slot place.number }
{
    Cell::is_used(cell) && cell_place(cell) == place
}

fn cell_place(cell: &[u8; CELL_LENGTH]) -> Place
    ensures slot { result.slot ≡ slot_in cell.now }
    ensures number { result.number ≡ number_in cell.now }
{
    Place {
        slot: usize::from(cell[SLOT_AT]),
        number: usize::from(cell[NUMBER_AT]),
    }
}

// The piece in the cell. Its length is one call of `decode`, which a helper would only rename.
pub(crate) fn content(cell: &[u8; CELL_LENGTH]) -> &[u8]
    requires { length_in cell.now ≤ max_piece }
    ensures { result.now ≡ content_of cell.now }
{
    let length = usize::from(ByteOrder::Big.decode::<u16, 2>([
        cell[LENGTH_AT],
        cell[LENGTH_AT + 1],
    ]));
    &cell[NOTES_LENGTH..NOTES_LENGTH + length]
}

// A slice, and no array: of a part of a memory that is lent as an array a proof does not know what it ends as.
pub(crate) fn fill(cell: &mut [u8], place: Place, bytes: &[u8])
    requires long { length cell.old ≡ cell_length }
    requires slot { place.slot < max_slots }
    requires number { place.number < max_packets }
    requires short { length bytes.now ≤ max_piece }
    ensures { Filled place.slot place.number bytes.now cell.new }
{
    let [high, low]: [u8; 2] = ByteOrder::Big.encode(bytes.len() as u16);
    cell[STATE_AT] = USED;
    cell[SLOT_AT] = place.slot as u8;
    cell[NUMBER_AT] = place.number as u8;
    cell[LENGTH_AT] = high;
    cell[LENGTH_AT + 1] = low;
    cell[NOTES_LENGTH..NOTES_LENGTH + bytes.len()].copy_from_slice(bytes);
}
