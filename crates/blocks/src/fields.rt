// One block: its fields, and what is written into it.
ghost use Rattle.std.specs.Prelude.{◌≡◌, ◌≤◌, length, take};
ghost use Rattle.block.specs.Limits.{block_length, data_length, check_start};
ghost use Rattle.block.specs.Blocks.{InRange, sealed};
ghost use Rattle.block.specs.Fields.{slot_in, number_in, length_in, whole_in};
ghost use Rattle.block.specs.Dumps.{is_used};
ghost use Rattle.blocks.specs.Limits.{some_byte};
ghost use Rattle.blocks.specs.Parts.{shown, content_of, in_slot, sits_part};
ghost use Rattle.blocks.specs.Steps.{Filled, Freed, freed_unused};

use block::{
    BLOCK_LENGTH, CHECK_AT, DATA_AT, INDEX_AT, LENGTH_AT, NUMBER_AT, SLOT_AT, STATE_AT, USED,
    WHOLE_AT, crc,
};
use shelf::Place;
use shelf::units::Unit;
use wire::order::ByteOrder;

/// The block, as a kind of unit.
pub(crate) struct Block;

impl Unit<BLOCK_LENGTH> for Block {
    ghost used = { is_used };

    ghost in_slot = { in_slot };

    ghost Freed = { Freed };

    fn is_used(block: &[u8; BLOCK_LENGTH]) -> bool {
        block::is_used(block)
    }

    fn is_in_slot(block: &[u8; BLOCK_LENGTH], slot: usize) -> bool {
        block[STATE_AT] == USED && usize::from(block[SLOT_AT]) == slot
    }

    // Writes a block that holds nothing, and seals it.
    fn free(block: &mut [u8; BLOCK_LENGTH]) {
        block[0..CHECK_AT].fill(0);
        seal(block);
    }

    ghost some_byte = { some_byte };

    ghost unused = { freed_unused };
}

/// One part of a piece: where the piece stands, which part it is, the length of the whole piece,
/// and the bytes of the part.
#[derive(Clone, Copy)]
pub(crate) struct Part<'a> {
    pub(crate) place: Place,
    pub(crate) index: usize,
    pub(crate) whole: usize,
    pub(crate) bytes: &'a [u8],
}

// Whether the block is used for this part of the piece at this place.
pub(crate) fn is_part(block: &[u8; BLOCK_LENGTH], place: Place, index: usize) -> bool
    ensures { result ≡ sits_part block.now place.slot place.number index }
{
    Block::is_used(block) && block_place(block) == place && usize::from(block[INDEX_AT]) == index
}

fn block_place(block: &[u8; BLOCK_LENGTH]) -> Place
    ensures slot { result.slot ≡ slot_in block.now }
    ensures number { result.number ≡ number_in block.now }
{
    Place {
        slot: usize::from(block[SLOT_AT]),
        number: usize::from(block[NUMBER_AT]),
    }
}

// The length of the whole piece. Here and below a number is one call of `decode`, which a helper would only rename.
pub(crate) fn whole(block: &[u8; BLOCK_LENGTH]) -> usize
    ensures { result ≡ whole_in block.now }
{
    usize::from(ByteOrder::Big.decode::<u16, 2>([block[WHOLE_AT], block[WHOLE_AT + 1]]))
}

// The bytes of the piece that stand in the block.
pub(crate) fn content(block: &[u8; BLOCK_LENGTH]) -> &[u8]
    requires { length_in block.now ≤ data_length }
    ensures { result.now ≡ content_of block.now }
{
    let length = usize::from(ByteOrder::Big.decode::<u16, 2>([
        block[LENGTH_AT],
        block[LENGTH_AT + 1],
    ]));
    &block[DATA_AT..DATA_AT + length]
}

// Writes the part, and seals the block. A slice, and no array: of a part of a memory that is lent as an array a proof
// does not know what it ends as.
pub(crate) fn fill(block: &mut [u8], part: Part<'_>)
    requires long { length block.old ≡ block_length }
    requires range { InRange (shown part) }
    ensures { Filled (shown part.entry) block.new }
{
    let Part {
        place,
        index,
        whole,
        bytes,
    } = part;
    let [high, low]: [u8; 2] = ByteOrder::Big.encode(bytes.len() as u16);
    let [whole_high, whole_low]: [u8; 2] = ByteOrder::Big.encode(whole as u16);
    block[STATE_AT] = USED;
    block[SLOT_AT] = place.slot as u8;
    block[NUMBER_AT] = place.number as u8;
    block[INDEX_AT] = index as u8;
    block[LENGTH_AT] = high;
    block[LENGTH_AT + 1] = low;
    block[WHOLE_AT] = whole_high;
    block[WHOLE_AT + 1] = whole_low;
    block[DATA_AT..DATA_AT + bytes.len()].copy_from_slice(bytes);
    block[DATA_AT + bytes.len()..CHECK_AT].fill(0);
    seal(block);
}

// Writes the check of the bytes before it. A slice, as `fill` has one.
fn seal(block: &mut [u8])
    requires { length block.old ≡ block_length }
    ensures { block.new ≡ sealed (take check_start block.old) }
{
    let [high, low]: [u8; 2] = ByteOrder::Big.encode(crc::check(&block[0..CHECK_AT]));
    block[CHECK_AT] = high;
    block[CHECK_AT + 1] = low;
}
