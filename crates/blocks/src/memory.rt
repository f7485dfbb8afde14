// The blocks that stand one after the other in a memory.
ghost use Rattle.std.specs.Prelude.{◌≡◌, ℕ, ◌+◌, ◌*◌, ◌<◌, ◌≤◌, length, drop, MatchOption};
ghost use Rattle.wire.specs.Limits.{max_packets, max_piece, max_slots};
ghost use Rattle.shelf.specs.Sums.{count_of};
ghost use Rattle.shelf.specs.Units.{cost};
ghost use Rattle.block.specs.Limits.{block_length, data_length};
ghost use Rattle.block.specs.Blocks.{InRange};
ghost use Rattle.block.specs.Dumps.{block_at, is_used};
ghost use Rattle.shelf.specs.Memories.{OneUnit, nth_unit, NoneHit, LastHit};
ghost use Rattle.blocks.specs.Parts.{part_of, shown, sits_part, Sound};
ghost use Rattle.blocks.specs.Steps.{NoneSits, Filled, StoredParts};

use crate::fields;
use crate::fields::{Block, Part};
use block::{BLOCK_LENGTH, DATA_LENGTH};
use shelf::Place;
use shelf::units::find_free;

/// How many parts a piece of this length has.
pub(crate) fn part_count(length: usize) -> usize
    ensures { result ≡ cost data_length length }
{
    length.div_ceil(DATA_LENGTH)
}

/// The first blocks of a memory. It has memory and count for `store`, which has them apart.
pub(crate) fn units(memory: &[u8], count: usize) -> &[[u8; BLOCK_LENGTH]]
    requires { count * block_length ≤ length memory.now }
    ensures size { length result.now ≡ count }
    ensures each { (i : ℕ) → i < count → nth_unit result.now i ≡ block_at memory.now i }
{
    memory[..count * BLOCK_LENGTH].as_chunks().0
}

/// The last block that is used for this part of the piece at this place.
pub(crate) fn find_part(blocks: &[[u8; BLOCK_LENGTH]], place: Place, index: usize) -> Option<usize>
    ensures { MatchOption result
        (NoneHit (λ x. sits_part x place.slot place.number index)
        (nth_unit blocks.now) (length blocks.now))
        (λ i. LastHit (λ x. sits_part x place.slot place.number index)
        (nth_unit blocks.now) (length blocks.now) i) }
{
    blocks
        .iter()
        .rposition(|block| fields::is_part(block, place, index))
}

fn fill_at(memory: &mut [u8], at: usize, part: Part<'_>)
    requires within { at * block_length + block_length ≤ length memory.old }
    requires range { InRange (shown part) }
    ensures filled { Filled (shown part.entry) (block_at memory.new at) }
    ensures one { OneUnit block_length memory.old at memory.new }
{
    // By place: the library says nothing of what a slice ends as after `as_chunks_mut`.
    let start = at * BLOCK_LENGTH;
    fields::fill(&mut memory[start..start + BLOCK_LENGTH], part);
}

/// Puts the parts of the bytes into free blocks, wherever they stand.
// Of memory and count, and no method: until the last part is stored, what the shelf keeps does not hold.
pub(crate) fn store(memory: &mut [u8], count: usize, place: Place, bytes: &[u8])
    requires fits { count * block_length ≤ length memory.old }
    requires sound { Sound (block_at memory.old) count }
    requires absent { NoneSits (block_at memory.old) count place.slot place.number }
    requires room { cost data_length (length bytes.now)
        + count_of (λ i. is_used (block_at memory.old i)) count ≤ count }
    requires slot { place.slot < max_slots }
    requires number { place.number < max_packets }
    requires short { length bytes.now ≤ max_piece }
    ensures stored { StoredParts (block_at memory.old) count place.slot place.number bytes.now
        (cost data_length (length bytes.now)) (block_at memory.new) }
    ensures long { length memory.new ≡ length memory.old }
    ensures rest { drop (count * block_length) memory.new ≡ drop (count * block_length) memory.old }
{
    for (index, part) in bytes.chunks(DATA_LENGTH).enumerate() {
        let at = find_free::<Block, BLOCK_LENGTH>(units(memory, count)).unwrap();
        let part = Part {
            place,
            index,
            whole: bytes.len(),
            bytes: part,
        };
        fill_at(memory, at, part);
    }
}
