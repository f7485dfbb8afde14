// The block shelf: pieces in parts, each part in a sealed block, on memory that is lent.
#![tactic(auto)]

ghost use Rattle.std.specs.Prelude.{◌≡◌, ◌↔◌, IsTrue, ℕ, ◌*◌, ◌<◌, ◌≤◌, length, take, drop, Ok};
ghost use Rattle.shelf.specs.Units.{units_held};
ghost use Rattle.shelf.specs.Memories.{nth_unit};
ghost use Rattle.block.specs.Limits.{block_length, data_length};
ghost use Rattle.block.specs.Dumps.{block_at, Passes};
ghost use Rattle.blocks.specs.Parts.{part_in, piece_in, Sound};
ghost use Rattle.blocks.specs.Steps.{Made, GivenBack};
ghost use Rattle.blocks.specs.Props.{sound_of};
ghost use Rattle.blocks.specs.Sounds.{sound_tidy};

use block::{BLOCK_LENGTH, DATA_LENGTH, dump};
use fields::Block;
use memory::part_count;
use shelf::units::{count_used, free_all, free_slot};
use shelf::{Place, Shelf};
use wire::refusal::Refusal;

mod fields;
mod memory;

/// The most blocks that a shelf takes.
pub const MAX_BLOCKS: usize = 1024;

/// A shelf that keeps a piece in one to three blocks, wherever blocks are free.
/// After every call each of its blocks is lawful.
// Fields and making are those of the cell shelf, with the reason there.
#[derive(Drop)]
pub struct BlockShelf<'a> {
    memory: &'a mut [u8],
    // how many blocks it has: no length of the memory, which the lender gets back with the bytes after them
    count: usize,
    ghost fits: { count * block_length ≤ length memory.now },
    ghost sound: { ∥ Sound (block_at memory.now) count ∥₁ },
}

impl<'a> BlockShelf<'a> {
    /// An empty shelf on as many whole blocks as the memory has, and at most `MAX_BLOCKS`, all of
    /// which it frees. What stands in the memory after them stays.
    pub fn new(memory: &'a mut [u8]) -> BlockShelf<'a>
        ensures made { Made memory.old result.count result.memory.now }
        ensures loan { result.memory.ghost_name ≡ memory.entry.ghost_name }
    {
        let count = (memory.len() / BLOCK_LENGTH).min(MAX_BLOCKS);
        free_all::<Block, BLOCK_LENGTH>(&mut memory[..count * BLOCK_LENGTH]);
        BlockShelf { memory, count }
    }

    /// The blocks of the shelf. They pass inspection, and as many are used as the pieces cost.
    pub fn blocks(&self) -> &[u8]
        ensures own { result.now ≡ take (self.now.count * block_length) self.now.memory.now }
        ensures size { length result.now ≡ self.now.count * block_length }
        ensures passes { Passes result.now
            (units_held data_length (piece_in (block_at self.now.memory.now) self.now.count)) }
    {
        &self.memory[0..self.count * BLOCK_LENGTH]
    }

    /// Inspects the blocks of the shelf: all are lawful, and as many are used as the pieces cost.
    pub fn inspect(&self) -> Result<usize, Refusal>
        ensures { result ≡ Ok
            (units_held data_length (piece_in (block_at self.now.memory.now) self.now.count)) }
    {
        dump::inspect(self.blocks())
    }

    fn units(&self) -> &[[u8; BLOCK_LENGTH]]
        ensures size { length result.now ≡ self.now.count }
        ensures each { (i : ℕ) → i < self.now.count →
            nth_unit result.now i ≡ block_at self.now.memory.now i }
    {
        memory::units(self.memory, self.count)
    }

    // One part of the piece at this place, empty where there is none. A cell has a piece as a whole.
    fn part(&self, place: Place, index: usize) -> &[u8]
        ensures { result.now ≡
            part_in (block_at self.now.memory.now) self.now.count place.slot place.number index }
    {
        let blocks = self.units();
        match memory::find_part(blocks, place, index) {
            Some(i) => fields::content(&blocks[i]),
            None => &[],
        }
    }

    // Whether the piece at this place is just these bytes.
    fn is_piece(&self, place: Place, bytes: &[u8]) -> bool
        ensures { IsTrue result ↔
            (piece_in (block_at self.now.memory.now) self.now.count place.slot place.number
            ≡ bytes.now) }
    {
        self.length(place) == bytes.len()
            && bytes
                .chunks(DATA_LENGTH)
                .enumerate()
                .all(|(index, part)| self.part(place, index) == part)
    }
}

impl<'a> Shelf for BlockShelf<'a> {
    const UNIT: usize = DATA_LENGTH;

    ghost unit = { data_length };

    ghost piece = { λ x. piece_in (block_at x.memory.now) x.count };

    ghost capacity = { λ x. x.count };

    ghost loan = { λ x. x.memory.ghost_name };

    ghost rest = { λ x. drop (x.count * block_length) x.memory.now };

    fn unit_size() -> usize
        ensures { result ≡ data_length }
    {
        Self::UNIT
    }

    fn put(&mut self, place: Place, bytes: &[u8]) -> bool {
        if !place.in_range(bytes.len())
            || self.length(place) > 0
            || part_count(bytes.len()) > self.free()
        {
            return false;
        }
        memory::store(self.memory, self.count, place, bytes);
        true
    }

    fn holds(&self, place: Place, bytes: &[u8]) -> bool {
        !bytes.is_empty() && self.is_piece(place, bytes)
    }

    fn length(&self, place: Place) -> usize {
        let blocks = self.units();
        match memory::find_part(blocks, place, 0) {
            Some(i) => fields::whole(&blocks[i]),
            None => 0,
        }
    }

    fn free(&self) -> usize {
        self.count - count_used::<Block, BLOCK_LENGTH>(self.units())
    }

    fn copy_out(&self, place: Place, buffer: &mut [u8]) -> usize {
        let length = self.length(place);
        if length > buffer.len() {
            return 0;
        }
        // By index: after `chunks_mut` a proof does not know the elements.
        for index in 0..part_count(length) {
            let part = self.part(place, index);
            buffer[index * DATA_LENGTH..index * DATA_LENGTH + part.len()].copy_from_slice(part);
        }
        length
    }

    fn clear(&mut self, slot: usize) {
        free_slot::<Block, BLOCK_LENGTH>(&mut self.memory[..self.count * BLOCK_LENGTH], slot);
    }

    ghost tidy = { λ x. sound_tidy (block_at x.memory.now) x.count
        (sound_of (block_at x.memory.now) x.count x.sound) };
}

/// Whether an empty shelf on this memory takes the bytes at the place. The memory is lent to such a
/// shelf and given back; what stands in it after the blocks is as it was.
// The cell shelf's promises no inspection, for which its cells have no check.
pub fn takes_one(memory: &mut [u8], place: Place, bytes: &[u8]) -> bool
    ensures { GivenBack memory.old place.slot place.number bytes.now result memory.new }
{
    let mut shelf = BlockShelf::new(memory);
    shelf.put(place, bytes)
}
