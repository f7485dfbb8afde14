// The block: 512 bytes that hold one part of a piece, or nothing, with their check. `specs/Blocks.antt` has the format.
#![tactic(auto)]

ghost use Rattle.std.specs.Prelude.{◌≡◌, ◌↔◌, ◌+◌, ◌≤◌, IsTrue};
ghost use Rattle.block.specs.Limits.{block_length, check_start};
ghost use Rattle.block.specs.Blocks.{Lawful};
ghost use Rattle.block.specs.Fields.{word_at, ZeroFrom, Sealed, PartFound, FoundLawful};
ghost use Rattle.block.specs.Dumps.{is_used};
ghost use Rattle.block.specs.Changes.{OneChange};

use wire::limits::{MAX_PACKETS, MAX_PIECE, MAX_SLOTS};
use wire::order::ByteOrder;

pub mod crc;
pub mod dump;
mod table;

/// The length of a block.
pub const BLOCK_LENGTH: usize = 512;

/// The most data in one block. A longer piece is cut into parts, all of this length but the last.
pub const DATA_LENGTH: usize = 500;

/// Where the state stands: `FREE` or `USED`.
pub const STATE_AT: usize = 0;

/// Where the slot of the piece stands.
pub const SLOT_AT: usize = 1;

/// Where the packet number of the piece stands.
pub const NUMBER_AT: usize = 2;

/// Where it stands which part of the piece this is, from 0 on.
pub const INDEX_AT: usize = 3;

/// Where the length of the part stands.
pub const LENGTH_AT: usize = 4;

/// Where the length of the whole piece stands.
pub const WHOLE_AT: usize = 6;

/// Where the data begin.
pub const DATA_AT: usize = 8;

/// Where the check of the bytes before stands.
pub const CHECK_AT: usize = 510;

// Bytes of the format and no enum: its `TryFrom` would be the match of `is_found_lawful` once more, and others
// test for `USED` alone.
/// The state of a block that holds nothing.
pub const FREE: u8 = 0;

/// The state of a block that holds one part of a piece.
pub const USED: u8 = 1;

/// Whether these are the bytes of a lawful block.
/// No two lawful blocks differ in just one byte.
pub fn is_lawful(block: &[u8]) -> bool
    ensures answer { IsTrue result ↔ Lawful block.now }
    ensures one_change { OneChange }
{
    // A `match`: through `is_some_and` the check does not find what the answer needs.
    match block.as_array() {
        Some(block) => is_found_lawful(block),
        None => false,
    }
}

// The same field by field: `Lawful` makes a block's bytes of what it says, which a reader has to find first.
fn is_found_lawful(block: &[u8; BLOCK_LENGTH]) -> bool
    ensures { IsTrue result ↔ FoundLawful block.now }
{
    is_sealed(block)
        && match block[STATE_AT] {
            FREE => is_zero_from(block, 0),
            USED => is_part(block),
            _ => false,
        }
}

/// Whether the state of the block is `USED`.
pub fn is_used(block: &[u8; BLOCK_LENGTH]) -> bool
    ensures { result ≡ is_used block.now }
{
    block[STATE_AT] == USED
}

fn is_sealed(block: &[u8; BLOCK_LENGTH]) -> bool
    ensures { IsTrue result ↔ Sealed block.now }
{
    word(block, CHECK_AT) == crc::check(&block[0..CHECK_AT])
}

// Whether the bytes before the check are those of one part of a piece.
fn is_part(block: &[u8; BLOCK_LENGTH]) -> bool
    ensures { IsTrue result ↔ PartFound block.now }
{
    let length = usize::from(word(block, LENGTH_AT));
    let whole = usize::from(word(block, WHOLE_AT));
    let start = usize::from(block[INDEX_AT]) * DATA_LENGTH;
    usize::from(block[SLOT_AT]) < MAX_SLOTS
        && u32::from(block[NUMBER_AT]) < MAX_PACKETS
        && whole <= MAX_PIECE
        && start < whole
        && length == (whole - start).min(DATA_LENGTH)
        && is_zero_from(block, DATA_AT + length)
}

// Whether the bytes from `at` up to the check are zero.
fn is_zero_from(block: &[u8; BLOCK_LENGTH], at: usize) -> bool
    requires { at ≤ check_start }
    ensures { IsTrue result ↔ ZeroFrom block.now at }
{
    block[at..CHECK_AT].iter().all(|byte| *byte == 0)
}

// The number in the two bytes from `at` on. Private, for the places of its own fields; who writes blocks decodes
// in place.
fn word(block: &[u8; BLOCK_LENGTH], at: usize) -> u16
    requires { at + 2 ≤ block_length }
    ensures { result ≡ word_at block.now at }
{
    ByteOrder::Big.decode([block[at], block[at + 1]])
}
