// The check of a block: a CRC-16.
ghost use Rattle.std.specs.Prelude.{◌≡◌};
ghost use Rattle.block.specs.Check.{taken_in, TableRule, check_of, PublishedCheck};

use crate::table::TABLE;

/// The state before the first byte.
const START: u16 = 0xFFFF;

/// The CRC-16 with the polynomial 0x1021 from 0xFFFF on, nothing reflected or inverted.
pub fn check(bytes: &[u8]) -> u16
    ensures answer { result ≡ check_of bytes.now }
    ensures published { PublishedCheck }
{
    bytes
        .iter()
        .fold(START, |state, byte| take_in(state, *byte))
}

// The state after one byte more: the table has what becomes of the upper byte, and the lower one moves up.
fn take_in(state: u16, byte: u8) -> u16
    ensures { result ≡ taken_in state byte }
{
    let index = (state >> 8) ^ u16::from(byte);
    table()[usize::from(index)] ^ (state << 8)
}

// The table, with what it says of each byte.
fn table() -> &'static [u16; 256]
    ensures { TableRule result.now }
{
    &TABLE
}
