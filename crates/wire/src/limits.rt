// Limits that several layers share. `specs/Limits.antt` has them for the contracts.

/// The most packets that one message has. Packet numbers go from 0 to one less.
pub const MAX_PACKETS: u32 = 64;

/// The number of a receiver's slots. Slots go from 0 to one less.
pub const MAX_SLOTS: usize = 8;

/// The longest piece, which is the body of one packet.
pub const MAX_PIECE: usize = 1448;
