// The numbers of the sender. `specs/Limits.antt` has them for the contracts.

/// The least body length.
pub const MIN_LENGTH: usize = 16;

/// The greatest body length. A packet with such a body fills its datagram.
pub const MAX_LENGTH: usize = 1440;

/// Every body length is a multiple of this.
pub const LENGTH_STEP: usize = 8;

/// The length of an id: eight bytes of the node and four of the serial.
pub const ID_LENGTH: usize = 12;

/// How many serials there are. The first is 0.
pub const SERIAL_COUNT: u64 = 4_294_967_296;

/// How many bytes of a packet stand before its body: the header and the id.
// It is added to a body's length where the sum is wanted: a call for that would say no more.
pub const FRONT_LENGTH: usize = 32;
