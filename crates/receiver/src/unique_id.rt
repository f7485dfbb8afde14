// The unique id of a stay. It is a copy: the datagram that it came in does not last.
ghost use Rattle.std.specs.Prelude.{◌≤◌};
ghost use Rattle.packet.specs.Limits.{max_id};

use packet::MAX_ID;

/// A unique id by value.
#[derive(Clone, Copy)]
pub struct UniqueId {
    // an array and a count: an `ArrayVec` is not `Copy`, and slots are copied by value
    bytes: [u8; MAX_ID],
    // how many of the bytes are the id's
    count: usize,
    ghost fits: { count ≤ max_id },
}

impl UniqueId {
    ghost use Rattle.std.specs.Prelude.{◌≡◌, length};
    ghost use Rattle.receiver.specs.Slots.{id_bytes};

    pub(crate) fn new(id: &[u8]) -> UniqueId
        requires { length id.now ≤ max_id }
        ensures { id_bytes result ≡ id.now }
    {
        let mut bytes = [0; MAX_ID];
        bytes[..id.len()].copy_from_slice(id);
        UniqueId {
            bytes,
            count: id.len(),
        }
    }

    pub(crate) fn as_slice(&self) -> &[u8]
        ensures { result.now ≡ id_bytes self.now }
    {
        &self.bytes[..self.count]
    }
}
