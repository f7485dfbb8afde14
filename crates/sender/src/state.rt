// What a sender remembers of its message.
ghost use Rattle.std.specs.Prelude.{◌<◌, ◌≤◌};
ghost use Rattle.arrayvec.specs.ArrayVec.{array_vec_len};
ghost use Rattle.wire.specs.Limits.{max_packets};

use crate::ids::Ticket;
use crate::length::BodyLength;
use crate::limits::MAX_LENGTH;
use arrayvec::ArrayVec;
use packet::Packet;
use wire::order::ByteOrder;

/// How the message is sent, and what of it is not written yet.
#[derive(Debug, PartialEq, Eq, Drop)]
pub(crate) struct State {
    pub(crate) length: BodyLength,
    pub(crate) ticket: Ticket,
    pub(crate) order: ByteOrder,
    /// How many packets are written.
    pub(crate) sent: usize,
    /// The bytes that came and are not written: at most one body.
    pub(crate) tail: ArrayVec<u8, MAX_LENGTH>,
    ghost few: { sent < max_packets },
    ghost kept: { array_vec_len tail ≤ length.value },
}

impl State {
    ghost use Rattle.std.specs.Prelude.{◌≡◌, ◌+◌, ◌*◌, length};
    ghost use Rattle.packet.specs.Packets.{shown};
    ghost use Rattle.sender.specs.States.{sending, tail_packet};

    // How many bytes more the message may have.
    pub(crate) fn room(&self) -> usize
        ensures { result + length (sending self.now).unsent + self.now.sent * self.now.length.value
            ≡ max_packets * self.now.length.value }
    {
        self.length.longest_message() - self.sent * self.length.value - self.tail.len()
    }

    // The next packet, which carries all that is not written.
    pub(crate) fn packet(&self, stop: bool) -> Packet<'_>
        ensures { shown result ≡ tail_packet self.now stop }
    {
        Packet {
            order: self.order,
            stop,
            number: self.sent as u32,
            count: 0,
            id: &self.ticket.id,
            body: self.tail.as_slice(),
        }
    }
}
