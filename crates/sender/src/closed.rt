// The closed sender: it has the whole message and writes its last packet.
ghost use Rattle.std.specs.Prelude.{MatchResult};
ghost use Rattle.sender.specs.Sending.{Ended, Unended};
ghost use Rattle.sender.specs.States.{sending};

use crate::limits::FRONT_LENGTH;
use crate::parts::put_packet;
use crate::state::State;
use wire::refusal::{Fault, Layer, Refusal};

/// Has taken a whole message, of which it writes the last packet.
#[derive(Debug, PartialEq, Eq, Drop)]
pub struct ClosedSender {
    pub(crate) state: State,
}

impl ClosedSender {
    /// Writes the last packet at the buffer's start, and answers its length. May be called again.
    pub fn write_final(&self, buffer: &mut [u8]) -> Result<usize, Refusal>
        ensures { MatchResult result
            (λ n. Ended (sending self.now.state) buffer.old buffer.new n)
            (λ e. Unended (sending self.now.state) buffer.old buffer.new e) }
    {
        let held = self.state.tail.len();
        if held == 0 {
            return Err(Layer::Sender.refusal(Fault::EmptyMessage, 0));
        }
        if buffer.len() < FRONT_LENGTH + held {
            return Err(Layer::Sender.refusal(Fault::BufferLength, 0));
        }
        let last = self.state.packet(true);
        Ok(put_packet(buffer, 0, &last))
    }
}
