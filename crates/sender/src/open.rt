// The open sender: it takes the message, portion by portion.
ghost use Rattle.std.specs.Prelude.{◌≡◌, MatchResult};
ghost use Rattle.sender.specs.Packets.{plan_by, LawfulPlan, PacketsLawful};
ghost use Rattle.sender.specs.Sending.{new_sending, Added, Unadded};
ghost use Rattle.sender.specs.Runs.{PortionsJoin};
ghost use Rattle.sender.specs.States.{sending};

use crate::closed::ClosedSender;
use crate::ids::Ticket;
use crate::length::BodyLength;
use crate::limits::FRONT_LENGTH;
use crate::parts::put_run;
use crate::state::State;
use arrayvec::ArrayVec;
use wire::order::ByteOrder;
use wire::refusal::{Fault, Layer, Refusal};

/// Takes a message in portions, and writes each packet as soon as it is known not to be the last.
#[derive(Debug, PartialEq, Eq, Drop)]
pub struct OpenSender {
    state: State,
}

impl OpenSender {
    /// A sender that has taken no byte yet. It uses up the ticket.
    // Three parameters, as of `write_message`: a struct of them would be made for one call.
    pub fn begin(length: BodyLength, ticket: Ticket, order: ByteOrder) -> OpenSender
        ensures fresh { sending result.state ≡ new_sending (plan_by length.value ticket.id order) }
        ensures lawful { LawfulPlan (sending result.state).plan }
        ensures portions_join { PortionsJoin }
        ensures packets_lawful { PacketsLawful }
    {
        let state = State {
            length,
            ticket,
            order,
            sent: 0,
            tail: ArrayVec::new(),
        };
        OpenSender { state }
    }

    /// Takes a portion of the message, and writes the packets that are now known not to be the last,
    /// one after the other from the buffer's start. Answers how many. A refused portion changes nothing.
    pub fn add(&mut self, portion: &[u8], buffer: &mut [u8]) -> Result<usize, Refusal>
        ensures { MatchResult result
            (λ n. Added (sending self.old.state) portion.now buffer.old buffer.new n
            (sending self.new.state))
            (λ e. Unadded (sending self.old.state) portion.now buffer.old buffer.new e
            (sending self.new.state)) }
    {
        let state = &mut self.state;
        if portion.len() > state.room() {
            return Err(Layer::Sender.refusal(Fault::MessageLength, 0));
        }
        let cut = state.length.value;
        let held = state.tail.len();
        let total = held + portion.len();
        if total <= cut {
            state.tail.try_extend_from_slice(portion).unwrap();
            return Ok(0);
        }
        let count = state.length.sure(total);
        if buffer.len() < count * (FRONT_LENGTH + cut) {
            return Err(Layer::Sender.refusal(Fault::BufferLength, 0));
        }
        let (missing, rest) = portion.split_at(cut - held);
        let (bodies, left) = rest.split_at((count - 1) * cut);
        state.tail.try_extend_from_slice(missing).unwrap();
        put_run(buffer, &state.packet(false), bodies);
        // Written over in place: to empty the tail first would write over all of it once more.
        state.tail.truncate(left.len());
        state.tail.as_mut_slice().copy_from_slice(left);
        state.sent += count;
        Ok(count)
    }

    /// Ends the message. What is left of it is its last packet.
    pub fn close(self) -> ClosedSender
        ensures { sending result.state ≡ sending self.state }
    {
        ClosedSender { state: self.state }
    }
}
