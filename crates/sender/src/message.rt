// A message that is there as a whole.
ghost use Rattle.std.specs.Result.{MatchResult};
ghost use Rattle.sender.specs.Messages.{MessageWritten, MessageUnwritten};
ghost use Rattle.sender.specs.Packets.{plan_by};

use crate::ids::Ticket;
use crate::length::BodyLength;
use crate::limits::FRONT_LENGTH;
use crate::open::OpenSender;
use wire::order::ByteOrder;
use wire::refusal::{Fault, Layer, Refusal};

// No struct of `length`, `ticket` and `order`: a caller would make it for this one call.
/// Writes all packets of a message, one after the other from the buffer's start, and answers how many bytes
/// they have. A refused message changes nothing but that its ticket is used up.
pub fn write_message(
    length: BodyLength,
    ticket: Ticket,
    order: ByteOrder,
    message: &[u8],
    buffer: &mut [u8],
) -> Result<usize, Refusal>
    ensures { MatchResult result
        (λ n. MessageWritten (plan_by length.value ticket.id order) message.now
        buffer.old buffer.new n)
        (λ e. MessageUnwritten (plan_by length.value ticket.id order) message.now
        buffer.old buffer.new e) }
{
    if message.len() > length.longest_message() {
        return Err(Layer::Sender.refusal(Fault::MessageLength, 0));
    }
    if message.is_empty() {
        return Err(Layer::Sender.refusal(Fault::EmptyMessage, 0));
    }
    let full = length.sure(message.len());
    if buffer.len() < (full + 1) * FRONT_LENGTH + message.len() {
        return Err(Layer::Sender.refusal(Fault::BufferLength, 0));
    }
    let mut sender = OpenSender::begin(length, ticket, order);
    let count = sender.add(message, buffer).unwrap();
    let at = count * (FRONT_LENGTH + length.value);
    let last = sender.close().write_final(&mut buffer[at..]).unwrap();
    Ok(at + last)
}
