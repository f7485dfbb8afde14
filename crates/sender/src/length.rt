// The length of the bodies that a message is cut into.
ghost use Rattle.std.specs.Prelude.{◌≡◌, ◌*◌, ◌%◌, ◌≤◌, MatchResult};
ghost use Rattle.wire.specs.Limits.{max_packets};
ghost use Rattle.sender.specs.Limits.{least_length, most_length, length_step};
ghost use Rattle.sender.specs.Lengths.{LawfulLength};
ghost use Rattle.sender.specs.Refusals.{SenderRefusal};
ghost use Rattle.sender.specs.Sending.{sure};

use crate::limits::{LENGTH_STEP, MAX_LENGTH, MIN_LENGTH};
use wire::limits::MAX_PACKETS;
use wire::refusal::{Fault, Layer, Refusal};

/// How many bytes of the message each packet but the last carries.
#[derive(Clone, Copy, Debug, PartialEq, Eq)]
pub struct BodyLength {
    pub(crate) value: usize,
    ghost least: { least_length ≤ value },
    ghost most: { value ≤ most_length },
    ghost steps: { value % length_step ≡ 0 },
}

impl BodyLength {
    // No `TryFrom` beside it: that would say the same again.
    /// A body length, from 16 to 1,440 and a multiple of 8.
    pub fn new(length: usize) -> Result<BodyLength, Refusal>
        ensures { MatchResult result
            (λ b. (b.value ≡ length) × LawfulLength length)
            (λ e. (LawfulLength length → ⊥) × SenderRefusal 8 e) }
    {
        if length < MIN_LENGTH || length > MAX_LENGTH || length % LENGTH_STEP != 0 {
            return Err(Layer::Sender.refusal(Fault::PortionLength, 0));
        }
        Ok(BodyLength { value: length })
    }

    /// The length in bytes.
    pub fn value(self) -> usize
        ensures same { result ≡ self.value }
        ensures lawful { LawfulLength result }
    {
        self.value
    }

    // How many bytes a message has at most.
    pub(crate) fn longest_message(self) -> usize
        ensures { result ≡ max_packets * self.value }
    {
        MAX_PACKETS as usize * self.value
    }

    // How many packets of a message of `size` bytes are not the last, whatever follows.
    pub(crate) fn sure(self, size: usize) -> usize
        ensures { result ≡ sure self.value size }
    {
        size.saturating_sub(1) / self.value
    }
}
