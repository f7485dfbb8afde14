// The ids of messages. No two tickets of an issuer have the same id.
ghost use Rattle.std.specs.Prelude.{◌≡◌, length, MatchResult};
ghost use Rattle.sender.specs.Limits.{id_length};
ghost use Rattle.sender.specs.Ids.{id_of, IdsDiffer, issuing, new_issuing, Issued, Unissued, IssuesInOrder};

use crate::limits::{ID_LENGTH, SERIAL_COUNT};
use wire::refusal::{Fault, Layer, Refusal};

/// Gives the ids of one node's messages, each once.
#[derive(Debug, PartialEq, Eq, Drop)]
pub struct Issuer {
    node: u64,
    next: u64,
}

/// An id that no message has yet. Who sends a message uses it up.
#[derive(Debug, PartialEq, Eq, Drop)]
pub struct Ticket {
    pub(crate) id: [u8; ID_LENGTH],
    ghost id_size: { length id ≡ id_length },
}

// The id of a node's message: the node, then the serial, the most significant byte of each first.
fn id_of(node: u64, serial: u32) -> [u8; ID_LENGTH]
    ensures { result ≡ id_of node serial }
{
    let [n0, n1, n2, n3, n4, n5, n6, n7] = node.to_be_bytes();
    let [s0, s1, s2, s3] = serial.to_be_bytes();
    [n0, n1, n2, n3, n4, n5, n6, n7, s0, s1, s2, s3]
}

impl Issuer {
    /// An issuer that has given no id. A node must not be given to two issuers.
    pub fn new(node: u64) -> Issuer
        ensures fresh { issuing result ≡ new_issuing node }
        ensures in_order { IssuesInOrder }
        ensures ids_differ { IdsDiffer }
    {
        Issuer { node, next: 0 }
    }

    /// A ticket with the next serial. There are none after the last.
    pub fn issue(&mut self) -> Result<Ticket, Refusal>
        ensures { MatchResult result
            (λ t. Issued (issuing self.old) t.id (issuing self.new))
            (λ e. Unissued (issuing self.old) e (issuing self.new)) }
    {
        // No `try_from`: what is refused is a fault of the sender's own, and no conversion's.
        if self.next >= SERIAL_COUNT {
            return Err(Layer::Sender.refusal(Fault::SerialsSpent, 0));
        }
        let id = id_of(self.node, self.next as u32);
        self.next += 1;
        Ok(Ticket { id })
    }
}

impl Ticket {
    /// The id.
    pub fn id(&self) -> [u8; ID_LENGTH]
        ensures { result ≡ self.now.id }
    {
        self.id
    }
}
