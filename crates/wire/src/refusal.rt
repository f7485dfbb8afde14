// The one form of every refusal of the link.
ghost use Rattle.std.specs.Prelude.{◌≡◌, Some};
ghost use Rattle.std.specs.Fmt.{decimal};
ghost use Rattle.wire.specs.Refusals.{fault_number, RefusedBy};
ghost use Rattle.wire.specs.Prints.{layer_name, refusal_text};

use std::error::Error;
use std::fmt;

/// Why something is refused. The value of a case is the number that users see;
/// `docs/REFUSALS.md` has the exact condition of each.
#[derive(Clone, Copy, Debug, PartialEq, Eq, Hash)]
pub enum Fault {
    /// A datagram is too short or too long.
    DatagramLength = 1,
    /// A datagram does not open with the four bytes of MIOP.
    Magic = 2,
    /// A packet's version is not 1.0.
    Version = 3,
    /// One of the six unused flag bits is set.
    Flags = 4,
    /// A packet's id is empty or too long, or its body would begin past the datagram's end.
    IdLength = 5,
    /// A packet's stated body length is 0, or not that of the bytes from the body's place to the end.
    BodyLength = 6,
    /// A packet's number, count and stop flag do not go together.
    Numbering = 7,
    /// A sender's body length is not one that it can cut by.
    PortionLength = 8,
    /// A message would need more packets than there are numbers.
    MessageLength = 9,
    /// The buffer is too short for what is to be written.
    BufferLength = 10,
    /// A message without a byte has no final packet.
    EmptyMessage = 11,
    /// A block of a dump is unlawful.
    UnlawfulBlock = 13,
    /// Every serial number has been issued.
    SerialsSpent = 14,
    /// Every slot of the receiver is taken by another id.
    SlotsTaken = 21,
    /// The shelf has too few free units for the body.
    ShelfFull = 22,
    /// The packet contradicts one that was heard before.
    Contradiction = 23,
    /// The id's stay is spoiled.
    Spoiled = 24,
    /// The id's message was fetched already.
    Fetched = 25,
    /// The id has no slot.
    NoSlot = 26,
    /// The id's message is not whole yet.
    Gathering = 27,
    /// An item of an encapsulation runs past its end.
    PastEnd = 30,
    /// A string lacks its closing zero or has an earlier one, or a domain breaks its rule.
    Text = 31,
    /// An address is not one of a multicast group.
    Address = 32,
    /// A port is out of its range.
    Port = 33,
    /// A byte order octet or a version of an encapsulation is unknown.
    Encapsulation = 34,
    /// There is too much or too little: bytes, components or groups.
    Excess = 35,
}

impl Fault {
    /// The number by which users know the fault.
    // No `From`: the name says which of a fault's numbers it is.
    pub fn number(self) -> u8
        ensures { result ≡ fault_number self }
    {
        self as u8
    }
}

/// Prints the number.
impl fmt::Display for Fault {
    ghost output = { λ fault. Some (decimal (fault_number fault)) };

    fn fmt<W: fmt::Write>(&self, f: &mut fmt::Formatter<W>) -> fmt::Result {
        write!(f, "{}", self.number())
    }
}

/// The part of the link that refuses.
#[derive(Clone, Copy, Debug, PartialEq, Eq, Hash)]
pub enum Layer {
    Packet,
    Sender,
    Receiver,
    Block,
    Profile,
    /// Inside the data of a group component.
    Component,
}

impl Layer {
    /// The refusal by this layer, for a fault at a place.
    pub fn refusal(self, fault: Fault, place: usize) -> Refusal
        ensures { RefusedBy self (fault_number fault) place result }
    {
        Refusal {
            fault,
            place,
            layer: self,
        }
    }
}

impl fmt::Display for Layer {
    ghost output = { λ layer. Some (layer_name layer) };

    fn fmt<W: fmt::Write>(&self, f: &mut fmt::Formatter<W>) -> fmt::Result {
        f.write_str(match self {
            Layer::Packet => "packet",
            Layer::Sender => "sender",
            Layer::Receiver => "receiver",
            Layer::Block => "block",
            Layer::Profile => "profile",
            Layer::Component => "component",
        })
    }
}

/// A refusal: why, where, and by which layer.
///
/// The place is the first byte of the field at fault, or the block; it is 0 where nothing can be pointed at.
#[derive(Clone, Copy, Debug, PartialEq, Eq, Hash)]
pub struct Refusal {
    pub fault: Fault,
    pub place: usize,
    pub layer: Layer,
}

impl fmt::Display for Refusal {
    ghost output = { λ refusal. Some (refusal_text refusal) };

    fn fmt<W: fmt::Write>(&self, f: &mut fmt::Formatter<W>) -> fmt::Result {
        write!(
            f,
            "refused {} at {} in {}",
            self.fault, self.place, self.layer
        )
    }
}

impl Error for Refusal {}
