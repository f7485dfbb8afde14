// A packet's part of its message, as it arrives.
ghost use Rattle.std.specs.Prelude.{◌≡◌, ◌+◌, ◌<◌, length, unwrap_or, ◌==◌};
ghost use Rattle.std.specs.Option.{ForSome};
ghost use Rattle.collection.specs.Fragments.{Limits};

/// What a packet says of its message beside the unique id and the byte order. The body is borrowed from the datagram.
// It has no Model: it is Copy, and what `shown` gives of a borrowed body cannot give the borrow back.
#[derive(Clone, Copy, Debug, PartialEq, Eq)]
pub struct Fragment<'a> {
    /// The packet's number.
    pub number: u8,
    /// How many packets the message has, if the packet says it.
    pub count: Option<u8>,
    /// Whether it is the stop packet, the last of the message.
    pub stop: bool,
    /// The packet's piece of the message.
    pub body: &'a [u8],
    ghost limits: { Limits number (unwrap_or count 0) (length body.now) },
    ghost within: { ForSome count (λ c. number < c) },
    ghost ends: { ForSome count (λ c. stop ≡ (number + 1 == c)) },
}
