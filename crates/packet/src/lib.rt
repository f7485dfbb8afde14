// The packet of MIOP 1.0: one datagram, one packet. `docs/PACKET.md` has the format.
#![tactic(auto)]

ghost use Rattle.std.specs.Prelude.{◌≡◌, ℕ, ◌+◌, ◌^◌, ◌<◌, ◌≤◌, true, ◌++◌, length, take, drop, Decides, MatchResult};
ghost use Rattle.packet.specs.Packets.{shown, body_start, flags_of, header_of, canonical, Numbered, OnePacket};
ghost use Rattle.packet.specs.Datagrams.{order_of, stop_of, Refused, Reading};
ghost use Rattle.packet.specs.Fields.{FieldsIn};
ghost use Rattle.packet.specs.Writing.{Writable, Written, Unwritten};

use wire::limits::MAX_PACKETS;
use wire::order::ByteOrder;
use wire::refusal::{Fault, Layer, Refusal};

/// The length of the header before the id. A shorter datagram has no header.
pub const HEADER_LENGTH: usize = 20;

/// The longest datagram.
pub const MAX_DATAGRAM: usize = 1472;

/// The longest id.
pub const MAX_ID: usize = 252;

/// Version 1.0 of MIOP.
const VERSION: u8 = 16;

// Where the fields of the header stand.
const VERSION_AT: usize = 4;

const FLAGS_AT: usize = 5;

const BODY_LENGTH_AT: usize = 6;

const NUMBER_AT: usize = 8;

const ID_LENGTH_AT: usize = 16;

/// A packet. Its id and its body are borrowed: of a packet that was read, they are parts of its datagram.
#[derive(Clone, Copy, Debug, PartialEq, Eq)]
pub struct Packet<'a> {
    pub order: ByteOrder,
    /// Whether this is the last packet of its message.
    pub stop: bool,
    pub number: u32,
    /// How many packets the message has, or 0 where that is not said.
    // The header's own form, which is read and written as it is: an `Option` would be put together and taken apart again.
    pub count: u32,
    /// The unique id of the message, the same in each of its packets.
    pub id: &'a [u8],
    pub body: &'a [u8],
}

/// The numbers of the header, from the body length on.
#[derive(Clone, Copy)]
struct Fields {
    body_length: u16,
    number: u32,
    count: u32,
    id_length: u32,
}

// One byte has both the order and the stop flag: a `From` to and from pairs would say no more than these three do.
fn order_of(flags: u8) -> ByteOrder
    ensures { result ≡ order_of flags }
{
    if flags % 2 == 0 {
        ByteOrder::Big
    } else {
        ByteOrder::Little
    }
}

fn stop_of(flags: u8) -> bool
    ensures { result ≡ stop_of flags }
{
    flags / 2 % 2 == 1
}

fn read_fields(order: ByteOrder, rest: &[u8]) -> Fields
    requires { 14 ≤ length rest.now }
    ensures { FieldsIn order rest.now result }
{
    let (body_length, rest) = rest.split_first_chunk::<2>().unwrap();
    let (number, rest) = rest.split_first_chunk::<4>().unwrap();
    let (count, rest) = rest.split_first_chunk::<4>().unwrap();
    let (id_length, _) = rest.split_first_chunk::<4>().unwrap();
    Fields {
        body_length: order.decode(*body_length),
        number: order.decode(*number),
        count: order.decode(*count),
        id_length: order.decode(*id_length),
    }
}

// Where the body begins after an id of this length: at a multiple of 8.
fn body_start(id_length: usize) -> usize
    requires { id_length < 2 ^ 32 }
    ensures { result ≡ body_start id_length }
{
    (HEADER_LENGTH + id_length + 7) / 8 * 8
}

fn flags_of(order: ByteOrder, stop: bool) -> u8
    ensures { result ≡ flags_of order stop }
{
    match order {
        ByteOrder::Big => if stop { 2 } else { 0 },
        ByteOrder::Little => if stop { 3 } else { 1 },
    }
}

// Whether number, count and stop flag go together.
fn numbered(number: u32, count: u32, stop: bool) -> bool
    ensures { Decides result (Numbered number count stop) }
{
    number < MAX_PACKETS
        && count <= MAX_PACKETS
        && (count == 0 || number < count && stop == (number + 1 == count))
}

impl<'a> Packet<'a> {
    /// The packet whose datagram this is, or the lowest flaw of the datagram.
    pub fn read(datagram: &'a [u8]) -> Result<Packet<'a>, Refusal>
        ensures answer { Reading datagram.now result }
        ensures one_packet { OnePacket }
    {
        if datagram.len() < HEADER_LENGTH || datagram.len() > MAX_DATAGRAM {
            return Err(Layer::Packet.refusal(Fault::DatagramLength, 0));
        }
        let [b'M', b'I', b'O', b'P', version, flags, rest @ ..] = datagram else {
            return Err(Layer::Packet.refusal(Fault::Magic, 0));
        };
        if *version != VERSION {
            return Err(Layer::Packet.refusal(Fault::Version, VERSION_AT));
        }
        if *flags >= 4 {
            return Err(Layer::Packet.refusal(Fault::Flags, FLAGS_AT));
        }
        let order = order_of(*flags);
        let stop = stop_of(*flags);
        let fields = read_fields(order, rest);
        let id_length = fields.id_length as usize;
        let start = body_start(id_length);
        if id_length == 0 || id_length > MAX_ID || start > datagram.len() {
            return Err(Layer::Packet.refusal(Fault::IdLength, ID_LENGTH_AT));
        }
        let end = start + fields.body_length as usize;
        if fields.body_length == 0 || end != datagram.len() {
            return Err(Layer::Packet.refusal(Fault::BodyLength, BODY_LENGTH_AT));
        }
        if !numbered(fields.number, fields.count, stop) {
            return Err(Layer::Packet.refusal(Fault::Numbering, NUMBER_AT));
        }
        Ok(Packet {
            order,
            stop,
            number: fields.number,
            count: fields.count,
            id: &datagram[HEADER_LENGTH..HEADER_LENGTH + id_length],
            body: &datagram[start..],
        })
    }

    /// Writes the packet's datagram at the start of `buffer`, with zeros for padding, and answers its length.
    /// A packet is refused as its datagram would be, and last a buffer that is too short; then nothing is written.
    pub fn write(&self, buffer: &mut [u8]) -> Result<usize, Refusal>
        ensures { MatchResult result
            (λ n. Written (shown self.now) buffer.old buffer.new n)
            (λ e. Unwritten (shown self.now) buffer.old buffer.new e) }
    {
        let length = self.checked_size()?;
        if buffer.len() < length {
            return Err(Layer::Packet.refusal(Fault::BufferLength, 0));
        }
        let padding_at = HEADER_LENGTH + self.id.len();
        let body_at = length - self.body.len();
        buffer[..HEADER_LENGTH].copy_from_slice(&self.header());
        buffer[HEADER_LENGTH..padding_at].copy_from_slice(self.id);
        buffer[padding_at..body_at].fill(0);
        buffer[body_at..length].copy_from_slice(self.body);
        Ok(length)
    }

    // The length of the packet's datagram, or why it has none.
    fn checked_size(&self) -> Result<usize, Refusal>
        ensures { MatchResult result
            (λ n. Writable (shown self.now) n)
            (λ e. Refused (canonical (shown self.now)) e) }
    {
        let id_length = self.id.len();
        let body_length = self.body.len();
        // These two come first so that the sum below cannot overflow.
        if id_length > MAX_DATAGRAM || body_length > MAX_DATAGRAM {
            return Err(Layer::Packet.refusal(Fault::DatagramLength, 0));
        }
        let size = body_start(id_length) + body_length;
        if size > MAX_DATAGRAM {
            return Err(Layer::Packet.refusal(Fault::DatagramLength, 0));
        }
        if id_length == 0 || id_length > MAX_ID {
            return Err(Layer::Packet.refusal(Fault::IdLength, ID_LENGTH_AT));
        }
        if body_length == 0 {
            return Err(Layer::Packet.refusal(Fault::BodyLength, BODY_LENGTH_AT));
        }
        if !numbered(self.number, self.count, self.stop) {
            return Err(Layer::Packet.refusal(Fault::Numbering, NUMBER_AT));
        }
        Ok(size)
    }

    // The header up to the id.
    fn header(&self) -> [u8; HEADER_LENGTH]
        requires id { length self.now.id.now < 2 ^ 32 }
        requires body { length self.now.body.now < 2 ^ 16 }
        ensures { result ≡ header_of (shown self.now) }
    {
        let order = self.order;
        let flags = flags_of(order, self.stop);
        let [b0, b1]: [u8; 2] = order.encode(self.body.len() as u16);
        let [n0, n1, n2, n3]: [u8; 4] = order.encode(self.number);
        let [c0, c1, c2, c3]: [u8; 4] = order.encode(self.count);
        let [i0, i1, i2, i3]: [u8; 4] = order.encode(self.id.len() as u32);
        [
            b'M', b'I', b'O', b'P', VERSION, flags, b0, b1, n0, n1, n2, n3, c0, c1, c2, c3, i0, i1,
            i2, i3,
        ]
    }
}
