// Packets, made from what a sender holds and put into buffers.
ghost use Rattle.std.specs.Prelude.{◌≡◌, ◌+◌, ◌*◌, ◌/◌, ◌<◌, ◌≤◌, [], ◌∷◌, ◌++◌, length, take, drop};
ghost use Rattle.wire.specs.Limits.{max_packets};
ghost use Rattle.packet.specs.Packets.{shown, size_of, InRange};
ghost use Rattle.sender.specs.Packets.{bytes_of};
ghost use Rattle.sender.specs.Parts.{run_of, run_length};

use packet::Packet;

// Writes a packet at `at`, and answers its length.
pub(crate) fn put_packet(buffer: &mut [u8], at: usize, packet: &Packet) -> usize
    requires range { InRange (shown packet.now) }
    requires fits { at + size_of (shown packet.now) ≤ length buffer.old }
    ensures size { result ≡ size_of (shown packet.now) }
    ensures after { buffer.new ≡ take at buffer.old
        ++ (bytes_of (shown packet.now ∷ []) ++ drop (at + result) buffer.old) }
{
    packet.write(&mut buffer[at..]).unwrap()
}

// Writes `first` at the buffer's start, and after it a packet for each whole cut of `rest`, as long as the first body.
pub(crate) fn put_run<'a>(buffer: &mut [u8], first: &Packet<'a>, rest: &'a [u8])
    requires range { InRange (shown first.now) }
    requires uncounted { first.now.count ≡ 0 }
    requires few { first.now.number + length rest.now / length first.now.body.now < max_packets }
    requires fits { run_length (shown first.now) rest.now * size_of (shown first.now)
        ≤ length buffer.old }
    ensures { buffer.new
        ≡ bytes_of (run_of (shown first.now) rest.now (run_length (shown first.now) rest.now))
        ++ drop (run_length (shown first.now) rest.now * size_of (shown first.now)) buffer.old }
{
    let size = put_packet(buffer, 0, first);
    for (j, body) in rest.chunks_exact(first.body.len()).enumerate() {
        let index = j + 1;
        let packet = Packet {
            number: first.number + index as u32,
            body,
            ..*first
        };
        put_packet(buffer, index * size, &packet);
    }
}
