// Messages cut into packets, in portions and as a whole.
use packet::Packet;
use sender::ids::Issuer;
use sender::length::BodyLength;
use sender::message::write_message;
use sender::open::OpenSender;
use std::alloc::Global;
use std::process::Abort;
use std::test::Fail;
use wire::order::ByteOrder;
use wire::refusal::Refusal;

// The length of a full packet at body length 16: a front of 32 bytes and the body.
const FULL: usize = 48;

// Writes a message into `buffer` as a whole, with the first ticket of a new issuer.
fn whole(order: ByteOrder, message: &[u8], buffer: &mut [u8]) -> Result<usize, Refusal> {
    write_message(
        BodyLength::new(16)?,
        Issuer::new(7).issue()?,
        order,
        message,
        buffer,
    )
}

// A sender with the first ticket of a new issuer.
fn begun(order: ByteOrder) -> Result<OpenSender, Refusal> {
    Ok(OpenSender::begin(BodyLength::new(16)?, Issuer::new(7).issue()?, order))
}

// All that a sender writes that is given the message in portions: one ends behind each byte whose bit is set in `ends`.
fn in_portions(
    heap: Global,
    mut sender: OpenSender,
    message: &[u8],
    ends: u32,
) -> Result<Vec<u8>, Fail> {
    let mut out = Vec::new(heap);
    let mut buffer = vec![in heap; 0xEE; 256]?;
    let mut from = 0;
    for (i, _byte) in message.iter().enumerate() {
        if ends >> (i % 32) as u32 & 1 == 1 || i + 1 == message.len() {
            let portion = message.get(from..i + 1).ok_or("portion")?;
            let count = sender.add(portion, buffer.as_mut_slice())?;
            out.extend_from_slice(
                buffer
                    .as_slice()
                    .get(0..count.saturating_mul(FULL))
                    .ok_or("count")?,
            )?;
            from = i + 1;
        }
    }
    let last = sender.close().write_final(buffer.as_mut_slice())?;
    out.extend_from_slice(buffer.as_slice().get(0..last).ok_or("last")?)?;
    Ok(out)
}

// Each way of cutting a message of 18 bytes, which makes two packets, into portions.
#[test]
fn every_way_of_cutting(rt: HostRuntime) -> Result<(), Fail> {
    let message = b"hoist 4 to 3.20 m.";
    for order in [ByteOrder::Big, ByteOrder::Little] {
        let mut all = [0; 256];
        let size = whole(order, message, &mut all)?;
        assert_eq!(rt; size, 32 + 16 + 32 + 2);
        for ends in 0..131_072u32 {
            let out = in_portions(rt.alloc(), begun(order)?, message, ends)?;
            assert!(rt; all.get(0..size) == Some(out.as_slice()));
        }
    }
    Ok(())
}

// Reads the packets of a message back: numbers from 0 on, stop on the last alone, bodies in a row.
fn check_packets(
    rt: &impl Abort,
    packets: &[u8],
    order: ByteOrder,
    message: &[u8],
) -> Result<(), Fail> {
    let count = packets.chunks(FULL).count();
    let mut rest = message;
    for (i, bytes) in packets.chunks(FULL).enumerate() {
        let packet = Packet::read(bytes)?;
        assert_eq!(rt; packet.number as usize, i);
        assert_eq!(rt; packet.count, 0);
        assert_eq!(rt; packet.stop, i + 1 == count);
        assert_eq!(rt; packet.order, order);
        assert!(rt; packet.id == [0, 0, 0, 0, 0, 0, 0, 7, 0, 0, 0, 0].as_slice());
        assert!(rt; rest.starts_with(packet.body));
        rest = rest.get(packet.body.len()..).ok_or("body too long")?;
    }
    assert!(rt; rest.is_empty());
    Ok(())
}

// The length of a message, how many packets it makes at body length 16, and the number of its refusal, which users are
// promised; 0 where it is accepted, so that rows stay short.
const MESSAGES: [(usize, usize, u8); 9] = [
    (0, 0, 11),
    (1, 1, 0),
    (15, 1, 0),
    (16, 1, 0),
    (17, 2, 0),
    (32, 2, 0),
    (1008, 63, 0),
    (1024, 64, 0),
    (1025, 0, 9),
];

#[test]
fn messages_of_many_lengths(rt: HostRuntime) -> Result<(), Fail> {
    for (length, count, refused) in &MESSAGES {
        let message = vec![in rt.alloc(); 0xA5; *length]?;
        let mut buffer = vec![in rt.alloc(); 7; 64 * FULL]?;
        for order in [ByteOrder::Big, ByteOrder::Little] {
            match whole(order, message.as_slice(), buffer.as_mut_slice()) {
                Ok(size) => {
                    assert_eq!(rt; 0, *refused);
                    let packets = buffer.as_slice().get(0..size).ok_or("too long")?;
                    assert_eq!(rt; packets.chunks(FULL).count(), *count);
                    check_packets(&rt, packets, order, message.as_slice())?;
                }
                Err(refusal) => {
                    assert_eq!(rt; refusal.fault.number(), *refused);
                    assert!(rt;
                        buffer == vec![in rt.alloc(); 7; 64 * FULL]?,
                        "a refused message writes nothing"
                    );
                }
            }
        }
    }
    Ok(())
}

// A message of 17 bytes makes packets of 48 and 33 bytes.
#[test]
fn room_for_a_message(rt: HostRuntime) -> Result<(), Fail> {
    let message = [1; 17];
    let mut short = [7; 80];
    match whole(ByteOrder::Big, &message, &mut short) {
        Ok(_) => return Err(Fail::new("accepted")),
        Err(refusal) => assert_eq!(rt; refusal.fault.number(), 10),
    }
    assert!(rt; short == [7; 80]);
    assert!(rt; whole(ByteOrder::Big, &message, &mut [7; 81]).is_ok());
    Ok(())
}

// Body lengths, and whether they are accepted.
const LENGTHS: [(usize, bool); 11] = [
    (0, false),
    (8, false),
    (15, false),
    (16, true),
    (17, false),
    (24, true),
    (1432, true),
    (1440, true),
    (1441, false),
    (1448, false),
    (18_446_744_073_709_551_608, false),
];

#[test]
fn body_lengths(rt: HostRuntime) {
    for (length, accepted) in &LENGTHS {
        match BodyLength::new(*length) {
            Ok(checked) => assert!(rt; *accepted && checked.value() == *length),
            Err(refusal) => assert!(rt; !*accepted && refusal.fault.number() == 8),
        }
    }
}

// The first tickets of an issuer have serials 0, 1 and 2.
#[test]
fn tickets_in_order(rt: HostRuntime) -> Result<(), Fail> {
    let mut issuer = Issuer::new(0x0102_0304_0506_0708);
    for serial in 0..3u8 {
        let ticket = issuer.issue()?;
        assert!(rt; ticket.id() == [1, 2, 3, 4, 5, 6, 7, 8, 0, 0, 0, serial]);
    }
    Ok(())
}
