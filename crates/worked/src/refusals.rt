// What refusals are in print, and the names of byte orders.
use std::test::Fail;
use wire::order::{ByteOrder, UnknownByteOrder};
use wire::refusal::{Fault, Layer};

const LAYERS: [(Layer, &str); 6] = [
    (Layer::Packet, "refused 8 at 3 in packet"),
    (Layer::Sender, "refused 8 at 3 in sender"),
    (Layer::Receiver, "refused 8 at 3 in receiver"),
    (Layer::Block, "refused 8 at 3 in block"),
    (Layer::Profile, "refused 8 at 3 in profile"),
    (Layer::Component, "refused 8 at 3 in component"),
];

// The number by which users know each fault.
const NUMBERS: [(Fault, u8); 26] = [
    (Fault::DatagramLength, 1),
    (Fault::Magic, 2),
    (Fault::Version, 3),
    (Fault::Flags, 4),
    (Fault::IdLength, 5),
    (Fault::BodyLength, 6),
    (Fault::Numbering, 7),
    (Fault::PortionLength, 8),
    (Fault::MessageLength, 9),
    (Fault::BufferLength, 10),
    (Fault::EmptyMessage, 11),
    (Fault::UnlawfulBlock, 13),
    (Fault::SerialsSpent, 14),
    (Fault::SlotsTaken, 21),
    (Fault::ShelfFull, 22),
    (Fault::Contradiction, 23),
    (Fault::Spoiled, 24),
    (Fault::Fetched, 25),
    (Fault::NoSlot, 26),
    (Fault::Gathering, 27),
    (Fault::PastEnd, 30),
    (Fault::Text, 31),
    (Fault::Address, 32),
    (Fault::Port, 33),
    (Fault::Encapsulation, 34),
    (Fault::Excess, 35),
];

#[test]
fn numbers_of_faults(rt: HostRuntime) {
    for (fault, number) in &NUMBERS {
        assert_eq!(rt; fault.number(), *number);
    }
}

#[test]
fn printed_refusals(rt: HostRuntime) -> Result<(), Fail> {
    for (layer, text) in &LAYERS {
        let refusal = layer.refusal(Fault::PortionLength, 3);
        assert_eq!(rt; format!(in rt.alloc(); "{refusal}")?.as_str(), *text);
    }
    let fault = Fault::Excess;
    assert_eq!(rt; format!(in rt.alloc(); "{fault}")?.as_str(), "35");
    Ok(())
}

#[test]
fn byte_orders_by_name(rt: HostRuntime) {
    assert_eq!(rt; "big".parse::<ByteOrder>(), Ok(ByteOrder::Big));
    assert_eq!(rt; "little".parse::<ByteOrder>(), Ok(ByteOrder::Little));
    assert_eq!(rt; "Big".parse::<ByteOrder>(), Err(UnknownByteOrder));
    assert_eq!(rt; "".parse::<ByteOrder>(), Err(UnknownByteOrder));
}
