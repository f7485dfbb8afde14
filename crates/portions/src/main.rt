// Two loads, each sent in portions by hand: what a program does that has its loads in pieces.
#![tactic(auto)]

use sender::ids::Issuer;
use sender::length::BodyLength;
use sender::open::OpenSender;
use std::{fmt, io};
use wire::order::ByteOrder;
use wire::refusal::Refusal;

// What went out of a load: how many packets before its last, and how long the last is.
#[derive(Clone, Copy)]
struct Sent {
    packets: usize,
    last: usize,
}

impl fmt::Display for Sent {
    fn fmt<W: fmt::Write>(&self, f: &mut fmt::Formatter<W>) -> fmt::Result {
        write!(
            f,
            "{} packet and a last one of {} bytes",
            self.packets, self.last
        )
    }
}

// Sends two loads.
fn send_two(buffer: &mut [u8]) -> Result<(Sent, Sent), Refusal> {
    let length = BodyLength::new(16)?;
    let mut issuer = Issuer::new(7);
    let ticket = issuer.issue()?;
    let other_ticket = issuer.issue()?;
    let mut hoist = OpenSender::begin(length, ticket, ByteOrder::Big);
    let mut border = OpenSender::begin(length, other_ticket, ByteOrder::Big);
    let early = hoist.add(b"hoist 4 to 3.20 m, ", buffer)?;
    let closed = hoist.close();
    let later = border.add(b"border 2 to 7.05 m, slowly", buffer)?;
    let first = Sent {
        packets: early,
        last: closed.write_final(buffer)?,
    };
    let second = Sent {
        packets: later,
        last: border.close().write_final(buffer)?,
    };
    Ok((first, second))
}

fn main(rt: HostRuntime) -> io::Result<()> {
    let mut buffer = [0; 256];
    match send_two(&mut buffer) {
        Ok((hoist, border)) => {
            println!(rt; "hoist {hoist}")?;
            println!(rt; "border {border}")
        }
        Err(refusal) => println!(rt; "refused {}", refusal.fault),
    }
}
