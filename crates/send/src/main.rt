// Reads records of preset loads from standard input, and writes the packets of each load as records.
#![tactic(auto)]

ghost use Rattle.std.specs.Prelude.{◌≤◌, IfOk, vec_len};

use anyhow::{Context, bail};
use packet::MAX_DATAGRAM;
use records::walk::{Visitor, visit_all};
use sender::ids::Issuer;
use sender::length::BodyLength;
use sender::limits::FRONT_LENGTH;
use sender::message::write_message;
use std::io::{BufWriter, Write};
use std::{env, io};
use wire::limits::MAX_PACKETS;
use wire::order::ByteOrder;
use wire::refusal::Refusal;

const USAGE: &str = "usage: send NODE L big|little";

// The most bytes that the packets of one message have.
const ROOM: usize = MAX_PACKETS as usize * MAX_DATAGRAM;

// Sends each load as one message.
#[derive(Drop)]
struct Loads<W: Write + Drop, E: Eprint + Drop> {
    issuer: Issuer,
    length: BodyLength,
    order: ByteOrder,
    // room for the packets of one message
    packets: Vec<u8>,
    out: W,
    errors: E,
}

impl<W: Write + Drop, E: Eprint + Drop> Loads<W, E> {
    // Puts the packets of a load into `packets`, one after the other, and answers how many bytes they have.
    fn cut(&mut self, load: &[u8]) -> Result<usize, Refusal>
        ensures { IfOk result (λ n. n ≤ vec_len self.new.packets) }
    {
        let ticket = self.issuer.issue()?;
        write_message(
            self.length,
            ticket,
            self.order,
            load,
            self.packets.as_mut_slice(),
        )
    }
}

// Writes the packets of a message as records, one for each packet: all but the last are full.
fn emit<W: Write>(out: &mut W, length: BodyLength, packets: &[u8]) -> io::Result<()> {
    let full = FRONT_LENGTH + length.value();
    for packet in packets.chunks(full) {
        let size: [u8; 2] = ByteOrder::Big.encode(packet.len() as u16);
        out.write_all(&size)?;
        out.write_all(packet)?;
    }
    Ok(())
}

impl<W: Write + Drop, E: Eprint + Drop> Visitor for Loads<W, E> {
    fn visit(&mut self, index: u64, record: &[u8]) -> io::Result<()> {
        match self.cut(record) {
            Ok(size) => emit(&mut self.out, self.length, &self.packets[0..size]),
            Err(refusal) => eprintln!(self.errors; "load {index} refused {}", refusal.fault),
        }
    }

    // What has come is sent before more is waited for.
    fn pause(&mut self) -> io::Result<()> {
        self.out.flush()
    }
}

fn body_length(word: &str) -> anyhow::Result<BodyLength> {
    let length = word.parse::<usize>().ok().context(USAGE)?;
    BodyLength::new(length)
        .ok()
        .context("L refused 8: not a multiple of 8 from 16 to 1440")
}

fn run(rt: &HostRuntime) -> anyhow::Result<()> {
    let mut words = env::args(rt)?;
    let _program = words.next();
    let node = words.next().context(USAGE)?;
    let length = words.next().context(USAGE)?;
    let order = words.next().context(USAGE)?;
    if words.next().is_some() {
        bail!(USAGE);
    }
    let mut loads = Loads {
        issuer: Issuer::new(node.as_str().parse::<u64>().ok().context(USAGE)?),
        length: body_length(length.as_str())?,
        order: order.as_str().parse::<ByteOrder>().ok().context(USAGE)?,
        packets: vec![in rt.alloc(); 0; ROOM]?,
        out: BufWriter::new(rt.alloc(), rt.stdout())?,
        errors: rt.clone()?,
    };
    visit_all(rt.alloc(), &mut rt.stdin(), &mut loads)?;
    Ok(())
}

fn main(rt: HostRuntime) -> anyhow::Result<()> {
    run(&rt)
}
