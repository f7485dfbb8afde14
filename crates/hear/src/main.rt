// Reads records of datagrams from standard input, and prints what each of them is.
#![tactic(auto)]

use packet::Packet;
use records::walk::{Visitor, visit_all};
use std::io;
use std::io::{BufWriter, Write};

// Prints what each datagram is, under its index.
#[derive(Drop)]
struct Reporter<W: Write + Drop> {
    out: W,
}

impl<W: Write + Drop> Visitor for Reporter<W> {
    fn visit(&mut self, index: u64, record: &[u8]) -> io::Result<()> {
        match Packet::read(record) {
            Ok(packet) => writeln!(self.out, "{index} packet {}", packet.number),
            Err(refusal) => writeln!(self.out, "{index} refused {}", refusal.fault),
        }
    }

    // What has come is reported before more is waited for.
    fn pause(&mut self) -> io::Result<()> {
        self.out.flush()
    }
}

fn main(rt: HostRuntime) -> io::Result<()> {
    let mut reporter = Reporter {
        out: BufWriter::new(rt.alloc(), rt.stdout())?,
    };
    visit_all(rt.alloc(), &mut rt.stdin(), &mut reporter)
}
