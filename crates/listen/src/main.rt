// Hears the datagrams of a recording on standard input, and prints what becomes of each and which messages are whole.
#![tactic(auto)]

use cells::{CELL_LENGTH, CellShelf};
use packet::Packet;
use receiver::answers::Outcome;
use receiver::receiver::Receiver;
use records::walk::{Visitor, visit_all};
use shelf::Shelf;
use std::io;
use std::io::{BufWriter, Write};
use wire::limits::{MAX_PACKETS, MAX_PIECE};
use wire::refusal::Refusal;

const CELLS: usize = 16;

// The receiver's patience in ticks. A recording has no ticks, so no stay of it ends.
const PATIENCE: u16 = 50;

// The longest message.
const LONGEST: usize = MAX_PACKETS as usize * MAX_PIECE;

// Hears each record as a datagram, and prints what the receiver answers.
#[derive(Drop)]
struct Listener<S: Shelf + Drop, W: Write + Drop> {
    receiver: Receiver<S>,
    // room for one message
    message: Vec<u8>,
    out: W,
}

impl<S: Shelf + Drop, W: Write + Drop> Listener<S, W> {
    // Fetches the message that the packet of this datagram made whole, and answers its length.
    fn fetch(&mut self, datagram: &[u8]) -> Result<usize, Refusal> {
        let packet = Packet::read(datagram)?;
        self.receiver.fetch(packet.id, self.message.as_mut_slice())
    }

    fn refused(&mut self, index: u64, refusal: Refusal) -> io::Result<()> {
        writeln!(self.out, "{index} refused {}", refusal.fault)
    }
}

impl<S: Shelf + Drop, W: Write + Drop> Visitor for Listener<S, W> {
    fn visit(&mut self, index: u64, record: &[u8]) -> io::Result<()> {
        let outcome = match self.receiver.arrive(record) {
            Ok(outcome) => outcome,
            Err(refusal) => return self.refused(index, refusal),
        };
        writeln!(self.out, "{index} {outcome}")?;
        if outcome != Outcome::Whole {
            return Ok(());
        }
        match self.fetch(record) {
            Ok(length) => writeln!(self.out, "message {length}"),
            Err(refusal) => self.refused(index, refusal),
        }
    }

    // What was heard is reported before more is waited for.
    fn pause(&mut self) -> io::Result<()> {
        self.out.flush()
    }
}

fn listen<S: Shelf + Drop>(rt: HostRuntime, shelf: S) -> io::Result<()> {
    let mut listener = Listener {
        receiver: Receiver::new(shelf, PATIENCE),
        message: vec![in rt.alloc(); 0; LONGEST]?,
        out: BufWriter::new(rt.alloc(), rt.stdout())?,
    };
    visit_all(rt.alloc(), &mut rt.stdin(), &mut listener)
}

fn main(rt: HostRuntime) -> io::Result<()> {
    let mut memory = vec![in rt.alloc(); 0; CELLS * CELL_LENGTH]?;
    listen(rt, CellShelf::new(memory.as_mut_slice()))
}
