// A receiver that hears packets, and answers by outcomes and faults.
use packet::{MAX_DATAGRAM, Packet};
use receiver::answers::{IdState, Outcome};
use receiver::receiver::Receiver;
use shelf::Shelf;
use wire::order::ByteOrder;
use wire::refusal::{Fault, Refusal};

#[derive(Drop)]
pub struct Rig<S: Shelf + Drop> {
    pub receiver: Receiver<S>,
}

fn fault_of(refusal: Refusal) -> Fault {
    refusal.fault
}

impl<S: Shelf + Drop> Rig<S> {
    pub fn new(shelf: S, patience: u16) -> Rig<S> {
        Rig {
            receiver: Receiver::new(shelf, patience),
        }
    }

    // What the receiver answers to a packet of this id, or why there is no such packet.
    pub fn hear<'a>(
        &mut self,
        id: &'a [u8],
        number: u32,
        stop: bool,
        body: &'a [u8],
    ) -> Result<Outcome, Fault> {
        let packet = Packet {
            order: ByteOrder::Big,
            stop,
            number,
            count: 0,
            id,
            body,
        };
        let mut datagram = [0; MAX_DATAGRAM];
        let size = packet.write(&mut datagram).map_err(fault_of)?;
        self.receiver.arrive(&datagram[0..size]).map_err(fault_of)
    }

    pub fn ticks(&mut self, count: u16) {
        for _ in 0..count {
            self.receiver.tick();
        }
    }

    pub fn fetch(&mut self, id: &[u8], buffer: &mut [u8]) -> Result<usize, Fault> {
        self.receiver.fetch(id, buffer).map_err(fault_of)
    }

    pub fn state(&self, id: &[u8]) -> IdState {
        self.receiver.state(id).state
    }
}
