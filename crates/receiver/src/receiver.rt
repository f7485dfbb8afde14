// The receiver's calls.
ghost use Rattle.std.specs.Prelude.{◌≡◌, ℕ, ◌<◌, length, if◌then◌else◌, nat_eq, MatchOption};
ghost use Rattle.wire.specs.Limits.{max_slots};
ghost use Rattle.collection.specs.Kept.{shown};
ghost use Rattle.history.specs.Calls.{History, arrives, fetches, ticks, asks, done};
ghost use Rattle.receiver.specs.Tables.{Explains, Step, seen, default_patience};
ghost use Rattle.receiver.specs.Replies.{arrival_reply, fetch_reply, status_reply, state_of, Handed};
ghost use Rattle.receiver.specs.Parts.{Uncounted, StateKnown, TakenIn, SlotAged, Absent, OwnStay, held, SameShelf};
ghost use Rattle.receiver.specs.Laws.{Lawful};

use crate::answers::{IdState, Outcome, Status};
use crate::stay::{Phase, Stay};
use crate::steps::{begun, completion, fragment_of, join, own_slot, place};
use collection::fragment::Fragment;
use collection::summary::Relation;
use packet::Packet;
use shelf::{Place, Shelf};
use wire::limits::MAX_SLOTS;
use wire::refusal::{Fault, Layer, Refusal};

/// The patience, in ticks, of a receiver that is made with patience 0.
pub const DEFAULT_PATIENCE: u16 = 50;

/// A receiver of messages over a shelf of any kind.
#[derive(Drop)]
pub struct Receiver<S> {
    shelf: S,
    // the stays, each in a slot of its own
    slots: [Option<Stay>; MAX_SLOTS],
    // after how many ticks a stay ends that is not whole and in which nothing was heard or fetched meanwhile
    patience: u16,
    // how many arrivals were refused
    refused: u32,
}

impl<S: Shelf> Receiver<S> {
    /// A new receiver, whose shelf is cleared. Patience 0 means the default: a number, since 0 is how users say so.
    ///
    /// Its promise `law` is that of the receiver as a whole: what holds of every run of calls from here.
    pub fn new(shelf: S, patience: u16) -> Receiver<S>
        ensures law { Lawful (seen S.Shelf result) }
        ensures patience { result.patience ≡
            (if nat_eq patience 0 then default_patience else patience) }
        ensures shelf { SameShelf (held S.Shelf shelf) (held S.Shelf result.shelf) }
    {
        let mut shelf = shelf;
        // The numbers of the slots, of which nothing is taken.
        for slot in 0..MAX_SLOTS {
            shelf.clear(slot);
        }
        let patience = if patience == 0 {
            DEFAULT_PATIENCE
        } else {
            patience
        };
        Receiver {
            shelf,
            slots: [None; MAX_SLOTS],
            patience,
            refused: 0,
        }
    }

    /// Hears a datagram, and answers what became of its packet, or why it is refused.
    pub fn arrive(&mut self, datagram: &[u8]) -> Result<Outcome, Refusal>
        ensures { Step (arrives datagram.now) (arrival_reply result)
            (seen S.Shelf self.old) (seen S.Shelf self.new) }
    {
        let answer = self.hear(datagram);
        if answer.is_err() {
            self.refused = self.refused.saturating_add(1);
        }
        answer
    }

    // Hears a datagram, and leaves it to the caller to count the refused ones.
    fn hear(&mut self, datagram: &[u8]) -> Result<Outcome, Refusal>
        ensures { Uncounted (arrives datagram.now) (arrival_reply result)
            (seen S.Shelf self.old) (seen S.Shelf self.new) }
    {
        let packet = Packet::read(datagram)?;
        let Some(k) = place(&self.slots, packet.id) else {
            return Err(Layer::Receiver.refusal(Fault::SlotsTaken, 0));
        };
        let stay = begun(self.slots[k], packet.id);
        self.take_in(k, stay, fragment_of(packet))
    }

    // Takes a packet into the slot `at`, whose stay is this as the packet finds it.
    fn take_in(&mut self, at: usize, stay: Stay, fragment: Fragment) -> Result<Outcome, Refusal>
        requires { at < max_slots }
        ensures { TakenIn at (shown fragment.entry) (arrival_reply result) stay
            (seen S.Shelf self.old) (seen S.Shelf self.new) }
    {
        match stay.phase {
            Phase::Fetched => {
                self.slots[at] = Some(stay.turned(Phase::Fetched));
                Err(Layer::Receiver.refusal(Fault::Fetched, 0))
            }
            Phase::Spoiled => {
                self.slots[at] = Some(stay.turned(Phase::Spoiled));
                Err(Layer::Receiver.refusal(Fault::Spoiled, 0))
            }
            Phase::Sound(summary) => match summary.relate(&self.shelf, at, fragment) {
                Relation::Contradicts => {
                    self.shelf.clear(at);
                    self.slots[at] = Some(stay.turned(Phase::Spoiled));
                    Err(Layer::Receiver.refusal(Fault::Contradiction, 0))
                }
                Relation::Repeated => {
                    self.slots[at] = Some(stay.turned(Phase::Sound(summary.with(fragment))));
                    Ok(Outcome::Repeated)
                }
                Relation::New => {
                    let place = Place {
                        slot: at,
                        number: fragment.number as usize,
                    };
                    if !self.shelf.put(place, fragment.body) {
                        return Err(Layer::Receiver.refusal(Fault::ShelfFull, 0));
                    }
                    let summary = summary.with(fragment);
                    self.slots[at] = Some(stay.turned(Phase::Sound(summary)));
                    Ok(completion(summary))
                }
            },
        }
    }

    /// Writes the message of an id at the start of the buffer, and answers its length.
    pub fn fetch(&mut self, id: &[u8], buffer: &mut [u8]) -> Result<usize, Refusal>
        ensures step { Step (fetches id.now (length buffer.old)) (fetch_reply result buffer.new)
            (seen S.Shelf self.old) (seen S.Shelf self.new) }
        ensures buffer { (h : History) → Explains h (seen S.Shelf self.old)
            → Handed result buffer.old buffer.new }
    {
        let Some((k, stay)) = self.stay_of(id) else {
            return Err(Layer::Receiver.refusal(Fault::NoSlot, 0));
        };
        match stay.phase {
            Phase::Spoiled => Err(Layer::Receiver.refusal(Fault::Spoiled, 0)),
            Phase::Fetched => Err(Layer::Receiver.refusal(Fault::Fetched, 0)),
            Phase::Sound(summary) => {
                let Some(extent) = summary.whole() else {
                    return Err(Layer::Receiver.refusal(Fault::Gathering, 0));
                };
                if extent.length > buffer.len() {
                    return Err(Layer::Receiver.refusal(Fault::BufferLength, 0));
                }
                join(&self.shelf, k, extent.pieces as usize, buffer);
                self.shelf.clear(k);
                self.slots[k] = Some(stay.turned(Phase::Fetched));
                Ok(extent.length)
            }
        }
    }

    // The slot of an id, with its stay.
    fn stay_of(&self, id: &[u8]) -> Option<(usize, Stay)>
        ensures { MatchOption result (Absent self.now.slots id.now)
            (λ x. OwnStay self.now.slots id.now x.0 x.1) }
    {
        let k = own_slot(&self.slots, id)?;
        let stay = self.slots[k]?;
        Some((k, stay))
    }

    /// Lets a tick pass. A stay ends that is not whole, and in which nothing was heard or fetched for as many ticks as the patience.
    pub fn tick(&mut self)
        ensures { Step ticks done (seen S.Shelf self.old) (seen S.Shelf self.new) }
    {
        // By index: after `iter_mut` a proof does not know the elements.
        for i in 0..MAX_SLOTS {
            self.age(i);
        }
    }

    // Lets a tick pass for one slot.
    fn age(&mut self, i: usize)
        requires { i < max_slots }
        ensures { SlotAged i (seen S.Shelf self.old) (seen S.Shelf self.new) }
    {
        let Some(stay) = self.slots[i] else {
            return;
        };
        match stay.older(self.patience) {
            Some(after) => self.slots[i] = Some(after),
            None => {
                self.shelf.clear(i);
                self.slots[i] = None;
            }
        }
    }

    /// The state of an id, and how many arrivals were refused.
    pub fn state(&self, id: &[u8]) -> Status
        ensures { Step (asks id.now) (status_reply result)
            (seen S.Shelf self.now) (seen S.Shelf self.now) }
    {
        Status {
            state: self.id_state(id),
            refused: self.refused,
        }
    }

    fn id_state(&self, id: &[u8]) -> IdState
        ensures { StateKnown id.now (state_of result) (seen S.Shelf self.now) }
    {
        let Some((_, stay)) = self.stay_of(id) else {
            return IdState::None;
        };
        match stay.phase {
            Phase::Spoiled => IdState::Spoiled,
            Phase::Fetched => IdState::Fetched,
            Phase::Sound(summary) => match summary.whole() {
                Some(extent) => IdState::Whole {
                    length: extent.length,
                },
                None => IdState::Gathering {
                    heard: summary.heard_count(),
                    lowest_unheard: summary.lowest_unheard(),
                },
            },
        }
    }
}
