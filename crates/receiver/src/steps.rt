// The steps of the receiver's calls that change nothing of it.
ghost use Rattle.std.specs.Prelude.{◌≡◌, ℕ, ◌≤◌, ◌↔◌, IsTrue, List, ◌++◌, length, MatchOption};
ghost use Rattle.packet.specs.Limits.{max_id};
ghost use Rattle.packet.specs.Packets.{InRange, shown as packet-shown};
ghost use Rattle.collection.specs.Fragments.{joined};
ghost use Rattle.collection.specs.Kept.{OfHeard, shown};
ghost use Rattle.history.specs.Stays.{fragment_of};
ghost use Rattle.receiver.specs.Slots.{Bears};
ghost use Rattle.receiver.specs.Parts.{Absent, OwnSlot, AllTaken, FreeSlot, Home, Crowded, Begun, Completes, Joins};

use crate::answers::Outcome;
use crate::stay::{Phase, Stay};
use crate::unique_id::UniqueId;
use collection::fragment::Fragment;
use collection::summary::Summary;
use packet::Packet;
use shelf::{Place, Shelf};

// Whether the slot holds a stay of the id.
fn bears(slot: &Option<Stay>, id: &[u8]) -> bool
    ensures { IsTrue result ↔ Bears slot.now id.now }
{
    slot.is_some_and(|stay| stay.id.as_slice() == id)
}

/// The slot that has a stay of the id.
// A function of the table, as the next two: a type round an array would only hand them on.
pub(crate) fn own_slot(slots: &[Option<Stay>], id: &[u8]) -> Option<usize>
    ensures { MatchOption result (Absent slots.now id.now) (λ k. OwnSlot slots.now id.now k) }
{
    slots.iter().position(|slot| bears(slot, id))
}

// A slot without a stay.
fn free_slot(slots: &[Option<Stay>]) -> Option<usize>
    ensures { MatchOption result (AllTaken slots.now) (λ k. FreeSlot slots.now k) }
{
    slots.iter().position(|slot| slot.is_none())
}

/// The slot for an id: its own, else a free one.
pub(crate) fn place(slots: &[Option<Stay>], id: &[u8]) -> Option<usize>
    ensures { MatchOption result (Crowded slots.now id.now) (λ k. Home slots.now id.now k) }
{
    own_slot(slots, id).or_else(|| free_slot(slots))
}

/// The stay as a packet of the id finds it: in a free slot it begins.
pub(crate) fn begun(slot: Option<Stay>, id: &[u8]) -> Stay
    requires { length id.now ≤ max_id }
    ensures { Begun slot id.now result }
{
    slot.unwrap_or_else(|| Stay {
        id: UniqueId::new(id),
        age: 0,
        phase: Phase::Sound(Summary::empty()),
    })
}

/// What a packet in range says beside its id. No `From`: it asks that the packet is in range.
pub(crate) fn fragment_of<'a>(packet: Packet<'a>) -> Fragment<'a>
    requires { InRange (packet-shown packet) }
    ensures { shown result ≡ fragment_of (packet-shown packet.entry) }
{
    Fragment {
        number: packet.number as u8,
        count: (packet.count > 0).then_some(packet.count as u8),
        stop: packet.stop,
        body: packet.body,
    }
}

/// What a new packet comes to, with which the summary is this.
pub(crate) fn completion(summary: Summary) -> Outcome
    ensures { OfHeard summary (λ ps _. Completes ps result) }
{
    if summary.whole().is_some() {
        Outcome::Whole
    } else {
        Outcome::Kept
    }
}

/// Joins the first `count` pieces of the slot at the start of the buffer, if they fit.
pub(crate) fn join<S: Shelf>(shelf: &S, k: usize, count: usize, buffer: &mut [u8])
    ensures { Joins (joined (S.Shelf.piece shelf.now k) count) buffer.old buffer.new }
{
    let mut at = 0;
    // A range of packet numbers: each piece begins where those before it end.
    for number in 0..count {
        at += shelf.copy_out(Place { slot: k, number }, &mut buffer[at..]);
    }
}
