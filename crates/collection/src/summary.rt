// What is kept of the packets heard of one unique id, apart from their bodies, and what it tells of a new one.
ghost use Rattle.std.specs.Prelude.{◌≡◌, ℕ, ◌<◌, ◌≤◌, ◌↔◌, true, false, List, [], IsTrue, MatchOption};
ghost use Rattle.wire.specs.Limits.{max_packets};
ghost use Rattle.collection.specs.Fragments.{FragmentValue, SomeIn, Against, OtherPiece, OtherCount, PastStop, OutsideCount, OtherLength, LongerStop, Either, Whole, Complete, Counted, LowestUnheard, PlainLength, no_fragments};
ghost use Rattle.collection.specs.Kept.{Open, OfHeard, OfHeardAt, Tells, Related, Taken, StopWith, CountWith, LengthWith, shown};

use crate::fragment::Fragment;
use numbers::NumberSet;
use shelf::{Place, Shelf};

/// What is kept of the packets heard of one unique id, apart from their bodies.
// What holds of it hangs on those packets and their bodies too (`Open`): no ghost field and no Model can say it.
#[derive(Clone, Copy, Debug, PartialEq, Eq)]
pub struct Summary {
    heard: NumberSet,
    stop: Option<Last>,
    // how many packets the message has, if a packet said it
    count: Option<u8>,
    // the length of each body that is not the stop packet's, if one was heard
    length: Option<u16>,
}

/// How a packet is related to the packets heard of its unique id.
#[derive(Clone, Copy, Debug, PartialEq, Eq)]
pub enum Relation {
    /// It contradicts none of them, and its number was not heard.
    New,
    /// It contradicts none of them, and its number was heard.
    Repeated,
    /// It contradicts one of them: the two are not of one message.
    Contradicts,
}

/// A whole message: how many pieces it has, and how many bytes.
#[derive(Clone, Copy, Debug, PartialEq, Eq)]
pub struct Extent {
    pub pieces: u8,
    pub length: usize,
}

// The stop packet that was heard: its number, and the length of its body.
#[derive(Clone, Copy, Debug, PartialEq, Eq)]
struct Last {
    number: u8,
    length: u16,
}

impl Summary {
    /// The summary of no packet.
    // No Default stands beside it: `empty` says what the summary is of, and nothing takes a Default.
    pub fn empty() -> Self
        ensures { (piece : ℕ → List ℕ) → ((n : ℕ) → piece n ≡ []) → Open no_fragments result piece }
    {
        Summary {
            heard: NumberSet::empty(),
            stop: None,
            count: None,
            length: None,
        }
    }

    /// How the fragment is related to the packets heard, whose bodies the shelf holds at the slot, each at its number.
    // Shelf and slot stay parameters: the caller has them apart, and would build a struct of them for this one call.
    pub fn relate<S: Shelf>(self, shelf: &S, slot: usize, packet: Fragment) -> Relation
        ensures { OfHeardAt self (S.Shelf.piece shelf.now slot)
            (λ ps. Related ps (shown packet.entry) result) }
    {
        if self.contradicts(shelf, slot, packet) {
            return Relation::Contradicts;
        }
        if self.heard.contains(packet.number) {
            return Relation::Repeated;
        }
        Relation::New
    }

    /// The summary with one packet more, which contradicts none of those heard.
    pub fn with(self, packet: Fragment) -> Self
        ensures { Taken self result (shown packet.entry) }
    {
        Summary {
            heard: self.heard.with(packet.number),
            stop: self.stop_with(packet),
            count: self.count_with(packet),
            length: self.length_with(packet),
        }
    }

    /// The extent of the message, if the packets heard make it whole.
    pub fn whole(self) -> Option<Extent>
        ensures { OfHeard self (λ ps piece.
            MatchOption result (Whole ps → ⊥) (λ x. Complete ps piece x.pieces x.length)) }
    {
        let last = self.stop?;
        if self.heard.lowest_absent() <= last.number as u32 {
            return None;
        }
        let length = last.number as usize * self.plain_length() as usize + last.length as usize;
        Some(Extent {
            pieces: last.number + 1,
            length,
        })
    }

    /// How many packet numbers were heard.
    pub fn heard_count(self) -> u32
        ensures { OfHeard self (λ ps _. Counted ps max_packets result) }
    {
        self.heard.count()
    }

    /// The lowest packet number that was not heard, or `MAX_PACKETS` of `wire::limits` if all were.
    // No Option, as in `NumberSet::lowest_absent`.
    pub fn lowest_unheard(self) -> u32
        ensures { OfHeard self (λ ps _. LowestUnheard ps result) }
    {
        self.heard.lowest_absent()
    }

    // Does a packet heard contradict this one? `|` and `&` have no branches, so a proof has one path.
    fn contradicts<S: Shelf>(self, shelf: &S, slot: usize, packet: Fragment) -> bool
        ensures { OfHeardAt self (S.Shelf.piece shelf.now slot)
            (λ ps. IsTrue result ↔ Against ps (shown packet.entry)) }
    {
        self.other_piece(shelf, slot, packet)
            | self.other_count(packet)
            | self.past_stop(packet)
            | self.outside_count(packet)
            | self.other_length(packet)
            | self.longer_stop(packet)
    }

    // Was a packet of the same number heard, with another body or another stop flag?
    fn other_piece<S: Shelf>(self, shelf: &S, slot: usize, packet: Fragment) -> bool
        ensures { OfHeardAt self (S.Shelf.piece shelf.now slot)
            (λ ps. IsTrue result ↔ SomeIn ps (OtherPiece (shown packet.entry))) }
    {
        if !self.heard.contains(packet.number) {
            return false;
        }
        let place = Place {
            slot,
            number: packet.number as usize,
        };
        let same_body = shelf.holds(place, packet.body);
        let same_stop = packet.stop == self.stops_at(packet.number);
        !(same_body & same_stop)
    }

    // Was another count said?
    fn other_count(self, packet: Fragment) -> bool
        ensures { Tells self result (OtherCount (shown packet.entry)) }
    {
        self.count
            .zip(packet.count)
            .is_some_and(|(said, says)| said != says)
    }

    // Is the packet past a stop packet heard, or one heard past this one?
    fn past_stop(self, packet: Fragment) -> bool
        ensures { Tells self result (Either PastStop (shown packet.entry)) }
    {
        self.past_new(packet) | self.stops_below(packet.number)
    }

    // Is the packet a stop packet, below a number that was heard?
    fn past_new(self, packet: Fragment) -> bool
        ensures { Tells self result (PastStop (shown packet.entry)) }
    {
        packet.stop && self.reaches(packet.number + 1)
    }

    // Is the packet outside a count said, or one heard outside the count that this one says?
    fn outside_count(self, packet: Fragment) -> bool
        ensures { Tells self result (Either OutsideCount (shown packet.entry)) }
    {
        self.outside_new(packet) | self.outside_said(packet)
    }

    // Is the packet outside the count that was said?
    fn outside_said(self, packet: Fragment) -> bool
        ensures { Tells self result (λ a. OutsideCount a (shown packet.entry)) }
    {
        let next = packet.number + 1;
        self.count
            .is_some_and(|count| next > count || packet.stop != (next == count))
    }

    // Is a packet heard outside the count that this one says?
    fn outside_new(self, packet: Fragment) -> bool
        ensures { Tells self result (OutsideCount (shown packet.entry)) }
    {
        // A closure round these three questions is no shorter.
        let Some(count) = packet.count else {
            return false;
        };
        let end = count - 1;
        self.reaches(count) | self.stops_below(end) | self.goes_on_at(end)
    }

    // Is the packet no stop packet, and of another length than one heard that is none either?
    fn other_length(self, packet: Fragment) -> bool
        ensures { Tells self result (OtherLength (shown packet.entry)) }
    {
        let size = packet.body.len();
        !packet.stop && self.length.is_some_and(|length| size != length as usize)
    }

    // Of this packet and one heard, is one a stop packet, and longer than the other, which is none?
    fn longer_stop(self, packet: Fragment) -> bool
        ensures { Tells self result (Either LongerStop (shown packet.entry)) }
    {
        self.longer_new(packet) | self.longer_heard(packet)
    }

    // Is the packet a stop packet, and longer than one heard that is none?
    fn longer_new(self, packet: Fragment) -> bool
        ensures { Tells self result (LongerStop (shown packet.entry)) }
    {
        let size = packet.body.len();
        packet.stop && self.length.is_some_and(|length| size > length as usize)
    }

    // Is the packet no stop packet, and shorter than the stop packet heard?
    fn longer_heard(self, packet: Fragment) -> bool
        ensures { Tells self result (λ a. LongerStop a (shown packet.entry)) }
    {
        let size = packet.body.len();
        !packet.stop && self.stop.is_some_and(|last| last.length as usize > size)
    }

    // Was a stop packet of this number heard?
    fn stops_at(self, n: u8) -> bool
        ensures { Tells self result (λ a. (a.stop ≡ true) × (a.number ≡ n)) }
    {
        self.stop.is_some_and(|last| last.number == n)
    }

    // Was a stop packet of a number below this heard?
    fn stops_below(self, n: u8) -> bool
        ensures { Tells self result (λ a. (a.stop ≡ true) × (a.number < n)) }
    {
        self.stop.is_some_and(|last| last.number < n)
    }

    // Was a packet of this number or a higher one heard?
    fn reaches(self, n: u8) -> bool
        ensures { Tells self result (λ a. n ≤ a.number) }
    {
        self.heard.highest().is_some_and(|top| top >= n as u32)
    }

    // Was a packet of this number heard that is not the stop packet?
    fn goes_on_at(self, n: u8) -> bool
        ensures { Tells self result (λ a. (a.stop ≡ false) × (a.number ≡ n)) }
    {
        self.heard.contains(n) && !self.stops_at(n)
    }

    // The stop packet, once the packet is heard too.
    fn stop_with(self, packet: Fragment) -> Option<Last>
        ensures { StopWith self (shown packet.entry) result }
    {
        let last = Last {
            number: packet.number,
            length: packet.body.len() as u16,
        };
        packet.stop.then_some(last).or(self.stop)
    }

    // The count said, once the packet is heard too.
    fn count_with(self, packet: Fragment) -> Option<u8>
        ensures { CountWith self (shown packet.entry) result }
    {
        packet.count.or(self.count)
    }

    // The length of the bodies that are not the stop packet's, once the packet is heard too.
    fn length_with(self, packet: Fragment) -> Option<u16>
        ensures { LengthWith self (shown packet.entry) result }
    {
        let length = packet.body.len() as u16;
        (!packet.stop).then_some(length).or(self.length)
    }

    // The length of the bodies that are not the stop packet's, if there is one.
    fn plain_length(self) -> u16
        ensures { OfHeard self (λ ps _. PlainLength ps result) }
    {
        self.length.unwrap_or(0)
    }
}
