// What a slot holds that is not free: the stay of one id.
ghost use Rattle.std.specs.Prelude.{◌≡◌, Some};
ghost use Rattle.receiver.specs.Parts.{Older, TellsWaiting, turned_to};

use crate::unique_id::UniqueId;
use collection::summary::Summary;

/// A stay of an id.
#[derive(Clone, Copy)]
pub struct Stay {
    pub id: UniqueId,
    /// The ticks since a packet was heard or the message was fetched, up to the patience.
    pub age: u16,
    pub phase: Phase,
}

/// What a stay has come to.
#[derive(Clone, Copy)]
pub enum Phase {
    /// No two packets heard contradict: the message is being gathered, or it is whole, as the summary says.
    Sound(Summary),
    /// Two packets heard contradict.
    Spoiled,
    /// The message was handed out.
    Fetched,
}

impl Stay {
    /// The stay in this phase, at age 0.
    pub(crate) fn turned(self, phase: Phase) -> Stay
        ensures { result ≡ turned_to phase self }
    {
        Stay {
            phase,
            age: 0,
            ..self
        }
    }

    /// The stay a tick later, if it does not end with it.
    pub(crate) fn older(self, patience: u16) -> Option<Stay>
        ensures { Older patience (Some self) result }
    {
        let age = self.age.saturating_add(1).min(patience);
        if age == patience && !self.waits() {
            return None;
        }
        Some(Stay { age, ..self })
    }

    // Whether the message is whole and not yet fetched.
    fn waits(self) -> bool
        ensures { TellsWaiting result self }
    {
        match self.phase {
            Phase::Sound(summary) => summary.whole().is_some(),
            Phase::Spoiled | Phase::Fetched => false,
        }
    }
}
