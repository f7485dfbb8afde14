// What the receiver's calls answer.
ghost use Rattle.std.specs.Prelude.{Some};
ghost use Rattle.receiver.specs.Replies.{outcome_name};

use std::fmt;

/// What became of an arrival that is not refused.
#[derive(Clone, Copy, Debug, PartialEq, Eq)]
pub enum Outcome {
    /// The packet is new, and its message is not whole yet.
    Kept,
    /// A packet with this number was heard before in the stay.
    Repeated,
    /// The packet is new, and its message is whole with it.
    Whole,
}

impl fmt::Display for Outcome {
    ghost output = { λ outcome. Some (outcome_name outcome) };

    fn fmt<W: fmt::Write>(&self, f: &mut fmt::Formatter<W>) -> fmt::Result {
        f.write_str(match self {
            Outcome::Kept => "kept",
            Outcome::Repeated => "repeated",
            Outcome::Whole => "whole",
        })
    }
}

/// The state of an id.
// no `Option` of four states: the state question has these five answers, each by its name
#[derive(Clone, Copy, Debug, PartialEq, Eq)]
pub enum IdState {
    /// The id is in no stay.
    None,
    Gathering {
        /// How many packet numbers were heard.
        heard: u32,
        /// The lowest packet number that was not heard, 64 if all were (no Option, as in the summary).
        lowest_unheard: u32,
    },
    /// The message is complete, and waits to be fetched.
    Whole {
        length: usize,
    },
    /// Two packets that were heard contradict.
    Spoiled,
    Fetched,
}

/// The answer to a state question.
#[derive(Clone, Copy, Debug, PartialEq, Eq)]
pub struct Status {
    pub state: IdState,
    /// How many arrivals were refused, for whatever id, up to 4,294,967,295.
    pub refused: u32,
}
