// A set of packet numbers, which are below `wire::limits::MAX_PACKETS`.
//
// Other crates know a set by `has` of specs/Marks.antt alone: how it stands in memory is of this crate.
#![tactic(auto)]

ghost use Rattle.std.specs.Prelude.{◌≡◌, ◌<◌, ◌↔◌, IsTrue, MatchOption};
ghost use Rattle.wire.specs.Limits.{max_packets};
ghost use Rattle.numbers.specs.Marks.{has, tally, NoneMarked, Inserted, Lowest, Highest};

use wire::limits::MAX_PACKETS;

/// A set of packet numbers.
// It has no Model: `has` hides the bits as well, and a Copy value would have to work them out from its marks again.
#[derive(Clone, Copy, Debug, PartialEq, Eq)]
pub struct NumberSet {
    bits: u64,
}

impl NumberSet {
    /// The set of no number.
    // No Default stands beside it: `empty` says what the set is, and nothing takes a Default.
    pub fn empty() -> Self
        ensures { NoneMarked (has result) }
    {
        NumberSet { bits: 0 }
    }

    /// The set with n too, or the same set if n is no packet number.
    // Here and in `contains` the bound is named: `checked_shl` would hide it in the width of the word.
    pub fn with(self, n: u8) -> Self
        ensures { Inserted self result n }
    {
        if n as u32 >= MAX_PACKETS {
            return self;
        }
        NumberSet {
            bits: self.bits | 1 << n,
        }
    }

    /// Whether n is in the set.
    pub fn contains(self, n: u8) -> bool
        ensures { IsTrue result ↔ (has self n ≡ 1) }
    {
        (n as u32) < MAX_PACKETS && self.bits >> n & 1 == 1
    }

    /// How many numbers are in the set.
    pub fn count(self) -> u32
        ensures { result ≡ tally (has self) max_packets }
    {
        self.bits.count_ones()
    }

    /// The lowest packet number that is not in the set, or `MAX_PACKETS` if all are.
    // It is no Option: the end of the range is an answer, which callers compare and hand on like any other.
    pub fn lowest_absent(self) -> u32
        ensures { Lowest (has self) max_packets result }
    {
        (!self.bits).trailing_zeros()
    }

    /// The highest number in the set, if there is one.
    pub fn highest(self) -> Option<u32>
        ensures { MatchOption result (NoneMarked (has self)) (λ n. Highest (has self) n) }
    {
        if self.bits == 0 {
            return None;
        }
        Some(u64::BITS - 1 - self.bits.leading_zeros())
    }
}
