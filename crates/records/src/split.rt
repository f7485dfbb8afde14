// Splits an input into the whole records that it begins with.
ghost use Rattle.std.specs.Prelude.{◌≡◌, ℕ, List, length, MatchOption};
ghost use Rattle.std.specs.Iterator.{at_most};
ghost use Rattle.records.specs.Records.{Begins, Cut};

use crate::split_record;
use std::marker::Model;

/// An iterator over what the whole records of an input hold, in their order.
/// A contract sees the bytes that are left.
// No derives, as of `Inbox`.
#[derive(Drop)]
pub struct Records<'a> {
    rest: &'a [u8],
}

impl<'a> Model for Records<'a> {
    ghost Value = { List ℕ };

    ghost view = { λ records. records.rest.now };
}

impl<'a> Records<'a> {
    /// The records of `input`.
    pub fn new(input: &'a [u8]) -> Records<'a>
        ensures { result ≡ input.now }
    {
        Records { rest: input }
    }

    /// The bytes after the records that were given.
    pub fn rest(&self) -> &'a [u8]
        ensures { result.now ≡ self.now }
    {
        self.rest
    }
}

impl<'a> Iterator for Records<'a> {
    type Item = &'a [u8];

    ghost next_gives = { λ s r t. MatchOption r (Cut s × (t ≡ s)) (λ held. Begins s held.now t) };

    ghost remaining = { λ s. at_most (length s) };

    fn next(&mut self) -> Option<&'a [u8]> {
        let (record, rest) = split_record(self.rest)?;
        self.rest = rest;
        Some(record)
    }
}
