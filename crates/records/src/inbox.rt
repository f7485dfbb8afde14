// The bytes of an input that wait to be split into records.
ghost use Rattle.std.specs.Prelude.{◌≡◌, ℕ, List, [], ◌++◌, drop, MatchResult};

use std::alloc::{AllocError, Global};
use std::marker::Model;

/// The bytes of an input that have come and are not used yet.
// No derives of comparison and printing: nothing compares or prints an inbox, nor the records that are left.
#[derive(Drop)]
pub struct Inbox {
    waiting: Vec<u8>,
}

impl Model for Inbox {
    ghost Value = { List ℕ };

    ghost view = { λ inbox. inbox.waiting.items };
}

impl Inbox {
    /// An inbox without a byte.
    pub fn new(alloc: Global) -> Inbox
        ensures { result ≡ [] }
    {
        Inbox {
            waiting: Vec::new(alloc),
        }
    }

    /// The bytes that wait.
    pub fn waiting(&self) -> &[u8]
        ensures { result.now ≡ self.now }
    {
        self.waiting.as_slice()
    }

    /// Puts bytes behind those that wait. Where memory is short, nothing changes.
    pub fn add(&mut self, bytes: &[u8]) -> Result<(), AllocError>
        ensures { MatchResult result
            (λ _. self.new ≡ self.old ++ bytes.now)
            (λ _. self.new ≡ self.old) }
    {
        self.waiting.extend_from_slice(bytes)
    }

    /// Lets go of the first `used` bytes.
    // No `drain`: the library's turns all that waits round, where only the bytes that stay have to move.
    pub fn forget(&mut self, used: usize)
        ensures { self.new ≡ drop used self.old }
    {
        let length = self.waiting.len();
        let used = used.min(length);
        self.waiting.copy_within(used..length, 0);
        self.waiting.truncate(length - used);
    }
}
