// Goes over the records of an input, as they come.
ghost use Rattle.std.specs.Prelude.{ℕ, List, MatchResult, Result, ⊤};
ghost use Rattle.std.specs.declared.io.Error.{Error};
ghost use Rattle.records.specs.Records.{Walked};
ghost use Rattle.records.specs.Visits.{VisitsEach, VisitsUpTo, VisitsAll, VisitsUntil};

use crate::inbox::Inbox;
use crate::split::Records;
use std::alloc::Global;
use std::io;
use std::io::Read;

/// How much is asked of the input at a time.
const PIECE: usize = 1 << 18;

/// What is done with the records of an input.
/// An impl may leave the two ghost members as they are, and then promises nothing of its calls,
/// as where it prints: no contract can say what a terminal takes.
pub trait Visitor {
    // Relates the visitor before a visit, the index, what the record holds, the answer, and the visitor after it.
    ghost visits: { Self → ℕ → List ℕ → Result (Unit {0}) Error → Self → Type 0 } = { λ _ _ _ _ _. ⊤ };

    // Relates the visitor before a pause, the answer, and the visitor after it.
    ghost pauses: { Self → Result (Unit {0}) Error → Self → Type 0 } = { λ _ _ _. ⊤ };

    /// Takes a record. The first of an input has index 0.
    fn visit(&mut self, index: u64, record: &[u8]) -> io::Result<()>
        ensures { visits self.old index «record».now result self.new };

    /// Is called before more of the input is waited for.
    fn pause(&mut self) -> io::Result<()>
        ensures { pauses self.old result self.new };
}

/// Visits each whole record of `waiting`, in order and numbered from `index` on, until a visit fails.
/// Answers how many there were, and how many bytes they have.
pub fn visit_whole<V: Visitor>(
    visitor: &mut V,
    index: u64,
    waiting: &[u8],
) -> io::Result<(u64, usize)>
    ensures { MatchResult result
        (λ p. (walk : Walked waiting.now p.0 p.1)
        × VisitsEach V.visits visitor.old index walk.held visitor.new)
        (λ e. VisitsUpTo V.visits waiting.now index visitor.old e visitor.new) }
{
    let mut records = Records::new(waiting);
    let mut count = 0;
    // A `while`: after a `for` over `&mut records` a proof knows nothing of those that are left.
    while let Some(record) = records.next() {
        visitor.visit(index.wrapping_add(count), record)?;
        count += 1;
    }
    Ok((count, waiting.len() - records.rest().len()))
}

/// Visits each whole record of an input, to its end. A last record that is cut is not visited.
// It pauses after each piece that came; how often that is, the contract leaves open.
pub fn visit_all<R: Read, V: Visitor>(
    alloc: Global,
    input: &mut R,
    visitor: &mut V,
) -> io::Result<()>
    ensures { MatchResult result
        (λ _. VisitsAll V.visits V.pauses
        (R.remaining input.old) (R.remaining input.new) visitor.old visitor.new)
        (λ e. VisitsUntil V.visits V.pauses
        (R.remaining input.old) (R.remaining input.new) visitor.old e visitor.new) }
{
    let mut piece = vec![in alloc; 0; PIECE]?;
    let mut inbox = Inbox::new(alloc);
    let mut index: u64 = 0;
    // Nothing says that an input ends, so the turns are counted.
    for _ in 0..u64::MAX {
        let came = input.read(piece.as_mut_slice())?;
        if came == 0 {
            break;
        }
        inbox.add(&piece[0..came])?;
        let (count, used) = visit_whole(visitor, index, inbox.waiting())?;
        index = index.wrapping_add(count);
        inbox.forget(used);
        visitor.pause()?;
    }
    Ok(())
}
