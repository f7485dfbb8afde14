// A dump of blocks that stand one after the other.
ghost use Rattle.std.specs.Prelude.{OnOk};
ghost use Rattle.block.specs.Dumps.{Inspection};
ghost use Rattle.block.specs.Changes.{FailsIfChanged};

use crate::{BLOCK_LENGTH, is_lawful, is_used};
use wire::refusal::{Fault, Layer, Refusal};

/// The number of used blocks, or the refusal of the lowest unlawful block, whose place is its index.
/// Bytes after the last whole block are not read.
pub fn inspect(dump: &[u8]) -> Result<usize, Refusal>
    ensures answer { Inspection dump.now result }
    ensures one_change { OnOk result (FailsIfChanged dump.now) }
{
    let (blocks, _) = dump.as_chunks::<BLOCK_LENGTH>();
    match blocks.iter().position(|block| !is_lawful(block)) {
        Some(place) => Err(Layer::Block.refusal(Fault::UnlawfulBlock, place)),
        None => Ok(blocks.iter().filter(|block| is_used(block)).count()),
    }
}
