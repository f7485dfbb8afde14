// Records: how datagrams and preset loads stand one after the other in a file or a pipe.
// A record is a length in two bytes, big-endian, and then as many bytes.
#![tactic(auto)]

ghost use Rattle.std.specs.Option.{MatchOption};
ghost use Rattle.records.specs.Records.{Begins, Cut};

use wire::order::ByteOrder;

pub mod inbox;
pub mod split;
pub mod walk;

/// What the first record holds, and the bytes after that record; `None` where the input has no whole record.
pub fn split_record(input: &[u8]) -> Option<(&[u8], &[u8])>
    ensures { MatchOption result (Cut input.now) (λ p. Begins input.now p.0.now p.1.now) }
{
    let [high, low, rest @ ..] = input else {
        return None;
    };
    let length = ByteOrder::Big.decode::<u16, 2>([*high, *low]) as usize;
    if rest.len() < length {
        return None;
    }
    Some(rest.split_at(length))
}
