// What holds of all packets, whatever is heard.
ghost use Rattle.collection.specs.Fragments.{SoundContradiction};
ghost use Rattle.collection.specs.Kept.{AnswersPinned};
ghost use Rattle.collection.specs.Sent.{SentHeard};

/// Does nothing. Its promise is what holds of all packets.
///
/// - Contradiction does not hang on the order of the two, and no packet contradicts itself.
/// - Each answer of a summary is the only one that fits, and the order of the packets heard does not matter.
/// - The packets of one message never contradict, and all of them make it whole.
// It stays a function: a theorem is part of what the crate promises only in a contract.
pub fn laws_stand()
    ensures contradiction { SoundContradiction }
    ensures pinned { AnswersPinned }
    ensures sent { SentHeard }
{}
