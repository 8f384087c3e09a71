//! A law on the index after a compaction, for the proofs of callers.

ghost use Rattle.compactor.specs.Laws.{CompactionFollows};

/// After the compaction of a segment the index leads to the same objects as before, in the images after it.
pub fn index_follows()
    ensures { CompactionFollows }
{}
