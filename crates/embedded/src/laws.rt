//! Laws about what survives a master of a store.

ghost use Rattle.embedded.specs.Survives.{WhatIsLost, WhatSurvives};

/// What a recovery finds of a master that was valid to its end is the map after a prefix of its commands, and each
/// durable one is in that prefix, whichever backups were lost.
pub fn what_survives()
    ensures { WhatSurvives }
{}

/// A recovery of a master that was valid to its end finds no table only if the head or a segment is lost, and then
/// names it, or if memory ran out. If fewer backups were lost than a segment has replicas, nothing is lost.
pub fn what_is_lost()
    ensures { WhatIsLost }
{}
