//! Laws about wills, for the proofs of callers.

ghost use Rattle.tablet_will.specs.Laws.{RuleDivides};

/// By the rule each place of the tablets has exactly one partition, and each partition has a place.
pub fn each_place_has_one_partition()
    ensures { RuleDivides }
{}
