//! Laws about passes, for the proofs of callers.

ghost use Rattle.cleaner.specs.Laws.{RestsAgree, CursorsAgree, PassesAgree, EndHasNoRest, RestIsOfVictims};
ghost use Rattle.cleaner.specs.Laws.{FewerFillNoMore, OneIfAllFit, MoreFillNoFewer, SegmentFillsOneMore, HundredsFill};
ghost use Rattle.cleaner.specs.Laws.{LengthsOfSegment, SegmentFits, BeginHasRoomsIn, CopyLeavesRooms, CopyKeepsIds};
ghost use Rattle.cleaner.specs.Laws.{SurvivorsDoNotGrow, RoomsStay};
ghost use Rattle.cleaner.specs.Laws.{LackingIsOne, NoneIsLacking, SealAddsOne, CopyKeepsReplicas};

/// The places that a pass still has to treat: in which segments they are, when none is left, and on which images they
/// depend.
pub fn rests_agree()
    ensures rest { RestsAgree }
    ensures cursor { CursorsAgree }
    ensures pass { PassesAgree }
    ensures end { EndHasNoRest }
    ensures victims { RestIsOfVictims }
{}

/// How many survivors entries fill.
pub fn survivors_are_counted()
    ensures fewer { FewerFillNoMore }
    ensures one { OneIfAllFit }
    ensures more { MoreFillNoFewer }
    ensures segment { SegmentFillsOneMore }
    ensures hundreds { HundredsFill }
{}

/// A pass that begins with as many survivors as what its victims keep fills has room for each entry, whatever dies
/// before it is copied.
pub fn rest_fits()
    ensures lengths { LengthsOfSegment }
    ensures segment { SegmentFits }
    ensures begin { BeginHasRoomsIn }
    ensures copy { CopyLeavesRooms }
    ensures ids { CopyKeepsIds }
    ensures less { SurvivorsDoNotGrow }
    ensures stay { RoomsStay }
{}

/// Which segment is the first that lacks replicas, and how seals and copies change the replicas that segments have.
pub fn seals_in_order()
    ensures first { LackingIsOne }
    ensures none { NoneIsLacking }
    ensures one { SealAddsOne }
    ensures copy { CopyKeepsReplicas }
{}
