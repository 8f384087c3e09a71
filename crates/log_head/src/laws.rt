//! Laws on heads and the log, for the proofs of callers.

ghost use Rattle.log_head.specs.Laws.{HeadIsRead, EndsAreLengths, FrontsAreTexts, PartsAreUnits};
ghost use Rattle.log_head.specs.Laws.{FreshIsImage, UnitIsImage, CountsAreImage, LostIsImage, SettledIsImage};
ghost use Rattle.log_head.specs.Laws.{OrdinaryKeeps, DigestRises, DigestIsFew, RollBegins, RollEnds};

/// An image holds exactly one head of the log. The bytes between two ends of units are whole units.
pub fn heads_are_read()
    ensures head { HeadIsRead }
    ensures ends { EndsAreLengths }
    ensures fronts { FrontsAreTexts }
    ensures parts { PartsAreUnits }
{}

/// The image holds the log's head at the head's start. It goes on to hold the log's head after one more unit, after a
/// replica took units or is lost, and once all that the head holds counts as loaded.
pub fn images_go_on()
    ensures fresh { FreshIsImage }
    ensures unit { UnitIsImage }
    ensures counts { CountsAreImage }
    ensures lost { LostIsImage }
    ensures settled { SettledIsImage }
{}

/// A roll of this head is a roll of the log when it begins and when it ends.
pub fn rolls_go_on()
    ensures begins { RollBegins }
    ensures ends { RollEnds }
{}

/// In an ordinary roll the digest of the next head lists the ids of the digest in force before its own. In each roll
/// its ids rise, and besides survivors they are no more than before.
pub fn digests_go_on()
    ensures ordinary { OrdinaryKeeps }
    ensures rises { DigestRises }
    ensures few { DigestIsFew }
{}
