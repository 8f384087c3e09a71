//! Laws about lists of images, for the proofs of callers.

ghost use Rattle.images.specs.Laws.{NewestIsLast, AddedRise, AddedAreBelow, AddedHaveId, AddedCounts};
ghost use Rattle.images.specs.Laws.{AddedIsFound, AddedSegmentIsFound, ChangedIsFound, ChangedSegmentIsFound};
ghost use Rattle.images.specs.Laws.{ChangedHaveIds, ChangedRise, WithoutIsFound, WithoutSegmentIsFound, WithoutRise};

/// Where an image that is added comes in the list, and how many seglets it counts.
pub fn images_are_added()
    ensures newest { NewestIsLast }
    ensures rise { AddedRise }
    ensures below { AddedAreBelow }
    ensures ids { AddedHaveId }
    ensures counts { AddedCounts }
{}

/// Which image is found by an id after an image was added, changed or removed.
pub fn images_are_found()
    ensures added { AddedIsFound }
    ensures added_segment { AddedSegmentIsFound }
    ensures changed { ChangedIsFound }
    ensures changed_segment { ChangedSegmentIsFound }
    ensures without { WithoutIsFound }
    ensures without_segment { WithoutSegmentIsFound }
{}

/// The images stay in order if one is changed or removed.
pub fn images_stay_in_order()
    ensures ids { ChangedHaveIds }
    ensures changed { ChangedRise }
    ensures without { WithoutRise }
{}
