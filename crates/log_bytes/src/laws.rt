//! Laws about a log whose backups may fail, as bytes.

ghost use Rattle.log_bytes.specs.Laws.{LengthIsSame, TextsAreSpelled, SpelledIsRead};
ghost use Rattle.log_bytes.specs.Laws.{OpIsNeverWrong, TakenIsSpelled, FaultIsSpelled};
ghost use Rattle.log_bytes.specs.Laws.{UsableIsSame, ChoiceIsSpelled, SpelledIsChoice};
ghost use Rattle.log_bytes.specs.Laws.{SurvivesInModel, NewestIsOpened};
ghost use Rattle.log_bytes.specs.Laws.{SpelledIsSound};
ghost use Rattle.log_bytes.specs.Segments.{OpLeavesSegments, RollingHasSegments};
ghost use Rattle.log_bytes.specs.Segments.{EndedHasSegments, OpHasSegments, OthersHaveSegments};
ghost use Rattle.log_bytes.specs.Keeping.{KeepingIsSound, NewHoldsLog};
ghost use Rattle.log_bytes.specs.Keeping.{OkIsSpelled, FaultIsEither, HeldOpIsNeverWrong};
ghost use Rattle.log_bytes.specs.Held.{UnitsAreHeld};

/// A text has as many bytes as the model counts, and a reader of the bytes gets the text that was written.
pub fn texts_spelled()
    ensures lengths { LengthIsSame }
    ensures written { TextsAreSpelled }
    ensures read { SpelledIsRead }
{}

/// A fleet never answers Wrong to an op that fits in the model, and spells what the model shows once the op is taken
/// or has ended in a fault.
pub fn ops_spelled()
    ensures never_wrong { OpIsNeverWrong }
    ensures taken { TakenIsSpelled }
    ensures fault { FaultIsSpelled }
{}

/// The choices of the newest log in bytes are those of the model, with the same bags.
pub fn choices_spelled()
    ensures usable { UsableIsSame }
    ensures spelled { ChoiceIsSpelled }
    ensures choice { SpelledIsChoice }
{}

/// A picture that spells a sound one of the model is sound. Head and segments that both survive in bytes do so in the
/// model, and `newest_opened` is the newest opened head.
pub fn spelled_sound()
    ensures survival { SurvivesInModel }
    ensures newest { NewestIsOpened }
    ensures sound { SpelledIsSound }
{}

/// Each op leaves replicas that are whole segments, and the texts of the heads stay whole segments.
pub fn segments_written()
    ensures ops { OpLeavesSegments }
    ensures rolling { RollingHasSegments }
    ensures ended { EndedHasSegments }
    ensures op { OpHasSegments }
    ensures others { OthersHaveSegments }
{}

/// The picture of a fleet that keeps a log is sound. A fleet that holds nothing of a new master holds its log.
pub fn fleet_keeps()
    ensures sound { KeepingIsSound }
    ensures new { NewHoldsLog }
{}

/// The fleet spells what the model shows once an op of a master is taken, or, after a fault, perhaps what the model
/// showed before the op. The fleet never answers Wrong if the master knows what is held. All this is true while the
/// master is loading too.
pub fn asked_is_spelled()
    ensures ok { OkIsSpelled }
    ensures fault { FaultIsEither }
    ensures never_wrong { HeldOpIsNeverWrong }
{}

/// Each backup that took the head's Open holds the head's durable units.
pub fn bytes_held()
    ensures { UnitsAreHeld }
{}
