//! Laws about a log whose backups may fail, and one on objects that are loaded.

ghost use Rattle.log_laws.specs.Adopt.{LoadedIsRepresented};
ghost use Rattle.log_laws.specs.Laws.{KeptIsSound, ReplicasAreTexts, HomesHoldCopies, KeptIsReplicated};
ghost use Rattle.log_laws.specs.Laws.{FreshIsKept, OpeningIsApart};
ghost use Rattle.log_laws.specs.Laws.{ExtendsHeld, ExtendsStanding, ExtendHandsOver};
ghost use Rattle.log_laws.specs.Laws.{ReplacesHeld, ReplacesStanding};
ghost use Rattle.log_laws.specs.Laws.{ClosesHeld, ClosesStanding};
ghost use Rattle.log_laws.specs.Laws.{OpensHeld, OpensStanding};
ghost use Rattle.log_laws.specs.Laws.{RaisesHeld, RaisesStanding};
ghost use Rattle.log_laws.specs.Laws.{ResealsHeld, ResealsStanding};
ghost use Rattle.log_laws.specs.Laws.{RollingIsHeld, RollingIsStanding};
ghost use Rattle.log_laws.specs.Laws.{OrdinaryIsRoll, OrdinaryStands};
ghost use Rattle.log_laws.specs.Laws.{EndingIsHeld, EndingIsStanding};
ghost use Rattle.log_laws.specs.Laws.{FailingIsHeld, FailingIsStanding};
ghost use Rattle.log_laws.specs.Laws.{MendedIsHeld, MendedIsStanding};
ghost use Rattle.log_laws.specs.Laws.{AppendedIsHeld, AppliedIsStanding};
ghost use Rattle.log_laws.specs.Laws.{IdTakenIsHeld, IdTakenIsStanding};
ghost use Rattle.log_laws.specs.Laws.{SealsHeld, SealsStanding, FreesHeld};
ghost use Rattle.log_laws.specs.Laws.{ExtendsFits, OpensFits, ReplacesFits, RaisesFits, ClosesFits, ResealsFits};
ghost use Rattle.log_laws.specs.Laws.{SealsFits, FreesFits, FailingKnown, AppendedKnown, RollingKnown};
ghost use Rattle.log_laws.specs.Laws.{EndingKnown, MendedKnown, IdTakenKnown, AdoptedKnown};
ghost use Rattle.log_laws.specs.Runs.{NextGoesOn, DurableStays, DurableIsWithin};
ghost use Rattle.log_laws.specs.Images.{BetweenStands};
ghost use Rattle.log_laws.specs.Durable.{FreshIsPast, AdoptedIsPast};

/// A kept log is sound: whichever backups are left, each choice of the newest log from them means the map after a
/// prefix of the history that has every durable record, and there is a choice if both survive. Each entry of a replica
/// is in its segment's text. The homes of each segment but the head hold it whole. Each backup that took the head's
/// Open holds the head's durable units.
pub fn failing_log_kept()
    ensures sound { KeptIsSound }
    ensures texts { ReplicasAreTexts }
    ensures copies { HomesHoldCopies }
    ensures replicated { KeptIsReplicated }
{}

/// The log of a new master that loads nothing is kept. The backups hold the same texts whatever state the history
/// begins with.
pub fn failing_log_begins()
    ensures fresh { FreshIsKept }
    ensures opening { OpeningIsApart }
{}

/// The backups hold the log's texts once an op on the head in force is taken: an Extend, the Open of a replacement, or
/// a Close. This is true whether or not the master learns that the op was taken, and while the master is loading too.
pub fn head_op_holds()
    ensures extends { ExtendsHeld }
    ensures replaces { ReplacesHeld }
    ensures closes { ClosesHeld }
{}

/// The texts represent the history once an op on the head in force is taken.
pub fn head_op_stands()
    ensures extends { ExtendsStanding }
    ensures replaces { ReplacesStanding }
    ensures closes { ClosesStanding }
{}

/// An Extend hands over whole units.
pub fn head_op_hands_over()
    ensures { ExtendHandsOver }
{}

/// The backups hold the log's texts, and these represent the history, once an op opens a new head on a backup or
/// raises the registry to it.
pub fn new_op_keeps()
    ensures opens_held { OpensHeld }
    ensures opens_standing { OpensStanding }
    ensures raises_held { RaisesHeld }
    ensures raises_standing { RaisesStanding }
{}

/// The backups hold the log's texts, and these represent the history, once an op seals a lost replica anew.
pub fn repair_keeps()
    ensures held { ResealsHeld }
    ensures standing { ResealsStanding }
{}

/// The log stays kept when a roll begins, if the segments of the new digest represent the present state. Those of an
/// ordinary roll do. The log stays kept when a roll ends, too. All this is true of a failover's roll as well.
pub fn roll_keeps()
    ensures begins_held { RollingIsHeld }
    ensures begins_standing { RollingIsStanding }
    ensures ordinary { OrdinaryIsRoll }
    ensures stands { OrdinaryStands }
    ensures ends_held { EndingIsHeld }
    ensures ends_standing { EndingIsStanding }
{}

/// The log stays kept when a backup fails while no failover is open, and when a failover ends.
pub fn failover_keeps()
    ensures fails_held { FailingIsHeld }
    ensures fails_standing { FailingIsStanding }
    ensures ends_held { MendedIsHeld }
    ensures ends_standing { MendedIsStanding }
{}

/// The log stays kept when a command is applied. While a roll or a failover is open, only a command that appends
/// nothing may be applied.
pub fn command_keeps()
    ensures held { AppendedIsHeld }
    ensures standing { AppliedIsStanding }
{}

/// The log stays kept when a segment that is no head takes an id, when a survivor is sealed, and when a replica that
/// no digest names is freed, also if the master doesn't learn that the op was taken.
pub fn spare_keeps()
    ensures id_held { IdTakenIsHeld }
    ensures id_standing { IdTakenIsStanding }
    ensures seals_held { SealsHeld }
    ensures seals_standing { SealsStanding }
    ensures frees_held { FreesHeld }
{}

/// If a master knows what the backups that haven't failed hold, each of its ops fits, and it knows what they hold once
/// the op is taken. If a backup fails, the master knows what the others hold.
pub fn op_fits()
    ensures extends { ExtendsFits }
    ensures opens { OpensFits }
    ensures replaces { ReplacesFits }
    ensures raises { RaisesFits }
    ensures closes { ClosesFits }
    ensures reseals { ResealsFits }
    ensures seals { SealsFits }
    ensures frees { FreesFits }
    ensures fails { FailingKnown }
{}

/// A master that knows what the backups that haven't failed hold also knows it after a command, a roll, the end of a
/// failover, an id that is taken, and adoption.
pub fn knows_on()
    ensures appended { AppendedKnown }
    ensures rolls { RollingKnown }
    ensures ends { EndingKnown }
    ensures mended { MendedKnown }
    ensures id { IdTakenKnown }
    ensures adopted { AdoptedKnown }
{}

/// An op leaves the history and the heads as they are.
pub fn ops_go_on()
    ensures { NextGoesOn }
{}

/// The durable count is at most the length of the history, and no event lowers it. A new master has no earlier heads,
/// also if it took over a recovered map.
pub fn durable_stays()
    ensures fresh { FreshIsPast }
    ensures adopted { AdoptedIsPast }
    ensures stays { DurableStays }
    ensures within { DurableIsWithin }
{}

/// If each replica has at least the objects and tombstones of its segment's image, and no others than those of its
/// text, then the replicas represent the present state.
pub fn images_stand()
    ensures { BetweenStands }
{}

/// If a bag has no entry of an object's key, the bag with this object represents the state with this object loaded.
pub fn load_stands()
    ensures { LoadedIsRepresented }
{}
