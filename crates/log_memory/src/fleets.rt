//! Laws about a master, its memory and a fleet, in bytes.

ghost use Rattle.log_memory.specs.Fleet.{KeptIsSound, KeptIsCovered, KeptIsDurable, OthersLeaveAll};
ghost use Rattle.log_memory.specs.Fleet.{OkHoldsAll, FaultKeepsAll, FaultFailsOver, OpIsNeverWrong};
ghost use Rattle.log_memory.specs.Fleet.{FreshHoldsAll, ApplyHoldsAll, CompactHoldsAll, BeginHoldsAll};
ghost use Rattle.log_memory.specs.Fleet.{CopyHoldsAll, RollHoldsAll, CommitHoldsAll, EndHoldsAll, FinishHoldsAll};
ghost use Rattle.log_memory.specs.Fleet.{SameHoldsAll, RestoredHoldsLoading, LoadHoldsLoading, OkHoldsLoading};
ghost use Rattle.log_memory.specs.Fleet.{LoadingIsNeverWrong, RollHoldsLoading, EndHoldsLoading, MendHoldsAll};
ghost use Rattle.log_memory.specs.Fleet.{RepairHoldsLoading, RepairIsNeverWrong, FaultFailsLoading};
ghost use Rattle.log_memory.specs.Fleet.{MendHoldsLoading};
ghost use Rattle.log_memory.specs.Fleet.{SameHoldsLoading, FinishedHoldsAll};

/// If a fleet keeps all of a master, its picture is sound, memory and replicas are covered, and the durable count is
/// that of the takes that answered Ok. Other masters' replicas don't matter to this.
pub fn what_fleets_keep()
    ensures sound { KeptIsSound }
    ensures covered { KeptIsCovered }
    ensures durable { KeptIsDurable }
    ensures others { OthersLeaveAll }
{}

/// After an op that is answered Ok, the fleet holds all of the master. After a fault that halts the master, the fleet
/// keeps all, and after one that opens a failover it holds all. The fleet never answers Wrong.
pub fn answers_keep()
    ensures ok { OkHoldsAll }
    ensures fault { FaultKeepsAll }
    ensures fails { FaultFailsOver }
    ensures right { OpIsNeverWrong }
{}

/// A fleet holds all after each step that takes no op.
pub fn steps_hold()
    ensures fresh { FreshHoldsAll }
    ensures applied { ApplyHoldsAll }
    ensures compacted { CompactHoldsAll }
    ensures begun { BeginHoldsAll }
    ensures copied { CopyHoldsAll }
    ensures same { SameHoldsAll }
{}

/// A fleet holds all when an ordinary roll or a commit begins and when it ends, in a failover too, and when a failover
/// ends.
pub fn rolls_hold()
    ensures rolls { RollHoldsAll }
    ensures commits { CommitHoldsAll }
    ensures ends { EndHoldsAll }
    ensures finishes { FinishHoldsAll }
    ensures mends { MendHoldsAll }
{}

/// A fleet holds all of a loading master through each object, op, roll and failover. It holds all of the master whose
/// history begins with what was loaded.
pub fn loading_holds()
    ensures restored { RestoredHoldsLoading }
    ensures loads { LoadHoldsLoading }
    ensures ok { OkHoldsLoading }
    ensures right { LoadingIsNeverWrong }
    ensures repairs { RepairHoldsLoading }
    ensures right_repairs { RepairIsNeverWrong }
    ensures fails { FaultFailsLoading }
    ensures mends { MendHoldsLoading }
    ensures rolls { RollHoldsLoading }
    ensures ends { EndHoldsLoading }
    ensures same { SameHoldsLoading }
    ensures finished { FinishedHoldsAll }
{}
