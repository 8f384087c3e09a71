//! Laws about memory over a log whose backups may fail.

ghost use Rattle.log_memory.specs.Laws.{IntactIsCovered, FreshIsIntact, ApplyKeeps, CompactKeeps};
ghost use Rattle.log_memory.specs.Laws.{CopyKeeps, ExtendKeeps, OpenKeeps, ReplaceKeeps, RaiseKeeps, CloseKeeps};
ghost use Rattle.log_memory.specs.Laws.{RollKeeps, CommitKeeps, EndKeeps, FinishKeeps, FailKeeps, MendKeeps};
ghost use Rattle.log_memory.specs.Laws.{ImageIsRepair, RepairKeeps, BeginKeeps, SealKeeps};
ghost use Rattle.log_memory.specs.Laws.{FreeKeeps, BegunSurvivors};
ghost use Rattle.log_memory.specs.Same.{SameIsIntact, SameKnows};
ghost use Rattle.log_memory.specs.Ops.{OpKeeps, OpFits};
ghost use Rattle.log_memory.specs.Knowing.{FreshKnows, ApplyKnows, WaitingKnows, BeginKnows, RollKnows, CommitKnows};
ghost use Rattle.log_memory.specs.Knowing.{EndKnows, FinishKnows, FailKnows, MendKnows};
ghost use Rattle.log_memory.specs.Loading.{RestoredIsLoading, LoadKeeps, LoadingOpKeeps, LoadingOpFits};
ghost use Rattle.log_memory.specs.Loading.{LoadingRepairKeeps, LoadingRepairFits, LoadingFails, LoadingMends};
ghost use Rattle.log_memory.specs.Loading.{LoadingRollKeeps, LoadingEndKeeps, SameIsLoading, FinishIsIntact};

/// An intact log is covered: images alone, and images and replicas together, mean the map.
pub fn what_intact_says()
    ensures { IntactIsCovered }
{}

/// A new master's log is intact if the backups hold nothing of the master.
pub fn fresh_is_intact()
    ensures { FreshIsIntact }
{}

/// A command that is applied leaves the log intact, while a pass or a failover is open too.
pub fn apply_keeps()
    ensures { ApplyKeeps }
{}

/// Compaction leaves the log intact.
pub fn compact_keeps()
    ensures { CompactKeeps }
{}

/// A pass's step over one entry of the victims leaves the log intact.
pub fn copy_keeps()
    ensures { CopyKeeps }
{}

/// An op of a roll or a failover that is taken leaves the log intact, also if the master doesn't learn that the op was
/// taken.
pub fn op_keeps()
    ensures extends { ExtendKeeps }
    ensures opens { OpenKeeps }
    ensures replaces { ReplaceKeeps }
    ensures raises { RaiseKeeps }
    ensures closes { CloseKeeps }
{}

/// A roll, ordinary or a commit, leaves the log intact when it begins and when it ends, in a failover too.
pub fn roll_keeps()
    ensures begins { RollKeeps }
    ensures commits { CommitKeeps }
    ensures ends { EndKeeps }
    ensures finishes { FinishKeeps }
{}

/// A failover may seal a segment's image anew. This leaves the log intact, also if the master doesn't learn that the
/// op was taken.
pub fn repair_keeps()
    ensures image { ImageIsRepair }
    ensures keeps { RepairKeeps }
{}

/// A pass that begins leaves the log intact, whatever number of survivors it has.
pub fn begin_keeps()
    ensures kept { BeginKeeps }
    ensures survivors { BegunSurvivors }
{}

/// A survivor that is sealed on a backup leaves the log intact, also if the master doesn't learn that the op was
/// taken.
pub fn seal_keeps()
    ensures { SealKeeps }
{}

/// A backup's failure leaves the log intact, and so does the end of a failover.
pub fn failure_keeps()
    ensures fails { FailKeeps }
    ensures mends { MendKeeps }
{}

/// A replica that is freed leaves the log intact, also if the master doesn't learn that the op was taken.
pub fn free_keeps()
    ensures { FreeKeeps }
{}

/// A log is also intact with another memory that has the same images and pass, and whose index leads to the same
/// objects. The master then knows what it knew.
pub fn same_is_intact()
    ensures intact { SameIsIntact }
    ensures knows { SameKnows }
{}

/// Each op of a master fits, and leaves the log intact whether or not the master learns that the op was taken.
pub fn ops_keep()
    ensures keeps { OpKeeps }
    ensures fits { OpFits }
{}

/// A master that knows what its backups hold also knows it after each step that takes no op.
pub fn knowing_stays()
    ensures fresh { FreshKnows }
    ensures applied { ApplyKnows }
    ensures waiting { WaitingKnows }
    ensures begun { BeginKnows }
    ensures rolls { RollKnows }
    ensures commits { CommitKnows }
    ensures ends { EndKnows }
    ensures finishes { FinishKnows }
    ensures fails { FailKnows }
    ensures mends { MendKnows }
{}

/// A loading master goes on to load through each object, op, roll and failover. Once all that it loaded is on the
/// backups, its log is intact.
pub fn loading_keeps()
    ensures restored { RestoredIsLoading }
    ensures loads { LoadKeeps }
    ensures ops { LoadingOpKeeps }
    ensures fits { LoadingOpFits }
    ensures repairs { LoadingRepairKeeps }
    ensures repairs_fit { LoadingRepairFits }
    ensures fails { LoadingFails }
    ensures mends { LoadingMends }
    ensures rolls { LoadingRollKeeps }
    ensures ends { LoadingEndKeeps }
    ensures same { SameIsLoading }
    ensures finishes { FinishIsIntact }
{}
