//! What a master is asked to do, and what it answers.

ghost use Rattle.std.specs.Prelude.{◌≡◌, IfOk, Some};
ghost use Rattle.master_state.specs.declared.step.Refusal.TheVariants as refusal;
ghost use Rattle.master_state.specs.Names.{refusal_text};

use cleaner::{PassFault, Survivors};
use entry::Row;
use std::alloc::{AllocError, AllocFailed, Global};
use std::error::Error;
use std::fmt;
use versioned_map::{Command, Reply};

/// A step of a master. Each step is accepted with a `StepAnswer`, or refused with a `Refusal`.
#[derive(Drop)]
pub enum Step {
    /// One command of the seat of this number is applied. The step hands the fleet no op.
    Apply(u64, Command),
    /// One op goes to one backup. If a replica of the head lags, the op extends it with all units that it lacks. Else
    /// the op is the next Open or Close of a roll. While a failover is open, the step makes the failover's next push:
    /// an op to one backup, or the raise of the registry.
    Push,
    /// A roll to the next head begins. The step hands the fleet no op.
    BeginRoll,
    /// The image of the closed segment with this id is replaced by its kept entries. The step hands the fleet no op.
    Compact(u64),
    /// A pass begins, with the segments of these ids as its victims. The step hands the fleet no op.
    BeginClean(Row<u64>),
    /// The next entry of the open pass is moved, carried or dropped. The step hands the fleet no op.
    Copy,
    /// One replica of the pass's survivors is sealed.
    Seal,
    /// One replica of a segment that a commit took out of the log is freed.
    Free,
}

impl Step {
    /// Returns a copy of the step, in memory of its own.
    pub fn copy(&self, alloc: Global) -> Result<Step, AllocError>
        ensures { IfOk result (λ copy. copy ≡ self.now) }
    {
        match self {
            Step::Apply(seat, command) => Ok(Step::Apply(*seat, command.copy()?)),
            Step::Push => Ok(Step::Push),
            Step::BeginRoll => Ok(Step::BeginRoll),
            Step::Compact(id) => Ok(Step::Compact(*id)),
            Step::BeginClean(victims) => Ok(Step::BeginClean(copy_of(alloc, victims)?)),
            Step::Copy => Ok(Step::Copy),
            Step::Seal => Ok(Step::Seal),
            Step::Free => Ok(Step::Free),
        }
    }
}

/// Returns a copy of the numbers, in memory of their own.
fn copy_of(alloc: Global, row: &Row<u64>) -> Result<Row<u64>, AllocError>
    ensures { IfOk result (λ copy. copy ≡ row.now) }
{
    Ok(Row::new(Vec::from_slice(alloc, row.as_slice())?))
}

/// What an accepted step did.
#[derive(Drop)]
pub enum StepAnswer {
    /// The command was applied: the place of its record in the history, from 0, and the reply.
    Applied(u64, Reply),
    /// A replica of the head was extended: its backup and its segment.
    Extended(u64, u64),
    /// A replica of a head was opened: its backup and its segment.
    Opened(u64, u64),
    /// A replica of the old head was closed: its backup and its segment.
    Closed(u64, u64),
    /// A roll began: the id of the new head.
    Rolling(u64),
    /// A segment was compacted: its id, and how many bytes its image has now.
    Compacted(u64, u64),
    /// A pass began: its survivors.
    Begun(Survivors),
    /// A live object was copied to a survivor, and the index names the copy.
    Moved,
    /// A tombstone that is kept was copied to a survivor.
    Carried,
    /// The next entry isn't kept, so the pass didn't copy it.
    Dropped,
    /// A replica of a survivor was sealed: its backup.
    Sealed(u64),
    /// A replica was freed: its segment and its backup.
    Freed(u64, u64),
    /// The registry was raised to the head of this id: no recovery of this master may use an older head.
    Raised(u64),
    /// A lost replica was sealed anew: its new backup and its segment.
    Repaired(u64, u64),
}

/// Why a step was refused. The numbers in the comments are fixed.
#[derive(Clone, Copy, Debug, PartialEq, Eq)]
pub enum Refusal {
    /// 1: the key and the value of a put are too big for a quarter of a segment.
    TooBig,
    /// 2: the unit doesn't fit the head and no roll may begin for it, or the roll or the pass that was asked for may
    /// not begin.
    Full,
    /// 3: no version is left for the put.
    VersionsSpent,
    /// 4: the history has as many records as the configuration allows.
    HistoryFull,
    /// 5: memory ran out, and nothing changed.
    NoMemory,
    /// 6: a backup failed, in this step or an earlier one, and the master takes no further step.
    Halted,
    /// 7: a roll is under way or has to come first, the first head is not open yet, or a failover is open.
    Rolling,
    /// 8: there is nothing to push, copy, seal or free.
    Nothing,
    /// 9: this segment may not be compacted, or no pass may begin with these victims.
    Pass(PassFault),
    /// 10: the fleet is spent: it takes no more ops.
    Spent,
    /// 11: no id is left for a segment.
    SegmentsSpent,
    /// 12: no tablet of the master has the key.
    NoTablet,
    /// 13: this backup failed in the step, and counts as failed from now on. A failover is open now. Further pushes
    /// bring it to its end.
    Lost(u64),
    /// 14: the put would make the live objects more than their limit, and more than they are.
    Overcommit,
}

impl Error for Refusal {}

impl fmt::Display for Refusal {
    ghost output = { λ refusal. Some (refusal_text refusal) };

    fn fmt<W: fmt::Write>(&self, f: &mut fmt::Formatter<W>) -> fmt::Result {
        match self {
            Refusal::TooBig => write!(f, "TooBig"),
            Refusal::Full => write!(f, "Full"),
            Refusal::VersionsSpent => write!(f, "VersionsSpent"),
            Refusal::HistoryFull => write!(f, "HistoryFull"),
            Refusal::NoMemory => write!(f, "NoMemory"),
            Refusal::Halted => write!(f, "Halted"),
            Refusal::Rolling => write!(f, "Rolling"),
            Refusal::Nothing => write!(f, "Nothing"),
            Refusal::Pass(fault) => write!(f, "{fault}"),
            Refusal::Spent => write!(f, "Spent"),
            Refusal::SegmentsSpent => write!(f, "SegmentsSpent"),
            Refusal::NoTablet => write!(f, "NoTablet"),
            Refusal::Lost(backup) => write!(f, "Lost {backup}"),
            Refusal::Overcommit => write!(f, "Overcommit"),
        }
    }
}

impl From<AllocError> for Refusal {
    ghost from_gives = { λ _ e. e ≡ refusal.NoMemory };

    fn from(_error: AllocError) -> Refusal {
        Refusal::NoMemory
    }
}

impl<T: Drop> From<AllocFailed<T>> for Refusal {
    ghost from_gives = { λ _ e. e ≡ refusal.NoMemory };

    fn from(_error: AllocFailed<T>) -> Refusal {
        Refusal::NoMemory
    }
}
