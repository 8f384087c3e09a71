//! One push of a core: which comes next, its op, and its count.

ghost use Rattle.std.specs.Prelude.{◌≡◌, Some};
ghost use Rattle.replica.specs.Op.{shown_op};
ghost use Rattle.master_state.specs.Invariant.{IsCore};
ghost use Rattle.master_failover.specs.Mending.{IsNextPushOf, IsOnReplica, pushed, op_now, segment_for, backup_for};
ghost use Rattle.master_failover.specs.Mending.{replica_for};

use crate::mending::{mended, next_mend};
use log_head::Next;
use master_state::{Core, image_of};
use replica::{Act, Op};

/// One push: one op that a master hands to one backup, or the raise of the registry. A `usize` is the number of the
/// replica that the push is for.
#[derive(Clone, Copy)]
pub enum Push {
    /// The push is on a replica of the head, or of the new head that follows it.
    Head(Next),
    /// The push makes the new head of a failover, and opens it on its first backup.
    Turn,
    /// The push raises the master's least head in the registry to the new head, which has this number.
    Raise(u64),
    /// The push seals a lost replica of this segment anew, at a new home.
    Repair(u64, usize),
}

impl Push {
    /// Returns the number of the replica that the push is for. A Turn and a raise answer 0.
    pub fn replica(&self) -> usize
        ensures { result ≡ replica_for self.now }
    {
        match self {
            Push::Head(next) => next.replica(),
            Push::Turn => 0,
            Push::Raise(_) => 0,
            Push::Repair(_, replica) => *replica,
        }
    }
}

/// Returns the push that comes next. `None` means that nothing is left to push.
pub fn next_push(core: &Core) -> Option<Push>
    ensures next { IsNextPushOf core.now result }
    ensures valid { IsCore core.now }
{
    core.show_valid();
    if core.failover.is_some() {
        return Some(next_mend(core));
    }
    match master_rolls::next_push(core) {
        Some(next) => Some(Push::Head(next)),
        None => None,
    }
}

/// Returns the op of a push that is neither a Turn nor a raise.
#[inline(always)]
pub fn push_op(core: &Core, push: Push) -> Op<'_>
    requires next { IsNextPushOf core.now (Some push) }
    requires other { IsOnReplica push }
    ensures { Some (shown_op result) ≡ op_now core.entry.now push }
{
    match push {
        Push::Head(next) => core.head.op(core.config.master, next),
        Push::Repair(segment, _) => {
            let Some(image) = image_of(&core.head, &core.closed, segment) else {
                unreachable!()
            };
            Op {
                master: core.config.master,
                segment,
                act: Act::Seal(image.bytes()),
            }
        }
        Push::Turn => unreachable!(),
        Push::Raise(_) => unreachable!(),
    }
}

/// Counts and posts a push that this backup took, which is on this segment. The last Close of a commit ends the pass.
/// The call allocates no memory. A raise is counted by `raised`. A Turn is counted by `opened`, once its head is put.
#[inline(always)]
pub fn took(core: &mut Core, push: Push, segment: u64, backup: u64)
    requires next { IsNextPushOf core.old (Some push) }
    requires other { IsOnReplica push }
    requires segment { segment ≡ segment_for core.old push }
    requires backup { backup ≡ backup_for core.old push }
    ensures taken { core.new ≡ pushed core.old push }
    ensures valid { IsCore core.new }
{
    match push {
        Push::Head(next) => took_head(core, next, segment, backup),
        Push::Repair(_, _) => mended(core, push),
        Push::Turn => unreachable!(),
        Push::Raise(_) => unreachable!(),
    }
}

/// The same of a push of the head or of a new head.
#[inline(always)]
fn took_head(core: &mut Core, next: Next, segment: u64, backup: u64)
    requires next { IsNextPushOf core.old (Some (Push.Head next)) }
    requires segment { segment ≡ segment_for core.old (Push.Head next) }
    requires backup { backup ≡ backup_for core.old (Push.Head next) }
    ensures taken { core.new ≡ pushed core.old (Push.Head next) }
    ensures valid { IsCore core.new }
{
    if core.failover.is_none() {
        core.post_push(next, segment, backup);
        master_rolls::took(core, next);
        return;
    }
    mended(core, Push::Head(next));
}
