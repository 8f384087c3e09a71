//! One op of a push, on the core of a master and its fleet.

ghost use Rattle.std.specs.Prelude.{◌≡◌, ◌<◌, length, Some, false, IsSome, IfOk, IfErr};
ghost use Rattle.images.specs.Images.{AreWithin};
ghost use Rattle.replica.specs.Picture.{FleetState};
ghost use Rattle.replica.specs.Take.{Refuses};
ghost use Rattle.master_core.specs.master_failover.Mending.{IsNextPushOf, IsOnReplica};
ghost use Rattle.master_core.specs.master_state.Budget.{may_turn};
ghost use Rattle.master.specs.Invariant.{IsServed, StaysServed};
ghost use Rattle.master.specs.Pushes.{answer_for, answer_of, first_open, OpensFirst, IsNewValid};
ghost use Rattle.master.specs.Steps.{Accepts, Declines, PushesFor};
ghost use Rattle.master.specs.World.{world_of};

use log_head::Next;
use master_core::{
    Core, NewHead, Push, Refusal, Step, StepAnswer, begin_opening, ledger_of_turn, mark, new_head,
    next_push, next_push_for, opened, push_op, raised, took, victims_of_commit,
};
use replica::{Act, Fleet, Op, TakeFault};

/// Hands one op to one backup, or raises the registry.
pub(crate) fn push<F: Fleet>(core: &mut Core, fleet: &mut F) -> Result<StepAnswer, Refusal>
    requires served { IsServed core.old (F.state fleet.old) }
    ensures accepted { IfOk result (λ a.
        Accepts (world_of core.old (F.state fleet.old)) Step.Push a (world_of core.new (F.state fleet.new))) }
    ensures refused { IfErr result (λ r.
        Declines (world_of core.old (F.state fleet.old)) Step.Push r (world_of core.new (F.state fleet.new))) }
    ensures served { StaysServed core.old (F.state fleet.old) core.new (F.state fleet.new) }
{
    if core.is_halted() {
        return Err(Refusal::Halted);
    }
    match next_push(core) {
        None => Err(Refusal::Nothing),
        Some(push) => make(core, fleet, push),
    }
}

/// Makes the push that comes next.
fn make<F: Fleet>(core: &mut Core, fleet: &mut F, push: Push) -> Result<StepAnswer, Refusal>
    requires running { core.old.is_halted ≡ false }
    requires next { IsNextPushOf core.old (Some push) }
    requires served { IsServed core.old (F.state fleet.old) }
    ensures accepted { IfOk result (λ a.
        Accepts (world_of core.old (F.state fleet.old)) Step.Push a (world_of core.new (F.state fleet.new))) }
    ensures refused { IfErr result (λ r.
        Declines (world_of core.old (F.state fleet.old)) Step.Push r (world_of core.new (F.state fleet.new))) }
    ensures served { StaysServed core.old (F.state fleet.old) core.new (F.state fleet.new) }
{
    match push {
        Push::Turn => turn(core, fleet),
        Push::Raise(id) => raise(core, fleet, id),
        push => hand(core, fleet, push),
    }
}

/// Hands one op to one backup, unless the record at this place is durable. Returns true if the record is durable.
#[inline(always)]
pub(crate) fn push_unless_durable<F: Fleet>(
    core: &mut Core,
    fleet: &mut F,
    place: u64,
) -> Result<bool, Refusal>
    requires within { place < length core.old.history }
    requires served { IsServed core.old (F.state fleet.old) }
    ensures gives { PushesFor place (world_of core.old (F.state fleet.old)) result
        (world_of core.new (F.state fleet.new)) }
    ensures served { StaysServed core.old (F.state fleet.old) core.new (F.state fleet.new) }
{
    if core.failover.is_some() {
        return mend_unless_durable(core, fleet, place);
    }
    let Some(next) = next_push_for(core, place) else {
        return Ok(true);
    };
    if core.is_halted() {
        return Err(Refusal::Halted);
    }
    match hand(core, fleet, Push::Head(next)) {
        Ok(_) => Ok(false),
        Err(refusal) => Err(refusal),
    }
}

/// The same while a failover is open: the durable count stays as it began.
fn mend_unless_durable<F: Fleet>(
    core: &mut Core,
    fleet: &mut F,
    place: u64,
) -> Result<bool, Refusal>
    requires within { place < length core.old.history }
    requires failing { IsSome core.old.failover }
    requires served { IsServed core.old (F.state fleet.old) }
    ensures gives { PushesFor place (world_of core.old (F.state fleet.old)) result
        (world_of core.new (F.state fleet.new)) }
    ensures served { StaysServed core.old (F.state fleet.old) core.new (F.state fleet.new) }
{
    if place < core.durable() {
        return Ok(true);
    }
    match push(core, fleet) {
        Ok(_) => Ok(false),
        Err(refusal) => Err(refusal),
    }
}

/// Hands the op of a push to its backup.
#[inline(always)]
fn hand<F: Fleet>(core: &mut Core, fleet: &mut F, push: Push) -> Result<StepAnswer, Refusal>
    requires running { core.old.is_halted ≡ false }
    requires next { IsNextPushOf core.old (Some push) }
    requires other { IsOnReplica push }
    requires served { IsServed core.old (F.state fleet.old) }
    ensures accepted { IfOk result (λ a.
        Accepts (world_of core.old (F.state fleet.old)) Step.Push a (world_of core.new (F.state fleet.new))) }
    ensures refused { IfErr result (λ r.
        Declines (world_of core.old (F.state fleet.old)) Step.Push r (world_of core.new (F.state fleet.new))) }
    ensures served { StaysServed core.old (F.state fleet.old) core.new (F.state fleet.new) }
{
    show_images(core);
    let op = push_op(core, push);
    let segment = op.segment;
    let backup = core.home(segment, push.replica());
    match fleet.take(backup, &op) {
        Ok(()) => {
            took(core, push, segment, backup);
            Ok(answer(push, backup, segment))
        }
        Err(fault) => Err(core.fail(backup, fault)),
    }
}

/// No image is longer than a segment.
fn show_images(core: &Core)
    ensures { AreWithin core.now.config.segment core.now.closed }
{
    core.closed.show_valid();
}

/// What a push answers that is handed to a backup.
fn answer(push: Push, backup: u64, segment: u64) -> StepAnswer
    requires { IsOnReplica push }
    ensures { result ≡ answer_for push backup segment }
{
    match push {
        Push::Head(next) => answer_of_head(next, backup, segment),
        Push::Repair(_, _) => StepAnswer::Repaired(backup, segment),
        _ => unreachable!(),
    }
}

/// What a push of the head answers.
fn answer_of_head(next: Next, backup: u64, segment: u64) -> StepAnswer
    ensures { result ≡ answer_of next backup segment }
{
    match next {
        Next::OpenFirst(_) => StepAnswer::Opened(backup, segment),
        Next::Extend(_) => StepAnswer::Extended(backup, segment),
        Next::OpenWhole(_) => StepAnswer::Opened(backup, segment),
        Next::OpenNew(_) => StepAnswer::Opened(backup, segment),
        Next::CloseOld(_) => StepAnswer::Closed(backup, segment),
    }
}

// ---- the new head of a failover

/// Makes the new head and opens it on its first backup. If it may not be opened, the master stays halted.
fn turn<F: Fleet>(core: &mut Core, fleet: &mut F) -> Result<StepAnswer, Refusal>
    requires running { core.old.is_halted ≡ false }
    requires next { IsNextPushOf core.old (Some Push.Turn) }
    requires served { IsServed core.old (F.state fleet.old) }
    ensures accepted { IfOk result (λ a.
        Accepts (world_of core.old (F.state fleet.old)) Step.Push a (world_of core.new (F.state fleet.new))) }
    ensures refused { IfErr result (λ r.
        Declines (world_of core.old (F.state fleet.old)) Step.Push r (world_of core.new (F.state fleet.new))) }
    ensures served { StaysServed core.old (F.state fleet.old) core.new (F.state fleet.new) }
{
    if !core.may_turn() {
        core.halt();
        return Err(Refusal::Halted);
    }
    let id = core.next_id;
    let backup = core.home(id, 0);
    let is_commit = core.is_ready();
    let victims = victims_of_commit(core);
    // room for what the end of the roll takes
    core.closed.reserve(1)?;
    core.waiting.reserve(victims)?;
    let new = new_head(core)?;
    show_new(&new);
    let is_taken = open_first(fleet, core.master(), id, backup, &new)?;
    begin_opening(&mut core.failover);
    mark(&mut core.pass, is_commit);
    new.put(&mut core.head, core.config.seglet as usize);
    core.next_id += 1;
    core.tallies.clear();
    core.ledger = ledger_of_turn(&core.ledger, id);
    if !is_taken {
        core.halt();
        return Err(Refusal::Halted);
    }
    opened(core, 0);
    Ok(StepAnswer::Opened(backup, id))
}

/// The new head is valid.
fn show_new(new: &NewHead)
    ensures { IsNewValid new.now }
{
    match new {
        NewHead::First(head) => head.show_valid(),
        NewHead::Next(_) => {}
    }
}

/// Hands the first Open of the new head to its backup. `false` after a fault, when nobody knows whether it was taken.
fn open_first<F: Fleet>(
    fleet: &mut F,
    master: u64,
    segment: u64,
    backup: u64,
    new: &NewHead,
) -> Result<bool, Refusal>
    requires right { (g : FleetState) →
        Refuses (F.state fleet.old) backup (first_open master segment new.now) TakeFault.Wrong g → ⊥ }
    ensures { OpensFirst (F.state fleet.old) backup (first_open master segment new.now) result (F.state fleet.new) }
{
    let op = Op {
        master,
        segment,
        act: Act::Open(new.bytes()),
    };
    match fleet.take(backup, &op) {
        Ok(()) => Ok(true),
        Err(fault) => match fault {
            TakeFault::Fault => Ok(false),
            TakeFault::NoMemory => Err(Refusal::NoMemory),
            TakeFault::Spent => Err(Refusal::Spent),
            TakeFault::Wrong => unreachable!(),
        },
    }
}

/// Raises the registry to the new head.
fn raise<F: Fleet>(core: &mut Core, fleet: &mut F, id: u64) -> Result<StepAnswer, Refusal>
    requires running { core.old.is_halted ≡ false }
    requires next { IsNextPushOf core.old (Some (Push.Raise id)) }
    requires served { IsServed core.old (F.state fleet.old) }
    ensures accepted { IfOk result (λ a.
        Accepts (world_of core.old (F.state fleet.old)) Step.Push a (world_of core.new (F.state fleet.new))) }
    ensures refused { IfErr result (λ r.
        Declines (world_of core.old (F.state fleet.old)) Step.Push r (world_of core.new (F.state fleet.new))) }
    ensures served { StaysServed core.old (F.state fleet.old) core.new (F.state fleet.new) }
{
    match fleet.raise(core.master(), id) {
        Ok(()) => {
            raised(core);
            Ok(StepAnswer::Raised(id))
        }
        Err(fault) => Err(core.refuse_raise(fault)),
    }
}
