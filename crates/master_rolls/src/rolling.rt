//! How a core rolls to the next head, and which push comes next.

ghost use Rattle.std.specs.Prelude.{◌⊎◌, ◌≡◌, ◌<◌, [], length, None, Some, IfSome, IfOk, IfErr, OnOk};
ghost use Rattle.std.specs.Prelude.{OnErr, if◌then◌else◌, is_none, nat_lt};
ghost use Rattle.std.specs.Option.{option_map};
ghost use Rattle.std.specs.Result.{result_err};
ghost use Rattle.log_head.specs.Next.{IsNextPush};
ghost use Rattle.cleaner.specs.declared.pass.Pass.{Pass as OpenPass};
ghost use Rattle.cleaner.specs.Passes.{images_in, survivor_ids, AreIds};
ghost use Rattle.entry.specs.Text.{text_of};
ghost use Rattle.master_state.specs.Budget.{victims_of, survivors_of};
ghost use Rattle.master_state.specs.Causes.{roll_refusal};
ghost use Rattle.master_state.specs.Invariant.{IsCore};
ghost use Rattle.master_state.specs.Log.{durable_now};
ghost use Rattle.master_state.specs.Steps.{listed_in, BeginsRoll, MayRollNow, taken_data};

use crate::ending::{count_end, end_pass};
use cleaner::{Pass, Survivors};
use entry::{Listed, MAX_SEGMENT_ID, NoMemory};
use images::Images;
use log_head::{Leaving, Next, RollMemory};
use master_state::{Core, Posting, Refusal, StepAnswer};
use std::alloc::Global;

/// Begins a roll. If a pass is ready, the roll is its commit: the next head's digest lists the survivors in place of
/// the victims. The call reserves the memory of a whole segment for the next head's image, and all memory that the end
/// of the roll needs. Nothing is appended until the roll has ended. A refusal changes nothing.
pub fn begin_roll(core: &mut Core) -> Result<StepAnswer, Refusal>
    ensures begun { IfOk result (λ answer. BeginsRoll core.old answer core.new) }
    ensures may { OnOk result (MayRollNow core.old) }
    ensures valid { OnOk result (IsCore core.new) }
    ensures refused { IfErr result (λ r. (roll_refusal core.old ≡ Some r)
        ⊎ ((roll_refusal core.old ≡ None) × (r ≡ Refusal.NoMemory))) }
    ensures err { OnErr result (core.new ≡ core.old) }
{
    admit_roll(core)?;
    let is_commit = core.is_ready();
    core.closed.reserve(1)?;
    let victims = leaving_victims(&core.pass, is_commit);
    core.waiting.reserve(victims.len())?;
    let survivors = entering(core.alloc, &core.pass, &core.closed, is_commit)?;
    let id = core.next_id;
    let seglet = core.config.seglet as usize;
    let memory = RollMemory {
        spare: core.closed.take_spare(),
        room: core.config.segment as usize,
        kept: core.head.image().bytes().len().div_ceil(seglet) * seglet,
    };
    let leaving = Leaving {
        victims,
        survivors: survivors.as_slice(),
    };
    core.head.begin_roll(
        core.alloc,
        core.config.master,
        id,
        core.safe,
        leaving,
        memory,
    )?;
    mark(&mut core.pass, is_commit);
    core.tallies.reserve(1);
    core.next_id += 1;
    core.post(&Posting::Began(id));
    Ok(StepAnswer::Rolling(id))
}

/// Returns what the next push does, if no failover is open. `None` means that nothing is left to push.
pub fn next_push(core: &Core) -> Option<Next>
    ensures next { IsNextPush core.now.head result }
    ensures valid { IsCore core.now }
{
    core.head.next_push()
}

/// Returns what the next push does, if no failover is open and the record at this place isn't durable. `None` means
/// that the record is durable.
pub fn next_push_for(core: &Core, place: u64) -> Option<Next>
    requires { place < length core.now.history }
    ensures next { IfSome result (λ next. IsNextPush core.now.head (Some next)) }
    ensures durable { core.now.failover ≡ None → is_none result ≡ nat_lt place (durable_now core.now) }
    ensures valid { IsCore core.now }
{
    core.head.next_for(place)
}

/// Counts the op of a push that a backup took. The last Close of a commit ends the pass. The call allocates no memory.
#[inline(always)]
pub fn took(core: &mut Core, next: Next)
    requires calm { core.old.failover ≡ None }
    requires next { IsNextPush core.old.head (Some next) }
    ensures taken { core.new ≡ taken_data core.old next }
    ensures valid { IsCore core.new }
{
    match next {
        Next::OpenFirst(_) => core.head.open(),
        Next::Extend(replica) => core.head.extend(replica),
        Next::OpenWhole(_) => unreachable!(),
        Next::OpenNew(_) => core.head.open_new(),
        Next::CloseOld(_) => {
            let id = core.head.id();
            if let Some(image) = core.head.close_old() {
                let replicas = core.config.replicas as usize;
                core.closed.add_closed(id, image, replicas);
                count_end(&mut core.tallies, &core.pass, core.head.id());
                end_pass(&mut core.pass, &mut core.closed, &mut core.waiting);
            }
        }
    }
}

/// Refuses a roll if the master is halted, if its head isn't open or a failover is under way, if no segment id is left,
/// or if memory or the digest has no room for the roll.
fn admit_roll(core: &Core) -> Result<(), Refusal>
    ensures { result_err result ≡ roll_refusal core.now }
{
    if core.is_halted {
        return Err(Refusal::Halted);
    }
    if !core.is_working() {
        return Err(Refusal::Rolling);
    }
    if core.next_id > MAX_SEGMENT_ID {
        return Err(Refusal::SegmentsSpent);
    }
    if !core.may_roll(2) {
        return Err(Refusal::Full);
    }
    Ok(())
}

/// Returns the ids that the next head's digest leaves out: the victims, if the roll is a commit.
pub fn leaving_victims(pass: &Option<Pass>, is_commit: bool) -> &[u64]
    ensures { result.now ≡ (if is_commit then victims_of pass.entry.now else []) }
{
    match pass {
        Some(pass) if is_commit => pass.victims.as_slice(),
        _ => &[],
    }
}

/// Returns the segments that the next head's digest takes in, with the lengths of their images in bytes: the
/// survivors, if the roll is a commit.
pub fn entering(
    alloc: Global,
    pass: &Option<Pass>,
    closed: &Images,
    is_commit: bool,
) -> Result<Vec<Listed>, NoMemory>
    requires { IfSome pass.now (λ p. AreIds p.survivors) }
    ensures { IfOk result (λ segments. segments.items ≡
        (if is_commit then listed_in closed.now.images (survivors_of pass.now) else [])) }
{
    match pass {
        Some(pass) if is_commit => list_survivors(alloc, pass.survivors, closed),
        _ => Ok(Vec::new(alloc)),
    }
}

/// Lists the survivors with the lengths of their images in bytes.
fn list_survivors(
    alloc: Global,
    survivors: Survivors,
    closed: &Images,
) -> Result<Vec<Listed>, NoMemory>
    requires { AreIds survivors }
    ensures { IfOk result (λ segments. segments.items ≡ listed_in closed.now.images (survivor_ids survivors)) }
{
    let mut segments = Vec::with_capacity(alloc, survivors.count)?;
    for at in 0..survivors.count {
        let id = survivors.id(at);
        segments.push_reserved(Listed {
            id,
            len: len_of(closed, id),
        });
    }
    Ok(segments)
}

/// Returns the length of a closed segment's image in bytes, 0 if there is no image.
fn len_of(closed: &Images, id: u64) -> u64
    ensures { result ≡ length (text_of (images_in closed.now.images id)) }
{
    match closed.get(id) {
        Some(image) => image.bytes().len() as u64,
        None => 0,
    }
}

/// Notes in an open pass whether its commit is under way.
pub fn mark(pass: &mut Option<Pass>, is_commit: bool)
    ensures { pass.new ≡ option_map (λ (p : OpenPass). record p { is_committing = is_commit }) pass.old }
{
    if let Some(pass) = pass {
        pass.is_committing = is_commit;
    }
}
