//! The steps of a core's pass: it begins, it copies entry by entry, its survivors are sealed, and after its commit the
//! replicas of its victims are freed.

ghost use Rattle.std.specs.Prelude.{◌⊎◌, ◌≡◌, ◌<◌, ◌≤◌, ◌==◌, ◌∷◌, ◌++◌, ◌*◌, ◌+◌, [], None, Some, length};
ghost use Rattle.std.specs.Prelude.{IfOk, IfErr, IfSome, OnOk, OnErr, IsSome, is_none, if◌then◌else◌};
ghost use Rattle.master_state.specs.log_memory.Steps.{MayBeginClean};
ghost use Rattle.cleaner.specs.Passes.{survivor_ids, AreIds};
ghost use Rattle.entry.specs.Bag.{IsAmong};
ghost use Rattle.entry.specs.Text.{text_of};
ghost use Rattle.images.specs.Images.{free_seglets as free_images};
ghost use Rattle.images.specs.Sorted.{AreBelow};
ghost use Rattle.replica.specs.Op.{OpValue, Seal, shown_op};
ghost use Rattle.master_state.specs.Budget.{survivors_of, whole_seglets};
ghost use Rattle.master_state.specs.Causes.{step_refusal, clean_refusal, copy_refusal, seal_refusal, free_refusal};
ghost use Rattle.master_state.specs.Images.{survivor_images};
ghost use Rattle.master_state.specs.Invariant.{AreImagesOf, IsCore};
ghost use Rattle.master_state.specs.Log.{images_of, log_of, memory_of};
ghost use Rattle.master_state.specs.Steps.{BeginsPass, Copies, copy_answer, sealed_data, freed_data, freed_one};
ghost use Rattle.std.specs.List.{AllByRecursion};
ghost use Rattle.std.specs.Prelude.{vec_capacity};
ghost use Rattle.master_state.specs.Waits.{next_seal, next_free};
ghost use Rattle.master_space.specs.Counting.{WithBegun};

use crate::compacting::opening_id;
use crate::copying::copy_next;
use crate::victims::admit_pass;
use cleaner::{Copied, Pass, Survivors};
use entry::{NoMemory, Row};
use images::Images;
use master_state::{Config, Core, Posting, Refusal, StepAnswer, Waiting, image_of};
use replica::{Act, Op};
use std::alloc::Global;
use tally::Tallies;

/// Begins a pass over these victims. The pass gets as many survivors as the victims' kept entries fill. The survivors
/// get the next numbers, and each gets the memory of a whole segment. A refusal changes nothing.
pub fn begin_clean(core: &mut Core, victims: Row<u64>) -> Result<StepAnswer, Refusal>
    ensures begun { IfOk result (λ answer. BeginsPass core.old victims answer core.new) }
    ensures may { OnOk result (MayBeginClean (log_of core.old) (memory_of core.old) victims) }
    ensures valid { OnOk result (IsCore core.new) }
    ensures refused { IfErr result (λ r. (clean_refusal core.old victims ≡ Some r)
        ⊎ ((clean_refusal core.old victims ≡ None) × (r ≡ Refusal.NoMemory))) }
    ensures err { OnErr result (core.new ≡ core.old) }
{
    let size = admit_pass(core, victims.as_slice())?;
    core.closed.show_valid();
    let survivors = Survivors {
        first: core.next_id,
        count: size.survivors,
    };
    core.closed.reserve(survivors.count + 1)?;
    add_survivors(&mut core.closed, core.alloc, &core.config, survivors)?;
    let pass = Pass::begin(victims, size.near, survivors, &core.closed, &core.index);
    core.next_id += survivors.count as u64;
    begin_tallies(&mut core.tallies, survivors);
    core.pass = Some(pass);
    core.post(&Posting::Survivors(survivors.first, survivors.count as u64));
    Ok(StepAnswer::Begun(survivors))
}

/// Treats the next entry of the open pass: copies it to a survivor if it is kept, and drops it otherwise. A refusal
/// changes nothing. The call allocates no memory.
pub fn copy(core: &mut Core) -> Result<StepAnswer, Refusal>
    ensures copied { IfOk result (λ answer. Copies core.old answer core.new) }
    ensures valid { OnOk result (IsCore core.new) }
    ensures refused { IfErr result (λ r. copy_refusal core.old ≡ Some r) }
    ensures err { OnErr result (core.new ≡ core.old) }
{
    core.admit()?;
    core.closed.show_valid();
    let head = core.head.id();
    let new = opening_id(&core.head);
    let Some(pass) = &mut core.pass else {
        return Err(Refusal::Nothing);
    };
    if pass.is_at_end() {
        return Err(Refusal::Nothing);
    }
    let copied = copy_next(
        pass,
        &mut core.closed,
        &mut core.index,
        &mut core.tallies,
        head,
        new,
    );
    Ok(copy_answer(copied))
}

/// Returns the survivor that is sealed next, and the number of the replica. `None` means that no pass is open, that
/// the open pass has entries left to copy, or that all replicas of its survivors are sealed.
pub fn to_seal(core: &Core) -> Option<(u64, usize)>
    ensures next { result ≡ next_seal core.now }
    ensures survivor { IfSome result (λ next. IsAmong next.0 (survivors_of core.now.pass)) }
    ensures few { IfSome result (λ next. next.1 < core.now.config.replicas) }
    ensures refused { step_refusal core.now ≡ None
        → seal_refusal core.now ≡ (if is_none result then Some Refusal.Nothing else None) }
{
    match &core.pass {
        None => None,
        Some(pass) => pass.next_seal(core.config.replicas as usize, &core.closed),
    }
}

/// Returns the op that seals a replica of this survivor, with the whole text of its image.
pub fn seal_op(core: &Core, survivor: u64) -> Op<'_>
    requires { IsAmong survivor (survivors_of core.now.pass) }
    ensures { let d = core.entry.now in shown_op result ≡ record {
      master = d.config.master;
      segment = survivor;
      act = Seal (text_of (images_of d survivor));
    } }
{
    let Some(image) = image_of(&core.head, &core.closed, survivor) else {
        unreachable!()
    };
    let text = image.bytes();
    Op {
        master: core.config.master,
        segment: survivor,
        act: Act::Seal(text),
    }
}

/// Counts the next Seal, which a backup took.
pub fn sealed(core: &mut Core)
    requires { IsSome (next_seal core.old) }
    ensures sealed { core.new ≡ sealed_data core.old }
    ensures valid { IsCore core.new }
{
    let Some((survivor, _)) = to_seal(core) else {
        unreachable!()
    };
    core.closed.add_replica(survivor);
}

/// Returns the first segment that waits, and the number of its replica that is freed next. `None` means that no
/// replica waits to be freed.
pub fn to_free(core: &Core) -> Option<(u64, usize)>
    ensures next { result ≡ next_free core.now }
    ensures few { IfSome result (λ next. next.1 < core.now.config.replicas) }
    ensures refused { step_refusal core.now ≡ None
        → free_refusal core.now ≡ (if is_none result then Some Refusal.Nothing else None) }
{
    match core.waiting.first() {
        None => None,
        Some(first) => Some((first.segment, first.freed as usize)),
    }
}

/// Counts the next Free, which a backup took. A segment stops waiting when its last replica was freed.
pub fn freed(core: &mut Core)
    requires { IsSome (next_free core.old) }
    ensures freed { core.new ≡ freed_data core.old }
    ensures valid { IsCore core.new }
{
    free_one(&mut core.waiting);
}

/// Counts a Free of the first segment that waits. The segment stops waiting when its last replica was freed.
fn free_one(waiting: &mut Vec<Waiting>)
    requires some { 0 < length waiting.old.items }
    requires valid { AllByRecursion (λ one. one.freed < one.replicas) waiting.old.items }
    ensures items { waiting.new.items ≡ freed_one waiting.old.items }
    ensures capacity { vec_capacity waiting.new ≡ vec_capacity waiting.old }
{
    let first = waiting[0];
    if first.freed + 1 == first.replicas {
        waiting.remove(0);
        return;
    }
    waiting[0].freed = first.freed + 1;
}

/// Adds the images of new survivors, each with the memory of a whole segment. The survivors' numbers are above all
/// others. An error adds no image.
fn add_survivors(
    closed: &mut Images,
    alloc: Global,
    config: &Config,
    survivors: Survivors,
) -> Result<(), NoMemory>
    requires sizes { AreImagesOf config.now closed.old }
    requires numbers { AreIds survivors }
    requires newest { AreBelow survivors.first closed.old.images }
    requires room { length closed.old.images + survivors.count ≤ closed.old.room }
    requires free { survivors.count * whole_seglets config.now ≤ free_images closed.old }
    ensures ok { OnOk result (closed.new ≡ record closed.old {
      images = closed.old.images ++ survivor_images config.now (survivor_ids survivors);
    }) }
    ensures err { OnErr result (closed.new ≡ closed.old) }
{
    if survivors.count == 0 {
        return Ok(());
    }
    closed.show_valid();
    let others = Survivors {
        first: survivors.first,
        count: survivors.count - 1,
    };
    let last = survivors.id(others.count);
    let survivor = closed.begin_survivor(alloc, config.master, last)?;
    add_survivors(closed, alloc, config, others)?;
    closed.add_image(survivor);
    Ok(())
}

/// Begins to count the bytes of new survivors. A survivor is left out if there is no memory.
fn begin_tallies(tallies: &mut Tallies, survivors: Survivors)
    requires { AreIds survivors }
    ensures { WithBegun (survivor_ids survivors) tallies.old tallies.new }
{
    tallies.reserve(survivors.count);
    for at in 0..survivors.count {
        tallies.begin(survivors.id(at));
    }
}

/// Returns the answer of the step `copy`, by what became of the entry.
fn copy_answer(copied: Copied) -> StepAnswer
    ensures { result ≡ copy_answer copied }
{
    match copied {
        Copied::Moved => StepAnswer::Moved,
        Copied::Carried => StepAnswer::Carried,
        Copied::Dropped => StepAnswer::Dropped,
    }
}
