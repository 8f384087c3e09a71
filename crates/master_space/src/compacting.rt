//! How a core compacts a segment.

ghost use Rattle.std.specs.Prelude.{◌⊎◌, ◌≡◌, length, None, Some, IfOk, IfErr, OnOk, OnErr};
ghost use Rattle.std.specs.Option.{option_map};
ghost use Rattle.std.specs.Result.{result_err};
ghost use Rattle.compactor.specs.Kept.{has_id};
ghost use Rattle.entry.specs.Text.{text_of};
ghost use Rattle.log_head.specs.declared.head.Roll.{Roll};
ghost use Rattle.master_state.specs.Budget.{victims_of, survivors_of};
ghost use Rattle.master_state.specs.Causes.{is_head, compact_refusal};
ghost use Rattle.master_state.specs.Invariant.{IsCore};
ghost use Rattle.master_state.specs.Steps.{kept_now, Compacts};

use crate::keeping::tallied;
use cleaner::PassFault;
use compactor::{LogSet, compact_to_len, kept_len};
use log_head::Head;
use master_state::{Core, Refusal, StepAnswer};
use tally::opening_len;

/// Compacts a closed segment: its image becomes its kept entries, and the index then leads to their new places. The
/// replicas stay as they are. A refusal changes nothing.
pub fn compact_segment(core: &mut Core, id: u64) -> Result<StepAnswer, Refusal>
    ensures compacted { IfOk result (λ answer. Compacts core.old id answer core.new) }
    ensures valid { OnOk result (IsCore core.new) }
    ensures refused { IfErr result (λ r. (compact_refusal core.old id ≡ Some r)
        ⊎ ((compact_refusal core.old id ≡ None) × (r ≡ Refusal.NoMemory))) }
    ensures err { OnErr result (core.new ≡ core.old) }
{
    admit_compaction(core, id)?;
    let kept = whole_kept(core, id);
    core.closed.show_valid();
    let log = LogSet {
        closed: &core.closed,
        head: core.head.id(),
        new: opening_id(&core.head),
    };
    let Some(image) = core.closed.get(id) else {
        unreachable!()
    };
    let segment = compact_to_len(core.alloc, id, &image, &mut core.index, &log, kept)?;
    let len = segment.bytes().len() as u64;
    let Ok(()) = core.closed.replace(id, segment) else {
        unreachable!()
    };
    Ok(StepAnswer::Compacted(id, len))
}

/// Returns how many bytes of a closed segment that may be compacted are kept, its opening too. The call looks at no
/// entry behind the opening if the segment has a fresh tally.
fn whole_kept(core: &Core, id: u64) -> usize
    requires { compact_refusal core.now id ≡ None }
    ensures { result ≡ length (text_of (kept_now core.now id)) }
{
    let log = LogSet {
        closed: &core.closed,
        head: core.head.id(),
        new: opening_id(&core.head),
    };
    let Some(image) = core.closed.get(id) else {
        unreachable!()
    };
    match tallied(core, id, &image, &log) {
        Some(kept) => kept + opening_len(&image),
        None => kept_len(id, &image, &core.index, &log),
    }
}

/// Returns the number of the head that a roll is opening, or `None` without a roll.
pub(crate) fn opening_id(head: &Head) -> Option<u64>
    ensures { result ≡ option_map (λ (r : Roll). r.id) head.now.roll }
{
    match head.roll() {
        None => None,
        Some(roll) => Some(roll.id),
    }
}

/// Returns true if this is the number of the head, or of the head that a roll is opening.
pub(crate) fn is_head(core: &Core, id: u64) -> bool
    ensures { result ≡ is_head core.now.head id }
{
    if core.head.id() == id {
        return true;
    }
    match core.head.roll() {
        None => false,
        Some(roll) => roll.id == id,
    }
}

/// Returns true if this is the number of a survivor of the open pass.
pub(crate) fn is_survivor(core: &Core, id: u64) -> bool
    ensures { result ≡ has_id (survivors_of core.now.pass) id }
{
    match &core.pass {
        None => false,
        Some(pass) => pass.survivors.has(id),
    }
}

/// Returns true if this is the number of a victim of the open pass.
fn is_victim(core: &Core, id: u64) -> bool
    ensures { result ≡ has_id (victims_of core.now.pass) id }
{
    match &core.pass {
        None => false,
        Some(pass) => pass.victims.as_slice().contains(&id),
    }
}

/// Refuses a compaction if the master is halted or a failover is open, if the segment is a head or isn't in the digest
/// in force, or if it is a victim of the open pass.
fn admit_compaction(core: &Core, id: u64) -> Result<(), Refusal>
    ensures { result_err result ≡ compact_refusal core.now id }
{
    core.admit()?;
    core.show_valid();
    if is_head(core, id) {
        return Err(Refusal::Pass(PassFault::IsHead(id)));
    }
    if is_survivor(core, id) {
        return Err(Refusal::Pass(PassFault::NotInLog(id)));
    }
    if core.closed.get(id).is_none() {
        return Err(Refusal::Pass(PassFault::NotInLog(id)));
    }
    if is_victim(core, id) {
        return Err(Refusal::Pass(PassFault::PassOpen));
    }
    Ok(())
}
