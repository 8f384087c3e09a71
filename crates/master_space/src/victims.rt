//! The tests that a core makes before a pass begins.

ghost use Rattle.std.specs.Prelude.{◌≡◌, ◌≤◌, ◌∷◌, [], None, IfOk};
ghost use Rattle.std.specs.Result.{result_err};
ghost use Rattle.master_state.specs.Budget.{may_clean, has_memory_for, has_places_for};
ghost use Rattle.master_state.specs.Causes.{victim_fault, victims_fault, survivors_for, space_refusal, clean_refusal};

use crate::compacting::is_head;
use crate::filling::size_of;
use cleaner::{MAX_VICTIMS, PassFault, PassSize};
use entry::MAX_SEGMENT_ID;
use master_state::{Core, Refusal};

/// Tests whether a pass over these victims may begin. Returns how many survivors the pass has, and how many of the
/// first victims may still be in cache.
pub(crate) fn admit_pass(core: &Core, victims: &[u64]) -> Result<PassSize, Refusal>
    ensures refused { result_err result ≡ clean_refusal core.now victims.now }
    ensures survivors { IfOk result (λ size. size.survivors ≡ survivors_for core.now victims.now) }
{
    core.admit()?;
    if let Err(fault) = check_victims(core, victims) {
        return Err(Refusal::Pass(fault));
    }
    admit_space(core, victims)
}

/// Tests whether these segments may be the victims of a pass, apart from the room that the pass needs. The error is the
/// first reason why they may not.
fn check_victims(core: &Core, victims: &[u64]) -> Result<(), PassFault>
    ensures { result_err result ≡ victims_fault core.now victims.now }
{
    if core.pass.is_some() {
        return Err(PassFault::PassOpen);
    }
    if victims.is_empty() {
        return Err(PassFault::NoVictims);
    }
    if victims.len() > MAX_VICTIMS {
        return Err(PassFault::TooMany);
    }
    for (at, id) in victims.iter().enumerate() {
        check_victim(core, &victims[..at], *id)?;
    }
    Ok(())
}

/// Tests whether a segment may be a victim after the victims `before`. The error is the reason why it may not.
fn check_victim(core: &Core, before: &[u64], id: u64) -> Result<(), PassFault>
    requires { core.now.pass ≡ None }
    ensures { result_err result ≡ victim_fault core.now before.now (id ∷ []) }
{
    if before.contains(&id) {
        return Err(PassFault::Twice(id));
    }
    if is_head(core, id) {
        return Err(PassFault::IsHead(id));
    }
    if core.closed.get(id).is_none() {
        return Err(PassFault::NotInLog(id));
    }
    Ok(())
}

/// Tests whether there is room for a pass over these victims: its survivors are at most four, there is memory for them,
/// the digest has places, and numbers are left. Returns what `admit_pass` returns.
fn admit_space(core: &Core, victims: &[u64]) -> Result<PassSize, Refusal>
    requires { victims_fault core.now victims.now ≡ None }
    ensures refused { result_err result ≡ space_refusal core.now victims.now }
    ensures survivors { IfOk result (λ size. size.survivors ≡ survivors_for core.now victims.now) }
{
    let Some(size) = size_of(core, victims) else {
        return Err(Refusal::Pass(PassFault::TooMuch));
    };
    if !may_clean(core, victims.len(), size.survivors) {
        return Err(Refusal::Full);
    }
    if core.next_id + size.survivors as u64 > MAX_SEGMENT_ID + 1 {
        return Err(Refusal::SegmentsSpent);
    }
    Ok(size)
}

/// Returns true if memory and the digest have room for a pass with so many victims and survivors.
fn may_clean(core: &Core, victims: usize, survivors: usize) -> bool
    requires none { core.now.pass ≡ None }
    requires few { survivors ≤ 4 }
    ensures { result ≡ may_clean core.now victims survivors }
{
    has_memory_for(core, survivors) && has_places_for(core, victims, survivors)
}

/// Returns true if the memory of a whole segment is free for each of so many survivors, and for one segment more.
pub(crate) fn has_memory_for(core: &Core, survivors: usize) -> bool
    requires few { survivors ≤ 4 }
    ensures { result ≡ has_memory_for core.now survivors }
{
    (survivors as u64 + 1) * (core.config.segment / core.config.seglet) <= core.free()
}

/// Returns true if a digest has places for so many survivors and the head of the commit, once so many victims left it.
pub(crate) fn has_places_for(core: &Core, victims: usize, survivors: usize) -> bool
    requires none { core.now.pass ≡ None }
    requires few { survivors ≤ 4 }
    ensures { result ≡ has_places_for core.now victims survivors }
{
    let heads = if core.head.roll().is_some() { 2 } else { 1 };
    let listed = core.closed.len() + heads;
    let most = (core.config.segment / 32) as usize;
    listed.saturating_sub(victims) + survivors + 1 <= most
}
