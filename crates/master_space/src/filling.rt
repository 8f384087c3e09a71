//! How many survivors a pass over some victims has.

ghost use Rattle.std.specs.Prelude.{◌≡◌, ◌≤◌, ◌<◌, ◌^◌, nat_le, None, Some, if◌then◌else◌};
ghost use Rattle.std.specs.Option.{option_map};
ghost use Rattle.cleaner.specs.declared.fitting.PassSize.{PassSize as SizeOfPass};
ghost use Rattle.master_state.specs.Causes.{survivors_for, victims_fault};
ghost use Rattle.master_space.specs.Choosing.{filled_by};

use crate::compacting::opening_id;
use crate::keeping::fill_with;
use cleaner::{Level, MAX_SURVIVORS, PassSize, fit};
use master_state::Core;

/// Returns how far the survivors are filled after the kept entries of one more segment.
pub(crate) fn filled_by(core: &Core, id: u64, level: Level) -> Level
    requires few { level.survivor < 4 }
    requires limit { level.len ≤ 2 ^ 24 }
    ensures filled { result ≡ filled_by core.now level id }
    ensures limit { result.len ≤ 2 ^ 24 }
{
    match core.closed.get(id) {
        None => level,
        Some(image) => fill_with(core, id, &image, level),
    }
}

/// Returns how many survivors the kept entries of these victims fill; `None` if they fill more than 4. If all victims
/// have tallies, objects are looked up in none of them but those that a survivor's end divides. Else victims are read,
/// one after another.
pub(crate) fn size_of(core: &Core, victims: &[u64]) -> Option<PassSize>
    requires { victims_fault core.now victims.now ≡ None }
    ensures { option_map (λ (size : SizeOfPass). size.survivors) result
        ≡ (if nat_le (survivors_for core.now victims.now) 4 then Some (survivors_for core.now victims.now) else None) }
{
    if victims.iter().all(|id| core.tallies.get(*id).is_some()) {
        return counted_size(core, victims);
    }
    let segment = core.config.segment as usize;
    let new = opening_id(&core.head);
    fit(
        victims,
        &core.closed,
        &core.index,
        core.head.id(),
        new,
        segment,
    )
}

/// Returns what `size_of` returns, by the victims' tallies.
fn counted_size(core: &Core, victims: &[u64]) -> Option<PassSize>
    ensures { option_map (λ (size : SizeOfPass). size.survivors) result
        ≡ (if nat_le (survivors_for core.now victims.now) 4 then Some (survivors_for core.now victims.now) else None) }
{
    core.show_valid();
    let mut level = Level::first();
    for id in victims {
        level = filled_by(core, *id, level);
        if level.survivor >= MAX_SURVIVORS {
            return None;
        }
    }
    Some(PassSize {
        survivors: level.survivor + 1,
        near: 0,
    })
}
