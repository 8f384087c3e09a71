//! How many pushes an open failover still needs.

ghost use Rattle.std.specs.Prelude.{◌≡◌, ◌≤◌, ◌-◌, length};
ghost use Rattle.std.specs.Option.{option_map_or};
ghost use Rattle.log_head.specs.declared.head.Roll.{Roll as RollValue};
ghost use Rattle.master_failover.specs.Mending.{was_headless};
ghost use Rattle.master_failover.specs.Left.{left_now, lost_now, unmended, count_below};

use crate::lost::lost_of;
use log_head::Head;
use master_state::{Core, Part};

/// Returns how many pushes the open failover still needs, at most. 0 means that no failover is open.
pub fn left(core: &Core) -> u64
    ensures { result ≡ left_now core.now }
{
    let Some(failover) = &core.failover else {
        return 0;
    };
    let replicas = core.config.replicas;
    let lost = lost_now(core);
    match failover.part {
        Part::Mends => unmended(core, failover.is_first) + (replicas + 1) + replicas + lost,
        Part::Opens => unopened(&core.head, replicas) + 1 + to_close(&core.head, replicas) + lost,
        Part::Closes => to_close(&core.head, replicas) + lost,
        Part::Repairs => lost,
    }
}

/// Counts the lost replicas of the segments that the newest digest lists. Neither head counts.
fn lost_now(core: &Core) -> u64
    ensures lost { result ≡ lost_now core.now }
    ensures small { result ≤ 16777216 }
{
    let head = core.head.id();
    let replicas = core.config.replicas as usize;
    match core.head.roll() {
        Some(roll) => lost_of(&roll.image, head, &core.closed, replicas),
        None => lost_of(core.head.image(), head, &core.closed, replicas),
    }
}

/// Counts the head's replicas that lack some unit, and its lost replicas. If no head was open on all its backups when
/// the failover began, the count is the number of replicas that a segment has.
fn unmended(core: &Core, is_first: bool) -> u64
    requires { is_first ≡ was_headless core.now }
    ensures unmended { result ≡ unmended core.now }
    ensures small { result ≤ 128 }
{
    if is_first {
        return core.config.replicas;
    }
    let opened = core.head.opened();
    (lagging(&core.head) + (core.config.replicas as usize - opened)) as u64
}

/// Counts the head's replicas that lack some unit.
fn lagging(head: &Head) -> usize
    ensures lagging { result ≡ count_below (length head.now.units) head.now.taken }
    ensures few { result ≤ length head.now.taken }
{
    let units = head.count();
    let mut lagging = 0;
    for replica in 0..head.opened() {
        if head.units_of(replica) < units {
            lagging += 1;
        }
    }
    lagging
}

/// Counts the new head's replicas that aren't open yet.
fn unopened(head: &Head, replicas: u64) -> u64
    ensures { result ≡ replicas - option_map_or (λ (r : RollValue). r.opened) head.now.roll (length head.now.taken) }
{
    let opened = match head.roll() {
        Some(roll) => roll.opened,
        None => head.opened(),
    };
    replicas.saturating_sub(opened as u64)
}

/// Counts the old head's replicas that aren't closed yet.
fn to_close(head: &Head, replicas: u64) -> u64
    ensures { result ≡ option_map_or (λ (r : RollValue). replicas - r.closed) head.now.roll 0 }
{
    match head.roll() {
        Some(roll) => replicas.saturating_sub(roll.closed as u64),
        None => 0,
    }
}
