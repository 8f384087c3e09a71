//! What a core becomes when a take ends in a fault: it halts, or a failover begins.

ghost use Rattle.std.specs.Prelude.{◌≡◌, ◌+◌, ◌<◌, ◌≤◌, length, map, filter, true, false, None, Some, IfSome, IsSome};
ghost use Rattle.std.specs.Prelude.{ℕ};
ghost use Rattle.std.specs.List.{AllByRecursion};
ghost use Rattle.images.specs.Images.{ImagesValue};
ghost use Rattle.log_head.specs.log_laws.Ids.{has};
ghost use Rattle.master_state.specs.Config.{config_fault};
ghost use Rattle.master_state.specs.Invariant.{IsCore};
ghost use Rattle.master_state.specs.Log.{working};
ghost use Rattle.master_state.specs.Steps.{may_lose, lost_data, lost_image, lost_waiting, still_waits, less_by};
ghost use Rattle.master_state.specs.Steps.{failed_data, refusal_of};
ghost use Rattle.master_state.specs.Steps.{place_of};

use crate::config::Config;
use crate::failover::{Failed, Failover, Part};
use crate::ledger::Abandoned;
use crate::state::Core;
use crate::step::Refusal;
use crate::waiting::Waiting;
use images::Images;
use replica::TakeFault;

impl Core {
    /// Treats a fault of a take on this backup, and returns the refusal of the step. After NoMemory and Spent the core
    /// is as it was. After Fault the backup counts as failed and a failover begins, if the format is 2, no failover was
    /// open, and at least as many backups are left as a segment has replicas; otherwise the master halts. No op of a
    /// master is Wrong.
    pub fn fail(&mut self, backup: u64, fault: TakeFault) -> Refusal
        requires right { fault ≡ TakeFault.Wrong → ⊥ }
        requires there { backup < self.old.config.backups }
        requires works { has self.old.failed backup ≡ false }
        ensures answer { result ≡ refusal_of self.old backup fault }
        ensures failed { self.new ≡ failed_data self.old backup fault }
        ensures valid { IsCore self.new }
    {
        self.show_valid();
        match fault {
            TakeFault::NoMemory => Refusal::NoMemory,
            TakeFault::Spent => Refusal::Spent,
            TakeFault::Fault => {
                if self.may_lose() {
                    self.lose(backup);
                    return Refusal::Lost(backup);
                }
                self.halt();
                Refusal::Halted
            }
            TakeFault::Wrong => unreachable!(),
        }
    }

    /// Treats a fault of the registry's raise in an open failover, and returns the refusal of the step. After NoMemory
    /// and Spent the core is as it was. After Fault the master halts, because a failover is open.
    pub fn refuse_raise(&mut self, fault: TakeFault) -> Refusal
        requires right { fault ≡ TakeFault.Wrong → ⊥ }
        requires failing { IsSome self.old.failover }
        ensures answer { (b : ℕ) → result ≡ refusal_of self.old b fault }
        ensures failed { (b : ℕ) → self.new ≡ failed_data self.old b fault }
        ensures valid { IsCore self.new }
    {
        self.show_valid();
        match fault {
            TakeFault::NoMemory => Refusal::NoMemory,
            TakeFault::Spent => Refusal::Spent,
            TakeFault::Fault => {
                self.halt();
                Refusal::Halted
            }
            TakeFault::Wrong => unreachable!(),
        }
    }

    /// Returns true if a failure of a backup opens a failover: the format is 2, no failover is open, and at least as
    /// many backups are left after the failure as a segment has replicas.
    pub fn may_lose(&self) -> bool
        ensures { result ≡ may_lose self.now }
    {
        self.config.format == 2
            && self.failover.is_none()
            && self.failed.count() as u64 + self.config.replicas < self.config.backups
    }

    /// Counts this backup as failed and begins a failover. The head of a roll that was under way is abandoned. No
    /// segment is counted any more. The call takes no memory, so it can't fail.
    pub fn lose(&mut self, backup: u64)
        requires may { may_lose self.old ≡ true }
        requires there { backup < self.old.config.backups }
        requires works { has self.old.failed backup ≡ false }
        ensures lost { self.new ≡ lost_data self.old backup }
        ensures valid { IsCore self.new }
    {
        let frozen = self.durable();
        let place = self.place_of(backup);
        let is_first = self.head.opened() < self.config.replicas as usize;
        let closed = match self.head.roll() {
            None => 0,
            Some(roll) => less_by(roll.closed, place),
        };
        self.abandoned = Abandoned::of(&self.head);
        let abandoned = self.head.lose(place);
        lose_replicas(&mut self.closed, &self.config, &self.failed, backup);
        lose_waiting(&mut self.waiting, &self.config, &self.failed, backup);
        if let Some(pass) = &mut self.pass {
            pass.is_committing = false;
        }
        self.tallies.clear();
        self.failed.add(backup);
        self.failover = Some(Failover {
            part: Part::Mends,
            frozen,
            closed,
            abandoned,
            is_first,
        });
    }

    /// Which opened replica of the head is on this backup, if any is.
    fn place_of(&self, backup: u64) -> Option<usize>
        ensures place { result ≡ place_of self.now backup }
        ensures within { IfSome result (λ j. j < length self.now.head.taken) }
    {
        self.config
            .place_in(&self.failed, self.head.id(), self.head.opened(), backup)
    }
}

/// How many of the first `count` replicas are left if the one at this place is lost.
fn less_by(count: usize, place: Option<usize>) -> usize
    ensures { result ≡ less_by count place }
{
    match place {
        Some(place) if place < count => count - 1,
        _ => count,
    }
}

/// Counts one replica less for each closed segment that has a replica on this backup.
fn lose_replicas(closed: &mut Images, config: &Config, failed: &Failed, backup: u64)
    requires config { config_fault config.now ≡ None }
    requires left { length failed.now + config.now.replicas ≤ config.now.backups }
    requires replicas { AllByRecursion (λ image. image.replicas ≤ config.now.replicas) closed.old.images }
    ensures { closed.new ≡ record closed.old {
      images = map (lost_image config.now failed.now backup) closed.old.images;
    } }
{
    for place in 0..closed.len() {
        let replicas = closed.replicas_at(place);
        let id = closed.id_at(place);
        if config.place_in(failed, id, replicas, backup).is_some() {
            closed.lose_at(place);
        }
    }
}

/// Counts one replica less for each waiting segment that has or had a replica on this backup. A segment without a
/// replica to free waits no more.
fn lose_waiting(waiting: &mut Vec<Waiting>, config: &Config, failed: &Failed, backup: u64)
    requires config { config_fault config.now ≡ None }
    requires left { length failed.now + config.now.replicas ≤ config.now.backups }
    requires replicas { AllByRecursion (λ one. (one.freed < one.replicas) × (one.replicas ≤ config.now.replicas))
        waiting.old.items }
    ensures { waiting.new.items
        ≡ filter still_waits (map (lost_waiting config.now failed.now backup) waiting.old.items) }
{
    let mut kept = 0;
    for place in 0..waiting.len() {
        let mut one = waiting[place];
        let gone = config.place_in(failed, one.segment, one.replicas as usize, backup);
        one.freed = less_by(one.freed as usize, gone) as u32;
        one.replicas = less_by(one.replicas as usize, gone) as u32;
        if one.freed < one.replicas {
            waiting[kept] = one;
            kept += 1;
        }
    }
    waiting.truncate(kept);
}
