//! The backups of a fleet, and its registry.

ghost use Rattle.std.specs.Prelude.{◌≡◌, ◌↔◌, ◌++◌, [], ◌∷◌, Err, IfErr, IfOk, IsTrue, OnErr, OnOk, length, true};
ghost use Rattle.std.specs.Prelude.{◌<◌, IsErr, Some, false, set};
ghost use Rattle.replica.specs.Op.{shown_op};
ghost use Rattle.replica.specs.Registry.{with_least};
ghost use Rattle.replica.specs.Retire.{AreOthers};
ghost use Rattle.file_fleet.specs.Members.{AreSafe, IsMember, IsOutAt, IsUnder, MissesOn, TakesOn, picture_of};
ghost use Rattle.file_fleet.specs.Members.{device_at, replicas_at, with_backup};
ghost use Rattle.file_backup.specs.Mirror.{IsJournalOf, is_out};
ghost use Rattle.take_journal.specs.Crash.{HasVersion};
ghost use Rattle.take_journal.specs.Device.{LeavesJust};
ghost use Rattle.take_journal.specs.Frames.{IsShort, recovered};
ghost use Rattle.take_journal.specs.Journal.{device_of, takes_more};
ghost use Rattle.replica.specs.Take.{no_limit};
ghost use Rattle.file_fleet.specs.Files.{Files, ShowsFleet};
ghost use Rattle.file_fleet.specs.Moments.{AreLeftAmid, AreLeftByPut, ShowsNaming, ShowsPut, ShowsRaise, ShowsTake};

use crate::member::Member;
use crate::registry::{FleetRegistry, NoteFault};
use entry::NoMemory;
use file_backup::BackupFault;
use replica::{Op, Spot, TakeFault};
use std::alloc::Global;
use std::mem::replace;
use take_journal::{Device, Journal};

/// The backups of a fleet, numbered from 0, and its registry.
///
/// A backup is out once its device failed, and each op of it is a Fault then. The fleet is halted once the registry
/// failed, and each take is a Fault then. Neither asks anything of a disk.
#[derive(Drop)]
pub struct Members<D: Device, R: FleetRegistry> {
    pub(crate) list: Vec<Member<D>>,
    pub(crate) registry: R,
    pub(crate) is_halted: bool,
}

impl<D: Device, R: FleetRegistry> Members<D, R> {
    /// No backups yet. It takes no memory.
    pub fn new(alloc: Global, registry: R) -> Self
        requires sound { R.is_sound registry }
        ensures safe { AreSafe D.contents D.may_leave D.has_failed R.noted R.is_sound result }
        ensures none { result.list.items ≡ [] }
        ensures registry { result.registry ≡ registry }
        ensures goes_on { result.is_halted ≡ false }
    {
        Members {
            list: Vec::new(alloc),
            registry,
            is_halted: false,
        }
    }

    /// The registry.
    pub fn registry(&self) -> &R
        ensures { result.now ≡ self.now.registry }
    {
        &self.registry
    }

    /// Whether the fleet is halted.
    pub fn is_halted(&self) -> bool
        ensures { result ≡ self.now.is_halted }
    {
        self.is_halted
    }

    /// How many backups there are.
    pub fn backups(&self) -> u64
        ensures { result ≡ length self.now.list.items }
    {
        self.list.len() as u64
    }

    /// The backups.
    pub fn list(&self) -> &[Member<D>]
        ensures { result.now ≡ self.now.list.items }
    {
        self.list.as_slice()
    }

    /// Adds the next backup. Its file was opened with what the registry has of it. If memory runs out, the backup is
    /// handed back.
    pub fn add(&mut self, member: Member<D>) -> Result<(), Member<D>>
        requires safe { AreSafe D.contents D.may_leave D.has_failed R.noted R.is_sound self.old }
        requires member { IsMember D.contents D.may_leave D.has_failed member }
        requires under { IsUnder D.may_leave ((R.noted self.old.registry).span (length self.old.list.items)) member }
        requires named { (R.noted self.old.registry).file (length self.old.list.items) ≡ member.id }

        ensures safe { AreSafe D.contents D.may_leave D.has_failed R.noted R.is_sound self.new }
        ensures added { OnOk result (self.new.list.items ≡ self.old.list.items ++ member ∷ []) }
        ensures refused { IfErr result (λ back. (back ≡ member) × (self.new.list.items ≡ self.old.list.items)) }
        ensures registry { self.new.registry ≡ self.old.registry }
        ensures same { self.new.is_halted ≡ self.old.is_halted }
    {
        match self.list.push(member) {
            Ok(()) => Ok(()),
            Err(failed) => Err(failed.value),
        }
    }

    /// Whether there is this backup and it is out.
    fn is_out_at(&self, backup: u64) -> bool
        ensures { IsTrue result ↔ IsOutAt self.now.list.items backup }
    {
        match self.list.as_slice().get(backup as usize) {
            Some(member) => member.backup.is_out(),
            None => false,
        }
    }

    /// Whether an op fits what its backup holds, and neither the fleet is halted nor the backup is out. It takes
    /// memory for a list of all replicas of the backup.
    pub(crate) fn has_place_for(
        &self,
        alloc: Global,
        backup: u64,
        op: &Op<'_>,
    ) -> Result<bool, NoMemory> {
        if self.is_halted {
            return Ok(false);
        }
        match self.list.as_slice().get(backup as usize) {
            Some(member) => member.has_place_for(alloc, op),
            None => Ok(false),
        }
    }

    /// Where the replicas of other masters than `keep` are, by backup, then by master, then by segment.
    pub(crate) fn others(&self, alloc: Global, keep: u64) -> Result<Vec<Spot>, NoMemory>
        ensures { IfOk result (λ spots. AreOthers spots.items (picture_of self.now.list.items) keep) }
    {
        let mut spots = Vec::new(alloc);
        for (backup, member) in self.list.iter().enumerate() {
            member
                .backup
                .memory()
                .list_others(keep, backup as u64, &mut spots)?;
        }
        Ok(spots)
    }

    /// Hands an op to a backup. The op is on the disk before the answer is Ok. If the backup's device fails, the
    /// registry notes how many frames count before the answer is Fault.
    pub(crate) fn take(&mut self, alloc: Global, backup: u64, op: &Op<'_>) -> Result<(), TakeFault>
        requires safe { AreSafe D.contents D.may_leave D.has_failed R.noted R.is_sound self.old }

        ensures safe { AreSafe D.contents D.may_leave D.has_failed R.noted R.is_sound self.new }
        ensures taken { OnOk result (TakesOn (length self.old.list.items) (picture_of self.old.list.items) backup
            (shown_op op.now) (picture_of self.new.list.items)) }
        ensures refused { OnErr result (picture_of self.new.list.items ≡ picture_of self.old.list.items) }
        ensures wrong { result ≡ Err TakeFault.Wrong → MissesOn (length self.old.list.items)
            (picture_of self.old.list.items) backup (shown_op op.now) }
        ensures never_spent { result ≡ Err TakeFault.Spent → ⊥ }
        ensures count { length self.new.list.items ≡ length self.old.list.items }
        ensures least { (R.noted self.new.registry).least ≡ (R.noted self.old.registry).least }

        // Nothing is done by a fleet that is halted, or by a backup that is out.
        ensures halted { self.old.is_halted ≡ true → (result ≡ Err TakeFault.Fault) × (self.new ≡ self.old) }
        ensures out { IsOutAt self.old.list.items backup → (result ≡ Err TakeFault.Fault) × (self.new ≡ self.old) }

        // A crash at any moment of the call leaves files that show the backups before the take, or after it.
        ensures any_moment { self.old.is_halted ≡ false → (files : Files)
            → AreLeftAmid D.clock D.left_since R.time R.left_of self.old self.new files
            → ShowsTake (length self.old.list.items) (picture_of self.old.list.items)
            (R.noted self.old.registry).least backup (shown_op op.now) files }
    {
        if self.is_halted || self.is_out_at(backup) {
            return Err(TakeFault::Fault);
        }
        let Some(member) = self.list.get_mut(backup as usize) else {
            return Err(TakeFault::Wrong);
        };
        let answer = member.take(alloc, op);
        if member.backup.is_out() {
            let frames = member.frames;
            self.is_halted = self.registry.end_journal(alloc, backup, frames).is_err();
            return Err(TakeFault::Fault);
        }
        answer
    }

    /// Puts a backup with a file of its own in the place of one, and hands that back. The registry names the new file
    /// before the answer is Ok, and the old one doesn't count from then on. If the registry isn't written, the new
    /// backup is handed back. If it failed, the fleet is halted then. The fault is NoMemory also if no backup has this
    /// number.
    pub fn put(
        &mut self,
        alloc: Global,
        backup: u64,
        next: Member<D>,
    ) -> Result<Member<D>, (NoteFault, Member<D>)>
        requires safe { AreSafe D.contents D.may_leave D.has_failed R.noted R.is_sound self.old }
        requires member { IsMember D.contents D.may_leave D.has_failed next }
        requires goes_on { is_out next.backup ≡ false }
        requires live { next.id ≡ 0 → ⊥ }

        ensures safe { AreSafe D.contents D.may_leave D.has_failed R.noted R.is_sound self.new }
        ensures put { OnOk result (picture_of self.new.list.items
            ≡ with_backup (picture_of self.old.list.items) backup (replicas_at next)) }
        ensures refused { IfErr result (λ e. (e.1 ≡ next) × (self.new.list ≡ self.old.list)) }
        ensures count { length self.new.list.items ≡ length self.old.list.items }
        ensures least { (R.noted self.new.registry).least ≡ (R.noted self.old.registry).least }
        ensures halted { self.old.is_halted ≡ true → IsErr result × (self.new ≡ self.old) }

        // A crash at any moment of the call leaves files that show the backups as they were, or the new one in its
        // place.
        ensures any_moment { self.old.is_halted ≡ false → (files : Files)
            → AreLeftByPut D.may_leave R.time R.left_of self.old backup (device_at next) next.id
            self.new.registry files
            → ShowsPut (length self.old.list.items) (picture_of self.old.list.items)
            (R.noted self.old.registry).least backup (replicas_at next) files }
    {
        if self.is_halted {
            return Err((NoteFault::Failed, next));
        }
        if backup >= self.backups() {
            return Err((NoteFault::NoMemory, next));
        }
        match self.registry.name_file(alloc, backup, next.id) {
            Ok(()) => Ok(exchange(&mut self.list, backup as usize, next)),
            Err(NoteFault::NoMemory) => Err((NoteFault::NoMemory, next)),
            Err(NoteFault::Failed) => {
                self.is_halted = true;
                Err((NoteFault::Failed, next))
            }
        }
    }

    /// Writes all that a backup holds to a new file, and answers how many texts it has. The backup goes on with its
    /// own journal. If no backup has this number, the answer is NoMemory.
    pub fn copy(
        &self,
        alloc: Global,
        backup: u64,
        first: &[u8],
        journal: &mut Journal<D>,
    ) -> Result<u64, BackupFault>
        requires closed { takes_more journal.old ≡ false }
        requires empty { D.contents (device_of journal.old) ≡ [] }
        requires durable { LeavesJust [] (D.may_leave (device_of journal.old)) }
        requires unfailed { D.has_failed (device_of journal.old) ≡ false }
        requires version { HasVersion (first.now ∷ []) }
        requires short { IsShort first.now }

        ensures copied { OnOk result (IsJournalOf D.contents D.may_leave D.has_failed
            (picture_of self.now.list.items backup) journal.new) }
        ensures counted { IfOk result (λ count. count ≡ length (recovered (D.contents (device_of journal.new)))) }
    {
        match self.list.as_slice().get(backup as usize) {
            Some(member) => member.backup.copy_to(alloc, first, journal),
            None => Err(BackupFault::NoMemory),
        }
    }

    /// Makes a backup go on in another journal, which shows what it holds, and hands back its own. The registry names
    /// the new file before the answer is Ok, and the old one doesn't count from then on. A backup that was out is
    /// back. If the registry isn't written, the new journal is handed back. If it failed, the fleet is halted then.
    /// The fault is NoMemory also if no backup has this number.
    pub fn switch(
        &mut self,
        alloc: Global,
        backup: u64,
        id: u64,
        journal: Journal<D>,
        frames: u64,
    ) -> Result<Journal<D>, (NoteFault, Journal<D>)>
        requires safe { AreSafe D.contents D.may_leave D.has_failed R.noted R.is_sound self.old }
        requires copied { IsJournalOf D.contents D.may_leave D.has_failed
            (picture_of self.old.list.items backup) journal }
        requires counted { frames ≡ length (recovered (D.contents (device_of journal))) }
        requires limit { frames < no_limit }
        requires live { id ≡ 0 → ⊥ }

        ensures safe { AreSafe D.contents D.may_leave D.has_failed R.noted R.is_sound self.new }
        ensures same { picture_of self.new.list.items ≡ picture_of self.old.list.items }
        ensures refused { IfErr result (λ e. e.1 ≡ journal) }
        ensures count { length self.new.list.items ≡ length self.old.list.items }
        ensures least { (R.noted self.new.registry).least ≡ (R.noted self.old.registry).least }

        // A crash at any moment of the call leaves files that show the backups.
        ensures any_moment { self.old.is_halted ≡ false → (files : Files)
            → AreLeftByPut D.may_leave R.time R.left_of self.old backup (device_of journal) id self.new.registry files
            → ShowsFleet (length self.old.list.items) (picture_of self.old.list.items)
            (R.noted self.old.registry).least files }
    {
        if self.is_halted {
            return Err((NoteFault::Failed, journal));
        }
        let Some(member) = self.list.get_mut(backup as usize) else {
            return Err((NoteFault::NoMemory, journal));
        };
        match self.registry.name_file(alloc, backup, id) {
            Ok(()) => Ok(member.go_on_with(id, journal, frames)),
            Err(NoteFault::NoMemory) => Err((NoteFault::NoMemory, journal)),
            Err(NoteFault::Failed) => {
                self.is_halted = true;
                Err((NoteFault::Failed, journal))
            }
        }
    }

    /// Raises a master's least head. It is on the disk before the answer is Ok. The answer is never Wrong or Spent.
    pub(crate) fn raise(&mut self, alloc: Global, master: u64, id: u64) -> Result<(), TakeFault>
        requires safe { AreSafe D.contents D.may_leave D.has_failed R.noted R.is_sound self.old }

        ensures safe { AreSafe D.contents D.may_leave D.has_failed R.noted R.is_sound self.new }
        ensures raised { OnOk result
            ((R.noted self.new.registry).least ≡ with_least (R.noted self.old.registry).least master id) }
        ensures refused { OnErr result ((R.noted self.new.registry).least ≡ (R.noted self.old.registry).least) }
        ensures never_wrong { result ≡ Err TakeFault.Wrong → ⊥ }
        ensures never_spent { result ≡ Err TakeFault.Spent → ⊥ }
        ensures same { self.new.list ≡ self.old.list }
        ensures halted { self.old.is_halted ≡ true → (result ≡ Err TakeFault.Fault) × (self.new ≡ self.old) }

        // A crash at any moment of the call leaves files that show the least heads before the raise, or after it.
        ensures any_moment { self.old.is_halted ≡ false → (files : Files)
            → AreLeftAmid D.clock D.left_since R.time R.left_of self.old self.new files
            → ShowsRaise (length self.old.list.items) (picture_of self.old.list.items)
            (R.noted self.old.registry).least master id files }
    {
        if self.is_halted {
            return Err(TakeFault::Fault);
        }
        match self.registry.raise(alloc, master, id) {
            Ok(()) => Ok(()),
            Err(NoteFault::NoMemory) => Err(TakeFault::NoMemory),
            Err(NoteFault::Failed) => {
                self.is_halted = true;
                Err(TakeFault::Fault)
            }
        }
    }

    /// Names the master that a recovery is for. It is on the disk before the answer is Ok. If the registry failed, the
    /// fleet is halted.
    pub(crate) fn name_master(&mut self, alloc: Global, master: u64) -> Result<(), NoteFault>
        requires safe { AreSafe D.contents D.may_leave D.has_failed R.noted R.is_sound self.old }

        ensures safe { AreSafe D.contents D.may_leave D.has_failed R.noted R.is_sound self.new }
        ensures named { OnOk result ((R.noted self.new.registry).master ≡ Some master) }
        ensures refused { OnErr result ((R.noted self.new.registry).master ≡ (R.noted self.old.registry).master) }
        ensures same { self.new.list ≡ self.old.list }
        ensures least { (R.noted self.new.registry).least ≡ (R.noted self.old.registry).least }
        ensures halted { self.old.is_halted ≡ true → (result ≡ Err NoteFault.Failed) × (self.new ≡ self.old) }

        // A crash at any moment of the call leaves files that show the backups, and the old master or the new one.
        ensures any_moment { self.old.is_halted ≡ false → (files : Files)
            → AreLeftAmid D.clock D.left_since R.time R.left_of self.old self.new files
            → ShowsNaming (length self.old.list.items) (picture_of self.old.list.items)
            (R.noted self.old.registry).least (R.noted self.old.registry).master master files }
    {
        if self.is_halted {
            return Err(NoteFault::Failed);
        }
        match self.registry.name_master(alloc, master) {
            Ok(()) => Ok(()),
            Err(NoteFault::NoMemory) => Err(NoteFault::NoMemory),
            Err(NoteFault::Failed) => {
                self.is_halted = true;
                Err(NoteFault::Failed)
            }
        }
    }
}

/// Puts a backup in the place of another, and hands that back.
fn exchange<D: Device>(list: &mut Vec<Member<D>>, at: usize, next: Member<D>) -> Member<D>
    requires { at < length list.old.items }
    ensures { list.new.items ≡ set list.old.items at next }
{
    replace(&mut list[at], next)
}
