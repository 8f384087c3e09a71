//! A fleet of backups whose takes are in files before they are answered.

ghost use Rattle.std.specs.Prelude.{◌≡◌, ◌⊎◌, ◌+◌, ◌<◌};
ghost use Rattle.replica.specs.Take.{no_limit};

use crate::acks::{Acks, Handed};
use crate::asked::{Asked, Lost};
use crate::member::Member;
use crate::members::Members;
use crate::registry::{FleetRegistry, NoteFault};
use entry::NoMemory;
use replica::{Act, Bench, Fleet, Holding, Op, Spot, TakeFault};
use std::alloc::Global;
use std::marker::Model;
use take_journal::{Device, Journal};

/// Backups with files, numbered from 0, and their registry.
///
/// What it shows is what the files show, at any moment: see `show_files`.
#[derive(Drop)]
pub struct FileFleet<D: Device, R: FleetRegistry> {
    alloc: Global,
    members: Members<D, R>,
    takes: u64,
    end: u64,
    faults: u64,
    asked: Asked,
    acks: Acks,
}

impl<D: Device, R: FleetRegistry> Model for FileFleet<D, R> {
    ghost use Rattle.std.specs.Prelude.{◌≤◌};
    ghost use Rattle.file_fleet.specs.Fleet.{FleetValue};
    ghost use Rattle.file_fleet.specs.Members.{AreSafe};

    ghost Value = { FleetValue D R };

    ghost view = { λ f. record {
      members = f.members;
      takes = f.takes;
      end = f.end;
      faults = f.faults;
      acks = f.acks.list;
    } };

    ghost invariant = { λ f. (f.takes ≤ f.end)
        × AreSafe D.contents D.may_leave D.has_failed R.noted R.is_sound f.members };
}

/// Counts a fault, unless there were too many to count.
fn count_fault(faults: &mut u64) -> TakeFault
    ensures { ((result ≡ TakeFault.Fault) × (faults.new ≡ faults.old + 1))
        ⊎ ((result ≡ TakeFault.NoMemory) × (faults.new ≡ faults.old)) }
{
    if *faults == u64::MAX {
        return TakeFault::NoMemory;
    }
    *faults += 1;
    TakeFault::Fault
}

/// Whether the fault that is asked for comes in this take and loses its op. It takes memory only then.
fn loses<D: Device, R: FleetRegistry>(
    asked: &Asked,
    faults: u64,
    members: &Members<D, R>,
    alloc: Global,
    backup: u64,
    op: &Op<'_>,
) -> Lost
    ensures { result ≡ Lost.Yes → faults < no_limit }
{
    if !asked.loses_next(faults) {
        return Lost::No;
    }
    match members.has_place_for(alloc, backup, op) {
        Ok(true) => Lost::Yes,
        Ok(false) => Lost::No,
        Err(_) => Lost::Unknown,
    }
}

impl<D: Device, R: FleetRegistry> FileFleet<D, R> {
    ghost use Rattle.std.specs.Prelude.{◌≡◌, ◌⊎◌, ◌<◌, [], IfErr, IfOk, OnErr, OnOk, Some, length, false};
    ghost use Rattle.file_backup.specs.Mirror.{IsJournalOf};
    ghost use Rattle.take_journal.specs.Frames.{recovered};
    ghost use Rattle.take_journal.specs.Journal.{device_of};
    ghost use Rattle.replica.specs.Retire.{AreOthers};
    ghost use Rattle.file_fleet.specs.Files.{Files};
    ghost use Rattle.file_fleet.specs.Fleet.{ShowsState, fleet_state};
    ghost use Rattle.backup.specs.State.{lost};
    ghost use Rattle.file_fleet.specs.Members.{AreSafe, IsFresh, device_at};
    ghost use Rattle.file_fleet.specs.Moments.{AreLeftAmid, AreLeftByPut, AreLeftNow};

    /// A fleet of these backups. It isn't limited, no fault is asked for, and nothing was answered yet.
    pub fn new(alloc: Global, members: Members<D, R>) -> Self
        requires safe { AreSafe D.contents D.may_leave D.has_failed R.noted R.is_sound members }
        ensures { result ≡ record { members = members; takes = 0; end = no_limit; faults = 0; acks = [] } }
    {
        FileFleet {
            alloc,
            members,
            takes: 0,
            end: u64::MAX,
            faults: 0,
            asked: Asked::nothing(),
            acks: Acks::none(),
        }
    }

    /// The backups with their files.
    pub fn members(&self) -> &Members<D, R>
        ensures { result.now ≡ self.now.members }
    {
        &self.members
    }

    /// Makes a backup lose all that it holds: this one with a begun file of its own, which holds nothing, takes its
    /// place. The old one is handed back, and its file never counts again. If the registry isn't written, the new one
    /// is handed back, and nothing is lost; if it failed, the fleet is halted. The fault is NoMemory also if no backup
    /// has this number.
    pub fn lose(
        &mut self,
        backup: u64,
        next: Member<D>,
    ) -> Result<Member<D>, (NoteFault, Member<D>)>
        requires fresh { IsFresh D.contents D.may_leave D.has_failed next }

        ensures lost { OnOk result
            (fleet_state R.noted self.new ≡ lost (fleet_state R.noted self.old) backup) }
        ensures refused { IfErr result (λ back. (back.1 ≡ next)
            × (fleet_state R.noted self.new ≡ fleet_state R.noted self.old)) }

        // A crash at any moment of the call leaves files that show the fleet as it was, or without what was lost.
        ensures any_moment { self.old.members.is_halted ≡ false → (files : Files)
            → AreLeftByPut D.may_leave R.time R.left_of self.old.members backup (device_at next) next.id
            self.new.members.registry files
            → ShowsState (fleet_state R.noted self.old) files
            ⊎ ShowsState (lost (fleet_state R.noted self.old) backup) files }
    {
        self.members.put(self.alloc, backup, next)
    }

    /// Makes a backup go on in another journal, which shows what it holds, and hands back its own. The old file never
    /// counts again, and a backup that was out is back. If the registry isn't written, the new journal is handed back;
    /// if it failed, the fleet is halted. The fault is NoMemory also if no backup has this number.
    pub fn switch(
        &mut self,
        backup: u64,
        id: u64,
        journal: Journal<D>,
        frames: u64,
    ) -> Result<Journal<D>, (NoteFault, Journal<D>)>
        requires copied { IsJournalOf D.contents D.may_leave D.has_failed
            ((fleet_state R.noted self.old).picture backup) journal }
        requires counted { frames ≡ length (recovered (D.contents (device_of journal))) }
        requires limit { frames < no_limit }
        requires live { id ≡ 0 → ⊥ }

        ensures same { fleet_state R.noted self.new ≡ fleet_state R.noted self.old }
        ensures refused { IfErr result (λ back. back.1 ≡ journal) }

        // A crash at any moment of the call leaves files that show the fleet.
        ensures any_moment { self.old.members.is_halted ≡ false → (files : Files)
            → AreLeftByPut D.may_leave R.time R.left_of self.old.members backup (device_of journal) id
            self.new.members.registry files
            → ShowsState (fleet_state R.noted self.old) files }
    {
        self.members.switch(self.alloc, backup, id, journal, frames)
    }

    /// The master that a recovery is for, or `None` if none was named.
    pub fn master(&self) -> Option<u64>
        ensures { result ≡ (R.noted self.now.members.registry).master }
    {
        self.members.registry.master()
    }

    /// Names the master that a recovery is for: the next start recovers this one. It is on the disk before the answer
    /// is Ok. After NoMemory nothing has changed. After Failed nobody knows whether it is on the disk, and the fleet is
    /// halted.
    pub fn name_master(&mut self, master: u64) -> Result<(), NoteFault>
        ensures same { fleet_state R.noted self.new ≡ fleet_state R.noted self.old }
        ensures named { OnOk result ((R.noted self.new.members.registry).master ≡ Some master) }
        ensures refused { OnErr result ((R.noted self.new.members.registry).master
            ≡ (R.noted self.old.members.registry).master) }

        // A crash at any moment of the call leaves files that show the fleet, and the old master or the new one.
        ensures any_moment { self.old.members.is_halted ≡ false → (files : Files)
            → AreLeftAmid D.clock D.left_since R.time R.left_of self.old.members self.new.members files
            → ShowsState (fleet_state R.noted self.old) files
            × ((files.registry.master ≡ (R.noted self.old.members.registry).master)
            ⊎ (files.registry.master ≡ Some master)) }
    {
        self.members.name_master(self.alloc, master)
    }

    /// Where the replicas of other masters than `keep` are, by backup, then by master, then by segment.
    fn others(&self, keep: u64) -> Result<Vec<Spot>, NoMemory>
        ensures { IfOk result (λ spots. AreOthers spots.items (fleet_state R.noted self.now).picture keep) }
    {
        self.members.others(self.alloc, keep)
    }

    /// What is true between two calls, unless the fleet is halted: whatever a crash leaves of the files shows what the
    /// fleet shows.
    pub fn show_files(&self)
        ensures { self.now.members.is_halted ≡ false → (files : Files)
            → AreLeftNow D.may_leave R.leaves self.now.members files
            → ShowsState (fleet_state R.noted self.now) files }
    {
        let _alloc = self.alloc;
    }
}

impl<D: Device, R: FleetRegistry> Fleet for FileFleet<D, R> {
    ghost use Rattle.std.specs.Prelude.{◌≡◌, ◌↔◌, Err, IsErr, true, false};
    ghost use Rattle.replica.specs.Op.{shown_op};
    ghost use Rattle.replica.specs.Registry.{RaiseGives};
    ghost use Rattle.replica.specs.Take.{TakeGives};
    ghost use Rattle.file_fleet.specs.Files.{Files};
    ghost use Rattle.file_fleet.specs.Fleet.{ShowsBetween, TakesOp, TakesRaise, fleet_state};
    ghost use Rattle.file_fleet.specs.Members.{IsOutAt};
    ghost use Rattle.file_fleet.specs.Moments.{AreLeftAmid};

    ghost state = { λ f. fleet_state R.noted f };

    /// Hands an op to a backup, and has it on the disk before the answer is Ok. Spent is answered before all else.
    ///
    /// After Fault the op was not taken: the backup is out, and each later op of it is a Fault. If the registry failed
    /// too, the fleet is halted, and each later take is a Fault. A Fault beyond `u64::MAX` of them is a NoMemory. A
    /// Fault that `fault_at` asked for puts no backup out, and its op is taken if that was asked for.
    fn take(&mut self, backup: u64, op: &Op<'_>) -> Result<(), TakeFault>
        ensures gives { TakeGives (fleet_state R.noted self.old) backup (shown_op op.now) result
            (fleet_state R.noted self.new) }
        ensures spent { (result ≡ Err TakeFault.Spent) ↔ (self.old.takes ≡ self.old.end) }

        // Nothing is done by a fleet that is halted, or by a backup that is out.
        ensures halted { self.old.members.is_halted ≡ true → IsErr result × (self.new.members ≡ self.old.members) }
        ensures out { IsOutAt self.old.members.list.items backup →
            IsErr result × (self.new.members ≡ self.old.members) }

        // A crash at any moment of the call leaves files that show the fleet before the take, or after it.
        ensures any_moment { self.old.members.is_halted ≡ false → (files : Files)
            → AreLeftAmid D.clock D.left_since R.time R.left_of self.old.members self.new.members files
            → ShowsBetween (fleet_state R.noted self.old) (TakesOp backup (shown_op op.now)) files }
    {
        if self.takes == self.end {
            return Err(TakeFault::Spent);
        }
        match loses(
            &self.asked,
            self.faults,
            &self.members,
            self.alloc,
            backup,
            op,
        ) {
            Lost::No => {}
            Lost::Yes => return Err(self.asked.fail(&mut self.faults)),
            Lost::Unknown => return Err(TakeFault::NoMemory),
        }
        match self.members.take(self.alloc, backup, op) {
            Ok(()) => {
                self.takes += 1;
                if self.asked.ends_in_fault(&mut self.faults) {
                    return Err(TakeFault::Fault);
                }
                self.acks = Acks::with(&self.acks, &Handed { backup, op: *op });
                Ok(())
            }
            Err(TakeFault::Fault) => Err(count_fault(&mut self.faults)),
            Err(TakeFault::Wrong) => Err(TakeFault::Wrong),
            Err(_) => Err(TakeFault::NoMemory),
        }
    }

    /// Raises a master's least head, and has it on the disk before the answer is Ok. Spent is answered before all
    /// else.
    ///
    /// After Fault the fleet is halted: each later take is a Fault. A Fault that `fault_at` asked for doesn't halt it.
    fn raise(&mut self, master: u64, id: u64) -> Result<(), TakeFault>
        ensures gives { RaiseGives (fleet_state R.noted self.old) master id result (fleet_state R.noted self.new) }
        ensures spent { (result ≡ Err TakeFault.Spent) ↔ (self.old.takes ≡ self.old.end) }

        // Nothing is done by a fleet that is halted.
        ensures halted { self.old.members.is_halted ≡ true → IsErr result × (self.new.members ≡ self.old.members) }

        // A crash at any moment of the call leaves files that show the fleet before the raise, or after it.
        ensures any_moment { self.old.members.is_halted ≡ false → (files : Files)
            → AreLeftAmid D.clock D.left_since R.time R.left_of self.old.members self.new.members files
            → ShowsBetween (fleet_state R.noted self.old) (TakesRaise master id) files }
    {
        if self.takes == self.end {
            return Err(TakeFault::Spent);
        }
        if self.asked.loses_next(self.faults) && !self.members.is_halted() {
            return Err(self.asked.fail(&mut self.faults));
        }
        match self.members.raise(self.alloc, master, id) {
            Ok(()) => {
                self.takes += 1;
                if self.asked.ends_in_fault(&mut self.faults) {
                    return Err(TakeFault::Fault);
                }
                Ok(())
            }
            Err(TakeFault::Fault) => Err(count_fault(&mut self.faults)),
            Err(_) => Err(TakeFault::NoMemory),
        }
    }

    fn least(&self, master: u64) -> u64 {
        self.members.registry.least(master)
    }

    /// All replicas of one backup, by master, then by segment. Their bytes stay with the backup.
    fn holdings(&self, alloc: Global, backup: u64) -> Result<Vec<Holding<'_>>, NoMemory> {
        let mut list = Vec::new(alloc);
        let Some(member) = self.members.list.as_slice().get(backup as usize) else {
            return Ok(list);
        };
        member.backup.memory().show(backup, &mut list)?;
        Ok(list)
    }

    fn takes(&self) -> u64 {
        self.takes
    }

    fn end(&self) -> u64 {
        self.end
    }

    fn faults(&self) -> u64 {
        self.faults
    }
}

impl<D: Device, R: FleetRegistry> Bench for FileFleet<D, R> {
    ghost use Rattle.std.specs.Prelude.{◌≡◌, ℕ};
    ghost use Rattle.replica.specs.Retire.{Retires};
    ghost use Rattle.replica.specs.Take.{limited};
    ghost use Rattle.file_fleet.specs.Fleet.{fleet_state};

    fn limit(&mut self, n: u64)
        ensures { fleet_state R.noted self.new ≡ limited (fleet_state R.noted self.old) n }
    {
        self.end = self.takes.saturating_add(n);
    }

    /// Asks for a fault: the `n`-th take from now ends in `Fault`, and `taken` says whether its op is taken. An op
    /// that is taken is on the disk. For one that isn't, the take wants memory for a list of its backup's replicas.
    fn fault_at(&mut self, n: u64, taken: bool)
        ensures { fleet_state R.noted self.new ≡ fleet_state R.noted self.old }
    {
        self.asked = Asked::fault(n, taken);
    }

    /// Frees the replicas of all masters but `keep`: by backup, then by master, then by segment, one Free a take. It
    /// ends at the first fault, and what was freed before stays freed.
    fn retire(&mut self, keep: u64) -> Result<(), TakeFault>
        ensures retires { Retires (fleet_state R.noted self.old) keep result (fleet_state R.noted self.new) }
        ensures same { (b s : ℕ) → (fleet_state R.noted self.new).picture b keep s
            ≡ (fleet_state R.noted self.old).picture b keep s }
    {
        let Ok(spots) = self.others(keep) else {
            return Err(TakeFault::NoMemory);
        };
        for spot in spots {
            let op = Op {
                master: spot.master,
                segment: spot.segment,
                act: Act::Free,
            };
            match self.take(spot.backup, &op) {
                Ok(()) => {}
                Err(fault) => return Err(fault),
            }
        }
        Ok(())
    }
}
