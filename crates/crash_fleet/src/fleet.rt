//! A fleet with files whose power may be cut amid any call.

ghost use Rattle.std.specs.Prelude.{◌≡◌, Err, IsTrue};
ghost use Rattle.replica.specs.declared.op.TakeFault.{TakeFault};

use crate::image::CrashImage;
use crate::opening::found_in_images;
use crate::power::Power;
use crate::reading::{read_raise, read_take};
use entry::NoMemory;
use file_fleet::{FileFleet, FleetRegistry, Members};
use fleet_start::Found;
use registry_file::RegistryFile;
use replica::{Fleet, Holding, Op, TakeFault};
use std::alloc::Global;
use std::marker::Model;

/// A fleet with files whose power may be cut amid any call: all its devices stop then.
///
/// A fleet with files is halted once its registry can't be written. From then on this one makes no call, and what it
/// shows is what the crash images show.
#[derive(Drop)]
pub struct CrashFleet<D: CrashImage> {
    alloc: Global,
    files: FileFleet<D, RegistryFile<D>>,
    power: Power<D>,
}

impl<D: CrashImage> Model for CrashFleet<D> {
    ghost use Rattle.crash_fleet.specs.State.{CrashValue, IsUnder};

    ghost Value = { CrashValue D };

    ghost view = { λ f. record { files = f.files; power = f.power } };

    ghost invariant = { λ f. IsUnder D.crash_image f.files f.power };
}

/// Whether a take ended in a fault.
fn is_fault(answer: &Result<(), TakeFault>) -> bool
    ensures { IsTrue result → answer.now ≡ Err TakeFault.Fault }
{
    match answer {
        Err(TakeFault::Fault) => true,
        _ => false,
    }
}

impl<D: CrashImage + Drop> CrashFleet<D> {
    ghost use Rattle.std.specs.Prelude.{◌≡◌, [], false, length, true, IfSome};
    ghost use Rattle.replica.specs.Take.{no_limit};
    ghost use Rattle.file_fleet.specs.Fleet.{ShowsState, fleet_state};
    ghost use Rattle.file_fleet.specs.Members.{AreSafe};
    ghost use Rattle.file_fleet.specs.Noting.{IsSound, noted_by};
    ghost use Rattle.fleet_start.specs.Found.{AreFound, AreRead};
    ghost use Rattle.crash_fleet.specs.Opened.{AreKept};
    ghost use Rattle.crash_fleet.specs.Images.{images_of};
    ghost use Rattle.crash_fleet.specs.State.{crash_state, was_read};
    ghost use Rattle.crash_fleet.specs.declared.power.Power.TheVariants.{On};

    /// A fleet of these backups, whose power is on. It isn't limited, and nothing was answered yet.
    pub fn new(alloc: Global, members: Members<D, RegistryFile<D>>) -> Self
        requires safe { AreSafe D.Device.contents D.Device.may_leave D.Device.has_failed (λ r. noted_by r)
            (λ r. IsSound D.Device.contents D.Device.may_leave D.Device.has_failed r) members }
        requires goes_on { members.is_halted ≡ false }
        ensures files { result.files ≡ record { members = members; takes = 0; end = no_limit; faults = 0; acks = [] } }
        ensures on { result.power ≡ On }
    {
        CrashFleet {
            alloc,
            files: FileFleet::new(alloc, members),
            power: Power::On,
        }
    }

    /// The backups with their files.
    pub fn members(&self) -> &Members<D, RegistryFile<D>>
        ensures { result.now ≡ self.now.files.members }
    {
        self.files.members()
    }

    /// Whether it is known what the crash images show. It isn't if the power was cut and they weren't read: memory ran
    /// out, or a file wasn't opened.
    pub fn is_known(&self) -> bool
        ensures { result ≡ was_read self.now.power }
    {
        match &self.power {
            Power::Unread => false,
            _ => true,
        }
    }

    /// What a start finds of the crash images, if these backups' files are there and all others are lost. None if
    /// memory runs out, or if an image isn't opened.
    pub fn found(&self, kept: &[u64]) -> Option<Found<D, RegistryFile<D>>>
        ensures found { IfSome result (λ f. AreFound D.Device.contents D.Device.may_leave D.Device.has_failed
            (λ r. noted_by r) (λ r. IsSound D.Device.contents D.Device.may_leave D.Device.has_failed r) f.places.items
            f.registry) }
        ensures read { IfSome result (λ f. AreRead (noted_by f.registry) f.places.items
            (images_of D.crash_image self.now.files.members)) }
        ensures count { IfSome result (λ f. length f.places.items
            ≡ (crash_state D.crash_image self.now).backups) }
        ensures kept { IfSome result (λ f. AreKept kept.now f.places.items) }
    {
        found_in_images(self.alloc, self.files.members(), kept)
    }

    /// If it is known, the crash images show what the fleet shows: between two calls, and amid the one amid which the
    /// power was cut.
    pub fn show_images(&self)
        ensures { was_read self.now.power ≡ true
            → ShowsState (crash_state D.crash_image self.now) (images_of D.crash_image self.now.files.members) }
    {
        self.files.show_files();
    }
}

impl<D: CrashImage + Drop> Fleet for CrashFleet<D> {
    ghost use Rattle.crash_fleet.specs.State.{crash_state};

    ghost state = { λ f. crash_state D.crash_image f };

    /// Hands an op to a backup, as a fleet with files does. Once the power is cut the answer is NoMemory.
    fn take(&mut self, backup: u64, op: &Op<'_>) -> Result<(), TakeFault> {
        if !self.power.is_on() {
            return Err(TakeFault::NoMemory);
        }
        let takes = self.files.takes();
        let answer = self.files.take(backup, op);
        if !self.files.members().is_halted() {
            return answer;
        }
        if is_fault(&answer) && self.files.takes() == takes {
            self.power = read_take(self.alloc, &self.files, backup);
        } else {
            self.power = Power::Unread;
        }
        answer
    }

    /// Raises a master's least head, as a fleet with files does. Once the power is cut the answer is NoMemory.
    fn raise(&mut self, master: u64, id: u64) -> Result<(), TakeFault> {
        if !self.power.is_on() {
            return Err(TakeFault::NoMemory);
        }
        let takes = self.files.takes();
        let answer = self.files.raise(master, id);
        if !self.files.members().is_halted() {
            return answer;
        }
        if is_fault(&answer) && self.files.takes() == takes {
            self.power = read_raise(self.alloc, &self.files, master);
        } else {
            self.power = Power::Unread;
        }
        answer
    }

    /// It takes no memory.
    fn least(&self, master: u64) -> u64 {
        match &self.power {
            Power::Cut(registry, _) => registry.least(master),
            _ => self.files.least(master),
        }
    }

    /// All replicas of one backup. Once the power is cut the answer is NoMemory.
    fn holdings(&self, alloc: Global, backup: u64) -> Result<Vec<Holding<'_>>, NoMemory> {
        match &self.power {
            Power::On => self.files.holdings(alloc, backup),
            Power::Unread => self.files.holdings(alloc, backup),
            Power::Cut(_, _) => Err(NoMemory),
        }
    }

    fn takes(&self) -> u64 {
        match &self.power {
            Power::Cut(_, takes) => *takes,
            _ => self.files.takes(),
        }
    }

    fn end(&self) -> u64 {
        self.files.end()
    }

    fn faults(&self) -> u64 {
        self.files.faults()
    }
}
