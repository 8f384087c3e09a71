//! The backups that a start found, and the registry.

ghost use Rattle.std.specs.Prelude.{◌≡◌, ◌<◌, ◌++◌, [], ◌∷◌, Some, None, Err, IfOk, IfErr, OnOk, OnErr, false, length};
ghost use Rattle.std.specs.Prelude.{map, set};
ghost use Rattle.replica.specs.Picture.{AreHeld};
ghost use Rattle.backup.specs.Inventory.{IsRising};
ghost use Rattle.file_fleet.specs.Files.{with_file};
ghost use Rattle.file_fleet.specs.Members.{AreSafe, IsFresh, IsMember, IsUnder, replicas_at, with_backup};
ghost use Rattle.file_fleet.specs.Moments.{LeavesEither};
ghost use Rattle.fleet_start.specs.Found.{AreFound, FindsWhatIsLeft, is_found, picture_found};

use entry::NoMemory;
use file_fleet::{FleetRegistry, Member, Members, NoteFault};
use replica::Inventory;
use std::alloc::Global;
use take_journal::Device;
use thiserror::Error;

/// Why what was found isn't a fleet.
#[derive(Clone, Copy, Debug, PartialEq, Eq, Error)]
pub enum FoundFault {
    #[error("no memory")]
    NoMemory,
    /// The backup of this number is missing.
    #[error("backup {0} is missing")]
    Missing(u64),
}

/// What a start found: the registry, and of each backup, by its number, the backup over its file, or nothing if the
/// registry names no file or the file isn't there.
#[derive(Drop)]
pub struct Found<D: Device, R: FleetRegistry> {
    pub(crate) registry: R,
    pub(crate) places: Vec<Option<Member<D>>>,
}

impl<D: Device + Drop, R: FleetRegistry + Drop> Found<D, R> {
    /// Nothing but the registry yet. It takes no memory.
    pub fn new(alloc: Global, registry: R) -> Self
        requires sound { R.is_sound registry }
        ensures found { AreFound D.contents D.may_leave D.has_failed R.noted R.is_sound result.places.items
            result.registry }
        ensures none { result.places.items ≡ [] }
        ensures registry { result.registry ≡ registry }
    {
        Found {
            registry,
            places: Vec::new(alloc),
        }
    }

    /// The registry.
    pub fn registry(&self) -> &R
        ensures { result.now ≡ self.now.registry }
    {
        &self.registry
    }

    /// How many backups were looked for.
    pub fn backups(&self) -> u64
        ensures { result ≡ length self.now.places.items }
    {
        self.places.len() as u64
    }

    /// Whether the file of a backup was found.
    pub fn has(&self, backup: u64) -> bool
        ensures { result ≡ is_found self.now.places.items backup }
    {
        match self.places.as_slice().get(backup as usize) {
            Some(Some(_)) => true,
            _ => false,
        }
    }

    /// Adds the next backup, whose file was opened with what the registry has of it.
    pub fn add(&mut self, member: Member<D>) -> Result<(), NoMemory>
        requires found { AreFound D.contents D.may_leave D.has_failed R.noted R.is_sound self.old.places.items
            self.old.registry }
        requires member { IsMember D.contents D.may_leave D.has_failed member }
        requires under { IsUnder D.may_leave ((R.noted self.old.registry).span (length self.old.places.items)) member }
        requires named { (R.noted self.old.registry).file (length self.old.places.items) ≡ member.id }

        ensures found { AreFound D.contents D.may_leave D.has_failed R.noted R.is_sound self.new.places.items
            self.new.registry }
        ensures added { OnOk result (self.new.places.items ≡ self.old.places.items ++ Some member ∷ []) }
        ensures refused { OnErr result (self.new.places.items ≡ self.old.places.items) }
        ensures registry { self.new.registry ≡ self.old.registry }
    {
        self.places.push(Some(member))?;
        Ok(())
    }

    /// Adds the next backup as one whose file is missing.
    pub fn add_missing(&mut self) -> Result<(), NoMemory>
        requires found { AreFound D.contents D.may_leave D.has_failed R.noted R.is_sound self.old.places.items
            self.old.registry }

        ensures found { AreFound D.contents D.may_leave D.has_failed R.noted R.is_sound self.new.places.items
            self.new.registry }
        ensures added { OnOk result (self.new.places.items ≡ self.old.places.items ++ None ∷ []) }
        ensures refused { OnErr result (self.new.places.items ≡ self.old.places.items) }
        ensures registry { self.new.registry ≡ self.old.registry }
    {
        self.places.push(None)?;
        Ok(())
    }

    /// What was found, beside any fleet that the files show: what it holds on the backups that were found, and its
    /// least heads. So a recovery from `inventory` is one of that fleet with the missing backups lost.
    pub fn show_left(&self)
        ensures { FindsWhatIsLeft (R.noted self.now.registry) self.now.places.items }
    {
        let _count = self.places.len();
    }

    /// All replicas of the backups that were found, by backup, then by master, then by segment. Their bytes stay with
    /// the backups.
    pub fn inventory(&self, alloc: Global) -> Result<Inventory<'_>, NoMemory>
        ensures shown { IfOk result (λ hs. AreHeld hs (picture_found self.entry.now.places.items)) }
        ensures rising { IfOk result (λ hs. IsRising hs) }
    {
        let mut list = Vec::new(alloc);
        for (backup, place) in self.places.iter().enumerate() {
            match place {
                Some(member) => member.backup().memory().show(backup as u64, &mut list)?,
                None => {}
            }
        }
        Ok(Inventory::new(list))
    }

    /// Puts a begun backup that holds nothing in the place of a missing one. The registry names its file before the
    /// answer is Ok. After NoMemory nothing has changed. After Failed nobody knows whether the registry names it.
    pub fn put(&mut self, alloc: Global, backup: u64, fresh: Member<D>) -> Result<(), NoteFault>
        requires found { AreFound D.contents D.may_leave D.has_failed R.noted R.is_sound self.old.places.items
            self.old.registry }
        requires within { backup < length self.old.places.items }
        requires fresh { IsFresh D.contents D.may_leave D.has_failed fresh }

        ensures found { OnOk result (AreFound D.contents D.may_leave D.has_failed R.noted R.is_sound
            self.new.places.items self.new.registry) }
        ensures put { OnOk result (self.new.places.items ≡ set self.old.places.items backup (Some fresh)) }
        ensures refused { result ≡ Err NoteFault.NoMemory → AreFound D.contents D.may_leave D.has_failed R.noted
            R.is_sound self.new.places.items self.new.registry }
        ensures same { OnErr result (self.new.places.items ≡ self.old.places.items) }
        ensures count { length self.new.places.items ≡ length self.old.places.items }

        // A crash at any moment of the call leaves what the registry kept before it, or with this file.
        ensures any_moment { LeavesEither R.noted R.time R.left_of
            (with_file (R.noted self.old.registry) backup fresh.id) self.old.registry self.new.registry }
    {
        match self.registry.name_file(alloc, backup, fresh.id()) {
            Ok(()) => {
                set_place(&mut self.places, backup as usize, fresh);
                Ok(())
            }
            Err(fault) => Err(fault),
        }
    }

    /// The backups of a fleet, if none is missing.
    pub fn into_members(self, alloc: Global) -> Result<Members<D, R>, FoundFault>
        requires found { AreFound D.contents D.may_leave D.has_failed R.noted R.is_sound self.places.items
            self.registry }
        ensures safe { IfOk result (λ m. AreSafe D.contents D.may_leave D.has_failed R.noted R.is_sound m) }
        ensures members { IfOk result (λ m. map Some m.list.items ≡ self.places.items) }
        ensures registry { IfOk result (λ m. m.registry ≡ self.registry) }
        ensures goes_on { IfOk result (λ m. m.is_halted ≡ false) }
    {
        let Found { registry, places } = self;
        let mut members = Members::new(alloc, registry);
        for place in places {
            match place {
                Some(member) => {
                    if members.add(member).is_err() {
                        return Err(FoundFault::NoMemory);
                    }
                }
                None => return Err(FoundFault::Missing(members.backups())),
            }
        }
        Ok(members)
    }
}

/// Puts a backup at a place.
fn set_place<D: Device + Drop>(places: &mut Vec<Option<Member<D>>>, at: usize, member: Member<D>)
    requires { at < length places.old.items }
    ensures { places.new.items ≡ set places.old.items at (Some member) }
{
    places[at] = Some(member);
}
