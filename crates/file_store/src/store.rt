//! A store whose backups have files.

ghost use Rattle.std.specs.Prelude.{◌≡◌, ℕ};
ghost use Rattle.std.specs.Option.{option_map};
ghost use Rattle.entry.specs.Key.{IsKeyBytes};
ghost use Rattle.entry.specs.Limits.{IsValue};
ghost use Rattle.history.specs.View.{shown_command};
ghost use Rattle.versioned_map.specs.declared.command.Command.TheVariants as asked;
ghost use Rattle.file_fleet.specs.Fleet.{fleet_state};
ghost use Rattle.replica.specs.Retire.{Retires};
ghost use Rattle.recovery.specs.master.Valid.{IsValid};
ghost use Rattle.recovery.specs.master.World.{retired_data};
ghost use Rattle.embedded.specs.Lives.{found_value, key_of};
ghost use Rattle.embedded.specs.Replies.{Means, kept_reply};
ghost use Rattle.file_store.specs.Started.{CarriesOutIf};

use embedded::{If, Notes, Reply, carry_out, is_key, is_value, key_ref, put_command, value_of};
use file_fleet::{FileFleet, FleetRegistry};
use recovery::master::{CommandRef, Master};
use replica::TakeFault;
use std::alloc::Global;
use take_journal::Device;

/// A store whose backups have files, on one thread.
#[derive(Drop)]
pub struct FileStore<D: Device, R: FleetRegistry> {
    /// The master, over the fleet with files.
    pub master: Master<FileFleet<D, R>>,
    /// What the cleaner has noted of segments.
    pub(crate) notes: Notes,
}

impl<D: Device, R: FleetRegistry> FileStore<D, R> {
    /// A store with this master.
    pub(crate) fn new(alloc: Global, master: Master<FileFleet<D, R>>) -> Self
        ensures { result.master ≡ master }
    {
        FileStore {
            master,
            notes: Notes::new(alloc),
        }
    }

    /// Puts a value under a key of a table, if the condition holds. The key has 1 to 1,024 bytes and the value at most
    /// 2,097,152, whatever they are. Both together have to fit a quarter of a segment.
    ///
    /// The answer is Ok with the new version, or Mismatch with the version that the key has. Either is on the disks of
    /// all homes of its segment then.
    pub fn put<'x>(&mut self, table: u64, key: &'x [u8], value: &'x [u8], when: If) -> Reply
        ensures put { CarriesOutIf (IsKeyBytes key.now × IsValue value.now) self.old.master.knows
            (asked.Put (key_of table key.now) value.now when) result self.new.master.knows }
        ensures valid { IsValid self.new.master.knows (fleet_state R.noted self.new.master.fleet) }
    {
        self.master.show_valid();
        if !is_key(key) {
            return Reply::too_big();
        }
        if !is_value(value) {
            return Reply::too_big();
        }
        self.serve(&put_command(table, key, value, when))
    }

    /// Gets the value of a key. The answer is Ok with the key's version, or None. `value` lends the bytes that were
    /// found at the reply's place. A get has a record too, which is on the disks then.
    pub fn get(&mut self, table: u64, key: &[u8]) -> Reply
        ensures get { CarriesOutIf (IsKeyBytes key.now) self.old.master.knows (asked.Get (key_of table key.now)) result
            self.new.master.knows }
        ensures valid { IsValid self.new.master.knows (fleet_state R.noted self.new.master.fleet) }
    {
        self.master.show_valid();
        if !is_key(key) {
            return Reply::too_big();
        }
        self.serve(&CommandRef::Get(key_ref(table, key)))
    }

    /// Deletes a key. The answer is Ok with the version that the key had, or None.
    pub fn delete(&mut self, table: u64, key: &[u8]) -> Reply
        ensures delete { CarriesOutIf (IsKeyBytes key.now) self.old.master.knows (asked.Delete (key_of table key.now))
            result self.new.master.knows }
        ensures valid { IsValid self.new.master.knows (fleet_state R.noted self.new.master.fleet) }
    {
        self.master.show_valid();
        if !is_key(key) {
            return Reply::too_big();
        }
        self.serve(&CommandRef::Delete(key_ref(table, key)))
    }

    /// The value that the get with the record at this place found. The bytes aren't copied. They can be read until the
    /// next command. None if the record found no value, is forgotten, or is of an earlier master.
    pub fn value(&self, place: u64) -> Option<&[u8]>
        ensures { option_map (λ bytes. bytes.now) result
            ≡ found_value (kept_reply self.entry.now.master.knows place) }
    {
        value_of(&self.master, place)
    }

    /// Frees the replicas of all other masters: by backup, then by master, then by segment. It ends at the first
    /// fault, and what was freed before stays freed. After a fault the master stays halted.
    pub fn retire(&mut self) -> Result<(), TakeFault>
        ensures retires { Retires (fleet_state R.noted self.old.master.fleet) self.old.master.knows.config.master result
            (fleet_state R.noted self.new.master.fleet) }
        ensures knows { self.new.master.knows ≡ retired_data result self.old.master.knows }
        ensures same { (b s : ℕ) → (fleet_state R.noted self.new.master.fleet).picture b
            self.old.master.knows.config.master s
            ≡ (fleet_state R.noted self.old.master.fleet).picture b self.old.master.knows.config.master s }
        ensures valid { IsValid self.new.master.knows (fleet_state R.noted self.new.master.fleet) }
    {
        self.master.retire()
    }

    /// Carries a command out.
    fn serve(&mut self, command: &CommandRef<'_>) -> Reply
        ensures means { Means self.old.master.knows (shown_command command.now) result self.new.master.knows }
        ensures valid { IsValid self.new.master.knows (fleet_state R.noted self.new.master.fleet) }
    {
        carry_out(&mut self.master, &mut self.notes, command)
    }
}
