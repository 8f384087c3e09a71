//! A versioned map that is kept as a list of its objects.

ghost use Rattle.std.specs.Prelude.{◌≡◌, ◌<◌, ℕ, List, length, IfOk, IfErr, OnOk};
ghost use Rattle.std.specs.Prelude.{OnErr, IfSome, IfNone, Some, None, true};
ghost use Rattle.entry.specs.Meaning.{contents_of};
ghost use Rattle.entry.specs.declared.key.Key.{Key as KeyValue};
ghost use Rattle.versioned_map.specs.Versioned.{is_spent};
ghost use Rattle.versioned_map.specs.Command.{command_key};
ghost use Rattle.versioned_map.specs.Represents.{empty_state};
ghost use Rattle.versioned_map.specs.Versioned.{is_met, after_command, reply_to};
ghost use Rattle.versioned_map.specs.Map.{map_state, AreOfDifferentKeys, IsAtSlot, may_fail};

use crate::command::{Command, If, Reply};
use crate::copies::{copy_key, copy_value};
use crate::fault::ApplyFault;
use entry::{Key, Object, SafeVersion, Value, Version};
use std::alloc::Global;
use std::marker::Model;

/// A map from keys to versions and values. The time of a command grows with the number of objects, since each command
/// walks the list of them.
#[derive(Drop)]
pub struct VersionedMap {
    alloc: Global,
    objects: Vec<Object>,
    safe: SafeVersion,
}

impl Model for VersionedMap {
    ghost use Rattle.versioned_map.specs.Map.{MapValue, AreOfDifferentKeys};

    ghost Value = { MapValue };

    ghost view = { λ m. record { objects = m.objects.items; safe = m.safe } };

    ghost invariant = { λ m. AreOfDifferentKeys m.objects.items };
}

impl VersionedMap {
    /// Makes a map without keys. This call allocates no memory.
    pub fn new(alloc: Global) -> VersionedMap
        ensures { map_state result ≡ empty_state }
    {
        VersionedMap {
            alloc,
            objects: Vec::new(alloc),
            safe: SafeVersion::first(),
        }
    }

    /// Returns the objects of the map, one for each present key.
    pub fn objects(&self) -> &[Object]
        ensures objects { result.now ≡ self.now.objects }
        ensures differ { AreOfDifferentKeys result.now }
    {
        self.objects.as_slice()
    }

    /// Returns the safe version, which the next new key gets.
    pub fn safe(&self) -> SafeVersion
        ensures { result ≡ self.now.safe }
    {
        self.safe
    }

    /// Applies a command and returns the reply to it. If the call fails, it changed nothing.
    pub fn apply(&mut self, command: &Command) -> Result<Reply, ApplyFault>
        ensures reply { IfOk result (λ reply. reply ≡ reply_to (map_state self.old) command.now) }
        ensures state { OnOk result (map_state self.new ≡ after_command (map_state self.old) command.now) }
        ensures err { OnErr result (self.new ≡ self.old) }
        ensures refused { OnErr result (
            may_fail (contents_of self.old.objects (command_key command.now)) command.now ≡ true) }
        ensures spent { IfErr result (λ fault. fault ≡ ApplyFault.VersionsSpent →
            is_spent self.old.safe (contents_of self.old.objects (command_key command.now)) command.now ≡ true) }
    {
        match command {
            Command::Get(key) => self.get(key),
            Command::Put(key, value, when) => self.put(key, value, *when),
            Command::Delete(key) => Ok(self.delete(key)),
        }
    }

    /// Returns the slot of the key's object in the list, or None if the key is absent.
    fn slot_of(&self, key: &Key) -> Option<usize>
        ensures found { IfSome result (λ slot. IsAtSlot self.now.objects key.now slot) }
        ensures absent { IfNone result (contents_of self.now.objects key.now ≡ None) }
    {
        self.objects.iter().position(|object| object.key == *key)
    }

    fn get(&self, key: &Key) -> Result<Reply, ApplyFault>
        ensures reply { IfOk result (λ reply. reply ≡ reply_to (map_state self.now) (Command.Get key.now)) }
        ensures err { IfErr result (λ fault. fault ≡ ApplyFault.NoMemory) }
        ensures refused { OnErr result (may_fail (contents_of self.now.objects key.now) (Command.Get key.now) ≡ true) }
    {
        match self.slot_of(key) {
            None => Ok(Reply::None),
            Some(slot) => {
                let object = &self.objects[slot];
                Ok(Reply::Found(object.version, copy_value(self.alloc, &object.value)?))
            }
        }
    }

    fn put(&mut self, key: &Key, value: &Value, when: If) -> Result<Reply, ApplyFault>
        ensures reply { IfOk result (λ reply.
            reply ≡ reply_to (map_state self.old) (Command.Put key.now value.now when)) }
        ensures state { OnOk result (
            map_state self.new ≡ after_command (map_state self.old) (Command.Put key.now value.now when)) }
        ensures err { OnErr result (self.new ≡ self.old) }
        ensures refused { OnErr result (
            may_fail (contents_of self.old.objects key.now) (Command.Put key.now value.now when) ≡ true) }
        ensures spent { IfErr result (λ fault. fault ≡ ApplyFault.VersionsSpent →
            is_spent self.old.safe (contents_of self.old.objects key.now) (Command.Put key.now value.now when) ≡ true) }
    {
        match self.slot_of(key) {
            None => self.create(key, value, when),
            Some(slot) => self.overwrite(slot, value, when),
        }
    }

    /// Does a put to an absent key, if the condition allows it.
    fn create(&mut self, key: &Key, value: &Value, when: If) -> Result<Reply, ApplyFault>
        requires { contents_of self.old.objects key.now ≡ None }
        ensures reply { IfOk result (λ reply.
            reply ≡ reply_to (map_state self.old) (Command.Put key.now value.now when)) }
        ensures state { OnOk result (
            map_state self.new ≡ after_command (map_state self.old) (Command.Put key.now value.now when)) }
        ensures err { OnErr result (self.new ≡ self.old) }
        ensures refused { OnErr result (may_fail None (Command.Put key.now value.now when) ≡ true) }
        ensures spent { IfErr result (λ fault. fault ≡ ApplyFault.VersionsSpent →
            is_spent self.old.safe None (Command.Put key.now value.now when) ≡ true) }
    {
        if let If::Version(_) = when {
            return Ok(Reply::Mismatch(None));
        }
        let version = self.safe.version().ok_or(ApplyFault::VersionsSpent)?;
        let object = Object {
            key: copy_key(self.alloc, key)?,
            version,
            value: copy_value(self.alloc, value)?,
        };
        self.objects.push(object)?;
        self.safe = version.safe_above();
        Ok(Reply::Ok(version))
    }

    /// Does a put to the key whose object is in this slot, if the condition allows it.
    fn overwrite(&mut self, slot: usize, value: &Value, when: If) -> Result<Reply, ApplyFault>
        requires { slot < length self.old.objects }
        ensures reply { IfOk result (λ reply. (k : KeyValue) → IsAtSlot self.old.objects k slot →
            reply ≡ reply_to (map_state self.old) (Command.Put k value.now when)) }
        ensures state { OnOk result ((k : KeyValue) → IsAtSlot self.old.objects k slot →
            map_state self.new ≡ after_command (map_state self.old) (Command.Put k value.now when)) }
        ensures err { OnErr result (self.new ≡ self.old) }
        ensures refused { OnErr result ((k : KeyValue) → IsAtSlot self.old.objects k slot →
            may_fail (contents_of self.old.objects k) (Command.Put k value.now when) ≡ true) }
        ensures spent { IfErr result (λ fault. fault ≡ ApplyFault.VersionsSpent →
            (k : KeyValue) → IsAtSlot self.old.objects k slot →
            is_spent self.old.safe (contents_of self.old.objects k) (Command.Put k value.now when) ≡ true) }
    {
        let old = self.objects[slot].version;
        if !is_met(when, old) {
            return Ok(Reply::Mismatch(Some(old)));
        }
        let version = old.next().ok_or(ApplyFault::VersionsSpent)?;
        let value = copy_value(self.alloc, value)?;
        let object = &mut self.objects[slot];
        object.version = version;
        object.value = value;
        Ok(Reply::Ok(version))
    }

    fn delete(&mut self, key: &Key) -> Reply
        ensures reply { result ≡ reply_to (map_state self.old) (Command.Delete key.now) }
        ensures state { map_state self.new ≡ after_command (map_state self.old) (Command.Delete key.now) }
    {
        match self.slot_of(key) {
            None => Reply::None,
            Some(slot) => {
                let object = self.objects.remove(slot);
                self.safe = self.safe.max(object.version.safe_above());
                Reply::Ok(object.version)
            }
        }
    }
}

/// Returns true if a put under the condition `when` is done to a key that has this version.
fn is_met(when: If, version: Version) -> bool
    ensures { (value : List ℕ) → result ≡ is_met when (Some (record { version = version; value = value })) }
{
    match when {
        If::Any => true,
        If::Absent => false,
        If::Version(wanted) => version.get() == wanted,
    }
}
