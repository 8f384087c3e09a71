//! The unit of a command's change, and how it is appended to the head.

ghost use Rattle.std.specs.Prelude.{◌≡◌, true, false, ℕ, ◌+◌, ◌^◌, ◌<◌, ◌≤◌, List, [], ◌∷◌, ◌++◌, length};
ghost use Rattle.std.specs.Prelude.{OnOk, OnErr, IsErrOf};
ghost use Rattle.entry.specs.declared.entry.Object.{Object};
ghost use Rattle.entry.specs.declared.entry.Entry.{Entry};
ghost use Rattle.entry.specs.declared.entry.Entry.TheVariants as entry;
ghost use Rattle.entry.specs.Text.{text_of};
ghost use Rattle.entry.specs.View.{shown, shown_key};
ghost use Rattle.history.specs.View.{shown_command};
ghost use Rattle.log_head.specs.Head.{IsHeadValue, len_with};
ghost use Rattle.places.specs.Hashing.{hash_of};
ghost use Rattle.master_commands.specs.Index.{IsMoved};
ghost use Rattle.versioned_map.specs.Command.{command_key};
ghost use Rattle.versioned_map.specs.Units.{object_entry, tombstone_entry};
ghost use Rattle.master_commands.specs.Change.{unit_of_change, puts, BeginsAt};
ghost use Rattle.master_state.specs.Causes.{is_empty};
ghost use Rattle.master_state.specs.Steps.{appended};

use crate::change::{Change, Judged};
use crate::index::move_object;
use entry::{
    EntryRef, KeyRef, NoMemory, OBJECT_LEN, ObjectRef, TOMBSTONE_LEN, TombstoneRef, Version,
};
use hash_index::{Index, Place};
use history::{CommandRef, History, ValueRef, key_of};
use log_head::Head;
use segment::AppendFault;

/// The object that a put makes. Its key and its value are borrowed from the command.
fn object_of<'a>(key: &KeyRef<'a>, version: Version, value: &ValueRef<'a>) -> EntryRef<'a>
    ensures { shown result ≡ object_entry (shown_key key.now) version value.now.bytes.now }
{
    EntryRef::Object(ObjectRef {
        key: *key,
        version,
        value: value.bytes,
    })
}

/// The tombstone that ends the key's object of this version, which lies in this segment.
fn tombstone_of<'a>(key: &KeyRef<'a>, version: Version, segment: u64) -> EntryRef<'a>
    ensures { shown result ≡ tombstone_entry (shown_key key.now) version segment }
{
    EntryRef::Tombstone(TombstoneRef {
        key: *key,
        version,
        segment,
    })
}

/// The offset at which the object of a change begins in the unit: behind the tombstone if there is one, and else 0.
#[tactic(auto, using(crate::proofs::Changes::front_of_replacing))]
fn object_offset(command: &CommandRef<'_>, change: &Change) -> usize
    ensures behind { (segment : ℕ) (front : List Entry) (o : Object) →
        unit_of_change segment (shown_command command.now) change.now ≡ front ++ entry.Object o ∷ []
        → result ≡ length (text_of front) }
    ensures small { result ≤ 2 ^ 32 }
{
    match change {
        Change::Replace(_, _) => TOMBSTONE_LEN + key_of(command).bytes.len(),
        _ => 0,
    }
}

/// The length of the unit of a change, in bytes; 0 if the change has no unit.
pub fn unit_len(command: &CommandRef<'_>, change: &Change) -> usize
    ensures len { (segment : ℕ) →
        result ≡ length (text_of (unit_of_change segment (shown_command command.now) change.now)) }
    ensures small { result ≤ 2 ^ 32 }
{
    match command {
        CommandRef::Get(_) => 0,
        CommandRef::Delete(key) => match change {
            Change::Delete(_) => TOMBSTONE_LEN + key.bytes.len(),
            _ => 0,
        },
        CommandRef::Put(key, value, _) => {
            let key_len = key.bytes.len();
            let object_len = OBJECT_LEN + key_len + value.bytes.len();
            match change {
                Change::Create(_) => object_len,
                Change::Replace(_, _) => TOMBSTONE_LEN + key_len + object_len,
                _ => 0,
            }
        }
    }
}

/// Appends the unit of a change to the head, as the unit of the record with this number. The dead object, if there is
/// one, lies in this segment. On `Err` the head is as it was.
fn append_change(
    head: &mut Head,
    command: &CommandRef<'_>,
    change: &Change,
    segment: u64,
    number: u64,
    limit: usize,
) -> Result<(), AppendFault>
    requires limit { limit ≤ 8388608 }
    ensures ok { let unit = unit_of_change segment (shown_command command.now) change.now in
        OnOk result (head.new ≡ appended head.old number unit) }
    ensures full { let unit = unit_of_change segment (shown_command command.now) change.now in
        IsErrOf result AppendFault.Full → (is_empty unit ≡ false) × (limit < len_with head.old.image unit) }
    ensures err { OnErr result (head.new ≡ head.old) }
    ensures valid { OnOk result (IsHeadValue head.new) }
{
    head.show_valid();
    match command {
        CommandRef::Get(_) => Ok(()),
        CommandRef::Delete(key) => match change {
            Change::Delete(dead) => {
                head.append(&[tombstone_of(key, *dead, segment)], number, limit)
            }
            _ => Ok(()),
        },
        CommandRef::Put(key, value, _) => match change {
            Change::Create(version) => {
                head.append(&[object_of(key, *version, value)], number, limit)
            }
            Change::Replace(dead, version) => {
                let tombstone = tombstone_of(key, *dead, segment);
                let object = object_of(key, *version, value);
                head.append(&[tombstone, object], number, limit)
            }
            _ => Ok(()),
        },
    }
}

/// Appends the unit of a command's change, which fits, and changes the index. The history gets room for the command's
/// record, which will have this number, and whose key and value have so many bytes. On `Err` nothing changed, except
/// that memory may have been reserved.
pub fn enact(
    head: &mut Head,
    index: &mut Index,
    history: &mut History,
    number: u64,
    bytes: usize,
    command: &CommandRef<'_>,
    judged: &Judged,
    limit: usize,
) -> Result<(), NoMemory>
    requires limit { limit ≤ 8388608 }
    requires fits { let asked = shown_command command.now in
        let unit = unit_of_change judged.now.held.place.segment asked judged.now.change in
        is_empty unit ≡ false → len_with head.old.image unit ≤ limit }
    requires put { let asked = shown_command command.now in
        let unit = unit_of_change judged.now.held.place.segment asked judged.now.change in
        puts judged.now.change ≡ true → is_empty unit ≡ false }
    requires hash { judged.now.held.hash ≡ hash_of index.old.held.seed (command_key (shown_command command.now)) }
    ensures valid { OnOk result (IsHeadValue head.new) }
    ensures head { let asked = shown_command command.now in
        let unit = unit_of_change judged.now.held.place.segment asked judged.now.change in
        OnOk result (head.new ≡ appended head.old number unit) }
    ensures index { OnOk result ((at : ℕ) × BeginsAt head.old.image (shown_command command.now) judged.now.change at
        × IsMoved index.old.held judged.now.change (command_key (shown_command command.now)) judged.now.held.place
        (record { segment = head.old.id; at = at }) index.new.held) }
    ensures history { history.new.records ≡ history.old.records }
    ensures forgotten { history.new.forgotten ≡ history.old.forgotten }
    ensures room { OnOk result (history.new.room ≡ bytes) }
    ensures err { OnErr result ((head.new ≡ head.old) × (index.new.held ≡ index.old.held)) }
{
    let change = &judged.change;
    let dead = judged.held.place.segment;
    let place = Place {
        segment: head.id(),
        at: head.image().bytes().len() + object_offset(command, change),
    };
    history.reserve(bytes)?;
    if change.creates() {
        index.reserve(1)?;
    }
    match append_change(head, command, change, dead, number, limit) {
        Ok(()) => {}
        Err(AppendFault::Full) => unreachable!(),
        Err(AppendFault::NoMemory) => return Err(NoMemory),
    }
    move_object(index, change, judged.held, place);
    Ok(())
}
