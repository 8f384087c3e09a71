//! The commands of a store.

ghost use Rattle.std.specs.Prelude.{◌≡◌, ◌↔◌, ◌≤◌, IsTrue, Some, false, true};
ghost use Rattle.std.specs.Option.{option_map};
ghost use Rattle.entry.specs.Key.{IsKeyBytes};
ghost use Rattle.entry.specs.Limits.{IsValue};
ghost use Rattle.entry.specs.View.{shown_key};
ghost use Rattle.history.specs.View.{shown_command, shown_reply};
ghost use Rattle.versioned_map.specs.declared.command.Command.TheVariants as asked;
ghost use Rattle.embedded.specs.Lives.{Serves, ServesKey, ServesPut, found_value, key_of, value_at};
ghost use Rattle.embedded.specs.Replies.{kept_reply};

use crate::carrying::{carry_out, lent_reply};
use crate::life::Life;
use crate::reply::Reply;
use crate::store::Store;
use entry::{KeyRef, MAX_KEY_LEN, MAX_VALUE_LEN};
use history::ValueRef;
use recovery::master::{CommandRef, Master, ReplyRef};
use replica::Fleet;
use versioned_map::If;

/// Whether a key may have so many bytes.
fn is_key_len(len: usize) -> bool
    ensures { IsTrue result ↔ ((1 ≤ len) × (len ≤ 1024)) }
{
    len >= 1 && len <= MAX_KEY_LEN
}

/// Whether these bytes may be a key: there are 1 to 1,024.
pub fn is_key(bytes: &[u8]) -> bool
    ensures key { result ≡ true → IsKeyBytes bytes.now }
    ensures none { result ≡ false → IsKeyBytes bytes.now → ⊥ }
{
    is_key_len(bytes.len())
}

/// Whether a value may have so many bytes.
fn is_value_len(len: usize) -> bool
    ensures { IsTrue result ↔ (len ≤ 2097152) }
{
    len <= MAX_VALUE_LEN
}

/// Whether these bytes may be a value: there are at most 2,097,152.
pub fn is_value(bytes: &[u8]) -> bool
    ensures value { result ≡ true → IsValue bytes.now }
    ensures none { result ≡ false → IsValue bytes.now → ⊥ }
{
    is_value_len(bytes.len())
}

/// The key of a table with these bytes.
pub fn key_ref<'x>(table: u64, bytes: &'x [u8]) -> KeyRef<'x>
    requires { IsKeyBytes bytes.now }
    ensures { shown_key result ≡ key_of table bytes.entry.now }
{
    KeyRef { table, bytes }
}

/// The command that puts a value under a key.
pub fn put_command<'x>(table: u64, key: &'x [u8], value: &'x [u8], when: If) -> CommandRef<'x>
    requires key { IsKeyBytes key.now }
    requires value { IsValue value.now }
    ensures { shown_command result ≡ asked.Put (key_of table key.entry.now) value.entry.now when }
{
    CommandRef::Put(key_ref(table, key), ValueRef { bytes: value }, when)
}

/// The value that a reply found, whole.
fn value_in(reply: ReplyRef<'_>) -> Option<&[u8]>
    ensures { option_map (λ bytes. bytes.now) result ≡ found_value (Some (shown_reply reply.entry)) }
{
    match reply {
        ReplyRef::Found(_, value) => Some(value.bytes),
        ReplyRef::None => None,
        ReplyRef::Ok(_) => None,
        ReplyRef::Mismatch(_) => None,
    }
}

/// The value that the get with the record at this place found. The bytes aren't copied. None if the record found no
/// value or is forgotten.
pub fn value_of<F: Fleet>(master: &Master<F>, place: u64) -> Option<&[u8]>
    ensures { option_map (λ bytes. bytes.now) result ≡ found_value (kept_reply master.entry.now.knows place) }
{
    match lent_reply(master, place) {
        Some(reply) => value_in(reply),
        None => None,
    }
}

impl Store {
    /// Puts a value under a key of a table, if the condition holds. The key has 1 to 1,024 bytes and the value at most
    /// 2,097,152, whatever they are. Both together have to fit a quarter of a segment.
    ///
    /// The answer is Ok with the new version, or Mismatch with the version that the key has. Either is durable then.
    pub fn put<'x>(&mut self, table: u64, key: &'x [u8], value: &'x [u8], when: If) -> Reply
        ensures put { ServesPut self.old.life key.now value.now
            (asked.Put (key_of table key.now) value.now when) result self.new.life }
        ensures rest { self.new ≡ record self.old { life = self.new.life } }
    {
        if !is_key(key) {
            return Reply::too_big();
        }
        if !is_value(value) {
            return Reply::too_big();
        }
        self.serve(&put_command(table, key, value, when))
    }

    /// Gets the value of a key. The answer is Ok with the key's version, or None. `value` lends the bytes that were
    /// found at the reply's place. A get has a record too, which is durable then: so what it answers can't be lost
    /// later.
    pub fn get(&mut self, table: u64, key: &[u8]) -> Reply
        ensures get { ServesKey self.old.life key.now (asked.Get (key_of table key.now)) result self.new.life }
        ensures rest { self.new ≡ record self.old { life = self.new.life } }
    {
        if !is_key(key) {
            return Reply::too_big();
        }
        self.serve(&CommandRef::Get(key_ref(table, key)))
    }

    /// Deletes a key. The answer is Ok with the version that the key had, or None.
    pub fn delete(&mut self, table: u64, key: &[u8]) -> Reply
        ensures delete { ServesKey self.old.life key.now (asked.Delete (key_of table key.now)) result self.new.life }
        ensures rest { self.new ≡ record self.old { life = self.new.life } }
    {
        if !is_key(key) {
            return Reply::too_big();
        }
        self.serve(&CommandRef::Delete(key_ref(table, key)))
    }

    /// The value that the get with the record at this place found. The bytes aren't copied. They can be read until
    /// the next command at least, and longer: a store forgets by blocks of 1,024 records. None if the record found no
    /// value, is forgotten, or is of an earlier master.
    pub fn value(&self, place: u64) -> Option<&[u8]>
        ensures { option_map (λ bytes. bytes.now) result ≡ value_at self.entry.now.life place }
    {
        let Life::Up(master) = &self.life else {
            return None;
        };
        value_of(master, place)
    }

    /// Carries a command out, if there is a master.
    fn serve(&mut self, command: &CommandRef<'_>) -> Reply
        ensures serves { Serves self.old.life (shown_command command.now) result self.new.life }
        ensures rest { self.new ≡ record self.old { life = self.new.life } }
    {
        let Life::Up(master) = &mut self.life else {
            return Reply::no_master();
        };
        carry_out(master, &mut self.notes, command)
    }
}
