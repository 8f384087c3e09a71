//! The history of accepted commands.

ghost use Rattle.std.specs.Prelude.{◌≡◌, ◌==◌, ◌+◌, ◌-◌, ◌<◌, ◌≤◌, ◌^◌, ◌∷◌, ◌++◌, [], length, OnOk, OnErr, MatchBool};
ghost use Rattle.std.specs.Option.{option_map};
ghost use Rattle.history.specs.View.{shown_record, shown_reply};
ghost use Rattle.versioned_map.specs.declared.command.Record.{Record as RecordValue};
ghost use Rattle.history.specs.Packing.{HasOneValue};
ghost use Rattle.history.specs.Records.{len_of, kept_at, Forgets, AreRows, AreFrom, Ascend};
ghost use Rattle.history.specs.Texts.{steps_to};

use crate::forgotten::Forgotten;
use crate::numbers::NUMBERS_LEN;
use crate::owning::{view_command, view_reply};
use crate::packing::{key_of, numbers_of, pack, value_of};
use crate::reading::{read_reply, read_row};
use crate::rows::Rows;
use crate::texts::Texts;
use crate::view::{RecordRef, ReplyRef};
use entry::NoMemory;
use std::alloc::{AllocError, Global};
use std::marker::Model;
use versioned_map::Record;

/// The number of rows in a block: so many records are forgotten together.
const BLOCK: usize = 1024;

/// A history forgets this many records and at most one block more. So the number of all records fits a `usize`.
const MOST: usize = 1 << 62;

/// The accepted commands, in order, each with its seat and its reply. A contract sees a list of records and the
/// *room*: how many bytes the key and the value of the next record may have, for which memory is reserved.
///
/// A record takes 32 bytes and the bytes of its key and its value. It takes 24 bytes more if its seat is above 65,535,
/// its table is above 4,294,967,295, or it is a put that asks for a version above 0. A block of rows has room for
/// 1,024 records. A block of text has room for 131,040 bytes of keys and values, or for one record that has more
/// bytes. If a record doesn't fit into the rest of a block of text, its bytes go to a new block. No record moves.
///
/// The history can *forget* its first records, by blocks of 1,024: their memory is freed, and `get` and `reply` don't
/// find them any more. A contract still sees them in the list, and each record keeps its place.
#[derive(Drop)]
pub struct History {
    forgotten: Forgotten,
    /// How many records are forgotten.
    first: usize,
    rows: Rows,
    texts: Texts,
    alloc: Global,
}

impl Model for History {
    ghost use Rattle.std.specs.Prelude.{◌≡◌, ◌+◌, ◌<◌, ◌-◌, ◌^◌, ◌++◌, length};
    ghost use Rattle.history.specs.Records.{HistoryValue, records_in, AreRows, Ascend};

    ghost Value = { HistoryValue };

    // The room of the texts also has the 24 bytes of a record's numbers.
    ghost view = { λ h. record {
      records = h.forgotten.records ++ records_in h.texts h.rows.rows;
      room = h.texts.room - 24;
      forgotten = h.first;
    } };

    // A later row has its bytes in the same block of text as an earlier row, or in a later block.
    ghost invariant = { λ h. AreRows h.texts h.rows.rows × (0 < h.texts.room → 0 < h.rows.room)
        × Ascend h.texts.base h.rows.rows × (h.first ≡ length h.forgotten.records) × (h.first < 2 ^ 62 + 1024) };
}

impl History {
    /// Makes a history without records. This call allocates no memory.
    pub fn new(alloc: Global) -> History
        ensures { result ≡ record { records = []; room = 0; forgotten = 0 } }
    {
        History {
            forgotten: Forgotten::none(),
            first: 0,
            rows: Rows::new(alloc),
            texts: Texts::new(alloc),
            alloc,
        }
    }

    /// Returns the number of records, with those that are forgotten.
    pub fn len(&self) -> usize
        ensures { result ≡ length self.now.records }
    {
        self.first + self.rows.len()
    }

    /// Returns the number of records that are not forgotten.
    pub fn kept(&self) -> usize
        ensures kept { result ≡ length self.now.records - self.now.forgotten }
        ensures all { result + self.now.forgotten ≡ length self.now.records }
    {
        self.rows.len()
    }

    /// Returns how many of the first records are forgotten.
    pub fn forgotten(&self) -> usize
        ensures forgotten { result ≡ self.now.forgotten }
        ensures few { self.now.forgotten ≤ length self.now.records }
    {
        self.first
    }

    /// Shows what holds of each history: no more records are forgotten than there are, and not many more than 2^62.
    pub fn show_valid(&self)
        ensures within { self.now.forgotten ≤ length self.now.records }
        ensures places { self.now.forgotten < 2 ^ 62 + 1024 }
    {
        let _first = self.first;
    }

    /// Returns true if there is no record.
    pub fn is_empty(&self) -> bool
        ensures { result ≡ (length self.now.records == 0) }
    {
        self.len() == 0
    }

    /// Reserves memory for one more record, whose key and value have at most `bytes` bytes together. Most calls find
    /// room in the last blocks and allocate nothing. The call fails only if memory runs out, or if about 2^42 records
    /// or 2^32 blocks of text are not forgotten. If it fails, nothing changed.
    pub fn reserve(&mut self, bytes: usize) -> Result<(), NoMemory>
        ensures room { OnOk result (self.new.room ≡ bytes) }
        ensures records { self.new.records ≡ self.old.records }
        ensures forgotten { self.new.forgotten ≡ self.old.forgotten }
        ensures err { OnErr result (self.new ≡ self.old) }
    {
        let Some(len) = bytes.checked_add(NUMBERS_LEN) else {
            return Err(AllocError);
        };
        self.rows.reserve(self.alloc)?;
        self.texts.reserve(len, self.alloc)
    }

    /// Appends a record, for which `reserve` has reserved memory. The call allocates nothing, can't fail, and uses up
    /// the reserved room.
    #[inline(always)]
    pub fn push(&mut self, accepted: &RecordRef<'_>)
        requires value { HasOneValue (shown_record accepted.now) }
        requires room { len_of (shown_record accepted.now) ≤ self.old.room }
        ensures records { self.new.records ≡ self.old.records ++ shown_record accepted.now ∷ [] }
        ensures room { self.new.room ≡ 0 }
        ensures forgotten { self.new.forgotten ≡ self.old.forgotten }
    {
        let key = key_of(&accepted.command);
        let value = value_of(&accepted.command, &accepted.reply);
        let numbers = numbers_of(accepted);
        let (block, start) = self.texts.push(&numbers, key.bytes, value);
        self.rows.push(pack(accepted, &numbers, block, start));
    }

    /// Appends a record that owns its bytes, like `push`.
    pub fn push_record(&mut self, accepted: &Record)
        requires value { HasOneValue accepted.now }
        requires room { len_of accepted.now ≤ self.old.room }
        ensures records { self.new.records ≡ self.old.records ++ accepted.now ∷ [] }
        ensures room { self.new.room ≡ 0 }
        ensures forgotten { self.new.forgotten ≡ self.old.forgotten }
    {
        self.push(&RecordRef {
            seat: accepted.seat,
            command: view_command(&accepted.command),
            reply: view_reply(&accepted.reply),
        });
    }

    /// Returns the record at this place of the history, or None if there are not so many records, or if the record is
    /// forgotten. Places count from 0, and a forgotten record keeps its place. The call allocates no memory and takes
    /// constant time.
    pub fn get(&self, place: usize) -> Option<RecordRef<'_>>
        ensures { option_map shown_record result ≡ kept_at self.entry.now place }
    {
        if place < self.first {
            return None;
        }
        let at = place - self.first;
        if at >= self.rows.len() {
            return None;
        }
        Some(read_row(&self.texts, self.rows.get(at)))
    }

    /// Returns the reply of the record at this place of the history, like `get`, without reading the rest of the
    /// record.
    #[inline(always)]
    pub fn reply(&self, place: usize) -> Option<ReplyRef<'_>>
        ensures { option_map shown_reply result ≡
            option_map (λ (r : RecordValue). r.reply) (kept_at self.entry.now place) }
    {
        if place < self.first {
            return None;
        }
        let at = place - self.first;
        if at >= self.rows.len() {
            return None;
        }
        Some(read_reply(&self.texts, self.rows.get(at)))
    }

    /// Forgets as many of the first `n` records as make full blocks of 1,024, and frees their memory. At most 1,024 of
    /// the first `n` records are left. A block of text is freed when all of its records are forgotten. For each block
    /// of rows that it frees, the call moves the 24 bytes that name each block which is left, of rows and of text.
    pub fn forget(&mut self, n: usize)
        ensures { Forgets n self.old self.new }
    {
        let count = n.min(MOST).saturating_sub(self.first) / BLOCK;
        for _i in 0..count {
            if !self.forget_block() {
                self.show_valid();
                return;
            }
        }
        self.show_valid();
    }

    /// Forgets the records of the first block of rows, if it is full. Returns true if it was.
    fn forget_block(&mut self) -> bool
        requires { self.old.forgotten < 2 ^ 62 }
        ensures { MatchBool result (self.new ≡ record self.old { forgotten = self.old.forgotten + 1024 })
            ((self.new ≡ self.old) × (length self.old.records ≤ self.old.forgotten + 1024)) }
    {
        let forgotten = Forgotten::with(&self.forgotten, &self.texts, &self.rows);
        if !self.rows.drop_block() {
            return false;
        }
        self.forgotten = forgotten;
        self.first += BLOCK;
        let block = least_block(&self.rows, &self.texts);
        self.texts.forget(block);
        true
    }
}

/// Returns the number of the block of text in which the first row has its bytes, or of the last block if there is no
/// row.
fn least_block(rows: &Rows, texts: &Texts) -> u32
    requires rows { AreRows texts.now rows.now.rows }
    requires ascend { Ascend texts.now.base rows.now.rows }
    ensures among { steps_to texts.now.base result ≤ length texts.now.full }
    ensures least { AreFrom texts.now.base (steps_to texts.now.base result) rows.now.rows }
{
    if rows.len() == 0 {
        return texts.number();
    }
    rows.get(0).block
}
