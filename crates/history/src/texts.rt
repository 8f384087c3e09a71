//! The bytes of keys and values, in blocks of text.

ghost use Rattle.std.specs.Prelude.{◌≡◌, ◌+◌, ◌<◌, ◌≤◌, ◌++◌, [], length, OnOk, OnErr, vec_len, vec_capacity};
ghost use Rattle.history.specs.Numbers.{front_of, spelled};
ghost use Rattle.history.specs.Texts.{steps_to, text_at, part, IsWithin, KeepsParts, KeepsFrom};

use crate::numbers::Numbers;
use entry::NoMemory;
use std::alloc::{AllocError, Global};
use std::marker::Model;
use std::mem::replace;

/// The size of a block in bytes, unless one record needs a larger one. The allocator would take a block of 128
/// kilobytes or more from the system, and give it back when it is freed. It keeps a block of this size for later use.
const TEXT: usize = 131_040;

/// The number of full blocks, and the offset in a block at which a record begins, are below this.
const LIMIT: usize = 4_294_967_296;

/// Blocks of text, whose bytes never move. Only the last block grows. A new block begins when a record doesn't fit
/// into the last one.
#[derive(Drop)]
pub(crate) struct Texts {
    /// The number of the first block.
    base: u32,
    full: Vec<Vec<u8>>,
    last: Vec<u8>,
    /// How many more bytes are reserved at the end of the last block.
    room: usize,
}

impl Model for Texts {
    ghost use Rattle.std.specs.Prelude.{◌+◌, ◌<◌, ◌≤◌, map, length, vec_len, vec_capacity};
    ghost use Rattle.history.specs.Texts.{TextsValue, HasRoom};

    ghost Value = { TextsValue };

    ghost view = { λ t. record {
      base = t.base;
      full = map (λ b. b.items) t.full.items;
      last = t.last.items;
      room = t.room;
    } };

    ghost invariant = { λ t. HasRoom (vec_len t.full) (vec_len t.last) (vec_capacity t.last) t.room };
}

impl Texts {
    /// Makes texts without bytes. This call allocates no memory.
    pub(crate) fn new(alloc: Global) -> Texts
        ensures { result ≡ record { base = 0; full = []; last = []; room = 0 } }
    {
        Texts {
            base: 0,
            full: Vec::new(alloc),
            last: Vec::new(alloc),
            room: 0,
        }
    }

    /// Returns how many blocks lie from the first block to the one with this number.
    #[inline(always)]
    fn steps_to(&self, block: u32) -> usize
        ensures { result ≡ steps_to self.now.base block }
    {
        (block as usize + LIMIT - self.base as usize) % LIMIT
    }

    /// Returns the number of the last block.
    #[inline(always)]
    pub(crate) fn number(&self) -> u32
        ensures { steps_to self.now.base result ≡ length self.now.full }
    {
        ((self.base as usize + self.full.len()) % LIMIT) as u32
    }

    /// Returns the text of the block with this number: a full block, or else the last one.
    #[inline(always)]
    fn text(&self, block: u32) -> &[u8]
        ensures { result.now ≡ text_at self.entry.now block }
    {
        let at = self.steps_to(block);
        if at < self.full.len() {
            self.full[at].as_slice()
        } else {
            self.last.as_slice()
        }
    }

    /// Returns `len` bytes of a block from offset `start` on.
    #[inline(always)]
    pub(crate) fn part(&self, block: u32, start: usize, len: usize) -> &[u8]
        requires { IsWithin self.now block start len }
        ensures { result.now ≡ part self.entry.now block start len }
    {
        let text = self.text(block);
        &text[start..start + len]
    }

    /// Reserves room for this many bytes in one block. If the call fails, nothing changed.
    pub(crate) fn reserve(&mut self, bytes: usize, alloc: Global) -> Result<(), NoMemory>
        ensures room { OnOk result (self.new.room ≡ bytes) }
        ensures parts { KeepsParts self.old self.new }
        ensures err { OnErr result (self.new ≡ self.old) }
    {
        let len = self.last.len();
        if len >= LIMIT || bytes > self.last.capacity() - len {
            if self.full.len() >= LIMIT - 1 {
                return Err(AllocError);
            }
            self.full.reserve(1)?;
            let next = Vec::with_capacity(alloc, bytes.max(TEXT))?;
            let last = replace(&mut self.last, next);
            if !last.is_empty() {
                self.full.push_reserved(last);
            }
        }
        self.room = bytes;
        Ok(())
    }

    /// Frees the blocks before the one with this number. The call moves the 24 bytes that name each other full block.
    pub(crate) fn forget(&mut self, block: u32)
        requires { steps_to self.old.base block ≤ length self.old.full }
        ensures kept { KeepsFrom (steps_to self.old.base block) self.old self.new }
        ensures room { self.new.room ≡ self.old.room }
    {
        let count = self.steps_to(block);
        let len = self.full.len();
        self.full.rotate_left(count);
        self.full.truncate(len - count);
        self.base = block;
    }

    /// Appends the bytes of a record, for which room is reserved: the numbers unless they are small, then the key and
    /// the value. Returns the number of the block, and the offset in it at which these bytes begin.
    #[inline(always)]
    pub(crate) fn push(&mut self, numbers: &Numbers, key: &[u8], value: &[u8]) -> (u32, u32)
        requires some { 0 < length key.now }
        requires room { 24 + length key.now + length value.now ≤ self.old.room }
        ensures number { steps_to self.new.base result.0 ≡ length self.new.full }
        ensures room { self.new.room ≡ 0 }
        ensures parts { KeepsParts self.old self.new }
        ensures within { let n = length (front_of numbers.now) in
            IsWithin self.new result.0 result.1 (n + length key.now + length value.now) }
        ensures front { part self.new result.0 result.1 (length (front_of numbers.now)) ≡ front_of numbers.now }
        ensures key { let n = length (front_of numbers.now) in
            part self.new result.0 (result.1 + n) (length key.now) ≡ key.now }
        ensures value { let n = length (front_of numbers.now) in
            part self.new result.0 (result.1 + n + length key.now) (length value.now) ≡ value.now }
    {
        let block = self.number();
        let start = self.last.len() as u32;
        put_front(&mut self.last, numbers);
        self.last.extend_from_slice(key).unwrap();
        self.last.extend_from_slice(value).unwrap();
        self.room = 0;
        (block, start)
    }
}

/// Appends the numbers to `out`, which has room for them, unless they are small.
#[inline(always)]
fn put_front(out: &mut Vec<u8>, numbers: &Numbers)
    requires { vec_len out.old + 24 ≤ vec_capacity out.old }
    ensures items { out.new.items ≡ out.old.items ++ front_of numbers.now }
    ensures capacity { vec_capacity out.old ≤ vec_capacity out.new }
    ensures short { length (front_of numbers.now) ≤ 24 }
{
    if !numbers.are_small() {
        put_numbers(out, numbers);
    }
}

/// Appends the numbers to `out`, which has room for them.
#[inline(never)]
fn put_numbers(out: &mut Vec<u8>, numbers: &Numbers)
    requires { vec_len out.old + 24 ≤ vec_capacity out.old }
    ensures items { out.new.items ≡ out.old.items ++ spelled numbers.now }
    ensures capacity { vec_capacity out.old ≤ vec_capacity out.new }
    ensures long { length (spelled numbers.now) ≡ 24 }
{
    out.extend_from_slice(&numbers.to_bytes()).unwrap()
}
