//! The rows of a history, in blocks of 1,024.

ghost use Rattle.std.specs.Prelude.{◌≡◌, ◌<◌, ◌≤◌, ◌^◌, ◌∷◌, ◌++◌, [], length, drop, slice_index_or, OnOk, OnErr};
ghost use Rattle.std.specs.Prelude.{MatchBool};

use crate::packing::Row;
use entry::NoMemory;
use std::alloc::{AllocError, Global};
use std::marker::Model;
use std::mem::replace;

/// The number of rows in a block.
const BLOCK: usize = 1024;

/// The number of full blocks is below this.
const LIMIT: usize = 4_294_967_296;

/// A growing list of rows, which never move: they lie in blocks of 1,024, and only the last block grows.
#[derive(Drop)]
pub(crate) struct Rows {
    full: Vec<Vec<Row>>,
    last: Vec<Row>,
}

impl Model for Rows {
    ghost use Rattle.std.specs.Prelude.{◌-◌, min, vec_len, vec_capacity};
    ghost use Rattle.history.specs.Rows.{RowsValue, rows_in, AreBlocks};

    ghost Value = { RowsValue };

    ghost view = { λ r. record {
      rows = rows_in r.full.items r.last.items;
      room = min 1024 (vec_capacity r.last) - vec_len r.last;
    } };

    ghost invariant = { λ r. AreBlocks r.full.items r.last.items };
}

impl Rows {
    /// Makes a list without rows. This call allocates no memory.
    pub(crate) fn new(alloc: Global) -> Rows
        ensures { result ≡ record { rows = []; room = 0 } }
    {
        Rows {
            full: Vec::new(alloc),
            last: Vec::new(alloc),
        }
    }

    /// Returns the number of rows.
    pub(crate) fn len(&self) -> usize
        ensures len { result ≡ length self.now.rows }
        ensures few { result < 2 ^ 43 }
    {
        BLOCK * self.full.len() + self.last.len()
    }

    /// Returns the row at this index.
    #[inline(always)]
    pub(crate) fn get(&self, at: usize) -> &Row
        requires { at < length self.now.rows }
        ensures { result.now ≡ slice_index_or self.entry.now.rows at result.now }
    {
        let block = at / BLOCK;
        if block < self.full.len() {
            &self.full[block][at % BLOCK]
        } else {
            &self.last[at - BLOCK * self.full.len()]
        }
    }

    /// Makes sure that there is room for one more row, and allocates a block if needed. If the call fails, nothing
    /// changed.
    pub(crate) fn reserve(&mut self, alloc: Global) -> Result<(), NoMemory>
        ensures room { OnOk result (0 < self.new.room) }
        ensures rows { self.new.rows ≡ self.old.rows }
        ensures err { OnErr result (self.new ≡ self.old) }
    {
        let len = self.last.len();
        if len < BLOCK {
            return self.last.reserve_exact(BLOCK - len);
        }
        if self.full.len() >= LIMIT - 1 {
            return Err(AllocError);
        }
        self.full.reserve(1)?;
        let next = Vec::with_capacity(alloc, BLOCK)?;
        let last = replace(&mut self.last, next);
        self.full.push_reserved(last);
        Ok(())
    }

    /// Removes the first block of rows and frees its memory, if it is full. Returns true if it was. The call moves the
    /// 24 bytes that name each other full block.
    pub(crate) fn drop_block(&mut self) -> bool
        ensures rows { MatchBool result ((1024 ≤ length self.old.rows) × (self.new.rows ≡ drop 1024 self.old.rows))
            ((self.new.rows ≡ self.old.rows) × (length self.old.rows ≤ 1024)) }
        ensures room { self.new.room ≡ self.old.room }
    {
        if self.full.is_empty() {
            return false;
        }
        let _block = self.full.remove(0);
        true
    }

    /// Appends a row, for which there is room.
    pub(crate) fn push(&mut self, row: Row)
        requires { 0 < self.old.room }
        ensures { self.new.rows ≡ self.old.rows ++ row ∷ [] }
    {
        self.last.push_reserved(row);
    }
}
