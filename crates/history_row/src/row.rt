//! The cells of a history, in order, from some place on.

ghost use Rattle.std.specs.Prelude.{◌≡◌, ◌<◌, ◌≤◌, ◌+◌, ◌-◌, ◌↔◌, List, length, drop, slice_get, slice_set, Some, None};
ghost use Rattle.std.specs.Prelude.{IfOk, IfSome, IsTrue, MatchBool, replicate};
ghost use Rattle.history.specs.View.{shown_record};
ghost use Rattle.history_row.specs.Rows.{IsRowOf};
ghost use Rattle.versioned_map.specs.declared.command.Record.{Record};

use crate::kept::Kept;
use crate::labels::Labels;
use crate::receipt::Receipt;
use crate::slot::Slot;
use history::RecordRef;
use std::alloc::{AllocError, Global};
use std::marker::{Model, PhantomData};

/// Cells that no type names yet. Contracts see what they are called, and which record each is known to have.
#[derive(Drop)]
pub struct Cells {
    slots: Vec<Slot>,
    /// The box that was reserved for the next record, if one was.
    spare: Vec<Box<Kept>>,
}

impl Model for Cells {
    ghost use Rattle.history_row.specs.Rows.{CellsValue, names, row_of};

    ghost Value = { CellsValue };

    ghost view = { λ c. record { names = names c.slots.items; row = row_of c.slots.items } };
}

/// The cells of a history, from a place on that the brand names. Contracts see which record each is known to have.
#[derive(Drop)]
pub struct Row<B: Labels> {
    /// The place of the first cell.
    start: usize,
    slots: Vec<Slot>,
    /// The box that was reserved for the next record, if one was.
    spare: Vec<Box<Kept>>,
    of: PhantomData<B>,
}

impl<B: Labels> Model for Row<B> {
    ghost use Rattle.std.specs.Prelude.{◌≡◌, List};
    ghost use Rattle.std.specs.declared.option.Option.{Option};
    ghost use Rattle.versioned_map.specs.declared.command.Record.{Record};
    ghost use Rattle.history_row.specs.Rows.{names, row_of};

    ghost Value = { List (Option Record) };

    ghost view = { λ r. row_of r.slots.items };

    ghost invariant = { λ r. (r.start ≡ B.start) × (names r.slots.items ≡ B.cells) };
}

impl Cells {
    /// `count` empty cells, which no type names yet.
    pub fn new(alloc: Global, count: usize) -> Result<Cells, AllocError>
        ensures { IfOk result (λ c. c.row ≡ replicate count None) }
    {
        let mut slots = Vec::with_capacity(alloc, count)?;
        for _i in 0..count {
            slots.push(Slot::new(alloc))?;
        }
        let spare = Vec::with_capacity(alloc, 1)?;
        Ok(Cells { slots, spare })
    }

    /// The same cells, under the name that the brand has for them, for the records from this place on.
    pub fn named<B: Labels>(self, start: usize) -> Row<B>
        requires cells { self.names ≡ B.cells }
        requires start { start ≡ B.start }
        ensures { result ≡ self.row }
    {
        let Cells { slots, spare } = self;
        Row {
            start,
            slots,
            spare,
            of: PhantomData,
        }
    }
}

impl<B: Labels> Row<B> {
    /// The place of the first cell.
    pub fn start(&self) -> usize
        ensures { result ≡ B.start }
    {
        self.start
    }

    /// How many cells there are.
    #[tactic(auto, using(std::proofs::lemmas::Grind::common_steps))]
    pub fn len(&self) -> usize
        ensures { result ≡ length self.now }
    {
        self.slots.len()
    }

    /// Whether the place is below that behind the last cell.
    pub fn reaches(&self, place: usize) -> bool
        ensures { IsTrue result ↔ (place < B.start + length self.now) }
    {
        place < self.start || place - self.start < self.len()
    }

    /// Takes memory for one record, unless there is some. The next `set` then asks for none. The cells stay as they
    /// are.
    pub fn reserve(&mut self, alloc: Global) -> Result<(), AllocError>
        ensures { self.new ≡ self.old }
    {
        if self.spare.is_empty() {
            // A box of no bytes asks for memory too.
            let spare = Box::new(alloc, Kept::blank())?;
            self.spare.push(spare)?;
        }
        Ok(())
    }

    /// A box with this record: the one that was reserved, or else a new one.
    fn boxed(&mut self, alloc: Global, what: &RecordRef<'_>) -> Option<Box<Kept>>
        ensures same { self.new ≡ self.old }
        ensures record { IfSome result (λ kept. kept.value.what ≡ shown_record what.now) }
    {
        match self.spare.pop() {
            Some(mut kept) => {
                Box::replace(&mut kept, Kept::of(what));
                Some(kept)
            }
            None => Box::new(alloc, Kept::of(what)).ok(),
        }
    }

    /// Sets a cell to this record, and answers whether the cell took it. If it did not, nothing changes. Memory is
    /// asked for only if none was reserved. If it is refused, the cell doesn't take the record.
    pub fn set(&mut self, alloc: Global, place: usize, what: &RecordRef<'_>) -> bool
        requires { (B.start ≤ place) × (place < B.start + length self.old) }
        ensures { MatchBool result
            (self.new ≡ slice_set self.old (place - B.start) (Some (shown_record what.now))) (self.new ≡ self.old) }
    {
        let Some(kept) = self.boxed(alloc, what) else {
            return false;
        };
        let slot = &mut self.slots[place - self.start];
        slot.set(kept)
    }

    /// A receipt of a place.
    pub fn receipt(&mut self, place: usize) -> Receipt<B>
        requires { (B.start ≤ place) × (place < B.start + length self.old) }
        ensures same { self.new ≡ self.old }
        ensures receipt { (result.place ≡ place) × (slice_get self.old (place - B.start) ≡ Some result.what) }
    {
        let slot = &mut self.slots[place - self.start];
        Receipt {
            place: place as u64,
            note: slot.again(),
            of: PhantomData,
        }
    }

    /// Shows that the history has the receipt's record at its place, if this is the row of that history from its first
    /// cell on. Nothing changes.
    pub fn tell(&mut self, receipt: &mut Receipt<B>)
        requires { receipt.old.place < B.start + length self.old }
        ensures same { (self.new ≡ self.old) × (receipt.new ≡ receipt.old) }
        ensures history { (h : List Record) (r : Record) → IsRowOf self.old (drop B.start h) →
            receipt.old.place < length h → receipt.old.what ≡ Some r → slice_get h receipt.old.place ≡ Some r }
        ensures told { (r : Record) (q : Record) → receipt.old.what ≡ Some r →
            slice_get self.old (receipt.old.place - B.start) ≡ Some (Some q) → q ≡ r }
    {
        let slot = &mut self.slots[receipt.place as usize - self.start];
        slot.compare(receipt.note.again());
    }
}
