//! A cell, and what is known of it.

ghost use Rattle.std.specs.Prelude.{◌≡◌, IfSome, Some, None, MatchBool};
ghost use Rattle.once_cell.specs.Once.{cell_name, Agrees};

use crate::kept::Kept;
use once_cell::race::{Note, OnceBox};
use std::alloc::Global;

/// A cell that is set once, and what is known of it.
#[derive(Drop)]
pub struct Slot {
    cell: OnceBox<Kept>,
    pub note: Note<Kept>,
    ghost same: { note.cell ≡ cell_name cell },
}

impl Slot {
    /// An empty cell.
    pub fn new(alloc: Global) -> Slot
        ensures { result.note.known ≡ None }
    {
        let cell = OnceBox::new(alloc);
        let note = cell.note();
        Slot { cell, note }
    }

    /// Sets the cell to this record, and answers whether the cell took it. If it did not, what is known of the cell
    /// stays.
    pub fn set(&mut self, kept: Box<Kept>) -> bool
        ensures cell { self.new.note.cell ≡ self.old.note.cell }
        ensures known { MatchBool result (self.new.note.known ≡ Some kept.value)
            (self.new.note.known ≡ self.old.note.known) }
    {
        let mut note = self.note.again();
        match self.cell.set_as(kept, &mut note) {
            Ok(()) => {
                self.note = note;
                true
            }
            Err(_) => false,
        }
    }

    /// A second note of the cell.
    pub fn again(&mut self) -> Note<Kept>
        ensures same { self.new.note ≡ self.old.note }
        ensures note { result ≡ self.old.note }
    {
        self.note.again()
    }

    /// Shows that a note of this cell knows what is known here, if something is.
    pub fn compare(&mut self, note: Note<Kept>)
        requires { note.cell ≡ self.old.note.cell }
        ensures same { self.new.note ≡ self.old.note }
        ensures agree { IfSome note.known (Agrees self.old.note.known) }
    {
        self.note.compare(note);
    }
}
