//! Receipts of places.

ghost use Rattle.std.specs.Prelude.{◌≡◌, Some, slice_get};
ghost use Rattle.versioned_map.specs.declared.command.Record.{Record};

use crate::kept::Kept;
use crate::labels::Labels;
use once_cell::race::Note;
use std::marker::{Model, PhantomData};

/// A receipt of a place: the record there stays for good. Contracts see the place and the record.
#[derive(Drop)]
pub struct Receipt<B: Labels> {
    pub(crate) place: u64,
    pub(crate) note: Note<Kept>,
    pub(crate) of: PhantomData<B>,
}

impl<B: Labels> Model for Receipt<B> {
    ghost use Rattle.std.specs.Prelude.{◌≡◌, ◌≤◌, ◌-◌, Some, slice_get};
    ghost use Rattle.history_row.specs.Receipts.{Told};
    ghost use Rattle.history_row.specs.Rows.{known_of};

    ghost Value = { Told };

    ghost view = { λ r. record { place = r.place; what = known_of r.note.known } };

    ghost invariant = { λ r. (B.start ≤ r.place) × (slice_get B.cells (r.place - B.start) ≡ Some r.note.cell) };
}

impl<B: Labels> Receipt<B> {
    /// The place, from 0. It takes no memory.
    pub fn place(&self) -> u64
        ensures { result ≡ self.now.place }
    {
        self.place
    }

    /// A second receipt of the same place.
    pub fn again(&mut self) -> Receipt<B>
        ensures same { self.new ≡ self.old }
        ensures receipt { result ≡ self.old }
    {
        Receipt {
            place: self.place,
            note: self.note.again(),
            of: PhantomData,
        }
    }

    /// Shows that two receipts of one place have the same record. Nothing changes.
    pub fn agree(&mut self, other: &mut Receipt<B>)
        requires { self.old.place ≡ other.old.place }
        ensures same { (self.new ≡ self.old) × (other.new ≡ other.old) }
        ensures agree { (r : Record) (q : Record) →
            self.old.what ≡ Some r → other.old.what ≡ Some q → q ≡ r }
    {
        self.note.compare(other.note.again());
    }
}
