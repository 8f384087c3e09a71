//! A store that is paused: what the next one begins with.

ghost use Rattle.std.specs.Prelude.{◌≡◌, ◌<◌, ◌≤◌, ◌+◌, ◌-◌, ◌^◌, [], IfOk, MatchResult, None, drop, length, replicate};
ghost use Rattle.history_row.specs.Rows.{IsRowOf};
ghost use Rattle.store_step.specs.master.Valid.{IsValid};
ghost use Rattle.store_step.specs.master.World.{world};
ghost use Rattle.locked_log.specs.Ends.{AreServed};
ghost use Rattle.locked_log.specs.Made.{IsMade};
ghost use Rattle.locked_log.specs.Renews.{AreKept, IsPaused, paused_at};
ghost use Rattle.store_seat.specs.Accounts.{IsSettled};

use crate::blank::{Blank, open_book};
use crate::closing::are_known;
use crate::state::State;
use crate::store::Store;
use entry::NoMemory;
use history_row::Row;
use replica::Fleet;
use std::alloc::Global;
use std::marker::Model;
use store_seat::{Account, Naming, Seat};
use store_step::master::{History, Master};

/// What a store that was paused leaves to the next one: its master, and what its book had of each seat. Contracts also
/// see the place from which on the next store has a cell for each record.
///
/// A program that serves for ever is a loop. Each turn picks a brand, by a call of a function that is generic in it:
///
/// ```text
/// fn serve<B: Naming>(rt, alloc, blank: Blank, paused: Paused<F>) -> .. {
///     let (store, seats) = Store::<F, B>::renew(alloc, blank, paused)?;
///     ..                                                  // calls, until one is refused as CellsSpent
///     store.pause(seats)
/// }
///
/// let mut paused = Paused::over(alloc, master, 8)?;
/// loop {
///     let blank = paused.blank(alloc, 100_000)?;          // cells for 100,000 records more
///     (paused, _) = serve::<Brand>(rt, alloc, blank, paused)?;
/// }
/// ```
#[derive(Drop)]
pub struct Paused<F: Fleet> {
    pub(crate) master: Master<F>,
    pub(crate) book: Vec<Account>,
    pub(crate) start: u64,
}

impl<F: Fleet> Model for Paused<F> {
    ghost use Rattle.store_step.specs.master.World.{world};
    ghost use Rattle.locked_log.specs.Renews.{IsPaused, PausedValue};

    ghost Value = { PausedValue F };

    ghost view = { λ p. record { master = p.master; book = p.book.items; start = p.start } };

    ghost invariant = { λ p. IsPaused (world F.state p.master) p.book.items p.start };
}

impl<F: Fleet> Paused<F> {
    /// What a first store with so many seats, 1 to 64, begins with: none of them has a record to settle. What is
    /// durable counts as shown to each. If memory runs out, the master comes back as it was.
    pub fn over(
        alloc: Global,
        master: Master<F>,
        seats: u64,
    ) -> Result<Paused<F>, (NoMemory, Master<F>)>
        ensures { MatchResult result (λ p. p ≡ paused_at master seats) (λ e. e.1 ≡ master) }
    {
        let first = master.durable();
        let start = master.history().len() as u64;
        let Ok(book) = open_book(alloc, first, seats) else {
            return Err((NoMemory, master));
        };
        let paused = Paused {
            master,
            book,
            start,
        };
        Ok(paused)
    }

    /// What is true of every paused store.
    pub fn show_valid(&self)
        ensures { IsPaused (world F.state self.now.master) self.now.book self.now.start }
    {
        let _start = self.start;
    }

    /// The place of the next store's first cell.
    pub fn start(&self) -> u64
        ensures { result ≡ self.now.start }
    {
        self.start
    }

    /// The records, also those that are filed anew.
    pub fn history(&self) -> &History
        ensures records { result.now.records ≡ self.entry.now.master.knows.history }
        ensures forgotten { result.now.forgotten ≡ self.entry.now.master.knows.forgotten }
        ensures few { length result.now.records < 2 ^ 63 - 2 ^ 61 }
    {
        self.master.history()
    }

    /// What the book had of each seat.
    pub(crate) fn book(&self) -> &Vec<Account>
        ensures { result.now.items ≡ self.entry.now.book }
    {
        &self.book
    }

    /// The parts of the next store: as many seats as there were, a cell for each record that is filed anew, and this
    /// many cells more.
    pub fn blank(&self, alloc: Global, cells: u64) -> Result<Blank, NoMemory>
        requires { cells < 2 ^ 62 }
        ensures cells { IfOk result (λ b. b.row
            ≡ replicate (length self.now.master.knows.history - self.now.start + cells) None) }
        ensures empty { IfOk result (λ b. IsRowOf b.row []) }
        ensures seats { IfOk result (λ b. (b.seats ≡ length self.now.book) × (b.parts ≡ length self.now.book)) }
    {
        self.show_valid();
        let again = self.history().len() as u64 - self.start();
        Blank::make(alloc, again + cells, self.book().len() as u64)
    }

    /// The master, for whoever needs no store any more.
    pub fn into_master(self) -> Master<F>
        ensures { result ≡ self.master }
    {
        let Paused {
            master,
            book: _,
            start: _,
        } = self;
        master
    }
}

impl<F: Fleet, B: Naming> Store<F, B> {
    /// Ends the store so that another one goes on from here, by `Store::renew`. It gives what that one needs, and the
    /// row of this store's records. With Err the master alone comes back, as from `close`.
    pub fn pause(self, seats: Vec<Seat<B>>) -> Result<(Paused<F>, Row<B>), Master<F>>
        // By `Row::tell` the history has each receipt's record at its place.
        ensures row { IfOk result (λ r. IsRowOf r.1 (drop B.start r.0.master.knows.history)) }
        ensures served { IfOk result (λ r. AreServed B.start r.0.master.knows seats.items) }
        // Each seat is in the book as it is, and keeps what it can still settle.
        ensures kept { IfOk result
            (λ r. AreKept B.start r.0.master.knows.history r.0.book r.0.start seats.items) }
        // So do seats that aren't given.
        ensures accounts { IfOk result (λ r. length r.0.book ≡ B.made.seats) }
        ensures settled { IfOk result
            (λ r. IsSettled B.start r.0.book r.0.master.knows.history r.0.start) }
        // The master is the one that the store was made of.
        ensures made { MatchResult result (λ r. IsMade B.made (world F.state r.0.master))
            (λ m. IsMade B.made (world F.state m)) }
        ensures valid { MatchResult result (λ r. IsValid r.0.master.knows (F.state r.0.master.fleet))
            (λ m. IsValid m.knows (F.state m.fleet)) }
    {
        let Store { shared } = self;
        let state = shared.into_log();
        let start = state.first_open();
        let State {
            alloc: _,
            master,
            book,
            total: _,
            row,
            is_refused,
        } = state;
        let are_known = are_known(&book, &seats);
        if is_refused || !are_known {
            return Err(master);
        }
        let paused = Paused {
            master,
            book,
            start,
        };
        Ok((paused, row))
    }
}

impl<F: Fleet, B: Naming> State<F, B> {
    /// The place from which on a store that goes on has to have a cell for each record: no seat can settle a record
    /// below it, and none from there on is forgotten.
    pub(crate) fn first_open(&self) -> u64
        ensures least { self.now.start ≤ result }
        ensures within { result ≤ length self.now.master.knows.history }
        ensures kept { self.now.master.knows.forgotten ≤ result }
        ensures settled { IsSettled self.now.start self.now.book self.now.master.knows.history result }
    {
        self.show_valid();
        let len = self.master.history().len() as u64;
        let kept = self.master.forgotten().max(self.row.start() as u64);
        let least = self.bound();
        let open_at = least.min(len);
        let first = kept.max(open_at);
        first
    }
}
