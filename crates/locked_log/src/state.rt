//! What lies under the lock.

ghost use Rattle.std.specs.Prelude.{◌≡◌, ◌↔◌, IsTrue, IfOk, OnErr};
ghost use Rattle.std.specs.Option.{is_some};
ghost use Rattle.store_step.specs.master.Shown.{IsShown, NeedsMemory};
ghost use Rattle.store_step.specs.master.World.{limited_world, world};
ghost use Rattle.locked_log.specs.Held.{Held, held};
ghost use Rattle.store_seat.specs.Accounts.{Knows};
ghost use Rattle.locked_log.specs.States.{IsState};

use entry::NoMemory;
use history_row::Row;
use replica::{Bench, Fleet};
use std::alloc::Global;
use std::marker::Model;
use std::sync::ledger::Book;
use store_seat::{Account, Naming, Seat, is_known};
use store_step::master::{Look, Master, Shown};

/// The master with the book of the seats, the ledger's book and the row of its records' cells.
#[derive(Drop)]
pub struct State<F: Fleet, B: Naming> {
    pub(crate) alloc: Global,
    pub(crate) master: Master<F>,
    pub(crate) book: Vec<Account>,
    pub(crate) total: Book<B>,
    pub(crate) row: Row<B>,
    /// Whether some cell did not take its record, or the book's numbers of a seat weren't the seat's own after its
    /// record.
    pub(crate) is_refused: bool,
}

impl<F: Fleet, B: Naming> Model for State<F, B> {
    ghost use Rattle.store_step.specs.master.World.{world};
    ghost use Rattle.locked_log.specs.Held.{StateValue};
    ghost use Rattle.locked_log.specs.States.{IsState};

    ghost Value = { StateValue F };

    ghost view = { λ s. record {
      master = s.master;
      book = s.book.items;
      total = s.total.total;
      start = B.start;
      row = s.row;
      is_refused = s.is_refused;
    } };

    ghost invariant = { λ s. IsState (record {
      world = world F.state s.master;
      book = s.book.items;
      total = s.total.total;
      start = B.start;
      row = s.row;
      is_refused = s.is_refused;
    }) B.made };
}

impl<F: Fleet, B: Naming> State<F, B> {
    /// Shows what is true whenever the lock is free. The master is valid: its history is legal, memory and the
    /// replicas hold its map, and whichever backups are left, they hold a prefix with each durable record. Up to a cell
    /// that refused its record the row is the records that were made since the store was, each account counts those of
    /// its seat, and the ledger's total is how many they are.
    pub fn show_valid(&self)
        ensures { IsState (held F.state self.now) B.made }
    {
        let _is_refused = self.is_refused;
    }

    /// Whether the book's numbers of the seat are the seat's own.
    pub(crate) fn knows(&self, seat: &Seat<B>) -> bool
        ensures { IsTrue result ↔ Knows self.now.book seat.now }
    {
        is_known(&self.book, seat)
    }

    /// Whether a pass is open. It takes no memory.
    pub fn has_pass_held(&self) -> bool
        ensures { result ≡ is_some self.now.master.knows.pass }
    {
        self.master.has_pass()
    }

    /// Shows what the look asks for. Nothing changes. Only want of memory refuses it.
    pub fn look_held(&self, look: Look) -> Result<Shown, NoMemory>
        ensures shown { IfOk result (λ shown. IsShown (world F.state self.now.master) look shown) }
        ensures refused { OnErr result (NeedsMemory self.now.master.knows look) }
    {
        self.master.look(look)
    }
}

impl<F: Bench, B: Naming> State<F, B> {
    /// Lets the fleet take `n` more ops, and then no more.
    pub fn limit_held(&mut self, n: u64)
        ensures limited { held F.Fleet.state self.new ≡ record (held F.Fleet.state self.old) {
          world = limited_world (held F.Fleet.state self.old).world n;
        } }
    {
        self.master.limit(n)
    }

    /// Asks the fleet for a fault in the `n`-th take from now. `taken` says whether its op is taken. With 0 no fault
    /// comes.
    pub fn fault_held(&mut self, n: u64, taken: bool)
        ensures { held F.Fleet.state self.new ≡ held F.Fleet.state self.old }
    {
        self.master.fault_at(n, taken)
    }
}
