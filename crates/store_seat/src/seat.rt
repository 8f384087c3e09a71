//! The seat of a caller.

ghost use Rattle.std.specs.Prelude.{◌≡◌, ◌<◌, [], Some};
ghost use Rattle.mark_word.specs.Marks.{nothing};
ghost use Rattle.store_seat.specs.Seats.{fresh_seat, told};
ghost use Rattle.versioned_map.specs.declared.command.Record.{Record};

use crate::naming::Naming;
use history_row::Receipt;
use mark_word::Pen;
use std::marker::Model;
use std::sync::ledger::Share;

/// The seat of a caller. Contracts see its numbers, its share of the ledger, its last record and what it knows of the
/// mark.
#[derive(Drop)]
pub struct Seat<B: Naming> {
    pub(crate) number: u64,
    /// The last place that the seat was answered or shown, plus 1.
    pub(crate) first: u64,
    /// How many records the calls of the seat made.
    pub(crate) count: u64,
    pub(crate) share: Share<B>,
    pub(crate) pen: Pen,
    /// A receipt of the last of the seat's records that a cell took.
    pub(crate) last: Option<Receipt<B>>,
}

impl<B: Naming> Model for Seat<B> {
    ghost use Rattle.std.specs.Prelude.{◌≡◌, []};
    ghost use Rattle.store_seat.specs.Seats.{SeatValue, IsSeat};

    ghost Value = { SeatValue };

    ghost view = { λ s. record {
      number = s.number;
      first = s.first;
      count = s.count;
      parts = s.share.parts;
      amount = s.share.amount;
      last = s.last;
      mark = s.pen.me.0;
    } };

    ghost invariant = { λ s. IsSeat s.number s.count s.share.parts s.share.amount B.made.seats
        × (s.pen.table_id ≡ B.table) × (s.pen.me.1 ≡ []) };
}

impl<B: Naming> Seat<B> {
    /// A seat without a record, with its part of the ledger and a pen of its own. What lies below `first` counts as
    /// shown to it.
    pub fn new(number: u64, first: u64, share: Share<B>, pen: Pen) -> Seat<B>
        requires within { number < B.made.seats }
        requires share { (share.parts ≡ 1) × (share.amount ≡ 0) }
        requires pen { (pen.table_id ≡ B.table) × (pen.me ≡ (nothing, [])) }
        ensures { result ≡ fresh_seat first number }
    {
        Seat {
            number,
            first,
            count: 0,
            share,
            pen,
            last: None,
        }
    }

    /// The seat's part of the ledger.
    pub fn into_share(self) -> Share<B>
        ensures { (result.parts ≡ self.parts) × (result.amount ≡ self.amount) }
    {
        let Seat {
            number: _,
            first: _,
            count: _,
            share,
            pen: _,
            last: _,
        } = self;
        share
    }

    /// Shows that a receipt of the place of the seat's last record has that record. Nothing changes.
    pub(crate) fn compare(&mut self, receipt: &mut Receipt<B>)
        ensures same { (self.new ≡ self.old) × (receipt.new ≡ receipt.old) }
        ensures agree { (r : Record) (q : Record) → self.old.last ≡ Some (told receipt.old.place r) →
            receipt.old.what ≡ Some q → q ≡ r }
    {
        let Some(last) = &mut self.last else {
            return;
        };
        if last.place() == receipt.place() {
            last.agree(receipt);
        }
    }

    /// The last place that the seat was answered or shown, plus 1. It takes no memory.
    pub fn first(&self) -> u64
        ensures { result ≡ self.now.first }
    {
        self.first
    }

    /// The seat's number among those of the store, from 0.
    pub fn number(&self) -> u64
        ensures { result ≡ self.now.number }
    {
        self.number
    }

    /// How many records the calls of the seat made. Its share of the ledger has just this amount.
    pub fn count(&self) -> u64
        ensures count { result ≡ self.now.count }
        ensures share { (self.now.parts ≡ 1) × (self.now.amount ≡ self.now.count) }
    {
        self.count
    }
}
