//! How a record is filed, and how a seat is answered.

ghost use Rattle.std.specs.Prelude.{◌≡◌, ◌<◌, ◌≤◌, ◌+◌, ◌-◌, ◌^◌, length, true, Some, MatchBool, slice_set};
ghost use Rattle.store_seat.specs.Accounts.{account, Knows, SettlesIn, SettlesNothingIn};
ghost use Rattle.history.specs.View.{shown_record};
ghost use Rattle.store_seat.specs.Seats.{told, noted, unnoted, answered};

use crate::account::{Account, is_known};
use crate::naming::Naming;
use crate::seat::Seat;
use history::RecordRef;
use history_row::Row;
use std::alloc::Global;
use std::sync::ledger::Book;

/// Files a record: in its cell, in the book and in the ledger. Answers whether the cell took the record. If it did,
/// the seat has a receipt of it. If it did not, the store is marked as refused.
pub fn file<B: Naming>(
    alloc: Global,
    row: &mut Row<B>,
    book: &mut Vec<Account>,
    total: &mut Book<B>,
    is_refused: &mut bool,
    seat: &mut Seat<B>,
    place: u64,
    what: &RecordRef<'_>,
) -> bool
    requires cell { (B.start ≤ place) × (place < B.start + length row.old) }
    requires known { Knows book.old.items seat.old }
    requires room { seat.old.count + 1 < 2 ^ 64 }
    ensures row { MatchBool result
        (row.new ≡ slice_set row.old (place - B.start) (Some (shown_record what.now))) (row.new ≡ row.old) }
    ensures book { book.new.items
        ≡ slice_set book.old.items seat.old.number (account seat.old.first (seat.old.count + 1)) }
    ensures total { total.new.total ≡ total.old.total + 1 }
    ensures refused { MatchBool result (is_refused.new ≡ is_refused.old) (is_refused.new ≡ true) }
    ensures seat { MatchBool result
        (seat.new ≡ noted seat.old (told place (shown_record what.now))) (seat.new ≡ unnoted seat.old) }
{
    let at = place as usize;
    let took = row.set(alloc, at, what);
    book[seat.number as usize].count = seat.count + 1;
    total.add(&mut seat.share, 1);
    seat.count += 1;
    if took {
        seat.last = Some(row.receipt(at));
    } else {
        *is_refused = true;
    }
    took
}

/// Marks the seat as answered up to this place, in the book too, if the place is below the durable count and the
/// book's numbers of the seat are the seat's own. Otherwise nothing changes. It takes no memory.
pub fn settle<B: Naming>(
    book: &mut Vec<Account>,
    seat: &mut Seat<B>,
    place: u64,
    durable: u64,
) -> bool
    ensures { MatchBool result
        (SettlesIn book.old.items seat.old place durable book.new.items seat.new)
        (SettlesNothingIn book.old.items seat.old place durable book.new.items seat.new) }
{
    if place >= durable || !is_known(book, seat) {
        return false;
    }
    answer(book, seat, place);
    true
}

/// Marks the seat as answered up to this place, in the book too.
fn answer<B: Naming>(book: &mut Vec<Account>, seat: &mut Seat<B>, place: u64)
    requires known { Knows book.old.items seat.old }
    requires room { place + 1 < 2 ^ 64 }
    ensures book { book.new.items
        ≡ slice_set book.old.items seat.old.number (account (place + 1) seat.old.count) }
    ensures seat { seat.new ≡ answered seat.old place }
{
    book[seat.number as usize].first = place + 1;
    seat.first = place + 1;
}
