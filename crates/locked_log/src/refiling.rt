//! The records that a store has from the start on, since a store before it had them.

ghost use Rattle.std.specs.Prelude.{◌≡◌, ◌<◌, ◌≤◌, ◌+◌, ◌^◌, [], IfOk, IfSome, OnOk, true, length, drop, take};
ghost use Rattle.std.specs.Prelude.{slice_get};
ghost use Rattle.history.specs.Seats.{AreOfSeats};
ghost use Rattle.locked_log.specs.Renews.{AreFiled, AreSeatsAgain, IsOpenedAgain};

use entry::NoMemory;
use history_row::Row;
use mark_word::{Mark, Pen, another};
use std::alloc::Global;
use std::sync::ledger::{Book, Share};
use store_seat::{Account, Naming, Seat, file};
use store_step::master::History;

/// A book with the same seats and first numbers, in which no seat has a record.
pub(crate) fn open_again(alloc: Global, old: &Vec<Account>) -> Result<Vec<Account>, NoMemory>
    ensures { IfOk result (λ b. IsOpenedAgain old.now.items b.items) }
{
    let mut book = Vec::new(alloc);
    for number in 0..old.len() {
        book.push(Account {
            first: old[number].first,
            count: 0,
        })?;
    }
    Ok(book)
}

/// The seats of this book, each with its part of the share and a pen of its own. They have no record.
pub(crate) fn seat_again<B: Naming>(
    alloc: Global,
    mark: &Mark,
    mut pen: Pen,
    mut share: Share<B>,
    old: &Vec<Account>,
) -> Result<Vec<Seat<B>>, NoMemory>
    requires mark { (mark.now.shared.table_id.words ≡ 1) × (mark.now.shared.table_id ≡ B.table) }
    requires pen { pen.table_id ≡ B.table }
    requires share { (share.parts ≡ length old.now.items) × (share.amount ≡ 0) }
    requires seats { length old.now.items ≡ B.made.seats }
    ensures { IfOk result (λ v. AreSeatsAgain old.now.items [] v.items) }
{
    let mut given = Vec::new(alloc);
    for number in 0..old.len() {
        let mine = share.split_off(1, 0);
        let own = another(mark, &mut pen);
        given.push(Seat::new(number as u64, old[number].first, mine, own))?;
    }
    Ok(given)
}

/// Files all records of a history from the row's first cell on. With NoMemory some of them are filed.
#[tactic(auto, using(crate::proofs::Anew::seat_within, crate::proofs::Anew::filed_all))]
pub(crate) fn file_all<B: Naming>(
    alloc: Global,
    history: &History,
    old: &Vec<Account>,
    row: &mut Row<B>,
    book: &mut Vec<Account>,
    total: &mut Book<B>,
    seats: &mut Vec<Seat<B>>,
) -> Result<(), NoMemory>
    requires kept { (history.now.forgotten ≤ B.start) × (B.start ≤ length history.now.records) }
    requires few { length history.now.records < 2 ^ 63 }
    requires room { length history.now.records ≤ B.start + length row.old }
    requires of_seats { AreOfSeats (length old.now.items) (drop B.start history.now.records) }
    requires none { AreFiled old.now.items [] row.old book.old.items total.old.total seats.old.items }
    ensures { OnOk result (AreFiled old.now.items (drop B.start history.now.records) row.new book.new.items
        total.new.total seats.new.items) }
{
    for i in 0..history.len() - row.start() {
        if !file_next(alloc, history, old, i, row, book, total, seats) {
            return Err(NoMemory);
        }
    }
    Ok(())
}

/// Files the next record of a history. Answers whether there was memory for its cell.
fn file_next<B: Naming>(
    alloc: Global,
    history: &History,
    _old: &Vec<Account>,
    i: usize,
    row: &mut Row<B>,
    book: &mut Vec<Account>,
    total: &mut Book<B>,
    seats: &mut Vec<Seat<B>>,
) -> bool
    requires within { B.start + i < length history.now.records }
    requires few { length history.now.records < 2 ^ 63 }
    requires kept { history.now.forgotten ≤ B.start }
    requires room { length history.now.records ≤ B.start + length row.old }
    requires seat { IfSome (slice_get history.now.records (B.start + i)) (λ r. r.seat < length _old.now.items) }
    requires filed { AreFiled _old.now.items (take i (drop B.start history.now.records)) row.old book.old.items
        total.old.total seats.old.items }
    ensures cells { length row.new ≡ length row.old }
    ensures filed { result ≡ true → AreFiled _old.now.items (take (i + 1) (drop B.start history.now.records)) row.new
        book.new.items total.new.total seats.new.items }
{
    let place = row.start() + i;
    let Some(what) = history.get(place) else {
        unreachable!()
    };
    let seat = &mut seats[what.seat as usize];
    let mut is_refused = false;
    file(
        alloc,
        row,
        book,
        total,
        &mut is_refused,
        seat,
        place as u64,
        &what,
    )
}
