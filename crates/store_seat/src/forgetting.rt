//! Up to which record no seat can settle one.

ghost use Rattle.std.specs.Prelude.{◌≡◌, ◌≤◌, ◌⊎◌, ◌↔◌, IsTrue, Some, length, slice_get};
ghost use Rattle.store_seat.specs.declared.account.Account.{Account as AccountValue};
ghost use Rattle.store_seat.specs.Accounts.{IsOpen, IsSettled};

use crate::account::Account;
use history::History;

/// The place of the first record from `from` on that its seat can still settle, among those that are durable; without
/// one, the durable count. It takes no memory, and reads the records up to that place.
pub fn settled_to(history: &History, book: &Vec<Account>, from: u64, durable: u64) -> u64
    requires kept { history.now.forgotten ≤ from }
    requires durable { durable ≤ length history.now.records }
    ensures settled { IsSettled from book.now.items history.now.records result }
    ensures near { IsOpen book.now.items history.now.records result ⊎ (durable ≤ result) }
{
    for place in from..durable {
        if is_open(history, book, place) {
            return place;
        }
    }
    durable
}

/// Whether the record at this place is of a seat that the book has, and isn't below the seat's first number.
fn is_open(history: &History, book: &Vec<Account>, place: u64) -> bool
    requires { history.now.forgotten ≤ place }
    ensures { IsTrue result ↔ IsOpen book.now.items history.now.records place }
{
    match history.get(place as usize) {
        Some(what) => is_first(book, what.seat, place),
        None => false,
    }
}

/// Whether the book has the seat, and its first number is at most this place.
fn is_first(book: &Vec<Account>, seat: u64, place: u64) -> bool
    ensures { IsTrue result ↔ ((a : AccountValue) × (slice_get book.now.items seat ≡ Some a) × (a.first ≤ place)) }
{
    match book.get(seat as usize) {
        Some(account) => account.first <= place,
        None => false,
    }
}
