//! What a store's book has of a seat.

ghost use Rattle.std.specs.Prelude.{◌≡◌, ◌↔◌, IsTrue};
ghost use Rattle.store_seat.specs.Accounts.{Knows};

use crate::naming::Naming;
use crate::seat::Seat;

/// What the book has of a seat.
#[derive(Clone, Copy)]
pub struct Account {
    /// The last place that the seat was answered or shown, plus 1.
    pub first: u64,
    /// How many records of the seat there are.
    pub count: u64,
}

/// Whether the book's numbers of the seat are the seat's own.
pub fn is_known<B: Naming>(book: &Vec<Account>, seat: &Seat<B>) -> bool
    ensures { IsTrue result ↔ Knows book.now.items seat.now }
{
    match book.get(seat.number as usize) {
        Some(account) => account.first == seat.first && account.count == seat.count,
        None => false,
    }
}
