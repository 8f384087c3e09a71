//! The end of a store.

ghost use Rattle.std.specs.Prelude.{IsTrue, drop};
ghost use Rattle.locked_log.specs.Ends.{AreServed};
ghost use Rattle.locked_log.specs.Made.{IsMade};
ghost use Rattle.history.specs.Seats.{AreOfSeats};
ghost use Rattle.locked_log.specs.master.Valid.{IsValid};
ghost use Rattle.locked_log.specs.master.World.{world};

use locked_log::master::Master;
use locked_log::{Naming, Seat, Store};
use replica::Fleet;

/// Takes the master of a store back. Answers whether the book's numbers of all given seats are the seats' own.
pub fn take_back<F: Fleet, B: Naming>(store: Store<F, B>, seats: Vec<Seat<B>>) -> (Master<F>, bool)
    ensures known { IsTrue result.1 → AreServed B.start result.0.knows seats.items }
    ensures made { IsMade B.made (world F.state result.0) }
    ensures no_others { AreOfSeats B.made.seats (drop B.start result.0.knows.history) }
    ensures valid { IsValid result.0.knows (F.state result.0.fleet) }
{
    match store.close(seats) {
        Ok((master, _row)) => (master, true),
        Err(master) => (master, false),
    }
}
