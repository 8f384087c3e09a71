//! A record that a seat asks for again, under the lock.

ghost use Rattle.std.specs.Prelude.{◌≡◌, ◌≤◌, ◌↔◌, IsTrue};
ghost use Rattle.locked_log.specs.Applies.{ClaimsHeld};
ghost use Rattle.locked_log.specs.Held.{held};
ghost use Rattle.store_seat.specs.Claims.{Owns};

use crate::state::State;
use history_row::Receipt;
use replica::Fleet;
use store_seat::{CallFault, Naming, Seat, claim, owns};
use store_step::master::Reply;

impl<F: Fleet, B: Naming> State<F, B> {
    /// Whether the record at the place is this seat's, was made since the store was, and isn't below the seat's first
    /// number. False if there is no record, or if it was forgotten. It takes no memory.
    pub fn owns_held(&self, seat: &Seat<B>, place: u64) -> bool
        ensures { IsTrue result ↔ (Owns self.now.start self.now.master.knows.history seat.now place
            × (self.now.master.knows.forgotten ≤ place)) }
    {
        owns(self.master.history(), &self.row, seat, place)
    }

    /// The reply of a record that is the seat's own, and a receipt of its place. Nothing changes.
    pub(crate) fn claim_held(
        &mut self,
        seat: &Seat<B>,
        place: u64,
    ) -> Result<(Reply, Receipt<B>), CallFault>
        ensures claims { ClaimsHeld (held F.state self.old) seat.now place result }
        ensures same { held F.state self.new ≡ held F.state self.old }
    {
        if self.is_refused {
            return Err(CallFault::CellRefused);
        }
        if !self.knows(seat) {
            return Err(CallFault::SeatUnknown);
        }
        if !self.owns_held(seat, place) {
            return Err(CallFault::NotYours);
        }
        claim(
            self.alloc,
            self.master.history(),
            &mut self.row,
            seat,
            place,
        )
    }
}
