//! How a seat gets a record of its own again.

ghost use Rattle.std.specs.Prelude.{◌≡◌, ◌<◌, ◌≤◌, ◌↔◌, IsTrue, IfOk, IfSome, drop, length, slice_get};
ghost use Rattle.history_row.specs.Rows.{IsRowOf};
ghost use Rattle.store_seat.specs.Claims.{Owns, Claims};

use crate::fault::CallFault;
use crate::naming::Naming;
use crate::seat::Seat;
use entry::NoMemory;
use history::History;
use history_row::{Receipt, Row};
use master_core::Refusal;
use std::alloc::Global;
use versioned_map::Reply;

/// Whether the history has a record of this seat at the place, the row has a cell for it, and the place isn't below the
/// seat's first number. False if the record was forgotten. It takes no memory.
pub fn owns<B: Naming>(history: &History, row: &Row<B>, seat: &Seat<B>, place: u64) -> bool
    ensures { IsTrue result ↔ (Owns B.start history.now.records seat.now place × (history.now.forgotten ≤ place)) }
{
    if place < seat.first || place < row.start() as u64 {
        return false;
    }
    match history.get(place as usize) {
        Some(what) => what.seat == seat.number,
        None => false,
    }
}

/// The reply of a record that the seat owns, and a receipt of its place. Nothing changes. Memory is asked for only if
/// the reply has a value of more than 15 bytes. If it is refused, the seat knows no more of the record than before.
pub fn claim<B: Naming>(
    alloc: Global,
    history: &History,
    row: &mut Row<B>,
    seat: &Seat<B>,
    place: u64,
) -> Result<(Reply, Receipt<B>), CallFault>
    requires written { IsRowOf row.old (drop B.start history.now.records) }
    requires owned { Owns B.start history.now.records seat.now place }
    requires kept { history.now.forgotten ≤ place }
    ensures row { row.new ≡ row.old }
    ensures claims { Claims history.now.records seat.now place result }
{
    match reply_at(alloc, history, place) {
        Ok(reply) => Ok((reply, row.receipt(place as usize))),
        Err(_) => Err(CallFault::Unsure(place, Refusal::NoMemory)),
    }
}

/// The reply of the record at this place.
fn reply_at(alloc: Global, history: &History, place: u64) -> Result<Reply, NoMemory>
    requires { (history.now.forgotten ≤ place) × (place < length history.now.records) }
    ensures { IfOk result (λ reply. IfSome (slice_get history.now.records place) (λ r. reply ≡ r.reply)) }
{
    let Some(what) = history.get(place as usize) else {
        unreachable!()
    };
    what.reply.to_reply(alloc)
}
