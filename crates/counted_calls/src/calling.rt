//! One call of a seat.

ghost use Rattle.std.specs.Prelude.{◌≡◌, ◌≤◌, ◌+◌, OnOk};

use locked_log::master::Command;
use locked_log::{CallFault, Naming, Seat, Store};
use replica::Fleet;
use std::sync::Wait;

/// Makes one call, and answers once the command's record is durable. The caller keeps the command, and the reply isn't
/// looked at. The faults are those of `Store::call`.
pub fn call<F: Fleet, B: Naming, R: Wait>(
    rt: &R,
    store: &Store<F, B>,
    seat: &mut Seat<B>,
    command: &Command,
) -> Result<(), CallFault>
    ensures number { seat.new.number ≡ seat.old.number }
    ensures count { seat.old.count ≤ seat.new.count }
    ensures one { OnOk result (seat.new.count ≡ seat.old.count + 1) }
{
    if let Err(fault) = store.ask(rt, seat, command) {
        return Err(fault);
    }
    Ok(())
}
