//! A command, until its record is durable.

ghost use Rattle.std.specs.Prelude.{◌≡◌, Err, IfOk, IfErr};
ghost use Rattle.history.specs.View.{shown_command};
ghost use Rattle.master.specs.World.{world};
ghost use Rattle.driving.specs.Commands.{Tries};
ghost use Rattle.driving.specs.Served.{IsServedAt, IsUnserved, IsSpent};

use crate::pushing::push_until;
use master::{CommandRef, Master, Refusal};
use replica::Fleet;

/// Applies a command of seat 0, whose bytes may lie anywhere, and pushes until its record is durable. The result is
/// the place of the record, which has the reply. If a push was refused, the command was applied, and a backup may have
/// taken an op of it.
#[inline(always)]
pub fn serve<F: Fleet>(master: &mut Master<F>, command: &CommandRef<'_>) -> Result<u64, Refusal>
    ensures served { IfOk result (λ place.
        IsServedAt (world F.state master.old) (shown_command command.now) place (world F.state master.new)) }
    ensures unserved { IfErr result (λ r.
        IsUnserved master.old.knows (shown_command command.now) r (world F.state master.new)) }
    ensures tried { IfErr result (λ r.
        Tries (world F.state master.old) (shown_command command.now) (Err r) (world F.state master.new)) }
    ensures spent { IfErr result (λ r. r ≡ Refusal.Spent → IsSpent (F.state master.new.fleet)) }
{
    match master.accept(0, command) {
        Ok(place) => match push_until(master, place) {
            Ok(()) => Ok(place),
            Err(refusal) => Err(refusal),
        },
        Err(refusal) => Err(refusal),
    }
}
