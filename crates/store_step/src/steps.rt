//! One step of a master: a seat's command, or a turn of the cleaner.

ghost use Rattle.std.specs.Prelude.{◌≡◌};
ghost use Rattle.history.specs.View.{shown_command};
ghost use Rattle.master.specs.Keeps.{Keeps};
ghost use Rattle.master.specs.Valid.{IsValid};
ghost use Rattle.master.specs.World.{world};
ghost use Rattle.store_step.specs.Turns.{MakesTurn, MakesCommand};

use crate::turn::CleanTurn;
use master::{CommandRef, Master, Refusal, Reply, Step, StepAnswer};
use replica::Fleet;

/// Applies one command of this seat, whose bytes may lie anywhere. The result is the place of its record, and the
/// reply.
pub fn apply_command<F: Fleet>(
    master: &mut Master<F>,
    seat: u64,
    command: &CommandRef<'_>,
) -> Result<(u64, Reply), Refusal>
    ensures gives { MakesCommand (world F.state master.old) seat (shown_command command.now) result
        (world F.state master.new) }
    ensures keeps { Keeps 1 (world F.state master.old) (world F.state master.new) }
    ensures remembers { master.new.knows.forgotten ≡ master.old.knows.forgotten }
    ensures valid { IsValid master.new.knows (F.state master.new.fleet) }
{
    match master.answer(seat, command) {
        Ok(answer) => Ok(answer),
        Err(refusal) => Err(refusal),
    }
}

/// Makes a turn of the cleaner.
pub fn make_turn<F: Fleet>(master: &mut Master<F>, turn: CleanTurn) -> Result<StepAnswer, Refusal>
    ensures gives { MakesTurn (world F.state master.old) turn result (world F.state master.new) }
    ensures keeps { Keeps 1 (world F.state master.old) (world F.state master.new) }
    ensures remembers { master.new.knows.forgotten ≡ master.old.knows.forgotten }
    ensures valid { IsValid master.new.knows (F.state master.new.fleet) }
{
    master.show_valid();
    match turn {
        CleanTurn::Next => make_next(master),
        CleanTurn::Push => master.step(Step::Push),
        CleanTurn::BeginRoll => master.step(Step::BeginRoll),
        CleanTurn::Compact(id) => master.step(Step::Compact(id)),
        CleanTurn::BeginClean(ids) => master.step(Step::BeginClean(ids)),
        CleanTurn::Copy => master.step(Step::Copy),
        CleanTurn::Seal => master.step(Step::Seal),
        CleanTurn::Free => master.step(Step::Free),
    }
}

/// Makes the step that the master says is next.
fn make_next<F: Fleet>(master: &mut Master<F>) -> Result<StepAnswer, Refusal>
    ensures gives { MakesTurn (world F.state master.old) CleanTurn.Next result (world F.state master.new) }
    ensures keeps { Keeps 1 (world F.state master.old) (world F.state master.new) }
    ensures remembers { master.new.knows.forgotten ≡ master.old.knows.forgotten }
    ensures valid { IsValid master.new.knows (F.state master.new.fleet) }
{
    master.show_valid();
    match master.next_step() {
        Ok(Some(step)) => master.step(step),
        Ok(None) => Err(Refusal::Nothing),
        Err(_) => Err(Refusal::NoMemory),
    }
}
