//! Pushes, and the roll that they end.

ghost use Rattle.std.specs.Prelude.{◌≡◌, ◌<◌, [], length, true, IfOk, IfErr};
ghost use Rattle.master.specs.log_laws.Data.{durable_of};
ghost use Rattle.master.specs.master_state.Budget.{is_working};
ghost use Rattle.master.specs.master_state.Log.{log_of};
ghost use Rattle.master.specs.World.{world};
ghost use Rattle.driving.specs.Commands.{PushesTo, StopsShort};
ghost use Rattle.driving.specs.Rolls.{PushesUntil, IsRolled, IsNotRolled};
ghost use Rattle.driving.specs.Served.{LivesOn, IsSpent, is_of_push};

use crate::driven::Driven;
use master::{Master, Refusal};
use replica::Fleet;

/// Pushes until nothing waits, or a push is refused for good. If a backup fails, the pushes go on with its failover.
pub fn push_all<D: Driven>(master: &mut D) -> Result<(), Refusal>
    ensures goes_on { D.goes_on (D.world master.old) (D.world master.new) }
    ensures open { IfOk result (λ _. is_working (D.world master.new).knows ≡ true) }
    ensures pushed { IfOk result (λ _. PushesUntil (D.world master.old) Refusal.Nothing (D.world master.new)) }
    ensures refused { IfErr result (λ r. PushesUntil (D.world master.old) r (D.world master.new)) }
    ensures waits { IfErr result (λ r. r ≡ Refusal.Nothing → ⊥) }
    ensures spent { IfErr result (λ r. r ≡ Refusal.Spent → IsSpent (D.world master.new).fleet) }
{
    loop {
        if let Err(refusal) = master.push() {
            match refusal {
                Refusal::Nothing => return Ok(()),
                Refusal::Lost(_) => {}
                _ => return Err(refusal),
            }
        }
    }
}

/// Begins a roll if none is under way and no failover is open, and pushes until nothing waits.
pub fn roll_all<D: Driven>(master: &mut D) -> Result<(), Refusal>
    ensures goes_on { D.goes_on (D.world master.old) (D.world master.new) }
    ensures rolled { IfOk result (λ _.
        IsRolled (D.world master.old) (D.world master.new).knows.head.id (D.world master.new)) }
    ensures refused { IfErr result (λ r. IsNotRolled (D.world master.old) r (D.world master.new)) }
    ensures spent { IfErr result (λ r. r ≡ Refusal.Spent → IsSpent (D.world master.new).fleet) }
{
    match master.begin_roll() {
        Ok(_) => push_all(master),
        Err(refusal) => match refusal {
            Refusal::Rolling => push_all(master),
            _ => Err(refusal),
        },
    }
}

/// Pushes until the record at this place is durable, or a push is refused for good. Something waits until then, so no
/// push is refused as Nothing. If a backup fails, the pushes go on.
#[inline(always)]
pub fn push_until<F: Fleet>(master: &mut Master<F>, place: u64) -> Result<(), Refusal>
    requires { place < length master.old.knows.history }
    ensures goes_on { LivesOn master.old.knows master.new.knows [] }
    ensures durable { IfOk result (λ _. place < durable_of (log_of master.new.knows)) }
    ensures pushed { IfOk result (λ _. PushesTo place (world F.state master.old) (world F.state master.new)) }
    ensures refused { IfErr result (λ r. StopsShort place (world F.state master.old) r (world F.state master.new)) }
    ensures waits { IfErr result (λ r. is_of_push r ≡ true) }
    ensures spent { IfErr result (λ r. r ≡ Refusal.Spent → IsSpent (F.state master.new.fleet)) }
{
    loop {
        match master.push_unless_durable(place) {
            Ok(true) => return Ok(()),
            Ok(false) => {}
            Err(refusal) => match refusal {
                Refusal::Lost(_) => {}
                _ => return Err(refusal),
            },
        }
    }
}
