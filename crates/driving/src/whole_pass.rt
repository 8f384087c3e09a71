//! A whole cleaning, from the begin of its pass to the last free.

ghost use Rattle.std.specs.Prelude.{◌≡◌, [], None, IfErr, OnOk};
ghost use Rattle.master.specs.World.{world};
ghost use Rattle.driving.specs.Cleans.{Cleans, IsMended, IsNotMended, TurnsOut, TurnsUntil};
ghost use Rattle.driving.specs.Served.{IsSpent, LivesOn};

use entry::Row;
use master::{Master, Refusal, Step, StepAnswer, Survivors};
use replica::Fleet;

/// Pushes a failover that is open to its end, or until a push is refused.
fn mend_all<F: Fleet>(master: &mut Master<F>) -> Result<(), Refusal>
    ensures goes_on { LivesOn master.old.knows master.new.knows [] }
    ensures mended { OnOk result (IsMended (world F.state master.old) (world F.state master.new)) }
    ensures refused { IfErr result (λ r. IsNotMended (world F.state master.old) r (world F.state master.new)) }
    ensures spent { IfErr result (λ r. r ≡ Refusal.Spent → IsSpent (F.state master.new.fleet)) }
{
    while master.failover_left() > 0 {
        if let Err(refusal) = master.step(Step::Push) {
            return Err(refusal);
        }
    }
    Ok(())
}

/// Makes the steps that are under way until there is none, or one is refused for good. No failover may be open before.
fn turn_all<F: Fleet>(master: &mut Master<F>) -> Result<(), Refusal>
    requires { master.old.knows.failover ≡ None }
    ensures goes_on { LivesOn master.old.knows master.new.knows [] }
    ensures turned { OnOk result (TurnsOut (world F.state master.old) (world F.state master.new)) }
    ensures refused { IfErr result (λ r. TurnsUntil (world F.state master.old) r (world F.state master.new)) }
    ensures spent { IfErr result (λ r. r ≡ Refusal.Spent → IsSpent (F.state master.new.fleet)) }
{
    while let Some(step) = master.pending_step() {
        if let Err(refusal) = master.step(step) {
            match refusal {
                Refusal::Lost(_) => {}
                _ => return Err(refusal),
            }
        }
    }
    Ok(())
}

/// Cleans these segments, and answers the survivors and the head that is in force then. After a refusal, what was done
/// stays done.
pub fn clean_all<F: Fleet>(
    master: &mut Master<F>,
    victims: Row<u64>,
) -> Result<(Survivors, u64), Refusal>
    ensures goes_on { LivesOn master.old.knows master.new.knows [] }
    ensures cleaned { Cleans (world F.state master.old) victims result (world F.state master.new) }
    ensures spent { IfErr result (λ r. r ≡ Refusal.Spent → IsSpent (F.state master.new.fleet)) }
{
    mend_all(master)?;
    match master.step(Step::BeginClean(victims)) {
        Ok(StepAnswer::Begun(survivors)) => {
            master.show_kept();
            match turn_all(master) {
                Ok(()) => Ok((survivors, master.head())),
                Err(refusal) => Err(refusal),
            }
        }
        Ok(_) => unreachable!(),
        Err(refusal) => Err(refusal),
    }
}
