//! A round of a cleaner, for a command that finds no room.

ghost use Rattle.std.specs.Prelude.{◌≡◌, ℕ, [], true, false, IfOk, IfErr};
ghost use Rattle.driving.specs.master.World.{world};
ghost use Rattle.driving.specs.Served.{IsSpent, LivesOn};
ghost use Rattle.tending.specs.Rounds.{IsFinished, IsGivenUp, MakesRound, BeginsOne};
ghost use Rattle.tending.specs.Tends.{TendsUntil};

use crate::choosing::begin;
use crate::notes::Notes;
use crate::policy::Policy;
use driving::master::{Master, Refusal};
use replica::Fleet;

/// The most steps of what is under way. No master needs as many: a pass has an entry for each 25 bytes of 32 segments
/// at most.
const MOST_STEPS: u64 = 4_294_967_296;

/// Makes steps of what is under way until nothing is. Answers false if it gave up after `MOST_STEPS` steps.
fn finish<F: Fleet>(master: &mut Master<F>) -> Result<bool, Refusal>
    ensures finished { result ≡ Ok true → IsFinished (world F.state master.old) (world F.state master.new) }
    ensures given_up { result ≡ Ok false → IsGivenUp (world F.state master.old) (world F.state master.new) }
    ensures refused { IfErr result (λ r.
        (most : ℕ) × TendsUntil most (world F.state master.old) r (world F.state master.new)) }
    ensures goes_on { LivesOn master.old.knows master.new.knows [] }
    ensures spent { IfErr result (λ r. r ≡ Refusal.Spent → IsSpent (F.state master.new.fleet)) }
{
    for made in 0..MOST_STEPS {
        let Some(step) = master.pending_step() else {
            return Ok(true);
        };
        if let Err(refusal) = master.step(step) {
            match refusal {
                Refusal::Lost(_) => {}
                _ => return Err(refusal),
            }
        }
    }
    Ok(false)
}

/// Makes one round of the cleaner for a command that finds no room, and answers whether more seglets are free than
/// before. What is under way comes to its end. Then the cleaner begins one thing more, as its policy says, and that
/// comes to its end as well: a segment is compacted, or a pass ends in its commit, and its victims are freed. If memory
/// isn't short, or no pass may begin and no compaction gives back a seglet, it begins nothing. Steps in which a backup
/// is lost count as made. After any other refusal, what was done stays done.
///
/// Cost: that of a whole pass, and of what was under way. After 2^32 steps of what is under way it gives up, and
/// answers false. No master needs as many.
pub fn make_room<F: Fleet>(
    master: &mut Master<F>,
    policy: &Policy,
    notes: &mut Notes,
) -> Result<bool, Refusal>
    ensures round { MakesRound policy.now (world F.state master.old) result (world F.state master.new) }
    ensures goes_on { LivesOn master.old.knows master.new.knows [] }
    ensures spent { IfErr result (λ r. r ≡ Refusal.Spent → IsSpent (F.state master.new.fleet)) }
{
    let free = master.free_seglets();
    match finish(master) {
        Ok(true) => {}
        Ok(false) => return Ok(false),
        Err(refusal) => return Err(refusal),
    }
    let Some(step) = begin(master, policy, notes)? else {
        return Ok(master.free_seglets() > free);
    };
    if let Err(refusal) = master.step(step) {
        match refusal {
            Refusal::Lost(_) => {}
            _ => return Err(refusal),
        }
    }
    match finish(master) {
        Ok(true) => Ok(master.free_seglets() > free),
        Ok(false) => Ok(false),
        Err(refusal) => Err(refusal),
    }
}
