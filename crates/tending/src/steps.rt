//! The steps of a cleaner.

ghost use Rattle.std.specs.Prelude.{◌≡◌, ◌<◌, ◌&&◌, [], None, Some, not, true, IfOk, IfErr, IfSome};
ghost use Rattle.driving.specs.master.World.{world};
ghost use Rattle.driving.specs.master.Keeps.{Keeps};
ghost use Rattle.driving.specs.master.master_space.Choosing.{next_step, pending_step};
ghost use Rattle.driving.specs.Served.{IsSpent, LivesOn};
ghost use Rattle.tending.specs.Low.{is_low, is_tight, MayRest};
ghost use Rattle.tending.specs.Tends.{IsTendStep, IsTended, MakesStep, TendsUntil, is_compaction};

use crate::choosing::begin;
use crate::notes::Notes;
use crate::policy::Policy;
use driving::master::{Master, Refusal, Step};
use entry::NoMemory;
use replica::Fleet;

/// The next step of the cleaner, if there is one: what is under way goes on first. For whoever makes the steps one by
/// one. It notes and counts segments, and changes nothing else. If memory runs out for that, it chooses nothing.
pub fn choose_step<F: Fleet>(
    master: &mut Master<F>,
    policy: &Policy,
    notes: &mut Notes,
) -> Result<Option<Step>, NoMemory>
    ensures some { IfOk result (λ step. IfSome step (IsTendStep master.new.knows)) }
    ensures none { IfOk result (λ step. step ≡ None → MayRest policy.now master.new.knows) }
    ensures same { world F.state master.new ≡ world F.state master.old }
{
    match master.pending_step() {
        Some(step) => Ok(Some(step)),
        None => begin(master, policy, notes),
    }
}

/// Makes up to so many steps of the cleaner, and answers how many it made. What is under way goes on first. If nothing
/// is, and memory is short or the digest crowded (`is_low`), a segment is compacted or a pass begins. The answer is
/// below `most` only if nothing is under way, and either nothing has to begin or no pass may begin. So passes follow
/// one another while memory is short, even if they give back nothing. A step in which a backup is lost counts as one.
/// After any other refusal, what was done stays done.
///
/// Cost: a step is one entry, one op of one backup, one segment that is compacted, or one pass that begins. Whatever
/// begins is chosen by what is counted and noted of the segments, once for each. A segment is read once, when the
/// cleaner first looks at it behind the roll that closed it.
pub fn tend<F: Fleet>(
    master: &mut Master<F>,
    policy: &Policy,
    notes: &mut Notes,
    most: u64,
) -> Result<u64, Refusal>
    ensures tended { IfOk result (λ made.
        IsTended most made (world F.state master.old) (world F.state master.new)) }
    ensures refused { IfErr result (λ r. TendsUntil most (world F.state master.old) r (world F.state master.new)) }
    ensures goes_on { LivesOn master.old.knows master.new.knows [] }
    ensures keeps { Keeps most (world F.state master.old) (world F.state master.new) }
    ensures spent { IfErr result (λ r. r ≡ Refusal.Spent → IsSpent (F.state master.new.fleet)) }
    ensures able { IfOk result (λ made.
        made < most → is_low policy.now master.new.knows ≡ true → next_step master.new.knows ≡ None) }
{
    for made in 0..most {
        match make_step(master, policy, notes) {
            Ok(Some(_)) => {}
            Ok(None) => return Ok(made),
            Err(refusal) => return Err(refusal),
        }
    }
    Ok(most)
}

/// Makes the next step of the cleaner, if there is one, and answers whether a cleaner behind a command stops behind it:
/// the step compacts a segment, and memory isn't tight. A step in which a backup is lost counts as made.
pub(crate) fn make_step<F: Fleet>(
    master: &mut Master<F>,
    policy: &Policy,
    notes: &mut Notes,
) -> Result<Option<bool>, Refusal>
    ensures makes { MakesStep policy.now (world F.state master.old) result (world F.state master.new) }
    ensures goes_on { LivesOn master.old.knows master.new.knows [] }
    ensures keeps { Keeps 1 (world F.state master.old) (world F.state master.new) }
    ensures spent { IfErr result (λ r. r ≡ Refusal.Spent → IsSpent (F.state master.new.fleet)) }
{
    if master.is_copying() {
        return copy_entry(master, policy);
    }
    let Some(step) = choose_step(master, policy, notes)? else {
        return Ok(None);
    };
    let is_long = is_compaction(&step);
    match master.step(step) {
        Ok(_) => Ok(Some(stops(master, policy, is_long))),
        Err(refusal) => match refusal {
            Refusal::Lost(_) => Ok(Some(stops(master, policy, is_long))),
            _ => Err(refusal),
        },
    }
}

/// Treats the next entry of the open pass. The policy stands in the clause alone: no policy stops behind such a step.
#[inline(always)]
fn copy_entry<F: Fleet>(master: &mut Master<F>, _policy: &Policy) -> Result<Option<bool>, Refusal>
    requires { pending_step master.old.knows ≡ Some Step.Copy }
    ensures makes { MakesStep _policy.now (world F.state master.old) result (world F.state master.new) }
    ensures goes_on { LivesOn master.old.knows master.new.knows [] }
    ensures keeps { Keeps 1 (world F.state master.old) (world F.state master.new) }
    ensures spent { IfErr result (λ r. r ≡ Refusal.Spent → IsSpent (F.state master.new.fleet)) }
{
    match master.step(Step::Copy) {
        Ok(_) => Ok(Some(false)),
        Err(refusal) => match refusal {
            Refusal::Lost(_) => Ok(Some(false)),
            other => Err(other),
        },
    }
}

/// Whether a cleaner behind a command stops behind a step that was made and is long.
fn stops<F: Fleet>(master: &Master<F>, policy: &Policy, is_long: bool) -> bool
    ensures { result ≡ is_long && not (is_tight policy.now master.now.knows) }
{
    is_long && !policy.is_tight(master)
}

/// Whether a step compacts a segment.
fn is_compaction(step: &Step) -> bool
    ensures { result ≡ is_compaction step.now }
{
    match step {
        Step::Compact(_) => true,
        _ => false,
    }
}
