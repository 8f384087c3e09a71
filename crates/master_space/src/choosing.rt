//! Which victims the next pass of a core takes, and which step a cleaner takes next.

ghost use Rattle.std.specs.Prelude.{◌≡◌, ◌≤◌, ◌<◌, ◌^◌, ◌&&◌, suc, nat_lt, take, vec_len, vec_capacity, IfOk, OnErr};
ghost use Rattle.std.specs.Prelude.{None, Some};
ghost use Rattle.cleaner.specs.Filling.{first_level};
ghost use Rattle.cleaner.specs.Passes.{AreIds};
ghost use Rattle.master_state.specs.Budget.{has_memory_for};
ghost use Rattle.master_state.specs.Causes.{survivors_for};
ghost use Rattle.master_space.specs.Choosing.{sorted, candidates, filled_by, fitting, chosen, pass_step, step_without};
ghost use Rattle.master_space.specs.Choosing.{next_step, NeedsChoice};

use crate::candidates::{Candidate, rank};
use crate::compacting::{is_survivor, opening_id};
use crate::filling::filled_by;
use crate::keeping::kept_in;
use crate::victims::{has_memory_for, has_places_for};
use cleaner::{Level, MAX_SURVIVORS, MAX_VICTIMS, Pass};
use compactor::LogSet;
use entry::{NoMemory, Row};
use master_state::{Core, Step};

/// Chooses the victims of the next pass, and changes nothing. Candidates are the segments of the digest in force that
/// are no heads. Those that keep the fewest bytes come first. The choice takes at most 32 of them. It ends before a
/// candidate whose kept entries would need a fifth survivor, or a survivor for which no memory is free.
pub fn choose(core: &Core) -> Result<Vec<u64>, NoMemory>
    ensures { IfOk result (λ ids. ids.items ≡ chosen core.now) }
{
    let NextPass { victims, .. } = choice(core)?;
    Ok(victims)
}

/// Returns the step that a cleaner takes next, and changes nothing. An open failover goes on first, then an open pass.
/// Without these, pushes come until the head is open. Then the replicas that wait are freed. Then the next pass
/// begins, if it may and has a victim. `None` means that nothing is to be done. Only the choice of victims allocates
/// memory.
pub fn next_step(core: &Core) -> Result<Option<Step>, NoMemory>
    ensures next { IfOk result (λ step. step ≡ next_step core.now) }
    ensures refused { OnErr result ((core.now.pass ≡ None) × NeedsChoice core.now) }
{
    if core.failover.is_some() {
        return Ok(Some(Step::Push));
    }
    match &core.pass {
        Some(pass) => Ok(Some(pass_step(core, pass))),
        None => step_without(core),
    }
}

/// The victims of the next pass, and how many survivors it has.
#[derive(Drop)]
struct NextPass {
    victims: Vec<u64>,
    /// How many survivors the kept entries of the victims fill.
    survivors: usize,
}

/// Chooses the victims of the next pass.
fn choice(core: &Core) -> Result<NextPass, NoMemory>
    ensures victims { IfOk result (λ choice. choice.victims.items ≡ chosen core.now) }
    ensures survivors { IfOk result (λ choice. choice.survivors ≡ survivors_for core.now (chosen core.now)) }
    ensures few { IfOk result (λ choice. choice.survivors ≤ 4) }
{
    let best = best(core)?;
    fitting(core, best.as_slice())
}

/// Takes the first candidates as victims. The choice ends before the first candidate whose kept entries would need more
/// survivors than a pass may have, or than there is memory for.
fn fitting(core: &Core, candidates: &[Candidate]) -> Result<NextPass, NoMemory>
    ensures victims { IfOk result (λ choice. choice.victims.items ≡ fitting core.now first_level candidates.now) }
    ensures survivors { IfOk result (λ choice. choice.survivors ≡ survivors_for core.now choice.victims.items) }
    ensures few { IfOk result (λ choice. choice.survivors ≤ 4) }
{
    let mut victims = Vec::with_capacity(core.alloc, candidates.len())?;
    let mut level = Level::first();
    for candidate in candidates {
        let next = filled_by(core, candidate.id, level);
        if !may_fill(core, next) {
            return Ok(NextPass {
                victims,
                survivors: level.survivor + 1,
            });
        }
        level = next;
        victims.push_reserved(candidate.id);
    }
    Ok(NextPass {
        victims,
        survivors: level.survivor + 1,
    })
}

/// Returns true if a pass may fill its survivors up to `level`: they are at most four, and there is memory for them and
/// one more segment.
fn may_fill(core: &Core, level: Level) -> bool
    ensures { result ≡ (nat_lt level.survivor 4 && has_memory_for core.now (suc level.survivor)) }
{
    level.survivor < MAX_SURVIVORS && has_memory_for(core, level.survivor + 1)
}

/// Returns the 32 candidates that keep the fewest bytes, sorted; all of them if they are fewer.
fn best(core: &Core) -> Result<Vec<Candidate>, NoMemory>
    ensures { IfOk result (λ best. best.items ≡ take 32 (sorted (candidates core.now))) }
{
    let mut best = Vec::with_capacity(core.alloc, MAX_VICTIMS + 1)?;
    let log = LogSet {
        closed: &core.closed,
        head: core.head.id(),
        new: opening_id(&core.head),
    };
    let images = core.closed.as_slice();
    for at in (0..images.len()).rev() {
        let image = &images[at];
        let id = image.id();
        if !is_survivor(core, id) {
            let kept = kept_in(core, id, &image.segment(), &log);
            rank(&mut best, Candidate { id, kept });
        }
    }
    Ok(best)
}

/// Returns the next step of an open pass: a copy or a seal, as long as one is left, and then a push or the roll of its
/// commit.
pub(crate) fn pass_step(core: &Core, pass: &Pass) -> Step
    requires { AreIds pass.now.survivors }
    ensures { result ≡ pass_step core.now pass.now }
{
    if !pass.is_at_end() {
        return Step::Copy;
    }
    if pass
        .next_seal(core.config.replicas as usize, &core.closed)
        .is_some()
    {
        return Step::Seal;
    }
    if core.head.is_open() {
        return Step::BeginRoll;
    }
    Step::Push
}

/// Returns the step that a cleaner takes next if no failover and no pass is open.
fn step_without(core: &Core) -> Result<Option<Step>, NoMemory>
    requires none { core.now.pass ≡ None }
    requires calm { core.now.failover ≡ None }
    ensures next { IfOk result (λ step. step ≡ step_without core.now) }
    ensures refused { OnErr result (NeedsChoice core.now) }
{
    if !core.head.is_open() {
        return Ok(Some(Step::Push));
    }
    if !core.waiting.is_empty() {
        return Ok(Some(Step::Free));
    }
    let NextPass { victims, survivors } = choice(core)?;
    if has_places_for(core, victims.len(), survivors) && !victims.is_empty() {
        return Ok(Some(Step::BeginClean(Row::new(victims))));
    }
    Ok(None)
}
