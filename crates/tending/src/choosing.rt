//! What a cleaner begins.

ghost use Rattle.std.specs.Prelude.{◌≡◌, None, IfOk, IfSome};
ghost use Rattle.driving.specs.master.master_space.Choosing.{next_step, pending_step};
ghost use Rattle.driving.specs.master.World.{world};
ghost use Rattle.tending.specs.Low.{MayRest};
ghost use Rattle.tending.specs.Tends.{IsBegin};

use crate::notes::Notes;
use crate::policy::{Policy, product};
use crate::weighing::{Weight, count_all, weigh_all};
use driving::master::{Master, Step};
use entry::{NoMemory, Row};
use replica::Fleet;
use std::alloc::Global;

/// The most victims that a pass may have.
const MOST_VICTIMS: usize = 32;

/// The segment whose compaction gives back most seglets for what it keeps, if one gives back any.
fn best_of(weights: &[Weight]) -> Option<u64> {
    let mut best = None;
    let mut best_gain: u64 = 0;
    let mut best_cost: u64 = 1;
    for weight in weights {
        let cost = weight.kept.saturating_add(1);
        if product(weight.gain, best_cost) > product(best_gain, cost) {
            best = Some(weight.id);
            best_gain = weight.gain;
            best_cost = cost;
        }
    }
    best
}

/// Returns true if a pass comes before a compaction. The log then has many segments for its digest or for its memory,
/// or tombstones fill much of the memory that objects and the spared segments leave.
fn wants_pass<F: Fleet>(master: &Master<F>, policy: &Policy, weights: &[Weight]) -> bool {
    let memory = master.config().seglets.saturating_mul(policy.seglet);
    let closed = weights.len() as u64;
    policy.is_crowded_by(closed.saturating_add(1))
        || policy.is_long(closed, memory)
        || policy.is_buried(weights, memory)
}

/// The victims of a pass, with the sums of what they keep and of the seglets that they give back.
#[derive(Drop)]
struct Choice {
    victims: Vec<u64>,
    kept: u64,
    seglets: u64,
}

/// The segment that keeps least for what it gives back, of those that keep so many bytes at most and aren't taken yet.
fn cheapest(weights: &[Weight], most: u64, taken: &[u64]) -> Option<Weight> {
    let mut best: Option<Weight> = None;
    let mut best_kept: u64 = 1;
    let mut best_gives: u64 = 0;
    for weight in weights {
        let is_better = product(weight.kept, best_gives) < product(best_kept, weight.gives);
        if is_better && weight.kept <= most && !taken.contains(&weight.id) {
            best = Some(*weight);
            best_kept = weight.kept;
            best_gives = weight.gives;
        }
    }
    best
}

/// The victims of a pass, by what they keep for what they give back: as many as fill the survivors that leave a put's
/// roll its memory.
fn choose(
    policy: &Policy,
    alloc: Global,
    free: u64,
    weights: &[Weight],
) -> Result<Choice, NoMemory> {
    let mut choice = Choice {
        victims: Vec::new(alloc),
        kept: 0,
        seglets: 0,
    };
    let space = policy.space_of(policy.survivors_in(free));
    for _ in 0..MOST_VICTIMS {
        let left = space.saturating_sub(choice.kept);
        match cheapest(weights, left, choice.victims.as_slice()) {
            Some(weight) => {
                choice.victims.push(weight.id)?;
                choice.kept = choice.kept.saturating_add(weight.kept);
                choice.seglets = choice.seglets.saturating_add(weight.seglets);
            }
            None => return Ok(choice),
        }
    }
    Ok(choice)
}

/// The step that compacts this segment, if there is one.
fn compaction(id: Option<u64>) -> Option<Step>
    ensures { IfSome result IsBegin }
{
    match id {
        Some(id) => Some(Step::Compact(id)),
        None => None,
    }
}

/// The pass of this choice, if it may begin and gives back a seglet. If it would leave less than two whole segments
/// free, this segment is compacted instead, if there is one.
fn pass_of(
    policy: &Policy,
    free: u64,
    listed: u64,
    choice: Choice,
    best: Option<u64>,
) -> Option<Step>
    ensures { IfSome result IsBegin }
{
    let survivors = policy.survivors_for(choice.kept);
    let count = choice.victims.len() as u64;
    let fills = policy.seglets(choice.kept).saturating_add(survivors);
    let has_places = policy.has_places(listed.saturating_sub(count).saturating_add(survivors));
    if count == 0
        || choice.seglets <= fills
        || !has_places
        || !policy.has_memory_for(free, survivors)
    {
        return None;
    }
    if policy.leaves_little(free, survivors) {
        if let Some(id) = best {
            return Some(Step::Compact(id));
        }
    }
    Some(Step::BeginClean(Row::new(choice.victims)))
}

/// What begins if nothing is under way. It notes and counts segments, and changes nothing else. Each roll's segment is
/// noted at the next call, so that no call has to note many.
pub(crate) fn begin<F: Fleet>(
    master: &mut Master<F>,
    policy: &Policy,
    notes: &mut Notes,
) -> Result<Option<Step>, NoMemory>
    requires { pending_step master.old.knows ≡ None }
    ensures some { IfOk result (λ step. IfSome step IsBegin) }
    ensures none { IfOk result (λ step. step ≡ None → MayRest policy.now master.new.knows) }
    ensures same { world F.state master.new ≡ world F.state master.old }
{
    if notes.are_behind(master) {
        count_all(master)?;
        notes.update(master)?;
    }
    if !policy.is_low(master) {
        return Ok(None);
    }
    begin_by(master, policy, notes)
}

/// What begins if nothing is under way and memory is short or the digest crowded. Nothing changes.
fn begin_by<F: Fleet>(
    master: &Master<F>,
    policy: &Policy,
    notes: &Notes,
) -> Result<Option<Step>, NoMemory>
    requires { pending_step master.now.knows ≡ None }
    ensures some { IfOk result (λ step. IfSome step IsBegin) }
    ensures none { IfOk result (λ step. step ≡ None → MayRest policy.now master.now.knows) }
{
    let weights = weigh_all(master, policy, notes)?;
    let best = best_of(weights.as_slice());
    if let Some(id) = best {
        if !wants_pass(master, policy, weights.as_slice()) {
            return Ok(Some(Step::Compact(id)));
        }
    }
    let free = master.free_seglets();
    let choice = choose(policy, notes.alloc(), free, weights.as_slice())?;
    if let Some(step) = pass_of(policy, free, weights.len() as u64, choice, best) {
        return Ok(Some(step));
    }
    if let Some(id) = best {
        return Ok(Some(Step::Compact(id)));
    }
    match master.next_step()? {
        Some(_) => Ok(Some(Step::BeginClean(Row::new(master.choose()?)))),
        None => Ok(None),
    }
}
