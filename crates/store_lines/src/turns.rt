//! Steps of the cleaner and of the log, by turns of the store.

use crate::command::row_of;
use crate::fault::LineFault;
use backup::MemoryFleet;
use entry::{NoMemory, Row};
use lines::Line;
use locked_log::{CleanTurn, Naming, Store};
use next_master::answers::Answer;
use next_master::master::{Look, PassFault, Refusal, Shown, StepAnswer};
use std::alloc::Global;
use std::sync::Wait;

/// Turns of one kind.
#[derive(Clone, Copy)]
pub enum Phase {
    Pushes,
    Copies,
    Seals,
    Frees,
}

impl Phase {
    fn turn(self) -> CleanTurn {
        match self {
            Phase::Pushes => CleanTurn::Push,
            Phase::Copies => CleanTurn::Copy,
            Phase::Seals => CleanTurn::Seal,
            Phase::Frees => CleanTurn::Free,
        }
    }
}

/// The answer to a line of the log or of the cleaner. None if the line is another one.
pub fn turn_line<B: Naming, R: Wait>(
    rt: &R,
    alloc: Global,
    store: &Store<MemoryFleet, B>,
    line: Line<'_>,
) -> Result<Option<Answer>, LineFault> {
    match line {
        Line::Roll => Ok(Some(roll(rt, store))),
        Line::Clean { segments } => {
            let victims = row_of(alloc, segments)?;
            Ok(Some(clean(rt, alloc, store, victims)))
        }
        _ => match turn_of(alloc, line)? {
            Some(turn) => Ok(Some(take_turn(rt, store, turn))),
            None => Ok(None),
        },
    }
}

/// The turn that a line of one step asks for.
fn turn_of(alloc: Global, line: Line<'_>) -> Result<Option<CleanTurn>, LineFault> {
    match line {
        Line::BeginRoll => Ok(Some(CleanTurn::BeginRoll)),
        Line::Compact { segment } => Ok(Some(CleanTurn::Compact(segment))),
        Line::Push => Ok(Some(CleanTurn::Push)),
        Line::Begin { segments } => Ok(Some(CleanTurn::BeginClean(row_of(alloc, segments)?))),
        Line::Copy => Ok(Some(CleanTurn::Copy)),
        Line::Seal => Ok(Some(CleanTurn::Seal)),
        Line::Free => Ok(Some(CleanTurn::Free)),
        _ => Ok(None),
    }
}

/// Makes one step, and gives its answer.
fn take_turn<B: Naming, R: Wait>(rt: &R, store: &Store<MemoryFleet, B>, turn: CleanTurn) -> Answer {
    match store.turn(rt, turn) {
        Ok(made) => Answer::Step(made),
        Err(refusal) => refuse(rt, store, refusal),
    }
}

/// The answer for a refusal. If the fleet takes no more ops, the limit is lifted.
pub fn refuse<B: Naming, R: Wait>(
    rt: &R,
    store: &Store<MemoryFleet, B>,
    refusal: Refusal,
) -> Answer {
    match refusal {
        Refusal::Spent => {
            store.limit(rt, u64::MAX);
            Answer::Stopped
        }
        _ => Answer::Refused(refusal),
    }
}

/// Takes turns of one kind until nothing is left to do, or one is refused for good. If a backup fails, the turns don't
/// end: its failover is pushed to its end.
pub fn take_all<B: Naming, R: Wait>(
    rt: &R,
    store: &Store<MemoryFleet, B>,
    phase: Phase,
) -> Result<(), Refusal> {
    for _ in rt.forever() {
        if let Err(refusal) = store.turn(rt, phase.turn()) {
            match refusal {
                Refusal::Nothing => return Ok(()),
                Refusal::Lost(_) => push_all(rt, store)?,
                _ => return Err(refusal),
            }
        }
    }
    unreachable!()
}

/// Pushes until nothing waits, or a push is refused for good.
fn push_all<B: Naming, R: Wait>(rt: &R, store: &Store<MemoryFleet, B>) -> Result<(), Refusal> {
    for _ in rt.forever() {
        if let Err(refusal) = store.turn(rt, CleanTurn::Push) {
            match refusal {
                Refusal::Nothing => return Ok(()),
                Refusal::Lost(_) => {}
                _ => return Err(refusal),
            }
        }
    }
    unreachable!()
}

/// Begins a roll if none is under way, and pushes until nothing waits.
fn roll_all<B: Naming, R: Wait>(rt: &R, store: &Store<MemoryFleet, B>) -> Result<(), Refusal> {
    match store.turn(rt, CleanTurn::BeginRoll).err() {
        None | Some(Refusal::Rolling) => push_all(rt, store),
        Some(refusal) => Err(refusal),
    }
}

/// The id of the head in force.
fn head<B: Naming, R: Wait>(rt: &R, store: &Store<MemoryFleet, B>) -> Result<u64, Refusal> {
    match store.look(rt, Look::Digest) {
        Ok(shown) => head_in(&shown).ok_or(Refusal::NoMemory),
        Err(NoMemory) => Err(Refusal::NoMemory),
    }
}

/// The last of the ids that are shown, which is the head's.
fn head_in(shown: &Shown) -> Option<u64> {
    match shown {
        Shown::Digest(ids) => ids.as_slice().last().copied(),
        _ => None,
    }
}

fn roll<B: Naming, R: Wait>(rt: &R, store: &Store<MemoryFleet, B>) -> Answer {
    if let Err(refusal) = roll_all(rt, store) {
        return refuse(rt, store, refusal);
    }
    match head(rt, store) {
        Ok(head) => Answer::Head(head),
        Err(refusal) => refuse(rt, store, refusal),
    }
}

/// Cleans these segments, from the begin of a pass to the last free. If a failover is open, it is pushed to its end
/// first.
fn clean<B: Naming, R: Wait>(
    rt: &R,
    alloc: Global,
    store: &Store<MemoryFleet, B>,
    victims: Row<u64>,
) -> Answer {
    if let Err(refusal) = mend(rt, alloc, store) {
        return refuse(rt, store, refusal);
    }
    match store.turn(rt, CleanTurn::BeginClean(victims)) {
        Ok(StepAnswer::Begun(survivors)) => match finish_pass(rt, alloc, store) {
            Ok(head) => Answer::Cleaned(survivors, head),
            Err(refusal) => refuse(rt, store, refusal),
        },
        Ok(made) => Answer::Step(made),
        Err(refusal) => refuse(rt, store, refusal),
    }
}

/// Pushes a failover that is open to its end.
fn mend<B: Naming, R: Wait>(
    rt: &R,
    alloc: Global,
    store: &Store<MemoryFleet, B>,
) -> Result<(), Refusal> {
    match refused_pass(rt, alloc, store) {
        Some(Refusal::Rolling) => push_all(rt, store),
        _ => Ok(()),
    }
}

/// Why a pass without victims is refused: a failover is open, a pass is open, or there are no victims.
fn refused_pass<B: Naming, R: Wait>(
    rt: &R,
    alloc: Global,
    store: &Store<MemoryFleet, B>,
) -> Option<Refusal> {
    let victims = Row::new(Vec::new(alloc));
    store.turn(rt, CleanTurn::BeginClean(victims)).err()
}

/// Makes all of a pass that has begun, and answers the head that is in force then. A failover may end the pass, or
/// leave replicas of its survivors to be sealed anew before another roll.
fn finish_pass<B: Naming, R: Wait>(
    rt: &R,
    alloc: Global,
    store: &Store<MemoryFleet, B>,
) -> Result<u64, Refusal> {
    take_all(rt, store, Phase::Copies)?;
    for _ in rt.forever() {
        take_all(rt, store, Phase::Seals)?;
        push_all(rt, store)?;
        match refused_pass(rt, alloc, store) {
            Some(Refusal::Pass(PassFault::PassOpen)) => roll_all(rt, store)?,
            _ => {
                take_all(rt, store, Phase::Frees)?;
                return head(rt, store);
            }
        }
    }
    unreachable!()
}
