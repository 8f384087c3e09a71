//! Lines while there is no master: the fleet is limited, loses backups and is recovered, and later masters get a
//! format and seglets.

ghost use Rattle.std.specs.Prelude.{◌≡◌, IfOk, IfSome, IsTrue};
ghost use Rattle.backup.specs.State.{fleet_state};
ghost use Rattle.store_lines.specs.Lives.{CanBegin, IsOpening};

use crate::coordinator::{Coordinator, Inheritance};
use backup::MemoryFleet;
use entry::NoMemory;
use lines::{Line, parse_line};
use replica::{Bench, TakeFault};
use std::alloc::Global;
use std::io::{BufRead, Write};
use std::sync::Wait;
use store_lines::master::{Config, Master, Refusal};
use store_lines::recovery::Rebuilt;
use store_lines::replay::adopt_list;
use store_lines::{Answer, Dialogue, LineFault, Options, tell};

/// Runs lines until a recovery gives a master. None if no line follows.
pub fn wait<R: Wait, I: BufRead + Drop, O: Write + Drop>(
    rt: &R,
    alloc: Global,
    dialogue: &mut Dialogue<I, O>,
    options: &Options,
    coordinator: &mut Coordinator,
    fleet: MemoryFleet,
) -> Option<Master<MemoryFleet>>
    ensures { IfSome result (λ m. IsOpening options.now m.knows) }
{
    let mut fleet = fleet;
    for _ in rt.forever() {
        let found = find_next(rt, alloc, dialogue, options, coordinator, &mut fleet)?;
        match succeed(alloc, dialogue, options, coordinator, found, fleet) {
            Ok(master) => return Some(master),
            Err(left) => fleet = left,
        }
    }
    unreachable!()
}

/// Runs lines until the table of the last master is found. None if no line follows.
fn find_next<R: Wait, I: BufRead + Drop, O: Write + Drop>(
    rt: &R,
    alloc: Global,
    dialogue: &mut Dialogue<I, O>,
    options: &Options,
    coordinator: &mut Coordinator,
    fleet: &mut MemoryFleet,
) -> Option<Inheritance>
    ensures { IfSome result (λ f. CanBegin options.now (fleet_state fleet.new) f.config) }
{
    for _ in rt.forever() {
        if !dialogue.advance() {
            return None;
        }
        if let Some(found) = run_text(alloc, dialogue, options, coordinator, fleet) {
            return Some(found);
        }
    }
    unreachable!()
}

/// Runs the line that was read. If the line asks for a recovery, the result is the table of the last master.
fn run_text<I: BufRead + Drop, O: Write + Drop>(
    alloc: Global,
    dialogue: &mut Dialogue<I, O>,
    options: &Options,
    coordinator: &mut Coordinator,
    fleet: &mut MemoryFleet,
) -> Option<Inheritance>
    ensures { IfSome result (λ f. CanBegin options.now (fleet_state fleet.new) f.config) }
{
    let line = match parse_line(dialogue.lines.text()) {
        Ok(line) => line,
        Err(reason) => {
            dialogue.refuse_line(reason);
            return None;
        }
    };
    if let Line::Recover { order } = line {
        return match coordinator.find_inheritance(alloc, options, fleet, order) {
            Ok(found) => Some(found),
            Err(answer) => {
                dialogue.answer(answer);
                None
            }
        };
    }
    match answer_of(alloc, options, coordinator, fleet, line) {
        Ok(answer) => dialogue.answer(answer),
        Err(fault) => tell(dialogue, fault),
    }
    None
}

/// The answer to a line while there is no master.
fn answer_of(
    alloc: Global,
    options: &Options,
    coordinator: &mut Coordinator,
    fleet: &mut MemoryFleet,
    line: Line<'_>,
) -> Result<Answer, LineFault> {
    match line {
        Line::Idle => Ok(Answer::Silent),
        Line::Stop { takes } => {
            fleet.limit(takes);
            Ok(Answer::Stop(takes))
        }
        Line::Fault { takes, taken } => {
            fleet.fault_at(takes, taken);
            Ok(Answer::Fault(takes, taken))
        }
        Line::Format => coordinator.list_lengths(alloc, options),
        Line::Seglets { seglets } => coordinator.set_seglets(alloc, options, seglets),
        Line::Needs => Ok(coordinator.needs(alloc, options, fleet)),
        Line::Lose { backup } if backup >= options.backups => {
            Err(LineFault::NoBackup(options.backups))
        }
        Line::Lose { backup } => {
            fleet.lose(backup);
            Ok(Answer::Lost(backup))
        }
        Line::Holdings => match fleet.labels(alloc) {
            Ok(labels) => Ok(Answer::Holdings(labels)),
            Err(NoMemory) => Ok(Answer::Refused(Refusal::NoMemory)),
        },
        _ => Ok(Answer::Down),
    }
}

/// Has the next master adopt the table, and frees the replicas of all others. If that fails, the fleet comes back.
fn succeed<I: BufRead + Drop, O: Write + Drop>(
    alloc: Global,
    dialogue: &mut Dialogue<I, O>,
    options: &Options,
    coordinator: &mut Coordinator,
    found: Inheritance,
    fleet: MemoryFleet,
) -> Result<Master<MemoryFleet>, MemoryFleet>
    requires { CanBegin options.now (fleet_state fleet) found.config }
    ensures { IfOk result (λ m. IsOpening options.now m.knows) }
{
    let Inheritance {
        rebuilt,
        config,
        will,
    } = found;
    let number = config.master;
    coordinator.used = number;
    let mut master = adopt(alloc, dialogue, options, &rebuilt, config, fleet)?;
    coordinator.master = number;
    coordinator.will = will;
    if !retire(dialogue, &mut master) {
        return Err(master.crash());
    }
    dialogue.answer(Answer::Recovered(rebuilt));
    Ok(master)
}

/// A master that begins with the table.
fn adopt<I: BufRead + Drop, O: Write + Drop>(
    alloc: Global,
    dialogue: &mut Dialogue<I, O>,
    options: &Options,
    rebuilt: &Rebuilt,
    config: Config,
    fleet: MemoryFleet,
) -> Result<Master<MemoryFleet>, MemoryFleet>
    requires { CanBegin options.now (fleet_state fleet) config }
    ensures { IfOk result (λ m. IsOpening options.now m.knows) }
{
    match adopt_list(alloc, rebuilt, config, fleet) {
        Ok(master) => Ok(master),
        Err((refusal, left)) => {
            let mut left = left;
            match refusal {
                Refusal::Spent => {
                    left.limit(u64::MAX);
                    dialogue.answer(Answer::Stopped);
                }
                _ => dialogue.answer(Answer::Refused(refusal)),
            }
            Err(left)
        }
    }
}

/// Frees the replicas of all other masters, and answers whether they were freed. If not, the reason was printed.
fn retire<I: BufRead + Drop, O: Write + Drop>(
    dialogue: &mut Dialogue<I, O>,
    master: &mut Master<MemoryFleet>,
) -> bool
    ensures { IsTrue result → master.new.knows ≡ master.old.knows }
{
    match master.retire() {
        Ok(()) => true,
        Err(TakeFault::Spent) => {
            master.limit(u64::MAX);
            dialogue.answer(Answer::Stopped);
            false
        }
        Err(fault) => {
            dialogue.answer(Answer::NotRetired(fault));
            false
        }
    }
}
