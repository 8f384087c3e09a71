//! Runs the lines of one life.

ghost use Rattle.std.specs.Prelude.{◌≡◌, ◌≤◌, length};
ghost use Rattle.store_lines.specs.locked_log.Ends.{IsFresh};
ghost use Rattle.backup.specs.State.{fleet_state};
ghost use Rattle.store_lines.specs.locked_log.Made.{IsMade};
ghost use Rattle.store_lines.specs.master.World.{world};
ghost use Rattle.store_lines.specs.Lives.{IsOpening};

use crate::coordinator::Coordinator;
use crate::life::Life;
use backup::MemoryFleet;
use lines::parse_line;
use std::alloc::Global;
use std::io::{BufRead, Write};
use std::marker::Brand;
use std::sync::Wait;
use store_lines::locked_log::{Blank, Naming, Store};
use store_lines::master::Master;
use store_lines::{Answer, Dialogue, Options, Phase, ScriptFault, take_all, tell};

/// Runs lines through a store over this master, until the master is dropped or no line follows.
pub fn live<R: Wait, I: BufRead + Drop, O: Write + Drop>(
    rt: &R,
    alloc: Global,
    dialogue: &mut Dialogue<I, O>,
    options: &Options,
    coordinator: &mut Coordinator,
    master: Master<MemoryFleet>,
) -> MemoryFleet
    requires { IsOpening options.now master.knows }
{
    match Blank::make(alloc, options.history, 1) {
        Ok(blank) => {
            live_in::<Brand, R, I, O>(rt, alloc, dialogue, options, coordinator, blank, master)
        }
        Err(_) => {
            dialogue.fail(ScriptFault::NoMemory);
            master.crash()
        }
    }
}

/// Runs them with the parts of a store that this brand names.
fn live_in<B: Naming, R: Wait, I: BufRead + Drop, O: Write + Drop>(
    rt: &R,
    alloc: Global,
    dialogue: &mut Dialogue<I, O>,
    options: &Options,
    coordinator: &mut Coordinator,
    blank: Blank,
    master: Master<MemoryFleet>,
) -> MemoryFleet
    requires fresh { IsFresh blank.row master.knows }
    requires seats { (1 ≤ blank.seats) × (blank.seats ≤ 64) }
    requires cells { (blank.cells ≡ B.cells) × (blank.seats ≡ B.made.seats) }
    requires start { B.start ≡ length master.knows.history }
    requires ledger { (blank.name ≡ B.name) × (blank.parts ≡ B.parts) }
    requires mark { blank.table ≡ B.table }
    requires made { IsMade B.made (world fleet_state master) }
{
    match Store::<MemoryFleet, B>::new(alloc, blank, master) {
        Ok((store, seats)) => {
            let mut life = Life::new(alloc, store, seats);
            run_lines(rt, dialogue, options, coordinator, &mut life);
            life.close(dialogue)
        }
        Err((_, master)) => {
            dialogue.fail(ScriptFault::NoMemory);
            master.crash()
        }
    }
}

/// Opens the head, and runs lines until the life ends or no line follows.
fn run_lines<B: Naming, R: Wait, I: BufRead + Drop, O: Write + Drop>(
    rt: &R,
    dialogue: &mut Dialogue<I, O>,
    options: &Options,
    coordinator: &mut Coordinator,
    life: &mut Life<B>,
) {
    // Only want of memory can refuse these pushes.
    if take_all(rt, &life.store, Phase::Pushes).is_err() {
        dialogue.fail(ScriptFault::NoMemory);
    }
    for _ in rt.forever() {
        if !dialogue.advance() || !run_text(rt, dialogue, options, coordinator, life) {
            return;
        }
    }
}

/// Runs the line that was read. Answers whether the life goes on.
fn run_text<B: Naming, R: Wait, I: BufRead + Drop, O: Write + Drop>(
    rt: &R,
    dialogue: &mut Dialogue<I, O>,
    options: &Options,
    coordinator: &mut Coordinator,
    life: &mut Life<B>,
) -> bool {
    let line = match parse_line(dialogue.lines.text()) {
        Ok(line) => line,
        Err(reason) => {
            dialogue.refuse_line(reason);
            return true;
        }
    };
    match life.run_line(rt, options, coordinator, line) {
        Ok(answer) => print(dialogue, life, answer),
        Err(fault) => {
            tell(dialogue, fault);
            true
        }
    }
}

/// Prints an answer, and keeps it. Answers whether the life goes on.
fn print<B: Naming, I: BufRead + Drop, O: Write + Drop>(
    dialogue: &mut Dialogue<I, O>,
    life: &mut Life<B>,
    answer: Answer,
) -> bool {
    dialogue.print(&answer);
    match life.keep(answer) {
        Ok(goes_on) => goes_on,
        Err(_) => {
            dialogue.fail(ScriptFault::NoMemory);
            true
        }
    }
}
