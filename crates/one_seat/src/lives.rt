//! One life of a master after another.

ghost use Rattle.store_lines.specs.Lives.{IsChecked, IsOpening};

use crate::coordinator::{Coordinator, whole_will};
use crate::down::wait;
use crate::living::live;
use backup::MemoryFleet;
use entry::NoMemory;
use std::alloc::Global;
use std::io::{BufRead, Write};
use std::sync::Wait;
use store_lines::master::{Config, Master};
use store_lines::{Dialogue, Options, ScriptFault, first_master};

/// Runs all lines of the script.
pub fn run_script<R: Wait, I: BufRead + Drop, O: Write + Drop>(
    rt: &R,
    alloc: Global,
    dialogue: &mut Dialogue<I, O>,
    options: &Options,
    config: Config,
)
    requires { IsChecked options.now config }
{
    let Ok(will) = whole_will(alloc, options) else {
        dialogue.fail(ScriptFault::NoMemory);
        return;
    };
    match first_master(alloc, options, config) {
        Ok(master) => {
            let mut coordinator = Coordinator::new(will);
            run_lives(rt, alloc, dialogue, options, &mut coordinator, master);
        }
        Err(NoMemory) => dialogue.fail(ScriptFault::NoMemory),
    }
}

/// Runs lines through a store over this master, and over each one that a recovery gives.
fn run_lives<R: Wait, I: BufRead + Drop, O: Write + Drop>(
    rt: &R,
    alloc: Global,
    dialogue: &mut Dialogue<I, O>,
    options: &Options,
    coordinator: &mut Coordinator,
    master: Master<MemoryFleet>,
)
    requires { IsOpening options.now master.knows }
{
    let mut master = master;
    for _ in rt.forever() {
        let fleet = live(rt, alloc, dialogue, options, coordinator, master);
        match wait(rt, alloc, dialogue, options, coordinator, fleet) {
            Some(next) => master = next,
            None => return,
        }
    }
}
