//! A life of a master, behind a store of one seat.

ghost use Rattle.std.specs.Prelude.{◌≡◌, ◌≤◌, IfErr, length};
ghost use Rattle.store_lines.specs.locked_log.Ends.{IsFresh};
ghost use Rattle.backup.specs.State.{fleet_state};
ghost use Rattle.store_lines.specs.locked_log.Made.{IsMade};
ghost use Rattle.store_lines.specs.master.World.{world};
ghost use Rattle.store_lines.specs.Lives.{IsOpening};

use crate::asking::{ask, push};
use crate::printing::{print, print_history};
use backup::MemoryFleet;
use std::alloc::Global;
use std::io::Write;
use std::marker::Brand;
use std::sync::Wait;
use store_lines::locked_log::{Blank, Naming, Seat, Store};
use store_lines::master::Master;
use store_lines::{Answer, Options, Phase};

/// Runs these lines through a store over the master, prints their answers and the history, and drops the master.
pub fn live<R: Wait, O: Write>(
    rt: &R,
    alloc: Global,
    writer: &mut O,
    options: &Options,
    lines: &[&[u8]],
    master: Master<MemoryFleet>,
) -> MemoryFleet
    requires { IsOpening options.now master.knows }
{
    let mut master = master;
    for _ in rt.forever() {
        match try_live(rt, alloc, writer, options, lines, master) {
            Ok(fleet) => return fleet,
            Err(left) => master = left,
        }
    }
    unreachable!()
}

/// Does so once. If memory for the store was refused, the master comes back.
fn try_live<R: Wait, O: Write>(
    rt: &R,
    alloc: Global,
    writer: &mut O,
    options: &Options,
    lines: &[&[u8]],
    master: Master<MemoryFleet>,
) -> Result<MemoryFleet, Master<MemoryFleet>>
    requires { IsOpening options.now master.knows }
    ensures { IfErr result (λ m. IsOpening options.now m.knows) }
{
    match Blank::make(alloc, options.history, 1) {
        Ok(blank) => live_in::<Brand, R, O>(rt, alloc, writer, lines, blank, master),
        Err(_) => Err(master),
    }
}

/// Does so with the parts of a store that this brand names.
fn live_in<B: Naming, R: Wait, O: Write>(
    rt: &R,
    alloc: Global,
    writer: &mut O,
    lines: &[&[u8]],
    blank: Blank,
    master: Master<MemoryFleet>,
) -> Result<MemoryFleet, Master<MemoryFleet>>
    requires fresh { IsFresh blank.row master.knows }
    requires seats { (1 ≤ blank.seats) × (blank.seats ≤ 64) }
    requires cells { (blank.cells ≡ B.cells) × (blank.seats ≡ B.made.seats) }
    requires start { B.start ≡ length master.knows.history }
    requires ledger { (blank.name ≡ B.name) × (blank.parts ≡ B.parts) }
    requires mark { blank.table ≡ B.table }
    requires made { IsMade B.made (world fleet_state master) }
    ensures { IfErr result (λ m. m ≡ master) }
{
    match Store::<MemoryFleet, B>::new(alloc, blank, master) {
        Ok((store, seats)) => Ok(run(rt, alloc, writer, lines, store, seats)),
        Err((_, master)) => Err(master),
    }
}

/// Opens the head, runs the lines, and closes the store.
fn run<B: Naming, R: Wait, O: Write>(
    rt: &R,
    alloc: Global,
    writer: &mut O,
    lines: &[&[u8]],
    store: Store<MemoryFleet, B>,
    seats: Vec<Seat<B>>,
) -> MemoryFleet {
    let mut seats = seats;
    if let Err(refusal) = push(rt, &store, Phase::Pushes) {
        print(writer, &Answer::Refused(refusal));
    }
    for line in lines {
        let answer = ask(rt, alloc, &store, &mut seats, line);
        print(writer, &answer);
    }
    match store.close(seats) {
        Ok((master, _)) => {
            print_history(writer, master.history());
            master.crash()
        }
        Err(master) => {
            print(writer, &Answer::SeatUnknown);
            master.crash()
        }
    }
}
