//! How often a call holds the lock, by the number of replicas.

ghost use Rattle.std.specs.Prelude.{◌≡◌, ◌≤◌, [], None, IfSome, length};
ghost use Rattle.history_row.specs.Rows.{IsRowOf};
ghost use Rattle.locked_log.specs.Made.{IsMade};
ghost use Rattle.locked_log.specs.master.World.{world};
ghost use Rattle.locked_log.specs.master.master_state.Config.{config_fault};

use crate::counted::CountedLog;
use backup::MemoryFleet;
use entry::{Key, Tablet, Tablets, Value};
use locked_log::master::{Command, Config, If, KeyHasher, Master};
use locked_log::{Blank, Naming, Seat, Store};
use replica::Fleet;
use std::alloc::Global;
use std::marker::Brand;
use std::sync::Wait;
use std::test::Fail;
use store_seat::{Shared, take};

/// A command over one key.
enum Do {
    Get,
    Put(If),
    Delete,
}

/// A call, and how often it holds the lock.
type Row = (Do, u64);

/// A get, a put whose condition fails and a delete of nothing hold the lock once: they are answered where they are
/// applied. A put and a delete hold it once more for each replica, which is pushed then. The first put is refused at
/// first, and then tried and pushed by turns until each replica of the head is open.
const ONE: &[Row] = &[
    (Do::Put(If::Any), 5),
    (Do::Put(If::Any), 2),
    (Do::Get, 1),
    (Do::Put(If::Absent), 1),
    (Do::Delete, 2),
    (Do::Delete, 1),
    (Do::Get, 1),
];

const TWO: &[Row] = &[
    (Do::Put(If::Any), 8),
    (Do::Put(If::Any), 3),
    (Do::Get, 1),
    (Do::Put(If::Absent), 1),
    (Do::Delete, 3),
    (Do::Delete, 1),
    (Do::Get, 1),
];

const THREE: &[Row] = &[
    (Do::Put(If::Any), 11),
    (Do::Put(If::Any), 4),
    (Do::Get, 1),
    (Do::Put(If::Absent), 1),
    (Do::Delete, 4),
    (Do::Delete, 1),
    (Do::Get, 1),
];

/// How many replicas each segment has, and the calls of one seat.
const MASTERS: &[(u64, &[Row])] = &[(1, ONE), (2, TWO), (3, THREE)];

/// How many calls held the lock as often as wanted up to the first that did not, and how often that one held it.
type Held = (usize, u64);

/// One table of one tablet.
const TABLETS: &[Tablet] = &[Tablet {
    table: 1,
    first: 0,
    last: u64::MAX,
}];

/// Three backups, and so many replicas of each segment.
fn config_of(alloc: Global, replicas: u64) -> Option<Config>
    ensures { IfSome result (λ config. config_fault config ≡ None) }
{
    let Ok(tablets) = Vec::from_slice(alloc, TABLETS) else {
        return None;
    };
    let config = Config {
        master: 1,
        backups: 3,
        replicas,
        step: 1,
        segment: 512,
        seglet: 64,
        seglets: 64,
        tablets: Tablets::new(tablets),
        history: 24,
        hasher: KeyHasher::new(),
        format: 2,
        largest: u64::MAX,
        most_live: u64::MAX,
    };
    match config.check() {
        Ok(()) => Some(config),
        Err(_) => None,
    }
}

/// A new master with so many replicas of each segment.
fn master_of(alloc: Global, replicas: u64) -> Option<Master<MemoryFleet>> {
    let config = config_of(alloc, replicas)?;
    let Ok(fleet) = MemoryFleet::new(alloc, config.backups) else {
        return None;
    };
    match Master::new(alloc, config, fleet) {
        Ok(master) => Some(master),
        Err(_) => None,
    }
}

fn command_of(alloc: Global, what: &Do) -> Option<Command> {
    let key = Key::new(alloc, 1, b"a").ok()?;
    match what {
        Do::Get => Some(Command::Get(key)),
        Do::Put(when) => Some(Command::Put(key, Value::from_slice(alloc, b"x").ok()?, *when)),
        Do::Delete => Some(Command::Delete(key)),
    }
}

/// How often the call of this command holds the lock, or 0 if it isn't answered.
fn holdings<F: Fleet, B: Naming, R: Wait>(
    rt: &R,
    shared: &Shared<CountedLog<F, B>, B>,
    seat: &mut Seat<B>,
    command: Option<Command>,
) -> u64 {
    let before = take(rt, &shared.state).held;
    let is_answered = match command {
        Some(command) => shared.ask(rt, seat, &command).is_ok(),
        None => false,
    };
    let held = take(rt, &shared.state).held;
    if is_answered {
        held.saturating_sub(before)
    } else {
        0
    }
}

fn first_other<F: Fleet, B: Naming, R: Wait>(
    rt: &R,
    alloc: Global,
    shared: &Shared<CountedLog<F, B>, B>,
    seat: &mut Seat<B>,
    rows: &[Row],
) -> Held {
    for (at, row) in rows.iter().enumerate() {
        let held = holdings(rt, shared, seat, command_of(alloc, &row.0));
        if held != row.1 {
            return (at, held);
        }
    }
    (rows.len(), 0)
}

/// Puts a counting log around the state of the store, and makes the calls of its first seat.
fn count<F: Fleet + Drop, B: Naming, R: Wait>(
    rt: &R,
    alloc: Global,
    store: Store<F, B>,
    mut seats: Vec<Seat<B>>,
    rows: &[Row],
) -> Held {
    let (state, mark) = store.into_shared().into_parts();
    let shared = Shared::new(CountedLog { state, held: 0 }, mark);
    match seats.get_mut(0) {
        Some(seat) => first_other(rt, alloc, &shared, seat, rows),
        None => (0, 0),
    }
}

/// Does so with the parts of a store that this brand names.
fn count_in<F: Fleet + Drop, B: Naming, R: Wait>(
    rt: &R,
    alloc: Global,
    blank: Blank,
    master: Master<F>,
    rows: &[Row],
) -> Option<Held>
    requires empty { IsRowOf blank.row [] }
    requires seats { (1 ≤ blank.seats) × (blank.seats ≤ 64) }
    requires cells { (blank.cells ≡ B.cells) × (blank.seats ≡ B.made.seats) }
    requires start { B.start ≡ length master.knows.history }
    requires ledger { (blank.name ≡ B.name) × (blank.parts ≡ B.parts) }
    requires mark { blank.table ≡ B.table }
    requires made { IsMade B.made (world F.state master) }
{
    match Store::<F, B>::share(alloc, blank, master) {
        Ok((store, seats)) => Some(count(rt, alloc, store, seats, rows)),
        Err(_) => None,
    }
}

/// Makes these calls over a new master.
fn run_rows<R: Wait>(rt: &R, alloc: Global, replicas: u64, rows: &[Row]) -> Option<Held> {
    let master = master_of(alloc, replicas)?;
    match Blank::make(alloc, 24, 1) {
        Ok(blank) => count_in::<MemoryFleet, Brand, R>(rt, alloc, blank, master, rows),
        Err(_) => None,
    }
}

#[test]
fn calls_hold_the_lock(rt: HostRuntime) -> Result<(), Fail> {
    for (replicas, rows) in MASTERS {
        let came = run_rows(&rt, rt.alloc(), *replicas, rows);
        assert!(rt;
            came == Some((rows.len(), 0)),
            "{replicas} replicas: {came:?}"
        );
    }
    Ok(())
}
