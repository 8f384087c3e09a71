//! One run of the program.

ghost use Rattle.std.specs.Prelude.{◌≡◌, ◌≤◌};

use crate::filling::fill;
use crate::options::Options;
use crate::recovered::recover;
use crate::report::{add_all, operations, say_fault, say_latencies, say_speed};
use crate::sizes::store_options;
use embedded::master::{Config, Master};
use embedded::{Life, MemoryFleet, Store};
use entry::NoMemory;
use loads::locked_log::Policy;
use loads::{Keys, Lines, Outcome, Plan, Spread, Work, nanos, run_load};
use std::alloc::Global;
use std::fs;
use std::io::{self, Eprint, Print, Write};
use std::mem::replace;
use std::rt::Files;
use std::sync::Wait;
use std::sync::atomic::{AtomicU64, Ordering};
use std::thread::Threads;
use std::time::Clock;

/// Why a run ended early.
#[derive(Clone, Copy, Drop)]
pub enum Fault {
    Misuse,
    NoMemory,
    NotOpened,
    NotFilled,
    Unknown,
    NotRecovered,
    NotRead,
    NotWritten,
}

impl From<NoMemory> for Fault {
    fn from(_: NoMemory) -> Fault {
        Fault::NoMemory
    }
}

impl From<io::Error> for Fault {
    fn from(_: io::Error) -> Fault {
        Fault::NotWritten
    }
}

impl Fault {
    /// What is printed of it.
    pub fn text(&self) -> &'static str {
        match self {
            Fault::Misuse => "bad words; workload --help says which there are",
            Fault::NoMemory => "out of memory",
            Fault::NotOpened => "no store has these sizes",
            Fault::NotFilled => "a put of the first objects was refused",
            Fault::Unknown => "the store can't tell whose its records are",
            Fault::NotRecovered => "nothing was recovered",
            Fault::NotRead => "the recovered table can't be read",
            Fault::NotWritten => "a write failed",
        }
    }

    /// The exit status.
    pub fn status(&self) -> u8 {
        match self {
            Fault::Misuse => 2,
            _ => 1,
        }
    }
}

/// When the cleaner of a load begins. It spares up to twice as many segments as usual, if memory has enough of them:
/// then it ends a pass before several threads have filled the head.
fn policy_of(config: &Config) -> Policy {
    let memory = config.seglets.saturating_mul(config.seglet);
    let segments = memory.checked_div(config.segment).unwrap_or(0);
    Policy {
        spare: (segments / 16).clamp(4, 8),
        ..Policy::of(config)
    }
}

/// What the threads do.
fn plan_of(alloc: Global, options: &Options, policy: Policy, is_traced: bool) -> Plan
    requires { 1 ≤ options.now.threads }
    ensures { result.threads ≡ options.now.threads }
{
    Plan {
        alloc,
        load: options.load,
        threads: options.threads,
        operations: options.operations / options.threads,
        length: options.length as usize,
        seed: options.seed,
        is_traced,
        is_shown: options.is_shown,
        has_cleaner: options.has_cleaner,
        policy,
    }
}

/// Takes the master out of a store that is up.
fn take_master(store: &mut Store) -> Result<Master<MemoryFleet>, Fault> {
    match replace(&mut store.life, Life::Changing) {
        Life::Up(master) => Ok(master),
        _ => Err(Fault::NotOpened),
    }
}

/// Runs the threads over a master.
fn run_threads<R: Threads + Wait + Clock + Eprint + Sync>(
    rt: &R,
    alloc: Global,
    master: Master<MemoryFleet>,
    options: &Options,
    made: &AtomicU64,
    is_traced: bool,
) -> Result<Outcome<MemoryFleet>, Fault> {
    let spread = match options.spread {
        Some(spread) => spread,
        None => options.load.spread(),
    };
    let keys = Keys::new(alloc, spread, options.records)?;
    let policy = policy_of(master.config());
    if options.threads == 0 || options.threads > 63 {
        return Err(Fault::Misuse);
    }
    let plan = plan_of(alloc, options, policy, is_traced);
    if plan.operations >= 1 << 40 {
        return Err(Fault::Misuse);
    }
    let mut master = master;
    if let Some(steps) = options.stop {
        master.limit(steps);
    }
    Ok(run_load(rt, master, plan, &keys, made))
}

/// Prints what a load printed of its times.
fn say<R: Print>(
    rt: &R,
    alloc: Global,
    options: &Options,
    works: &[Work],
    took: u64,
) -> Result<(), Fault> {
    let (reads, updates) = add_all(alloc, works)?;
    say_speed(rt, operations(works), "operations", options.threads, took)?;
    say_latencies(rt, "reads", &reads)?;
    say_latencies(rt, "updates", &updates)?;
    Ok(())
}

/// Writes the trace: the puts of the first objects, the calls of all threads, and what was recovered.
fn write_trace<R: Files>(
    rt: &R,
    path: &str,
    first: &Lines,
    works: &[Work],
    last: &Lines,
) -> Result<(), Fault> {
    let mut file = fs::create(rt, path)?;
    file.write_all(first.text.as_slice())?;
    for work in works {
        if !work.is_whole {
            return Err(Fault::NoMemory);
        }
        file.write_all(work.lines.text.as_slice())?;
    }
    file.write_all(last.text.as_slice())?;
    Ok(())
}

/// Writes the last line of a trace.
fn write_end(
    last: &mut Lines,
    first: u64,
    works: &[Work],
    objects: Option<u64>,
) -> Result<(), NoMemory> {
    let mut calls = first;
    for work in works {
        calls = calls.saturating_add(work.traced);
    }
    last.first(b"end")?;
    last.number(calls)?;
    match objects {
        Some(objects) => last.number(objects)?,
        None => last.word(b"-")?,
    }
    last.end()
}

/// Has the next master recover what the backups hold, if they were stopped, and writes what it has. The answer is how
/// many objects there are.
fn go_on(
    alloc: Global,
    store: &mut Store,
    master: Master<MemoryFleet>,
    options: &Options,
    made: u64,
    last: &mut Lines,
) -> Result<Option<u64>, Fault> {
    if options.stop.is_none() {
        return Ok(None);
    }
    let mut master = master;
    master.limit(u64::MAX);
    store.life = Life::Up(master);
    match recover(alloc, store, made, last) {
        Ok(objects) => Ok(Some(objects)),
        Err(fault) => Err(fault),
    }
}

/// Makes a store, puts the first objects, runs the threads, and prints and writes what is asked for.
pub fn run<R: Threads + Wait + Clock + Eprint + Print + Files + Sync>(
    rt: &R,
    alloc: Global,
    options: &Options,
    path: Option<&str>,
) -> Result<(), Fault> {
    let Ok(mut store) = Store::open(alloc, &store_options(options)) else {
        return Err(Fault::NotOpened);
    };
    let mut first = Lines::new(alloc);
    let start = nanos(rt);
    fill(rt, alloc, &mut store, options, path.is_some(), &mut first)?;
    let filled = nanos(rt).saturating_sub(start);
    say_speed(rt, options.records, "puts of new keys", 1, filled)?;
    let made = AtomicU64::new(options.records);
    let master = take_master(&mut store)?;
    let Outcome {
        master,
        works,
        fault,
        took,
        is_known,
    } = run_threads(rt, alloc, master, options, &made, path.is_some())?;
    say(rt, alloc, options, works.as_slice(), took)?;
    say_fault(rt, &fault)?;
    let count = made.load(Ordering::SeqCst);
    let mut last = Lines::new(alloc);
    let objects = go_on(alloc, &mut store, master, options, count, &mut last)?;
    if let Some(path) = path {
        write_end(&mut last, options.records, works.as_slice(), objects)?;
        write_trace(rt, path, &first, works.as_slice(), &last)?;
    }
    if is_known {
        Ok(())
    } else {
        Err(Fault::Unknown)
    }
}
