//! A small master, and what it has done before its day begins.

ghost use Rattle.std.specs.Prelude.{◌≡◌, ◌≤◌, ℕ, None, IfSome};
ghost use Rattle.backup.specs.State.{fleet_state};
ghost use Rattle.store_clients.specs.master.Registry.{IsUnraised};
ghost use Rattle.store_clients.specs.master.master_state.Config.{config_fault};

use crate::slow::{SlowFleet, Watch};
use backup::MemoryFleet;
use entry::{Key, Row, Tablet, Tablets, Value};
use replica::Fleet;
use std::alloc::Global;
use store_clients::master::{Command, Config, If, KeyHasher, Master, PassFault, Refusal, Step};

/// How many records most histories keep.
pub const RECORDS: u64 = 24;

/// What a master is made with: the format, the bytes of a segment, and the seglets of memory.
pub type Shape = (u64, u64, u64);

/// A small master under the first format: a fault halts it.
pub const HALTING: Shape = (1, 512, 64);

/// The same under the second format: after one fault a failover is open.
pub const LASTING: Shape = (2, 512, 64);

/// One whose log may have a hundred segments.
pub const LARGE: Shape = (2, 4_096, 4_096);

/// One table.
const TABLETS: &[Tablet] = &[Tablet {
    table: 1,
    first: 0,
    last: u64::MAX,
}];

/// What a master has done before its day begins.
#[derive(Clone, Copy)]
pub enum Morning {
    /// Nothing.
    New,
    /// It rolled once, so that segment 1 is closed and 2 is the head.
    Rolled,
    /// It rolled once, and then began a pass over segment 1.
    Cleaning,
    /// It served three gets, and then a put that isn't durable.
    Served,
}

/// Three backups, two replicas and one table. The history keeps so many records.
fn small_config(alloc: Global, shape: Shape, records: u64) -> Option<Config>
    ensures fault { IfSome result (λ c. config_fault c ≡ None) }
    ensures records { IfSome result (λ c. c.history ≡ records) }
{
    let (format, segment, seglets) = shape;
    let Ok(tablets) = Vec::from_slice(alloc, TABLETS) else {
        return None;
    };
    let config = Config {
        master: 1,
        backups: 3,
        replicas: 2,
        step: 1,
        segment,
        seglet: 64,
        seglets,
        tablets: Tablets::new(tablets),
        history: records,
        hasher: KeyHasher::new(),
        format,
        largest: u64::MAX,
        most_live: u64::MAX,
    };
    match config.check() {
        Ok(()) => Some(config),
        Err(_) => None,
    }
}

/// A fleet with the backups of the configuration. It holds nothing.
fn new_fleet(alloc: Global, config: &Config) -> Option<MemoryFleet>
    ensures backups { IfSome result (λ fleet. config.now.backups ≤ (fleet_state fleet).backups) }
    ensures none { IfSome result (λ fleet. (b m s : ℕ) → (fleet_state fleet).picture b m s ≡ None) }
    ensures least { IfSome result (λ fleet. IsUnraised config.now.master (fleet_state fleet)) }
{
    match MemoryFleet::new(alloc, config.backups) {
        Ok(fleet) => Some(fleet),
        Err(_) => None,
    }
}

/// A new master of this shape, whose history keeps so many records. Its fleet does what the watch says.
pub fn small_master<'a>(
    alloc: Global,
    watch: &'a Watch,
    shape: Shape,
    records: u64,
) -> Option<Master<SlowFleet<'a>>>
    ensures { IfSome result (λ m. m.knows.config.history ≡ records) }
{
    let config = small_config(alloc, shape, records)?;
    let fleet = new_fleet(alloc, &config)?;
    match Master::new(alloc, config, SlowFleet { fleet, watch }) {
        Ok(master) => Some(master),
        Err(_) => None,
    }
}

/// Makes a step. If it is refused, says why.
fn make<F: Fleet>(master: &mut Master<F>, step: Step) -> Option<Refusal>
    ensures { master.new.knows.config ≡ master.old.knows.config }
{
    match &master.step(step) {
        Ok(_) => None,
        Err(refusal) => Some(*refusal),
    }
}

/// Makes so many pushes.
fn push<F: Fleet>(master: &mut Master<F>, times: u64)
    ensures { master.new.knows.config ≡ master.old.knows.config }
{
    for _ in 0..times {
        let _refused = make(master, Step::Push);
    }
}

/// Does what the master does in the morning.
pub fn prepare<F: Fleet>(alloc: Global, master: &mut Master<F>, morning: Morning)
    ensures { master.new.knows.config ≡ master.old.knows.config }
{
    match morning {
        Morning::New => {}
        Morning::Rolled => roll(master),
        Morning::Cleaning => {
            roll(master);
            let _refused = begin(alloc, master, &[1]);
        }
        Morning::Served => {
            let _applied = serve_before(alloc, master, 3);
        }
    }
}

/// Serves so many gets and then a put, whose unit isn't pushed. Whether all were applied.
pub fn serve_before<F: Fleet>(alloc: Global, master: &mut Master<F>, gets: u64) -> bool
    ensures { master.new.knows.config ≡ master.old.knows.config }
{
    push(master, 2);
    for _ in 0..gets {
        if !apply(master, get(alloc)) {
            return false;
        }
    }
    apply(master, put(alloc))
}

/// Applies the command by seat 0. Whether it was applied.
fn apply<F: Fleet>(master: &mut Master<F>, command: Option<Command>) -> bool
    ensures { master.new.knows.config ≡ master.old.knows.config }
{
    match command {
        Some(command) => make(master, Step::Apply(0, command)).is_none(),
        None => false,
    }
}

fn get(alloc: Global) -> Option<Command> {
    Some(Command::Get(Key::new(alloc, 1, b"e").ok()?))
}

fn put(alloc: Global) -> Option<Command> {
    let key = Key::new(alloc, 1, b"e").ok()?;
    Some(Command::Put(key, Value::from_slice(alloc, b"x").ok()?, If::Any))
}

/// Opens the first head, and rolls to the second.
fn roll<F: Fleet>(master: &mut Master<F>)
    ensures { master.new.knows.config ≡ master.old.knows.config }
{
    push(master, 2);
    let _refused = make(master, Step::BeginRoll);
    push(master, 4);
}

/// Begins a pass over these segments. If it is refused, says why.
fn begin<F: Fleet>(alloc: Global, master: &mut Master<F>, victims: &[u64]) -> Option<Refusal>
    ensures { master.new.knows.config ≡ master.old.knows.config }
{
    let Ok(victims) = Vec::from_slice(alloc, victims) else {
        return Some(Refusal::NoMemory);
    };
    make(master, Step::BeginClean(Row::new(victims)))
}

/// Whether no pass is open.
pub fn has_no_pass<F: Fleet>(alloc: Global, master: &mut Master<F>) -> bool {
    matches!(
        begin(alloc, master, &[]),
        Some(Refusal::Pass(PassFault::NoVictims))
    )
}
