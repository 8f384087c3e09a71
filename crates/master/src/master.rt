//! One master over a fleet of backups.

ghost use Rattle.std.specs.Prelude.{◌≡◌, ◌≤◌, ◌<◌, ℕ, None, length, IfOk, IfErr, OnErr, ◌↔◌, ◌+◌, ◌*◌, ◌^◌};
ghost use Rattle.master_core.specs.log_laws.Data.{durable_of};
ghost use Rattle.master_core.specs.master_failover.Left.{left_now};
ghost use Rattle.master_core.specs.master_state.Budget.{most_segments};
ghost use Rattle.master_core.specs.master_state.Config.{config_fault};
ghost use Rattle.master_core.specs.master_state.Data.{fresh_data};
ghost use Rattle.master_core.specs.master_state.Forgetting.{ForgetsTo, may_forget};
ghost use Rattle.master_core.specs.master_state.Log.{log_of};
ghost use Rattle.master.specs.Invariant.{IsWellKept};
ghost use Rattle.master.specs.Keeps.{Keeps};
ghost use Rattle.master.specs.Left.{GoesOn};
ghost use Rattle.master.specs.Registry.{IsUnraised};
ghost use Rattle.master.specs.Steps.{Accepts, Declines, Steps, PushesFor, IsRun};
ghost use Rattle.master.specs.Valid.{IsValid};
ghost use Rattle.master.specs.World.{world};

use crate::{pushing, retiring};
use entry::{NoMemory, Tablet};
use history::History;
use master_core::{
    Config, Core, Refusal, Step, StepAnswer, begin_roll, compact_segment, failover_left,
};
use replica::{Bench, Fleet, TakeFault};
use std::alloc::Global;
use std::marker::Model;

/// One master of a log-structured store, and the fleet of backups that holds its replicas.
///
/// The master has its log in memory, an index of the live objects, the history of its commands, and at most one open
/// pass of cleaning. `step` does one thing: a command, the begin of a roll or of a pass, the compaction of a segment,
/// the copy of an entry, or one op that one backup takes. An accepted command is answered at once, and is durable when
/// `durable` is above its place: until then its unit waits for pushes. Whoever answers a client pushes first. `accept`
/// and `answer` are the step of a command that lies elsewhere.
///
/// - What holds: `show_valid`, after each step. Stop after any step, drop the master, lose backups: a recovery finds
///   each durable command, or names the head or the segment that is lost.
/// - Refusals: each step names its own (`Refusal`), and then nothing has changed. After a fault of a backup that may
///   have taken the op. If the refusal is `Lost`, the master goes on without it, and pushes end the failover; if it is
///   `Halted`, the master takes no further step, and a recovery goes on.
/// - Cost: a command hashes its key, looks it up, and copies its unit to the end of the head; it scans nothing. An
///   object takes its entry in a segment and a place in the index, and each command a record in the history until the
///   master forgets it (`forget`) or ends.
///
/// ```text
/// let mut master = Master::new(alloc, config, fleet)?;
/// while master.step(Step::Push).is_ok() {}                          // each backup of the head opens its replica
/// let answer = master.step(Step::Apply(0, Command::Put(key, value, If::Any)))?;   // Applied(0, reply)
/// while master.step(Step::Push).is_ok() {}                          // each backup of the head takes the unit
/// assert!(master.durable() == 1);                                   // so the put outlives this master:
/// let fleet = master.crash();                                       // `recover` over the fleet finds it
/// ```
#[derive(Drop)]
pub struct Master<F: Fleet> {
    pub(crate) alloc: Global,
    pub(crate) core: Core,
    /// The fleet. Whoever changes it leaves this master's replicas and its least head as they are.
    pub fleet: F,
}

impl<F: Fleet> Model for Master<F> {
    ghost use Rattle.master.specs.Invariant.{IsWellKept};
    ghost use Rattle.master.specs.World.{MasterValue};

    ghost Value = { MasterValue F };

    ghost view = { λ m. record { knows = m.core; fleet = m.fleet } };

    ghost invariant = { λ m. IsWellKept m.core (F.state m.fleet) };
}

impl<F: Fleet> Master<F> {
    /// A master whose head is not open yet. It asks nothing of the fleet. If memory runs out, it hands the fleet back.
    pub fn new(alloc: Global, config: Config, fleet: F) -> Result<Master<F>, (NoMemory, F)>
        requires config { config_fault config ≡ None }
        requires backups { config.backups ≤ (F.state fleet).backups }
        requires none { (b s : ℕ) → (F.state fleet).picture b config.master s ≡ None }
        requires least { IsUnraised config.master (F.state fleet) }
        ensures made { IfOk result (λ m. (m.knows ≡ fresh_data config) × (m.fleet ≡ fleet)) }
        ensures valid { IfOk result (λ m. IsValid m.knows (F.state m.fleet)) }
        ensures refused { IfErr result (λ e. e.1 ≡ fleet) }
    {
        match Core::new(alloc, config) {
            Ok(core) => {
                let master = Master { alloc, core, fleet };
                master.show_valid();
                Ok(master)
            }
            Err(fault) => Err((fault, fleet)),
        }
    }

    // ---- questions

    /// What is true of every master, after each step. Whichever backups are left, they hold the map after a prefix of
    /// its history, and that prefix has each durable command. If the head and the segments survive, a recovery finds a
    /// log. Memory and the replicas of the log hold the map after the whole history. Its replies are the versioned
    /// map's.
    pub fn show_valid(&self)
        ensures { IsValid self.now.knows (F.state self.now.fleet) }
    {
        let _alloc = self.alloc;
    }

    /// What is true before and after each method.
    pub fn show_kept(&self)
        ensures { IsWellKept self.now.knows (F.state self.now.fleet) }
    {
        let _alloc = self.alloc;
    }

    /// The master's number.
    pub fn number(&self) -> u64
        ensures { result ≡ self.now.knows.config.master }
    {
        self.core.master()
    }

    /// The tablets of the configuration.
    pub fn tablets(&self) -> &[Tablet]
        ensures { result.now ≡ self.now.knows.config.tablets }
    {
        self.core.tablets()
    }

    /// The number of the head in force.
    pub fn head(&self) -> u64
        ensures { result ≡ self.now.knows.head.id }
    {
        self.core.head().id()
    }

    /// The bytes of the live objects, each 23 and those of its key and its value. `u64::MAX` stands for as many or
    /// more.
    pub fn live(&self) -> u64
        ensures { result ≡ self.now.knows.live }
    {
        self.core.live
    }

    /// The configuration.
    pub fn config(&self) -> &Config
        ensures { result.now ≡ self.now.knows.config }
    {
        &self.core.config
    }

    /// The most bytes that puts make of the live objects. `u64::MAX` sets no limit.
    pub fn most_live(&self) -> u64
        ensures { result ≡ self.now.knows.config.most_live }
    {
        self.core.config.most_live
    }

    /// The fleet. Nothing changes.
    pub fn fleet(&self) -> &F
        ensures { result.now ≡ self.entry.now.fleet }
    {
        &self.fleet
    }

    /// How many of the first records are durable: for each of their units, every replica of its segment took the unit
    /// whole and answered Ok.
    pub fn durable(&self) -> u64
        ensures count { result ≡ durable_of (log_of self.now.knows) }
        ensures valid { IsValid self.now.knows (F.state self.now.fleet) }
    {
        self.core.durable()
    }

    /// The accepted commands, with their replies.
    pub fn history(&self) -> &History
        ensures records { result.now.records ≡ self.now.knows.history }
        ensures forgotten { result.now.forgotten ≡ self.now.knows.forgotten }
    {
        self.core.history()
    }

    /// How many of the first records are forgotten: the history no longer has them.
    pub fn forgotten(&self) -> u64
        ensures { result ≡ self.now.knows.forgotten }
    {
        self.core.history().forgotten() as u64
    }

    /// How many backups failed. It is 0 under format 1, where a failure halts the master.
    pub fn failed(&self) -> u64
        ensures { result ≡ length self.now.knows.failed }
    {
        self.core.failed.count() as u64
    }

    /// How many pushes the open failover still needs, at most: 0 just if none is open. Each of its pushes lowers it.
    pub fn failover_left(&self) -> u64
        ensures left { result ≡ left_now self.now.knows }
        ensures none { (self.now.knows.failover ≡ None) ↔ (result ≡ 0) }
        ensures few { result ≤ self.now.knows.config.replicas * (most_segments self.now.knows.config + 2) + 1 }
    {
        failover_left(&self.core)
    }

    // ---- steps

    /// Makes one step, with at most one take.
    #[inline(always)]
    pub fn step(&mut self, step: Step) -> Result<StepAnswer, Refusal>
        ensures was_valid { IsValid self.old.knows (F.state self.old.fleet) }
        ensures gives { Steps (world F.state self.old) step result (world F.state self.new) }
        ensures goes_on { GoesOn (world F.state self.old) step result (world F.state self.new) }
        ensures keeps { Keeps 1 (world F.state self.old) (world F.state self.new) }
        ensures remembers { self.new.knows.forgotten ≡ self.old.knows.forgotten }
        ensures valid { IsValid self.new.knows (F.state self.new.fleet) }
    {
        self.show_valid();
        self.show_kept();
        let outcome = match step {
            Step::Apply(seat, command) => self.apply(seat, command),
            Step::Push => self.push(),
            Step::BeginRoll => self.begin_roll(),
            Step::Compact(id) => self.compact(id),
            Step::BeginClean(victims) => self.begin_clean(victims),
            Step::Copy => self.copy(),
            Step::Seal => self.seal(),
            Step::Free => self.free(),
        };
        self.show_valid();
        outcome
    }

    /// Begins a roll.
    fn begin_roll(&mut self) -> Result<StepAnswer, Refusal>
        ensures accepted { IfOk result (λ a.
            Accepts (world F.state self.old) Step.BeginRoll a (world F.state self.new)) }
        ensures refused { IfErr result (λ r.
            Declines (world F.state self.old) Step.BeginRoll r (world F.state self.new)) }
    {
        begin_roll(&mut self.core)
    }

    /// Compacts a segment.
    fn compact(&mut self, id: u64) -> Result<StepAnswer, Refusal>
        ensures accepted { IfOk result (λ a.
            Accepts (world F.state self.old) (Step.Compact id) a (world F.state self.new)) }
        ensures refused { IfErr result (λ r.
            Declines (world F.state self.old) (Step.Compact id) r (world F.state self.new)) }
    {
        compact_segment(&mut self.core, id)
    }

    /// Hands one op to one backup.
    fn push(&mut self) -> Result<StepAnswer, Refusal>
        ensures accepted { IfOk result (λ a. Accepts (world F.state self.old) Step.Push a (world F.state self.new)) }
        ensures refused { IfErr result (λ r. Declines (world F.state self.old) Step.Push r (world F.state self.new)) }
    {
        pushing::push(&mut self.core, &mut self.fleet)
    }

    /// Pushes once, as the step Push does, unless the record at this place is durable. Returns true if the record was
    /// durable: then nothing changed. Both are decided by one look at the head.
    #[inline(always)]
    pub fn push_unless_durable(&mut self, place: u64) -> Result<bool, Refusal>
        requires { place < length self.old.knows.history }
        ensures was_valid { IsValid self.old.knows (F.state self.old.fleet) }
        ensures gives { PushesFor place (world F.state self.old) result (world F.state self.new) }
        ensures keeps { Keeps 1 (world F.state self.old) (world F.state self.new) }
        ensures remembers { self.new.knows.forgotten ≡ self.old.knows.forgotten }
        ensures valid { IsValid self.new.knows (F.state self.new.fleet) }
    {
        self.show_valid();
        self.show_kept();
        let is_durable = pushing::push_unless_durable(&mut self.core, &mut self.fleet, place);
        self.show_valid();
        is_durable
    }

    /// Forgets the first `n` records, or those of them that are durable, but for the last 1,024 of these at most: their
    /// memory is freed, and nothing else changes. A record that is forgotten still counts, and contracts still see it.
    pub fn forget(&mut self, n: u64)
        ensures was_valid { IsValid self.old.knows (F.state self.old.fleet) }
        ensures gives { ForgetsTo n self.old.knows self.new.knows }
        ensures near { may_forget n self.old.knows ≤ 2 ^ 62
            → may_forget n self.old.knows ≤ self.new.knows.forgotten + 1024 }
        ensures fleet { self.new.fleet ≡ self.old.fleet }
        ensures keeps { Keeps 0 (world F.state self.old) (world F.state self.new) }
        ensures valid { IsValid self.new.knows (F.state self.new.fleet) }
    {
        self.show_valid();
        self.show_kept();
        self.core.forget(n);
        self.show_valid();
    }

    /// Makes the steps in order, and answers what each of them answered. All memory for this is taken before the first
    /// step, so NoMemory means that no step was made. A run of no steps takes none.
    pub fn run(&mut self, steps: &[Step]) -> Result<Vec<Result<StepAnswer, Refusal>>, NoMemory>
        ensures ran { IfOk result (λ answers.
            IsRun (world F.state self.old) steps.now answers.items (world F.state self.new)) }
        ensures keeps { Keeps (length steps.now) (world F.state self.old) (world F.state self.new) }
        ensures remembers { self.new.knows.forgotten ≡ self.old.knows.forgotten }
        ensures valid { IsValid self.new.knows (F.state self.new.fleet) }
        ensures refused { OnErr result (world F.state self.new ≡ world F.state self.old) }
        ensures needed { OnErr result (0 < length steps.now) }
    {
        self.show_valid();
        let mut answers = Vec::with_capacity(self.alloc, steps.len())?;
        let own = copies(self.alloc, steps)?;
        for step in own {
            let answer = self.step(step);
            answers.push_reserved(answer);
        }
        self.show_valid();
        Ok(answers)
    }

    /// Drops the master, and hands the fleet back as it is. Whichever backups are left then, they hold the map after a
    /// prefix of the commands.
    pub fn crash(self) -> F
        ensures fleet { result ≡ self.fleet }
        ensures valid { IsValid self.knows (F.state result) }
        ensures backups { self.knows.config.backups ≤ (F.state result).backups }
    {
        self.show_valid();
        self.show_kept();
        let Master {
            alloc: _,
            core,
            fleet,
        } = self;
        drop(core);
        fleet
    }
}

impl<F: Bench> Master<F> {
    ghost use Rattle.replica.specs.Retire.{Retires};
    ghost use Rattle.master.specs.World.{limited_world, retired_data};

    /// Lets the fleet take `n` more ops.
    pub fn limit(&mut self, n: u64)
        ensures limited { world F.Fleet.state self.new ≡ limited_world (world F.Fleet.state self.old) n }
        ensures valid { IsValid self.new.knows (F.Fleet.state self.new.fleet) }
    {
        self.fleet.limit(n);
        self.show_valid();
    }

    /// Asks the fleet for a fault of the `n`-th take from now, whose op is taken or not. With 0 none comes. Nothing
    /// else changes.
    pub fn fault_at(&mut self, n: u64, taken: bool)
        ensures same { world F.Fleet.state self.new ≡ world F.Fleet.state self.old }
        ensures valid { IsValid self.new.knows (F.Fleet.state self.new.fleet) }
    {
        self.fleet.fault_at(n, taken);
        self.show_valid();
    }

    /// Frees the replicas of all other masters: by backup, then by master, then by segment, one Free a take. It ends at
    /// the first fault, and what was freed before stays freed. What the master knows and its own replicas stay as they
    /// are, but after a fault of a backup the master stays halted.
    pub fn retire(&mut self) -> Result<(), TakeFault>
        ensures retires { Retires (F.Fleet.state self.old.fleet) self.old.knows.config.master result
            (F.Fleet.state self.new.fleet) }
        ensures knows { self.new.knows ≡ retired_data result self.old.knows }
        ensures same { (b s : ℕ) → (F.Fleet.state self.new.fleet).picture b self.old.knows.config.master s
            ≡ (F.Fleet.state self.old.fleet).picture b self.old.knows.config.master s }
        ensures valid { IsValid self.new.knows (F.Fleet.state self.new.fleet) }
    {
        let result = retiring::retire(&mut self.core, &mut self.fleet);
        self.show_valid();
        result
    }
}

/// A copy of the steps.
fn copies(alloc: Global, steps: &[Step]) -> Result<Vec<Step>, NoMemory>
    ensures copies { IfOk result (λ own. own.items ≡ steps.now) }
    ensures refused { OnErr result (0 < length steps.now) }
{
    let mut own = Vec::with_capacity(alloc, steps.len())?;
    for step in steps {
        own.push_reserved(step.copy(alloc)?);
    }
    Ok(own)
}
