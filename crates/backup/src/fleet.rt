//! A fleet of backups in memory.

ghost use Rattle.std.specs.Prelude.{◌≤◌};

use crate::acks::Acks;
use crate::memory::MemoryBackup;
use crate::registry::Registry;
use entry::NoMemory;
use replica::{Act, Bench, Fleet, Holding, Inventory, Labels, Op, Spot, TakeFault};
use std::alloc::Global;

/// A fault that is asked for: of which take from now, 1 for the next one, and whether its op is taken. With 0 there is
/// none.
#[derive(Clone, Copy)]
pub(crate) struct Asked {
    pub(crate) takes: u64,
    pub(crate) taken: bool,
}

impl Asked {
    ghost use Rattle.std.specs.Prelude.{◌≡◌};
    ghost use Rattle.backup.specs.Faults.{nothing_asked, nearer};

    /// No fault.
    pub(crate) fn nothing() -> Asked
        ensures { result ≡ nothing_asked }
    {
        Asked {
            takes: 0,
            taken: false,
        }
    }

    /// The same, one take later.
    #[inline(always)]
    pub(crate) fn nearer(&self) -> Asked
        requires { self.now.takes ≡ 0 → ⊥ }
        ensures { result ≡ nearer self.now }
    {
        Asked {
            takes: self.takes - 1,
            taken: self.taken,
        }
    }
}

/// Backups in memory, numbered from 0.
#[derive(Drop)]
pub struct MemoryFleet {
    pub(crate) alloc: Global,
    pub(crate) backups: Vec<MemoryBackup>,
    pub(crate) registry: Registry,
    pub(crate) takes: u64,
    pub(crate) end: u64,
    pub(crate) faults: u64,
    pub(crate) asked: Asked,
    pub(crate) acks: Acks,
    ghost within: { takes ≤ end },
}

impl MemoryFleet {
    ghost use Rattle.std.specs.Prelude.{◌≡◌, ◌≤◌, ◌<◌, ◌↔◌, ℕ, Err, IfOk, IsTrue, OnErr, if◌then◌else◌};
    ghost use Rattle.replica.specs.Op.{shown_act, shown_op};
    ghost use Rattle.replica.specs.Picture.{FleetState, AreHeld, AreLabelsOf};
    ghost use Rattle.replica.specs.Retire.{AreOthers};
    ghost use Rattle.replica.specs.Take.{faulted, no_limit};
    ghost use Rattle.backup.specs.Acts.{MayGrow};
    ghost use Rattle.backup.specs.Faults.{nothing_asked, IsDue, Serves, ServesUnanswered, Attempts, Fails};
    ghost use Rattle.backup.specs.Faults.{ServesRaise, FailsRaise};
    ghost use Rattle.backup.specs.Inventory.{IsRising, AreRising};
    ghost use Rattle.backup.specs.Retire.{HoldsOthers};
    ghost use Rattle.backup.specs.State.{fleet_state, new_fleet, lost, HoldsAny};

    /// A fleet of so many backups, which hold nothing. It isn't limited, and no fault is asked for.
    pub fn new(alloc: Global, backups: u64) -> Result<MemoryFleet, NoMemory>
        ensures new { IfOk result (λ fleet. fleet_state fleet ≡ new_fleet backups) }
        ensures asked { IfOk result (λ fleet. fleet.asked ≡ nothing_asked) }
    {
        let mut list = Vec::with_capacity(alloc, backups as usize)?;
        for _ in 0..backups {
            list.push(MemoryBackup::new(alloc))?;
        }
        Ok(MemoryFleet {
            alloc,
            backups: list,
            registry: Registry::new(alloc),
            takes: 0,
            end: u64::MAX,
            faults: 0,
            asked: Asked::nothing(),
            acks: Acks::none(),
        })
    }

    /// How many backups there are.
    pub fn backups(&self) -> u64
        ensures { result ≡ (fleet_state self.now).backups }
    {
        self.backups.len() as u64
    }

    /// Makes a backup lose all that it holds. An empty one has its number from then on. A number that is no backup's
    /// changes nothing.
    pub fn lose(&mut self, backup: u64)
        ensures lost { fleet_state self.new ≡ lost (fleet_state self.old) backup }
        ensures none { (fleet_state self.old).backups ≤ backup → fleet_state self.new ≡ fleet_state self.old }
        ensures asked { self.new.asked ≡ self.old.asked }
    {
        if let Some(memory) = self.backups.get_mut(backup as usize) {
            memory.clear();
        }
    }

    /// All replicas of all backups, by backup, then by master, then by segment. Their bytes stay with the backups. It
    /// takes no memory if there is none.
    pub fn inventory(&self, alloc: Global) -> Result<Inventory<'_>, NoMemory>
        ensures shown { IfOk result (λ hs. AreHeld hs (fleet_state self.entry.now).picture) }
        ensures rising { IfOk result (λ hs. IsRising hs) }
        ensures memory { OnErr result (HoldsAny (fleet_state self.entry.now).picture) }
    {
        let mut list = Vec::new(alloc);
        for (backup, memory) in self.backups.iter().enumerate() {
            memory.show(backup as u64, &mut list)?;
        }
        Ok(Inventory::new(list))
    }

    /// The labels of all replicas of all backups, by backup, then by master, then by segment. It takes no memory if
    /// there is none.
    pub fn labels(&self, alloc: Global) -> Result<Labels, NoMemory>
        ensures shown { IfOk result (AreLabelsOf (fleet_state self.now).picture) }
        ensures rising { IfOk result AreRising }
        ensures memory { OnErr result (HoldsAny (fleet_state self.now).picture) }
    {
        let inventory = self.inventory(alloc)?;
        let holdings = inventory.as_slice();
        let mut labels = Vec::with_capacity(alloc, holdings.len())?;
        for holding in holdings {
            labels.push_reserved(holding.label());
        }
        Ok(Labels::new(labels))
    }

    /// Where the replicas of other masters than `keep` are, by backup, then by master, then by segment. It takes no
    /// memory if there is none.
    fn others(&self, keep: u64) -> Result<Vec<Spot>, NoMemory>
        ensures others { IfOk result (λ spots. AreOthers spots.items (fleet_state self.now).picture keep) }
        ensures memory { OnErr result (HoldsOthers (fleet_state self.now).picture keep) }
    {
        let mut list = Vec::new(self.alloc);
        for (backup, memory) in self.backups.iter().enumerate() {
            memory.list_others(keep, backup as u64, &mut list)?;
        }
        Ok(list)
    }
}

impl Fleet for MemoryFleet {
    ghost use Rattle.std.specs.Prelude.{◌≡◌, ◌≤◌, ◌↔◌, [], IfOk, OnErr, Err};
    ghost use Rattle.replica.specs.Op.{shown_act, shown_op};
    ghost use Rattle.replica.specs.Picture.{AreHeldBy, IsOnce};
    ghost use Rattle.replica.specs.Registry.{RaiseGives};
    ghost use Rattle.replica.specs.Take.{TakeGives};
    ghost use Rattle.backup.specs.Acts.{IsWrongOp, MayGrow};
    ghost use Rattle.backup.specs.Faults.{TakesOp, TakesRaise, MeetsAsked};
    ghost use Rattle.backup.specs.Inventory.{IsRising};
    ghost use Rattle.backup.specs.State.{fleet_state, HoldsSome};

    ghost state = { fleet_state };

    /// Hands an op to a backup. Spent is answered before Wrong, and NoMemory only if the op fits, and never to a Close
    /// or a Free. A take ends in a fault just if `fault_at` asked for that, and it wouldn't have been refused.
    #[inline(always)]
    fn take(&mut self, backup: u64, op: &Op<'_>) -> Result<(), TakeFault>
        ensures gives { TakeGives (fleet_state self.old) backup (shown_op op.now) result (fleet_state self.new) }
        ensures spent { (result ≡ Err TakeFault.Spent) ↔ ((fleet_state self.old).takes ≡ (fleet_state self.old).end) }
        ensures wrong { (result ≡ Err TakeFault.Wrong) ↔ IsWrongOp (fleet_state self.old) backup (shown_op op.now) }
        ensures memory { result ≡ Err TakeFault.NoMemory → MayGrow (shown_act op.now.act) }
        ensures faults { MeetsAsked (TakesOp backup (shown_op op.now)) self.old result self.new }
    {
        if self.asked.takes == 0 {
            return self.answer(backup, op);
        }
        if self.is_due() {
            return self.fail(backup, op);
        }
        match self.answer(backup, op) {
            Ok(()) => {
                self.asked = self.asked.nearer();
                Ok(())
            }
            Err(fault) => Err(fault),
        }
    }

    /// Raises a master's least head. Spent is answered before NoMemory, which only the first raise of a master may be.
    /// It ends in a fault just if `fault_at` asked for that, and it wouldn't have been refused.
    fn raise(&mut self, master: u64, id: u64) -> Result<(), TakeFault>
        ensures gives { RaiseGives (fleet_state self.old) master id result (fleet_state self.new) }
        ensures spent { (result ≡ Err TakeFault.Spent) ↔ ((fleet_state self.old).takes ≡ (fleet_state self.old).end) }
        ensures faults { MeetsAsked (TakesRaise master id) self.old result self.new }
    {
        if self.asked.takes == 0 {
            return self.serve_raise(master, id);
        }
        if self.is_due() {
            return self.fail_raise(master, id);
        }
        match self.serve_raise(master, id) {
            Ok(()) => {
                self.asked = self.asked.nearer();
                Ok(())
            }
            Err(fault) => Err(fault),
        }
    }

    fn least(&self, master: u64) -> u64 {
        self.registry.least(master)
    }

    /// All replicas of one backup, by master, then by segment. Their bytes stay with the backup. It takes no memory if
    /// there is none.
    fn holdings(&self, alloc: Global, backup: u64) -> Result<Vec<Holding<'_>>, NoMemory>
        ensures shown { IfOk result (λ hs. AreHeldBy hs.items (fleet_state self.entry.now).picture backup) }
        ensures once { IfOk result (λ hs. IsOnce hs.items) }
        ensures none { IfOk result (λ hs. (fleet_state self.entry.now).backups ≤ backup → hs.items ≡ []) }
        ensures rising { IfOk result (λ hs. IsRising hs.items) }
        ensures memory { OnErr result (HoldsSome (fleet_state self.entry.now).picture backup) }
    {
        let mut list = Vec::new(alloc);
        let Some(memory) = self.backups.as_slice().get(backup as usize) else {
            return Ok(list);
        };
        memory.show(backup, &mut list)?;
        Ok(list)
    }

    fn takes(&self) -> u64 {
        self.takes
    }

    fn end(&self) -> u64 {
        self.end
    }

    fn faults(&self) -> u64 {
        self.faults
    }
}

impl Bench for MemoryFleet {
    ghost use Rattle.std.specs.Prelude.{◌≡◌, ℕ, Err};
    ghost use Rattle.replica.specs.Retire.{Retires};
    ghost use Rattle.replica.specs.Take.{limited};
    ghost use Rattle.backup.specs.Faults.{MeetsAskedFreeing};
    ghost use Rattle.backup.specs.Retire.{HoldsOthers};
    ghost use Rattle.backup.specs.State.{fleet_state};

    fn limit(&mut self, n: u64)
        ensures limited { fleet_state self.new ≡ limited (fleet_state self.old) n }
        ensures asked { self.new.asked ≡ self.old.asked }
    {
        self.end = self.takes.saturating_add(n);
    }

    fn fault_at(&mut self, n: u64, taken: bool)
        ensures same { fleet_state self.new ≡ fleet_state self.old }
        ensures asked { self.new.asked ≡ record { takes = n; taken = taken } }
    {
        self.asked = Asked { takes: n, taken };
    }

    /// Frees the replicas of all masters but `keep`: by backup, then by master, then by segment, one Free a take. It
    /// ends at the first fault, and what was freed before stays freed. NoMemory comes before the first take alone, and
    /// only if there is a replica to be freed. A Free ends in a fault just if `fault_at` asked for that.
    fn retire(&mut self, keep: u64) -> Result<(), TakeFault>
        ensures retires { Retires (fleet_state self.old) keep result (fleet_state self.new) }
        ensures same { (b s : ℕ) →
            (fleet_state self.new).picture b keep s ≡ (fleet_state self.old).picture b keep s }
        ensures memory { result ≡ Err TakeFault.NoMemory →
            HoldsOthers (fleet_state self.old).picture keep × (fleet_state self.new ≡ fleet_state self.old) }
        ensures faults { MeetsAskedFreeing self.old result self.new }
    {
        let Ok(spots) = self.others(keep) else {
            return Err(TakeFault::NoMemory);
        };
        for spot in spots {
            let op = Op {
                master: spot.master,
                segment: spot.segment,
                act: Act::Free,
            };
            match self.take(spot.backup, &op) {
                Ok(()) => {}
                Err(fault) => return Err(fault),
            }
        }
        Ok(())
    }
}
