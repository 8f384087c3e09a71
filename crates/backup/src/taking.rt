//! How a fleet serves an op and a raise, and the one that ends in a fault.

ghost use Rattle.std.specs.Prelude.{◌≡◌, ◌<◌, ◌↔◌, Err, IsTrue, if◌then◌else◌};
ghost use Rattle.backup.specs.Faults.{nothing_asked, IsDue, Serves, ServesUnanswered, Attempts, Fails, ServesRaise};
ghost use Rattle.backup.specs.Faults.{FailsRaise};
ghost use Rattle.replica.specs.Op.{shown_act, shown_op};
ghost use Rattle.replica.specs.Picture.{FleetState};
ghost use Rattle.replica.specs.Take.{faulted, no_limit};
ghost use Rattle.backup.specs.Acts.{MayGrow};
ghost use Rattle.backup.specs.State.{fleet_state};

use crate::acks::{Acks, Handed};
use crate::fleet::{Asked, MemoryFleet};
use replica::{Op, TakeFault};

impl MemoryFleet {
    // ---- takes

    /// Whether the next take is the one that a fault is asked for, and another fault can be counted.
    #[inline(always)]
    pub(crate) fn is_due(&self) -> bool
        ensures { IsTrue result ↔ IsDue self.now }
    {
        self.asked.takes == 1 && self.faults < u64::MAX
    }

    /// Counts the fault that was asked for.
    fn end_in_fault(&mut self) -> TakeFault
        requires { (fleet_state self.old).faults < no_limit }
        ensures fault { result ≡ TakeFault.Fault }
        ensures counted { fleet_state self.new ≡ faulted (fleet_state self.old) }
        ensures asked { self.new.asked ≡ nothing_asked }
    {
        self.asked = Asked::nothing();
        self.faults += 1;
        TakeFault::Fault
    }

    /// Hands an op to a backup. It doesn't end in a fault, and nobody is answered yet.
    #[inline(always)]
    fn serve(&mut self, backup: u64, op: &Op<'_>) -> Result<(), TakeFault>
        ensures serves { ServesUnanswered (fleet_state self.old) backup (shown_op op.now) result
            (fleet_state self.new) }
        ensures asked { self.new.asked ≡ self.old.asked }
        ensures memory { result ≡ Err TakeFault.NoMemory → MayGrow (shown_act op.now.act) }
    {
        if self.takes == self.end {
            return Err(TakeFault::Spent);
        }
        let alloc = self.alloc;
        let Some(memory) = self.backups.get_mut(backup as usize) else {
            return Err(TakeFault::Wrong);
        };
        memory.take(alloc, op)?;
        self.takes += 1;
        Ok(())
    }

    /// Hands an op to a backup, and answers. It doesn't end in a fault.
    #[inline(always)]
    pub(crate) fn answer(&mut self, backup: u64, op: &Op<'_>) -> Result<(), TakeFault>
        ensures serves { Serves (fleet_state self.old) backup (shown_op op.now) result (fleet_state self.new) }
        ensures asked { self.new.asked ≡ self.old.asked }
        ensures memory { result ≡ Err TakeFault.NoMemory → MayGrow (shown_act op.now.act) }
    {
        self.serve(backup, op)?;
        self.acks = Acks::with(&self.acks, &Handed { backup, op: *op });
        Ok(())
    }

    /// What `serve` would answer if it got the memory. The fleet stays as it is.
    fn test(&mut self, backup: u64, op: &Op<'_>) -> Result<(), TakeFault>
        ensures serves { (mid : FleetState) × Serves (fleet_state self.old) backup (shown_op op.now) result mid }
        ensures same { fleet_state self.new ≡ fleet_state self.old }
        ensures asked { self.new.asked ≡ self.old.asked }
        ensures memory { result ≡ Err TakeFault.NoMemory → MayGrow (shown_act op.now.act) }
    {
        if self.takes == self.end {
            return Err(TakeFault::Spent);
        }
        let Some(named) = self.backups.get_mut(backup as usize) else {
            return Err(TakeFault::Wrong);
        };
        if named.fits(op) {
            Ok(())
        } else {
            Err(TakeFault::Wrong)
        }
    }

    /// Does with an op what is asked for of it before the fault.
    fn attempt(&mut self, backup: u64, op: &Op<'_>) -> Result<(), TakeFault>
        ensures attempts { Attempts self.old.asked.taken (fleet_state self.old) backup (shown_op op.now) result
            (fleet_state self.new) }
        ensures asked { self.new.asked ≡ self.old.asked }
        ensures memory { result ≡ Err TakeFault.NoMemory → MayGrow (shown_act op.now.act) }
    {
        if self.asked.taken {
            self.serve(backup, op)
        } else {
            self.test(backup, op)
        }
    }

    /// The take that a fault is asked for.
    #[cold]
    pub(crate) fn fail(&mut self, backup: u64, op: &Op<'_>) -> Result<(), TakeFault>
        requires { IsDue self.old }
        ensures fails { Fails self.old backup (shown_op op.now) result self.new }
        ensures memory { result ≡ Err TakeFault.NoMemory → MayGrow (shown_act op.now.act) }
    {
        self.attempt(backup, op)?;
        Err(self.end_in_fault())
    }

    // ---- raises

    /// Raises a master's least head. It doesn't end in a fault.
    pub(crate) fn serve_raise(&mut self, master: u64, id: u64) -> Result<(), TakeFault>
        ensures serves { ServesRaise (fleet_state self.old) master id result (fleet_state self.new) }
        ensures asked { self.new.asked ≡ self.old.asked }
    {
        if self.takes == self.end {
            return Err(TakeFault::Spent);
        }
        match self.registry.raise(master, id) {
            Ok(()) => {
                self.takes += 1;
                Ok(())
            }
            Err(_) => Err(TakeFault::NoMemory),
        }
    }

    /// Does with a raise what is asked for of it before the fault.
    fn attempt_raise(&mut self, master: u64, id: u64) -> Result<(), TakeFault>
        ensures serves { (mid : FleetState) × ServesRaise (fleet_state self.old) master id result mid
            × (fleet_state self.new ≡ (if self.old.asked.taken then mid else fleet_state self.old)) }
        ensures asked { self.new.asked ≡ self.old.asked }
    {
        if !self.asked.taken {
            return if self.takes < self.end {
                Ok(())
            } else {
                Err(TakeFault::Spent)
            };
        }
        self.serve_raise(master, id)
    }

    /// The raise that a fault is asked for.
    #[cold]
    pub(crate) fn fail_raise(&mut self, master: u64, id: u64) -> Result<(), TakeFault>
        requires { IsDue self.old }
        ensures { FailsRaise self.old master id result self.new }
    {
        self.attempt_raise(master, id)?;
        Err(self.end_in_fault())
    }
}
