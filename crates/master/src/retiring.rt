//! Replicas that other masters left, freed on the fleet of a master.

ghost use Rattle.std.specs.Prelude.{◌≡◌, ℕ};
ghost use Rattle.replica.specs.Retire.{Retires};
ghost use Rattle.master.specs.Invariant.{IsWellKept};
ghost use Rattle.master.specs.World.{retired_data};

use master_core::Core;
use replica::{Bench, TakeFault};

/// Frees the replicas of all other masters. It ends at the first fault; after a fault of a backup the master stays
/// halted.
pub(crate) fn retire<F: Bench>(core: &mut Core, fleet: &mut F) -> Result<(), TakeFault>
    requires kept { IsWellKept core.old (F.Fleet.state fleet.old) }
    ensures retires { Retires (F.Fleet.state fleet.old) core.old.config.master result (F.Fleet.state fleet.new) }
    ensures knows { core.new ≡ retired_data result core.old }
    ensures same { (b s : ℕ) → (F.Fleet.state fleet.new).picture b core.old.config.master s
        ≡ (F.Fleet.state fleet.old).picture b core.old.config.master s }
    ensures kept { IsWellKept core.new (F.Fleet.state fleet.new) }
{
    match fleet.retire(core.master()) {
        Ok(()) => Ok(()),
        Err(fault) => match fault {
            TakeFault::Fault => {
                core.halt();
                Err(TakeFault::Fault)
            }
            _ => Err(fault),
        },
    }
}
