//! A master's steps over files, a power cut, and its recovery from what the files hold then.

ghost use Rattle.std.specs.Prelude.{IfOk};
ghost use Rattle.file_drill.specs.FileDrilled.{HasFileHeadline};

use crash_fleet::{CrashFleet, CrashImage};
use fleet_start::Found;
use found_recovery::recover_found;
use recovery::master::{Master, Refusal, Step, StepAnswer};
use recovery::{GroupOrder, Rebuilt, RecoveryFault, Will};
use registry_file::RegistryFile;
use std::alloc::Global;

/// What a drill gives: what each step answered, how many commands were durable as the master stopped, how many pushes
/// an open failover still needed then, the fleet as it was left, what the next start found of its files, and what was
/// recovered of that.
#[derive(Drop)]
pub struct FileDrill<D: CrashImage + Drop> {
    pub answers: Vec<Result<StepAnswer, Refusal>>,
    pub durable: u64,
    pub pushes_left: u64,
    pub fleet: CrashFleet<D>,
    pub found: Found<D, RegistryFile<D>>,
    pub recovered: Result<Rebuilt, RecoveryFault>,
}

/// Why a drill gives nothing.
#[derive(Clone, Copy)]
pub enum FileDrillFault {
    /// Memory for the answers ran out. No step was made.
    NoMemory,
    /// The files weren't opened: memory ran out, a device failed meanwhile, or a file was damaged.
    NotOpened,
}

/// Lets a master over files take any steps, and cuts the power, maybe amid one of them. Then a start opens the files of
/// the backups in `kept`, as the crash left them, and recovers the master from these, and from nothing else, by any
/// will and in any order.
///
/// Each device may fail at any call. A power cut is the call from which on all of them fail; without one the drill ends
/// behind the last step. The master goes with the drill.
pub fn run_file_drill<D: CrashImage + Drop>(
    alloc: Global,
    master: Master<CrashFleet<D>>,
    steps: &[Step],
    kept: &[u64],
    will: &Will,
    order: &GroupOrder,
) -> Result<FileDrill<D>, FileDrillFault>
    ensures headline { IfOk result (λ d. HasFileHeadline D.crash_image master steps.now kept.now will.now order.now d) }
{
    let mut master = master;
    let number = master.number();
    let Ok(answers) = master.run(steps) else {
        return Err(FileDrillFault::NoMemory);
    };
    let durable = master.durable();
    let pushes_left = master.failover_left();
    let fleet = master.crash();
    if !fleet.is_known() {
        return Err(FileDrillFault::NotOpened);
    }
    fleet.show_images();
    let Some(found) = fleet.found(kept) else {
        return Err(FileDrillFault::NotOpened);
    };
    let recovered = recover_found(alloc, &found, number, will, order);
    Ok(FileDrill {
        answers,
        durable,
        pushes_left,
        fleet,
        found,
        recovered,
    })
}
