//! Commands that share their pushes.

ghost use Rattle.std.specs.Prelude.{◌≡◌, ◌<◌, [], length, true, IfOk, IfErr};
ghost use Rattle.history.specs.View.{shown_command};
ghost use Rattle.file_fleet.specs.Fleet.{fleet_state};
ghost use Rattle.recovery.specs.driving.Served.{LivesOn, is_of_push};
ghost use Rattle.recovery.specs.master.Valid.{IsValid};
ghost use Rattle.recovery.specs.master.log_laws.Data.{durable_of};
ghost use Rattle.recovery.specs.master.master_state.Log.{log_of};
ghost use Rattle.embedded.specs.Replies.{GoesOn};
ghost use Rattle.embedded.specs.Tries.{IsApplied};
ghost use Rattle.file_store.specs.Groups.{IsNotApplied};

use crate::store::FileStore;
use file_fleet::FleetRegistry;
use recovery::driving::push_until;
use recovery::master::{CommandRef, Refusal};
use take_journal::Device;
use tending::{Policy, tend_behind};

/// How many steps the cleaner makes behind a command.
const STEPS: u64 = 32;

/// More records than this are kept before a master forgets.
const BLOCK: usize = 1_024;

impl<D: Device, R: FleetRegistry> FileStore<D, R> {
    /// Applies a command, and pushes nothing, so its record isn't known to be on the disks yet. Whoever applies several
    /// commands pushes for the last one (`push_for`): the pushes carry all of them. The answer is the place of the
    /// record, which has the reply. The error says why there is no record: nothing changed then. `put`, `get` and
    /// `delete` make the roll or the room that such a command may wait for.
    pub fn apply(&mut self, command: &CommandRef<'_>) -> Result<u64, Refusal>
        ensures applied { IfOk result (λ place.
            IsApplied self.old.master.knows (shown_command command.now) place self.new.master.knows) }
        ensures refused { IfErr result (λ r.
            IsNotApplied self.old.master.knows (shown_command command.now) r self.new.master.knows) }
        ensures valid { IsValid self.new.master.knows (fleet_state R.noted self.new.master.fleet) }
    {
        self.master.accept(0, command)
    }

    /// Pushes until the record at this place is on the disks of all homes of its segment, and each record before it. A
    /// push carries all that waits, so records that were applied together share its syncs. If a push is refused, the
    /// master knows how many records are on the disks (`Master::durable`), and of the others none.
    pub fn push_for(&mut self, place: u64) -> Result<(), Refusal>
        requires { place < length self.old.master.knows.history }
        ensures goes_on { LivesOn self.old.master.knows self.new.master.knows [] }
        ensures durable { IfOk result (λ done. place < durable_of (log_of self.new.master.knows)) }
        ensures refused { IfErr result (λ r. is_of_push r ≡ true) }
        ensures valid { IsValid self.new.master.knows (fleet_state R.noted self.new.master.fleet) }
    {
        let pushed = push_until(&mut self.master, place);
        self.master.show_valid();
        pushed
    }

    /// What follows so many commands that were applied and pushed: the master forgets records by blocks, and the
    /// cleaner makes up to 32 steps for each command, and none behind a compaction unless memory is tight. No record is
    /// made.
    pub fn tidy(&mut self, commands: u64)
        ensures goes_on { GoesOn self.old.master.knows self.new.master.knows [] }
        ensures valid { IsValid self.new.master.knows (fleet_state R.noted self.new.master.fleet) }
    {
        self.forget();
        let policy = Policy::of(self.master.config());
        for _ in 0..commands {
            let _ = tend_behind(&mut self.master, &policy, &mut self.notes, STEPS);
        }
        self.master.show_valid();
    }

    /// Lets a master that keeps more than 1,024 records forget its durable ones, by blocks.
    fn forget(&mut self)
        ensures { GoesOn self.old.master.knows self.new.master.knows [] }
    {
        if self.master.history().kept() <= BLOCK {
            return;
        }
        let records = self.master.history().len() as u64;
        self.master.forget(records);
    }
}
