//! Records that are forgotten, under the lock.

ghost use Rattle.std.specs.Prelude.{◌≡◌, ◌≤◌, ◌⊎◌};
ghost use Rattle.locked_log.specs.Held.{held};
ghost use Rattle.locked_log.specs.States.{IsState, Lasts};
ghost use Rattle.locked_log.specs.Steps.{ForgetsHeld};
ghost use Rattle.store_seat.specs.Accounts.{IsOpen, IsSettled};
ghost use Rattle.store_step.specs.master.log_laws.Data.{durable_of};
ghost use Rattle.store_step.specs.master.master_state.Log.{log_of};

use crate::state::State;
use replica::Fleet;
use store_seat::{Naming, settled_to};

impl<F: Fleet, B: Naming> State<F, B> {
    /// Has the master forget the durable records below the first that a seat can still settle, but for the last 1,024
    /// of them at most. The result is how many records are forgotten then. It takes no memory.
    pub fn forget_held(&mut self) -> u64
        ensures forgets { ForgetsHeld (held F.state self.old) result (held F.state self.new) }
        ensures lasts { Lasts 0 (held F.state self.old) (held F.state self.new) }
        ensures valid { IsState (held F.state self.new) B.made }
    {
        let bound = self.bound();
        self.master.forget(bound);
        self.master.forgotten()
    }

    /// The place of the first durable record that a seat can still settle; without one, the durable count, or the first
    /// place that isn't forgotten and that has a cell, if that is higher.
    pub(crate) fn bound(&self) -> u64
        ensures settled { IsSettled self.now.start self.now.book self.now.master.knows.history result }
        ensures near { IsOpen self.now.book self.now.master.knows.history result
            ⊎ (durable_of (log_of self.now.master.knows) ≤ result) }
    {
        self.master.show_kept();
        let from = self.master.forgotten().max(self.row.start() as u64);
        let durable = self.master.durable();
        settled_to(self.master.history(), &self.book, from, durable)
    }
}
