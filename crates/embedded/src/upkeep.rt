//! What a store does between commands.

ghost use Rattle.std.specs.Prelude.{◌≡◌, ◌≤◌, IfOk};
ghost use Rattle.embedded.specs.Lives.{IsSettled, Keeps};

use crate::carrying::count;
use crate::life::Life;
use crate::reply::number_of;
use crate::store::Store;
use recovery::driving::push_until;
use tending::{Policy, tend};

impl Store {
    /// Makes all records durable, those of commands that were unsure too. The error is the number of the refusal, or
    /// 0 if there is no master.
    pub fn settle(&mut self) -> Result<(), u64>
        ensures keeps { Keeps self.old.life self.new.life }
        ensures settled { IfOk result (λ done. IsSettled self.new.life) }
        ensures rest { self.new ≡ record self.old { life = self.new.life } }
    {
        let Life::Up(master) = &mut self.life else {
            return Err(0);
        };
        master.show_valid();
        let records = count(master);
        if records == 0 {
            return Ok(());
        }
        let outcome = push_until(master, records - 1);
        master.show_valid();
        match outcome {
            Ok(()) => Ok(()),
            Err(refusal) => Err(number_of(&refusal)),
        }
    }

    /// Makes up to so many steps of the cleaner, for a program that has time. The answer is how many it made. It makes
    /// fewer only if there is nothing to clean. The error is the number of the refusal, or 0 if there is no master.
    /// What was done stays done.
    pub fn tend(&mut self, steps: u64) -> Result<u64, u64>
        ensures keeps { Keeps self.old.life self.new.life }
        ensures few { IfOk result (λ made. made ≤ steps) }
        ensures rest { self.new ≡ record self.old { life = self.new.life } }
    {
        let Life::Up(master) = &mut self.life else {
            return Err(0);
        };
        let policy = Policy::of(master.config());
        let outcome = tend(master, &policy, &mut self.notes, steps);
        master.show_valid();
        match outcome {
            Ok(made) => Ok(made),
            Err(refusal) => Err(number_of(&refusal)),
        }
    }
}
