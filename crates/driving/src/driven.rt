//! What can push and begin a roll: a master, or one that is loaded.

ghost use Rattle.master.specs.Steps.{Steps};

use master::{Loading, Master, Refusal, Step, StepAnswer};
use replica::Fleet;

/// A master, or one that is loaded with objects before its history begins.
pub trait Driven {
    ghost use Rattle.master.specs.World.{World};

    /// What the master knows, and the state of its fleet.
    ghost world: { Self → World };

    /// What each push and each begin of a roll keeps, whatever it answers.
    ghost goes_on: { World → World → Type 0 };

    /// Hands one op to one backup.
    fn push(&mut self) -> Result<StepAnswer, Refusal>
        ensures gives { Steps (world self.old) Step.Push result (world self.new) }
        ensures goes_on { goes_on (world self.old) (world self.new) };

    /// Begins a roll.
    fn begin_roll(&mut self) -> Result<StepAnswer, Refusal>
        ensures gives { Steps (world self.old) Step.BeginRoll result (world self.new) }
        ensures goes_on { goes_on (world self.old) (world self.new) };

    /// The relation `goes_on` holds if nothing is done.
    ghost stays: { (w : World) → goes_on w w };

    /// The relation `goes_on` holds of two steps, one after another, if it holds of each.
    ghost further: { (a b c : World) → goes_on a b → goes_on b c → goes_on a c };
}

impl<F: Fleet> Driven for Master<F> {
    ghost use Rattle.std.specs.Prelude.{[]};
    ghost use Rattle.driving.specs.Served.{LivesOn};
    ghost use Rattle.driving.specs.GoesOn.{goes_nowhere, goes_further};

    ghost world = { λ m. record { knows = m.knows; fleet = F.state m.fleet } };

    ghost goes_on = { λ old new. LivesOn old.knows new.knows [] };

    #[inline(always)]
    fn push(&mut self) -> Result<StepAnswer, Refusal> {
        self.step(Step::Push)
    }

    #[inline(always)]
    fn begin_roll(&mut self) -> Result<StepAnswer, Refusal> {
        self.step(Step::BeginRoll)
    }

    ghost stays = { λ w. goes_nowhere w.knows };

    ghost further = { λ a b c. goes_further a.knows b.knows c.knows };
}

impl<F: Fleet> Driven for Loading<F> {
    ghost use Rattle.driving.specs.Served.{StaysLoaded};
    ghost use Rattle.driving.specs.GoesOn.{loaded_same, loaded_further};

    ghost world = { λ l. record { knows = l.knows; fleet = F.state l.fleet } };

    ghost goes_on = { λ old new. StaysLoaded old.knows new.knows };

    #[inline(always)]
    fn push(&mut self) -> Result<StepAnswer, Refusal> {
        Loading::push(self)
    }

    #[inline(always)]
    fn begin_roll(&mut self) -> Result<StepAnswer, Refusal> {
        Loading::begin_roll(self)
    }

    ghost stays = { λ w. loaded_same w.knows };

    ghost further = { λ a b c. loaded_further a.knows b.knows c.knows };
}
