//! A pass of a master: it begins, copies entry by entry, and its survivor is sealed. What it leaves is freed.

ghost use Rattle.std.specs.Prelude.{◌≡◌, ◌≢◌, None, Some, true, IfOk, IfErr, OnErr, MatchBool};
ghost use Rattle.std.specs.Option.{is_some};
ghost use Rattle.tablet_will.specs.Sizes.{are_sizes};
ghost use Rattle.master_core.specs.master_space.Choosing.{chosen, next_step, pending_step, NeedsChoice};
ghost use Rattle.master_core.specs.master_state.Log.{state_now};
ghost use Rattle.master_core.specs.master_state.Sizes.{AreSizesOf};
ghost use Rattle.master.specs.Steps.{Accepts, Declines};
ghost use Rattle.master.specs.World.{world};

use crate::master::Master;
use entry::{NoMemory, Row, Size};
use master_core::{
    Posting, Refusal, Step, StepAnswer, begin_clean, choose, copy, freed, is_copying, next_step,
    pending_step, seal_op, sealed, sorted_sizes, to_free, to_seal,
};
use replica::{Act, Fleet, Op};

impl<F: Fleet> Master<F> {
    /// The victims of the next pass: the segments that keep the fewest bytes, of as many bytes the lowest number first.
    /// They are at most 32, and as many as fill four survivors or as there is memory for. They are of the digest in
    /// force, and no heads. Nothing changes.
    pub fn choose(&self) -> Result<Vec<u64>, NoMemory>
        ensures { IfOk result (λ ids. ids.items ≡ chosen self.now.knows) }
    {
        choose(&self.core)
    }

    /// The step that a cleaner makes next: an open failover goes on, then an open pass, then a roll, then what waits is
    /// freed, and then the next pass begins, if it may and has victims. `None` if nothing is to be done. It is never a
    /// command. Nothing changes, and only a choice of victims takes memory.
    pub fn next_step(&self) -> Result<Option<Step>, NoMemory>
        ensures next { IfOk result (λ step. step ≡ next_step self.now.knows) }
        ensures refused { OnErr result ((self.now.knows.pass ≡ None) × NeedsChoice self.now.knows) }
    {
        next_step(&self.core)
    }

    /// Whether a pass is open. It takes no memory.
    pub fn has_pass(&self) -> bool
        ensures { result ≡ is_some self.now.knows.pass }
    {
        self.core.pass.is_some()
    }

    /// The step that is under way: an open failover goes on, then an open pass, then a roll, and then what waits is
    /// freed. `None` if nothing is. Nothing changes, and it takes no memory.
    pub fn pending_step(&self) -> Option<Step>
        ensures { result ≡ pending_step self.now.knows }
    {
        pending_step(&self.core)
    }

    /// Whether the step that is under way treats an entry of the open pass. Nothing changes, and it takes no memory.
    #[inline(always)]
    pub fn is_copying(&self) -> bool
        ensures { MatchBool result (pending_step self.now.knows ≡ Some Step.Copy)
            (pending_step self.now.knows ≢ Some Step.Copy) }
    {
        is_copying(&self.core)
    }

    /// The sizes of the live objects, by table, then by place. Each is the length of the object's entry, and lies in a
    /// tablet of the configuration. Nothing changes.
    pub fn sizes(&self) -> Result<Vec<Size>, NoMemory>
        ensures sizes { IfOk result (λ sizes. AreSizesOf (state_now self.now.knows).contents sizes.items) }
        ensures tablets { IfOk result (λ sizes. are_sizes self.now.knows.config.tablets sizes.items ≡ true) }
    {
        sorted_sizes(&self.core)
    }

    /// Begins a pass over these victims.
    pub(crate) fn begin_clean(&mut self, victims: Row<u64>) -> Result<StepAnswer, Refusal>
        ensures accepted { IfOk result (λ a.
            Accepts (world F.state self.old) (Step.BeginClean victims) a (world F.state self.new)) }
        ensures refused { IfErr result (λ r.
            Declines (world F.state self.old) (Step.BeginClean victims) r (world F.state self.new)) }
    {
        begin_clean(&mut self.core, victims)
    }

    /// Treats the next entry of the open pass.
    pub(crate) fn copy(&mut self) -> Result<StepAnswer, Refusal>
        ensures accepted { IfOk result (λ a. Accepts (world F.state self.old) Step.Copy a (world F.state self.new)) }
        ensures refused { IfErr result (λ r. Declines (world F.state self.old) Step.Copy r (world F.state self.new)) }
    {
        copy(&mut self.core)
    }

    /// Seals the next replica of the open pass's survivors.
    pub(crate) fn seal(&mut self) -> Result<StepAnswer, Refusal>
        ensures accepted { IfOk result (λ a. Accepts (world F.state self.old) Step.Seal a (world F.state self.new)) }
        ensures refused { IfErr result (λ r. Declines (world F.state self.old) Step.Seal r (world F.state self.new)) }
    {
        self.core.admit()?;
        let Some((survivor, replica)) = to_seal(&self.core) else {
            return Err(Refusal::Nothing);
        };
        let op = seal_op(&self.core, survivor);
        let backup = self.core.home(survivor, replica);
        match self.fleet.take(backup, &op) {
            Ok(()) => {
                self.core.post(&Posting::Took(survivor, backup));
                sealed(&mut self.core);
                Ok(StepAnswer::Sealed(backup))
            }
            Err(fault) => Err(self.core.fail(backup, fault)),
        }
    }

    /// Frees the next replica of the first segment that waits.
    pub(crate) fn free(&mut self) -> Result<StepAnswer, Refusal>
        ensures accepted { IfOk result (λ a. Accepts (world F.state self.old) Step.Free a (world F.state self.new)) }
        ensures refused { IfErr result (λ r. Declines (world F.state self.old) Step.Free r (world F.state self.new)) }
    {
        self.core.admit()?;
        let Some((segment, replica)) = to_free(&self.core) else {
            return Err(Refusal::Nothing);
        };
        let op = Op {
            master: self.core.master(),
            segment,
            act: Act::Free,
        };
        let backup = self.core.home(segment, replica);
        match self.fleet.take(backup, &op) {
            Ok(()) => {
                freed(&mut self.core);
                Ok(StepAnswer::Freed(segment, backup))
            }
            Err(fault) => Err(self.core.fail(backup, fault)),
        }
    }
}
