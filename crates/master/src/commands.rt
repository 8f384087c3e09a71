//! A command on a master.

ghost use Rattle.std.specs.Prelude.{◌≡◌, None, Ok, Err, IfOk, IfErr, OnErr};
ghost use Rattle.std.specs.Result.{result_err};
ghost use Rattle.history.specs.View.{shown_command};
ghost use Rattle.master_core.specs.master_state.Causes.{command_refusal};
ghost use Rattle.master_core.specs.master_state.Steps.{IsFound, reply_now};
ghost use Rattle.master.specs.Keeps.{Keeps};
ghost use Rattle.master.specs.Steps.{Accepts, Declines, Steps};
ghost use Rattle.master.specs.Valid.{IsValid};
ghost use Rattle.master.specs.World.{world};

use crate::master::Master;
use entry::NoMemory;
use history::CommandRef;
use master_core::{Refusal, Step, StepAnswer, accept, answer, answer_to, apply, would};
use replica::Fleet;
use versioned_map::{Command, Reply};

impl<F: Fleet> Master<F> {
    /// Which test would refuse a step with this command, if any. It does not look at memory.
    pub fn would(&self, _seat: u64, command: &Command) -> Result<(), Refusal>
        ensures { result_err result ≡ command_refusal self.now.knows command.now }
    {
        would(&self.core, command)
    }

    /// The reply that a step with this command would get, if no test refuses it. Nothing changes.
    pub fn answer_to(&self, command: &Command) -> Result<Reply, NoMemory>
        requires { command_refusal self.now.knows command.now ≡ None }
        ensures reply { IfOk result (λ reply. reply ≡ reply_now self.now.knows command.now) }
        ensures refused { OnErr result (IsFound (reply_now self.now.knows command.now)) }
    {
        answer_to(&self.core, command)
    }

    /// Makes the step Apply with a command that may lie anywhere, for whoever reads the reply from the history. Beside
    /// the command's unit and its record, which has the reply, nothing is copied. The answer is the place of the
    /// record.
    #[inline(always)]
    pub fn accept(&mut self, seat: u64, command: &CommandRef<'_>) -> Result<u64, Refusal>
        ensures was_valid { IsValid self.old.knows (F.state self.old.fleet) }
        ensures applied { IfOk result (λ place.
            Steps (world F.state self.old) (Step.Apply seat (shown_command command.now))
            (Ok (StepAnswer.Applied place (reply_now self.old.knows (shown_command command.now))))
            (world F.state self.new)) }
        ensures refused { IfErr result (λ r.
            Steps (world F.state self.old) (Step.Apply seat (shown_command command.now)) (Err r)
            (world F.state self.new)) }
        ensures keeps { Keeps 1 (world F.state self.old) (world F.state self.new) }
        ensures remembers { self.new.knows.forgotten ≡ self.old.knows.forgotten }
        ensures valid { IsValid self.new.knows (F.state self.new.fleet) }
    {
        self.show_valid();
        self.show_kept();
        let place = self.add(seat, command);
        self.show_valid();
        place
    }

    /// Applies a command, and answers with the place of its record.
    #[inline(always)]
    fn add(&mut self, seat: u64, command: &CommandRef<'_>) -> Result<u64, Refusal>
        ensures accepted { IfOk result (λ place.
            Accepts (world F.state self.old) (Step.Apply seat (shown_command command.now))
            (StepAnswer.Applied place (reply_now self.old.knows (shown_command command.now)))
            (world F.state self.new)) }
        ensures refused { IfErr result (λ r.
            Declines (world F.state self.old) (Step.Apply seat (shown_command command.now)) r
            (world F.state self.new)) }
    {
        accept(&mut self.core, seat, command)
    }

    /// Makes the step Apply with a command that may lie anywhere, as `accept` does, and answers with the reply too. The
    /// command is judged once. Only a reply with a value of more than 15 bytes is copied.
    #[inline(always)]
    pub fn answer(&mut self, seat: u64, command: &CommandRef<'_>) -> Result<(u64, Reply), Refusal>
        ensures was_valid { IsValid self.old.knows (F.state self.old.fleet) }
        ensures applied { IfOk result (λ answer.
            Steps (world F.state self.old) (Step.Apply seat (shown_command command.now))
            (Ok (StepAnswer.Applied answer.0 answer.1)) (world F.state self.new)) }
        ensures refused { IfErr result (λ r.
            Steps (world F.state self.old) (Step.Apply seat (shown_command command.now)) (Err r)
            (world F.state self.new)) }
        ensures keeps { Keeps 1 (world F.state self.old) (world F.state self.new) }
        ensures remembers { self.new.knows.forgotten ≡ self.old.knows.forgotten }
        ensures valid { IsValid self.new.knows (F.state self.new.fleet) }
    {
        self.show_valid();
        self.show_kept();
        let answer = self.reply(seat, command);
        self.show_valid();
        answer
    }

    /// Applies a command, and answers with the place of its record and its reply.
    #[inline(always)]
    fn reply(&mut self, seat: u64, command: &CommandRef<'_>) -> Result<(u64, Reply), Refusal>
        ensures accepted { IfOk result (λ answer.
            Accepts (world F.state self.old) (Step.Apply seat (shown_command command.now))
            (StepAnswer.Applied answer.0 answer.1) (world F.state self.new)) }
        ensures refused { IfErr result (λ r.
            Declines (world F.state self.old) (Step.Apply seat (shown_command command.now)) r
            (world F.state self.new)) }
    {
        answer(&mut self.core, seat, command)
    }

    /// Applies a command.
    pub(crate) fn apply(&mut self, seat: u64, command: Command) -> Result<StepAnswer, Refusal>
        ensures accepted { IfOk result (λ a.
            Accepts (world F.state self.old) (Step.Apply seat command) a (world F.state self.new)) }
        ensures refused { IfErr result (λ r.
            Declines (world F.state self.old) (Step.Apply seat command) r (world F.state self.new)) }
    {
        apply(&mut self.core, seat, command)
    }
}
