//! Commands of a master that cleans itself: behind each one the cleaner makes a few steps, and for one that finds no
//! room it makes room.

ghost use Rattle.std.specs.Prelude.{◌≡◌, ◌<◌, ◌↔◌, ℕ, IsTrue};
ghost use Rattle.answers.specs.declared.answer.Answer.TheVariants.{Refused as RefusedValue};
ghost use Rattle.answers.specs.driving.master.master_state.declared.step.Refusal.TheVariants.{Full};
ghost use Rattle.history.specs.View.{shown_command};
ghost use Rattle.versioned_map.specs.declared.command.Reply.{Reply as ReplyValue};
ghost use Rattle.cluster.specs.Tended.{GainsRoom, RunsAfterRoll, RunsLine, RunsTendedLine, StaysOn, TendsOn};
ghost use Rattle.cluster.specs.Waits.{IsReplyAt};

use crate::node::Node;
use crate::tried::Tried;
use answers::Answer;
use answers::driving::master::{CommandRef, Refusal};
use tending::{Notes, Policy, make_room, tend_behind};

/// The most rounds in which the cleaner makes room for one command. Each of them but the last gains a seglet at least.
const MOST_ROUNDS: u64 = 65_536;

/// Whether a command was refused because there is no room.
fn is_full(answer: &Answer) -> bool
    ensures { IsTrue result ↔ (answer.now ≡ RefusedValue Full) }
{
    match answer {
        Answer::Refused(refusal) => match refusal {
            Refusal::Full => true,
            _ => false,
        },
        _ => false,
    }
}

impl Node {
    /// Runs the line of a command: it is tried, and if it has to wait for a roll, once more behind that roll. The
    /// error is the answer that tells why it has no reply.
    fn run(&mut self, command: &CommandRef<'_>) -> Result<u64, Answer>
        ensures { RunsLine self.old (shown_command command.now) self.new result }
    {
        match self.serve(command) {
            Tried::Replied(place) => Ok(place),
            Tried::Waits => self.run_after_roll(command),
            Tried::Refused(refusal) => Err(self.refuse(refusal)),
            Tried::Down => Err(Answer::Down),
        }
    }

    /// Makes the roll that a command waits for, and tries the command behind it.
    fn run_after_roll(&mut self, command: &CommandRef<'_>) -> Result<u64, Answer>
        ensures { RunsAfterRoll self.old (shown_command command.now) self.new result }
    {
        if let Err(answer) = self.make_room() {
            return Err(answer);
        }
        match self.serve(command) {
            Tried::Replied(place) => Ok(place),
            Tried::Waits => Err(Answer::Refused(Refusal::Rolling)),
            Tried::Refused(refusal) => Err(self.refuse(refusal)),
            Tried::Down => Err(Answer::Down),
        }
    }

    /// Makes one round of the cleaner by the usual policy, and answers whether it gained seglets. A round that is
    /// refused gains none, and what was done stays done.
    fn gain(&mut self, notes: &mut Notes) -> bool
        ensures stays { StaysOn self.old self.new }
        ensures gains { GainsRoom self.old result self.new }
    {
        let Node::Up(up) = self else {
            return false;
        };
        up.show_valid();
        let policy = Policy::of(up.config());
        let outcome = make_room(up, &policy, notes);
        up.show_valid();
        match outcome {
            Ok(gained) => gained,
            Err(_) => false,
        }
    }

    /// Makes up to so many steps of the cleaner by the usual policy, and none behind a compaction unless memory is
    /// tight. If a step is refused, what was done stays done, and the node stays as the refusal left it.
    fn tend_on(&mut self, notes: &mut Notes, steps: u64)
        ensures stays { StaysOn self.old self.new }
        ensures tends { TendsOn self.old steps self.new }
        ensures reply { (place : ℕ) (reply : ReplyValue) → IsReplyAt self.old place reply
            → IsReplyAt self.new place reply }
    {
        let Node::Up(up) = self else {
            return;
        };
        up.show_valid();
        let policy = Policy::of(up.config());
        let _ = tend_behind(up, &policy, notes, steps);
        up.show_valid();
    }

    /// Runs the line of a command, and then up to so many steps of the cleaner. While the command is refused as Full,
    /// the cleaner makes a round and the command is tried again, until it is accepted, refused for another reason, or
    /// a round gained no seglet. The result is the place of the record, which has the reply and is durable, or the
    /// answer that tells why there is none.
    ///
    /// A refusal of the cleaner is not answered. The node stays as it left the master: one that is halted refuses the
    /// next command, and a fleet that takes no more ops ends the next line that hands it one.
    #[inline(never)]
    pub fn serve_tended(
        &mut self,
        command: &CommandRef<'_>,
        notes: &mut Notes,
        steps: u64,
    ) -> Result<u64, Answer>
        requires steps { 0 < steps }
        ensures { RunsTendedLine self.old (shown_command command.now) steps self.new result }
    {
        for rounds in 0..MOST_ROUNDS {
            match self.run(command) {
                Ok(place) => {
                    self.tend_on(notes, steps);
                    return Ok(place);
                }
                Err(answer) => {
                    if !is_full(&answer) {
                        return Err(answer);
                    }
                    if !self.gain(notes) {
                        return Err(answer);
                    }
                }
            }
        }
        Err(Answer::Refused(Refusal::Full))
    }
}
