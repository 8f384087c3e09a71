//! A fleet, and the master over it if there is one.

ghost use Rattle.std.specs.Prelude.{◌≡◌, true, false, None, Some};
ghost use Rattle.versioned_map.specs.declared.command.Reply.{Reply as ReplyValue};
ghost use Rattle.std.specs.Option.{option_map};
ghost use Rattle.history.specs.View.{shown_command, shown_reply};
ghost use Rattle.answers.specs.Errors.{IsHanded};
ghost use Rattle.raw_answers.specs.Texts.{reply_in};
ghost use Rattle.answers.specs.driving.master.master_state.declared.config.Config.{Config};
ghost use Rattle.cluster.specs.Served.{IsDropped, AsksFault, asked_of, fleet_of, is_up};
ghost use Rattle.cluster.specs.Served.{AnswersLine, LimitsFleet, LosesMaster, LosesOne, MakesStep, MakesRoll, Refuses};
ghost use Rattle.cluster.specs.Served.{AnswersStep, MakesClean, MakesTend, ShowsFleet, held_answer};
ghost use Rattle.cluster.specs.Shows.{ShowsDigest, ShowsImage, ShowsLive, ShowsRoom, ShowsSegments};
ghost use Rattle.cluster.specs.Waits.{MakesRoom, MakesOpen, TriesLine, IsReplyAt};

use crate::tried::Tried;
use answers::driving::master::{CommandRef, Master, Refusal, ReplyRef, Step};
use answers::driving::{clean_all, roll_all, serve};
use answers::{Answer, WriteFailed};
use backup::MemoryFleet;
use entry::{NoMemory, Row};
use raw_answers::write_reply_in;
use replica::{Bench, Fleet, Labels};
use std::alloc::Global;
use std::io::Write;
use std::mem::replace;
use tending::{Notes, Policy, tend};

/// A fleet, and the master over it if there is one.
#[derive(Drop)]
pub enum Node {
    Up(Master<MemoryFleet>),
    Down(MemoryFleet),
    /// A node is this only while its master is being dropped.
    Changing,
}

/// The answer that shows what backups hold.
fn held(labels: Result<Labels, NoMemory>) -> Answer
    ensures { result ≡ held_answer labels }
{
    match labels {
        Ok(labels) => Answer::Holdings(labels),
        Err(NoMemory) => Answer::Refused(Refusal::NoMemory),
    }
}

impl Node {
    ghost use Rattle.lines.specs.Grammar.{Roll, Clean, Log, Room, LiveBytes, Hex, Stop, Fault, Crash, Lose, Holdings};
    ghost use Rattle.lines.specs.Grammar.{Tend};
    ghost use Rattle.lines.specs.Grammar.{Segments};

    /// Applies a command, whose bytes may lie anywhere, and pushes until its record is durable.
    #[inline(always)]
    pub fn serve(&mut self, command: &CommandRef<'_>) -> Tried
        ensures { TriesLine self.old (shown_command command.now) self.new result }
    {
        let Node::Up(up) = self else {
            return Tried::Down;
        };
        up.show_valid();
        let outcome = serve(up, command);
        up.show_valid();
        match outcome {
            Ok(place) => Tried::Replied(place),
            Err(refusal) => match refusal {
                Refusal::Rolling => Tried::Waits,
                _ => Tried::Refused(refusal),
            },
        }
    }

    /// Writes the line of the reply that the record at this place of the history has, as a script with raw bytes
    /// (`is_raw`) or one of words alone prints it. The value is copied from there.
    #[inline(always)]
    pub fn write_reply<W: Write>(
        &self,
        place: u64,
        writer: &mut W,
        is_raw: bool,
    ) -> Result<(), WriteFailed>
        requires { (reply : ReplyValue) × IsReplyAt self.now place reply }
        ensures { (reply : ReplyValue) → IsReplyAt self.now place reply →
            IsHanded (W.contents writer.old) (W.contents writer.new) (reply_in is_raw reply) result }
    {
        match self.lent_reply(place) {
            Some(reply) => write_reply_in(writer, &reply, is_raw),
            None => unreachable!(),
        }
    }

    /// The reply of the record at this place of the history, if there is one.
    #[inline(always)]
    fn lent_reply(&self, place: u64) -> Option<ReplyRef<'_>>
        ensures { (reply : ReplyValue) → IsReplyAt self.entry.now place reply →
            option_map shown_reply result ≡ Some reply }
    {
        match self {
            Node::Up(up) => up.history().reply(place as usize),
            _ => None,
        }
    }

    /// Begins a roll if none is under way, and pushes until nothing waits: then the head is open. The error is the
    /// answer that tells why not.
    pub fn make_room(&mut self) -> Result<(), Answer>
        ensures told { (config : Config) → MakesRoom self.old config self.new result }
        ensures rolled { MakesOpen self.old self.new result }
    {
        let Node::Up(up) = self else {
            return Err(Answer::Down);
        };
        let outcome = roll_all(up);
        up.show_valid();
        match outcome {
            Ok(()) => Ok(()),
            Err(refusal) => Err(self.refuse(refusal)),
        }
    }

    /// Answers a refusal. If the fleet takes no more ops, the master is dropped and the limit lifted.
    pub fn refuse(&mut self, refusal: Refusal) -> Answer
        requires { is_up self.old ≡ true }
        ensures { Refuses self.old refusal self.new result }
    {
        match refusal {
            Refusal::Spent => {
                let Node::Up(up) = self else {
                    unreachable!();
                };
                up.limit(u64::MAX);
                self.drop_master();
                Answer::Stopped
            }
            _ => Answer::Refused(refusal),
        }
    }

    /// Drops the master of a node that is up. The fleet stays as it is, with the fault that it is asked for.
    pub fn drop_master(&mut self)
        requires { is_up self.old ≡ true }
        ensures left { IsDropped self.old self.new }
        ensures fleet { fleet_of self.new ≡ fleet_of self.old }
        ensures asked { asked_of self.new ≡ asked_of self.old }
        ensures down { is_up self.new ≡ false }
    {
        let Node::Up(up) = replace(self, Node::Changing) else {
            unreachable!();
        };
        *self = Node::Down(up.crash());
    }

    /// Puts a node in the place of this one.
    pub fn set(&mut self, node: Node)
        ensures { self.new ≡ node }
    {
        *self = node;
    }

    /// Begins a roll if none is under way, and pushes until the head is open. Answers the head's number, or the
    /// refusal.
    pub fn roll(&mut self) -> Answer
        ensures told { (config : Config) → AnswersLine self.old config Roll self.new result }
        ensures rolled { MakesRoll self.old self.new result }
    {
        let Node::Up(up) = self else {
            return Answer::Down;
        };
        up.show_valid();
        let outcome = roll_all(up);
        up.show_valid();
        let head = up.head();
        match outcome {
            Ok(()) => Answer::Head(head),
            Err(refusal) => self.refuse(refusal),
        }
    }

    /// Cleans these segments, from the begin of a pass to the last free. Answers the survivors and the head in force,
    /// or the refusal. After a refusal, what was done stays done.
    pub fn clean(&mut self, victims: Row<u64>) -> Answer
        ensures told { (config : Config) → AnswersLine self.old config (Clean victims) self.new result }
        ensures cleaned { MakesClean self.old victims self.new result }
    {
        let Node::Up(up) = self else {
            return Answer::Down;
        };
        up.show_valid();
        let outcome = clean_all(up, victims);
        up.show_valid();
        match outcome {
            Ok((survivors, head)) => Answer::Cleaned(survivors, head),
            Err(refusal) => self.refuse(refusal),
        }
    }

    /// Makes up to so many steps of the cleaner, by the usual policy. Answers how many it made, or the refusal. After
    /// a refusal, what was done stays done.
    pub fn tend(&mut self, notes: &mut Notes, steps: u64) -> Answer
        ensures told { (config : Config) → AnswersLine self.old config (Tend steps) self.new result }
        ensures tended { MakesTend self.old steps self.new result }
    {
        let Node::Up(up) = self else {
            return Answer::Down;
        };
        up.show_valid();
        let policy = Policy::of(up.config());
        let outcome = tend(up, &policy, notes, steps);
        up.show_valid();
        match outcome {
            Ok(made) => Answer::Tended(made),
            Err(refusal) => self.refuse(refusal),
        }
    }

    /// Makes one step that a line asks for, and answers what came of it.
    pub fn step(&mut self, step: Step) -> Answer
        ensures told { (config : Config) → AnswersStep self.old config step self.new result }
        ensures stepped { MakesStep self.old step self.new result }
    {
        let Node::Up(up) = self else {
            return Answer::Down;
        };
        up.show_valid();
        match up.step(step) {
            Ok(made) => Answer::Step(made),
            Err(refusal) => self.refuse(refusal),
        }
    }

    /// Answers the ids of the digest in force. It is refused as NoMemory if memory for the list runs out.
    pub fn log(&self) -> Answer
        ensures told { (config : Config) → AnswersLine self.now config Log self.now result }
        ensures shown { ShowsDigest self.now result }
    {
        let Node::Up(up) = self else {
            return Answer::Down;
        };
        up.show_valid();
        match up.digest() {
            Ok(ids) => Answer::Log(ids),
            Err(NoMemory) => Answer::Refused(Refusal::NoMemory),
        }
    }

    /// Answers what the backups hold, of all masters. It is refused as NoMemory if memory for the list runs out.
    pub fn holdings(&self, alloc: Global) -> Answer
        ensures told { (config : Config) → AnswersLine self.now config Holdings self.now result }
        ensures shown { ShowsFleet self.now result }
    {
        match self {
            Node::Up(up) => {
                up.show_valid();
                held(up.fleet().labels(alloc))
            }
            Node::Down(fleet) => held(fleet.labels(alloc)),
            Node::Changing => Answer::Down,
        }
    }

    /// Answers the bytes of a segment's image, or NotInLog if the master has none. It is refused as NoMemory if memory
    /// for the bytes runs out.
    pub fn hex(&self, segment: u64) -> Answer
        ensures told { (config : Config) → AnswersLine self.now config (Hex segment) self.now result }
        ensures shown { ShowsImage self.now segment result }
    {
        let Node::Up(up) = self else {
            return Answer::Down;
        };
        up.show_valid();
        match up.image(segment) {
            Ok(Some(bytes)) => Answer::Hex(bytes),
            Ok(None) => Answer::NotInLog(segment),
            Err(NoMemory) => Answer::Refused(Refusal::NoMemory),
        }
    }

    /// Answers how many seglets of memory are counted as used, and how many are free.
    pub fn room(&self) -> Answer
        ensures told { (config : Config) → AnswersLine self.now config Room self.now result }
        ensures shown { ShowsRoom self.now result }
    {
        let Node::Up(up) = self else {
            return Answer::Down;
        };
        up.show_valid();
        Answer::Room(up.used_seglets(), up.free_seglets())
    }

    /// Answers the master's segments, with what each is to it and how many of its bytes are kept. It is refused as
    /// NoMemory if memory for the rows runs out.
    pub fn segments(&self) -> Answer
        ensures told { (config : Config) → AnswersLine self.now config Segments self.now result }
        ensures shown { ShowsSegments self.now result }
    {
        let Node::Up(up) = self else {
            return Answer::Down;
        };
        up.show_valid();
        match up.segments() {
            Ok(rows) => Answer::Segments(Row::new(rows)),
            Err(NoMemory) => Answer::Refused(Refusal::NoMemory),
        }
    }

    /// Answers how many bytes all live objects have together, and how many puts may make them. `u64::MAX` bytes stand
    /// for as many or more, and as the second number for no limit.
    pub fn live(&self) -> Answer
        ensures told { (config : Config) → AnswersLine self.now config LiveBytes self.now result }
        ensures shown { ShowsLive self.now result }
    {
        let Node::Up(up) = self else {
            return Answer::Down;
        };
        up.show_valid();
        Answer::Live(up.live(), up.most_live())
    }

    /// Lets the fleet take this many more ops, and then no more.
    pub fn stop(&mut self, takes: u64) -> Answer
        ensures told { (config : Config) → AnswersLine self.old config (Stop takes) self.new result }
        ensures limited { LimitsFleet self.old takes self.new }
    {
        match self {
            Node::Up(up) => {
                up.fleet.limit(takes);
                up.show_valid();
            }
            Node::Down(fleet) => fleet.limit(takes),
            Node::Changing => {}
        }
        Answer::Stop(takes)
    }

    /// Asks the fleet for a fault in one of the takes from now on, 1 for the next one. `taken` says whether its op is
    /// taken.
    pub fn fault(&mut self, takes: u64, taken: bool) -> Answer
        ensures told { (config : Config) → AnswersLine self.old config (Fault takes taken) self.new result }
        ensures same { AsksFault self.old takes taken self.new }
    {
        match self {
            Node::Up(up) => {
                up.fleet.fault_at(takes, taken);
                up.show_valid();
            }
            Node::Down(fleet) => fleet.fault_at(takes, taken),
            Node::Changing => {}
        }
        Answer::Fault(takes, taken)
    }

    /// Drops the master. The fleet stays as it is, with the fault that it is asked for.
    pub fn crash(&mut self) -> Answer
        ensures told { (config : Config) → AnswersLine self.old config Crash self.new result }
        ensures dropped { LosesMaster self.old self.new }
    {
        if let Node::Up(_) = self {
            self.drop_master();
            Answer::Crashed
        } else {
            Answer::Down
        }
    }

    /// Makes a backup lose all that it holds. With a master the answer is Up, and nothing changes.
    pub fn lose(&mut self, backup: u64) -> Answer
        ensures told { (config : Config) → AnswersLine self.old config (Lose backup) self.new result }
        ensures lost { LosesOne self.old backup self.new }
    {
        let Node::Down(fleet) = self else {
            return Answer::Up;
        };
        fleet.lose(backup);
        Answer::Lost(backup)
    }
}
