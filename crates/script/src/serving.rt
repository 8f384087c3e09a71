//! How a session serves the command of a line.

ghost use Rattle.std.specs.Prelude.{◌≡◌, Some};
ghost use Rattle.versioned_map.specs.declared.command.Command.{Command as CommandValue};
ghost use Rattle.next_master.specs.answers.declared.answer.Answer.{Answer as AnswerValue};
ghost use Rattle.lines.specs.Grammar.{shown_command};
ghost use Rattle.script.specs.Runs.{has_unsure, made_by};
ghost use Rattle.script.specs.declared.session.Session.{Session as SessionValue};
ghost use Rattle.script.specs.Sessions.{IsPrintedAs, TriesCommand, SessionAnswers, AnswersAfterRoll, Forgets, IsPlain};
ghost use Rattle.script.specs.Sessions.{IsTended};
ghost use Rattle.next_master.specs.cluster.Told.{command_of};
ghost use Rattle.script.specs.Turns.{HasValue};
ghost use Rattle.next_master.specs.cluster.Tended.{steps_behind};

use crate::line_commands::line_command;
use crate::outcome::Outcome;
use crate::session::Session;
use lines::CommandLine;
use next_master::answers::Answer;
use next_master::cluster::{Node, Tried};
use next_master::master::Refusal;

impl Session {
    /// How many records the node's master has made. None without a master.
    #[inline(always)]
    pub(crate) fn made(&self) -> Option<u64>
        ensures { result ≡ made_by self.now.node }
    {
        match &self.node {
            Node::Up(up) => Some(up.history().len() as u64),
            _ => None,
        }
    }

    /// Whether a master that had made so many records has more now, not all of which are durable, or was dropped.
    pub(crate) fn has_unsure(&self, made: Option<u64>) -> bool
        ensures { result ≡ has_unsure made self.now.node }
    {
        let Some(made) = made else {
            return false;
        };
        let Node::Up(up) = &self.node else {
            return true;
        };
        let now = up.history().len() as u64;
        made < now && up.durable() < now
    }

    /// How many steps the cleaner makes behind the command of a line: none behind a get.
    #[inline(always)]
    pub(crate) fn steps_behind(&self, line: CommandLine<'_>) -> u64
        ensures { (command : CommandValue) → command_of (shown_command line.entry) ≡ Some command
            → steps_behind self.now.options.tend command ≡ result }
    {
        match line {
            CommandLine::Get { .. } => 0,
            _ => self.options.tend,
        }
    }

    /// Lets the node's master forget what is durable, if the options say so. It is called behind the answer of a line,
    /// whose reply is read from the history.
    #[inline(always)]
    pub(crate) fn forget(&mut self)
        ensures { Forgets self.old self.new }
    {
        if self.options.forget {
            self.node.forget();
        }
    }

    /// Runs the line of a command, and then up to so many steps of the cleaner. If the command finds no room, the
    /// cleaner makes some first.
    #[inline(never)]
    pub(crate) fn serve_tended(&mut self, line: CommandLine<'_>, steps: u64) -> Outcome
        requires value { HasValue (shown_command line) }
        requires tended { IsTended self.old (shown_command line) steps }
        ensures { (answer : AnswerValue) × IsPrintedAs self.new result answer
            × SessionAnswers self.old (shown_command line.entry) self.new answer }
    {
        match self
            .node
            .serve_tended(&line_command(line), &mut self.notes, steps)
        {
            Ok(place) => Outcome::Replied(place),
            Err(answer) => Outcome::Answered(answer),
        }
    }

    /// Applies the command of a line, which stays where the line lies, and pushes until its record is durable.
    #[inline(always)]
    pub(crate) fn serve(&mut self, line: CommandLine<'_>) -> Tried
        requires value { HasValue (shown_command line) }
        requires plain { IsPlain self.old (shown_command line) }
        ensures { TriesCommand self.old (shown_command line.entry) self.new result }
    {
        self.node.serve(&line_command(line))
    }

    /// Goes on with a command that was tried, up to its answer. It is not inlined, since most commands have their
    /// reply at once, and need no room for an answer.
    #[inline(never)]
    pub(crate) fn finish(&mut self, line: CommandLine<'_>, tried: Tried) -> Outcome
        requires value { HasValue (shown_command line) }
        requires tried { (first : SessionValue) × TriesCommand first (shown_command line) self.old tried }
        ensures { (first : SessionValue) → TriesCommand first (shown_command line.entry) self.old tried →
            (answer : AnswerValue) × IsPrintedAs self.new result answer
            × SessionAnswers first (shown_command line.entry) self.new answer }
    {
        match tried {
            Tried::Replied(place) => Outcome::Replied(place),
            Tried::Waits => self.run_after_roll(line),
            Tried::Refused(refusal) => Outcome::Answered(self.node.refuse(refusal)),
            Tried::Down => Outcome::Answered(Answer::Down),
        }
    }

    /// Makes the roll that a command's line waits for, and runs the line again.
    #[inline(never)]
    fn run_after_roll(&mut self, line: CommandLine<'_>) -> Outcome
        requires value { HasValue (shown_command line) }
        ensures { (answer : AnswerValue) × IsPrintedAs self.new result answer
            × AnswersAfterRoll self.old (shown_command line.entry) self.new answer }
    {
        if let Err(answer) = self.node.make_room() {
            return Outcome::Answered(answer);
        }
        match self.node.serve(&line_command(line)) {
            Tried::Replied(place) => Outcome::Replied(place),
            Tried::Waits => Outcome::Answered(Answer::Refused(Refusal::Rolling)),
            Tried::Refused(refusal) => Outcome::Answered(self.node.refuse(refusal)),
            Tried::Down => Outcome::Answered(Answer::Down),
        }
    }
}
