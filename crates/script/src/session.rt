//! What a script drives: a fleet, and the master over it if there is one.

ghost use Rattle.std.specs.Prelude.{◌≡◌, ◌≤◌, List, true, false, None, IfOk, IfErr};
ghost use Rattle.versioned_map.specs.declared.command.Reply.{Reply as ReplyValue};
ghost use Rattle.next_master.specs.answers.Errors.{IsHanded};
ghost use Rattle.raw_answers.specs.Texts.{reply_in};
ghost use Rattle.next_master.specs.cluster.Waits.{IsReplyAt};
ghost use Rattle.lines.specs.Grammar.{Begin, Clean, Clients, Recover, IsLine, IsOrder, shown_line};
ghost use Rattle.lines.specs.Grammar.{Format, Needs, Seglets, Will as WillLine};
ghost use Rattle.lines.specs.Numbers.{numbers_of};
ghost use Rattle.next_master.specs.master.master_state.Config.{config_fault};
ghost use Rattle.next_master.specs.Configuration.{config_of, MayBegin};
ghost use Rattle.script.specs.declared.session.LineFault.TheVariants as line_fault;
ghost use Rattle.script.specs.Runs.{IsOfFleet};
ghost use Rattle.script.specs.Sessions.{RunsLine, SessionRecovers};
ghost use Rattle.script.specs.Sessions.{BeginsSession, SessionAnswers, Stands};
ghost use Rattle.next_master.specs.cluster.Told.{command_of};
ghost use Rattle.script.specs.Turns.{RefusesLine};

use backup::MemoryFleet;
use cluster_lines::store_clients::Workload;
use cluster_lines::{Served, serve_clients};
use command_line::Options;
use entry::{NoMemory, Row};
use lines::{Line, Numbers, ReplayOrder};
use next_master::answers::{Answer, Limits, WriteFailed};
use next_master::cluster::{Node, Notes};
use next_master::driving::push_all;
use next_master::master::{Master, Step};
use next_master::recovery::{PlanFault, RecoveryFault};
use next_master::{
    Later, Request, can_begin, configuration, later_options, node_needs, recover_node, whole_will,
};
use std::alloc::Global;
use std::io::Write;
use std::sync::Wait;
use std::thread::Threads;
use tablet_will::Will;

/// Why a line was not run.
#[derive(Clone, Copy)]
pub enum LineFault {
    /// The line names a backup that isn't there.
    NoBackup,
    /// With what the line sets, no master that starts later would be within its limits.
    NoLaterMaster,
    /// Memory ran out before the line began.
    NoMemory,
}

impl From<NoMemory> for LineFault {
    ghost from_gives = { λ _ e. e ≡ line_fault.NoMemory };

    fn from(_fault: NoMemory) -> LineFault {
        LineFault::NoMemory
    }
}

/// The number of the first master.
pub(crate) const FIRST_MASTER: u64 = 1;

/// What a script drives: a node, which is a fleet with the master over it if there is one, and what outlives the
/// masters of a node: the coordinator's will, the numbers that masters had, and the format and the seglets of later
/// masters.
///
/// `start` makes an empty fleet, and a master over it whose head is open. `serve` applies the command of a line, and
/// mostly gives the place of the record whose reply is to be printed. Otherwise `finish` gives the answer. `run_any`
/// runs any other line.
///
/// - What holds: the will covers the tablets, the node stands for one life of a master after another, and later masters
///   may begin (*Stands*).
/// - Refusals: a line that the node refuses is answered, and the session goes on. A command that is refused as Halted
///   or NoMemory may have been applied, and after Halted or Lost a backup may have taken an op. `LineFault` comes only
///   for a line that names a backup that isn't there, for one after which later masters would not be within their
///   limits, or if memory runs out before the line began; then nothing has changed.
/// - Cost: what the node's own call costs. A session has no more than the node, a will and a few words.
///
/// ```text
/// let mut session = Session::start(alloc, &options)?;
/// let tried = session.serve(put);                                              // the place of its record
/// let answer = session.run_any(rt, Line::Crash)?;                              // crashed
/// let answer = session.run_any(rt, Line::Recover { order: ReplayOrder::Forward })?;     // the table
/// ```
#[derive(Drop)]
pub struct Session {
    pub(crate) alloc: Global,
    /// The options of the master that a recovery is for.
    pub(crate) options: Options,
    /// What masters that start later have in place of these options.
    pub(crate) later: Later,
    /// The number of the master that a recovery is for.
    pub(crate) master: u64,
    /// The greatest number that a master had, or was to have.
    pub(crate) used: u64,
    /// The coordinator's will: by which partitions a recovery divides the master's log.
    pub(crate) will: Will,
    /// Whether each store of clients could tell whose its records were. If one couldn't, nothing is recovered any
    /// more. Only tests show that each store can.
    pub(crate) is_known: bool,
    pub(crate) node: Node,
    /// What the cleaner has noted of the node's master.
    pub(crate) notes: Notes,
}

impl Session {
    /// Makes an empty fleet, and a master over it with an open head.
    pub fn start(alloc: Global, options: &Options) -> Result<Session, NoMemory>
        requires { config_fault (config_of options.now 1) ≡ None }
        ensures { IfOk result (BeginsSession options.now) }
    {
        let fleet = MemoryFleet::new(alloc, options.backups)?;
        let config = configuration(alloc, options, FIRST_MASTER)?;
        let will = whole_will(alloc, options)?;
        let mut master = match Master::new(alloc, config, fleet) {
            Ok(master) => master,
            Err((fault, _)) => return Err(fault),
        };
        // A new fleet has no limit and no fault, so a push is refused only if memory runs out.
        if push_all(&mut master).is_err() {
            return Err(NoMemory);
        }
        master.show_valid();
        Ok(Session {
            alloc,
            options: *options,
            later: Later::none(),
            master: FIRST_MASTER,
            used: FIRST_MASTER,
            will,
            is_known: true,
            node: Node::Up(master),
            notes: Notes::new(alloc),
        })
    }

    /// How many backups there are.
    pub fn backups(&self) -> u64
        ensures { result ≡ self.now.options.backups }
    {
        self.options.backups
    }

    /// Writes the line of the reply that the record at this place of the history has, with raw bytes or as words.
    #[inline(always)]
    pub fn write_reply<W: Write>(
        &self,
        place: u64,
        writer: &mut W,
        is_raw: bool,
    ) -> Result<(), WriteFailed>
        requires { (reply : ReplyValue) × IsReplyAt self.now.node place reply }
        ensures { (reply : ReplyValue) → IsReplyAt self.now.node place reply →
            IsHanded (W.contents writer.old) (W.contents writer.new) (reply_in is_raw reply) result }
    {
        self.node.write_reply(place, writer, is_raw)
    }

    /// Runs one line that has no command. It is not inlined, since a command would then make room for the results of
    /// all other lines, too.
    #[inline(never)]
    pub(crate) fn run_any<H: Threads + Wait + Sync>(
        &mut self,
        rt: &H,
        line: Line<'_>,
    ) -> Result<Answer, LineFault>
        requires line { IsLine (shown_line line) }
        requires other { command_of (shown_line line) ≡ None }
        requires stands { Stands self.old }
        ensures ran { IfOk result (λ answer. RunsLine self.old (shown_line line.entry) self.new answer) }
        ensures of_fleet { IfOk result (λ _. IsOfFleet self.old.options.backups (shown_line line.entry)) }
        ensures refused { IfErr result (RefusesLine self.old (shown_line line.entry)) }
        ensures kept { IfErr result (λ _. self.new ≡ self.old) }
    {
        match line {
            Line::Idle => Ok(Answer::Silent),
            Line::Command(_) => unreachable!(),
            Line::Hex { segment } => Ok(self.node.hex(segment)),
            Line::Stop { takes } => Ok(self.node.stop(takes)),
            Line::Fault { takes, taken } => Ok(self.node.fault(takes, taken)),
            Line::Format => self.run_format(),
            Line::Seglets { seglets } => self.run_seglets(seglets),
            Line::Crash => Ok(self.node.crash()),
            Line::Lose { backup } if backup >= self.options.backups => Err(LineFault::NoBackup),
            Line::Lose { backup } => Ok(self.node.lose(backup)),
            Line::Will => Ok(self.run_will()),
            Line::Recover { order } => Ok(self.run_recover(rt, order)),
            Line::Needs => Ok(self.run_needs(rt)),
            Line::Roll => Ok(self.node.roll()),
            Line::BeginRoll => Ok(self.node.step(Step::BeginRoll)),
            Line::Compact { segment } => Ok(self.node.step(Step::Compact(segment))),
            Line::Push => Ok(self.node.step(Step::Push)),
            Line::Clean { segments } => self.run_clean(segments),
            Line::Begin { segments } => self.run_begin(segments),
            Line::Copy => Ok(self.node.step(Step::Copy)),
            Line::Seal => Ok(self.node.step(Step::Seal)),
            Line::Free => Ok(self.node.step(Step::Free)),
            Line::Tend { steps } => Ok(self.node.tend(&mut self.notes, steps)),
            Line::Log => Ok(self.node.log()),
            Line::Room => Ok(self.node.room()),
            Line::Segments => Ok(self.node.segments()),
            Line::List { table } => Ok(self.node.list(self.alloc, table)),
            Line::Live => Ok(self.node.live()),
            Line::Holdings => Ok(self.node.holdings(self.alloc)),
            Line::Clients {
                clients,
                rounds,
                passes,
            } => Ok(self.run_clients(
                rt,
                Workload {
                    clients,
                    rounds,
                    passes,
                },
            )),
        }
    }

    /// Sets what later masters have, if they are within their limits with it. Answers whether they are. If not,
    /// nothing changes.
    fn set_later(&mut self, later: Later) -> bool
        requires { Stands self.old }
        ensures set { result ≡ true → self.new ≡ record self.old { later = later } }
        ensures begins { result ≡ true → MayBegin later self.old.options }
        ensures kept { result ≡ false → self.new ≡ self.old }
        ensures refused { result ≡ false → MayBegin later self.old.options → ⊥ }
    {
        if !can_begin(&self.options, &later) {
            return false;
        }
        self.later = later;
        true
    }

    /// Runs the line that sets the format of later masters.
    fn run_format(&mut self) -> Result<Answer, LineFault>
        requires { Stands self.old }
        ensures ran { IfOk result (SessionAnswers self.old Format self.new) }
        ensures refused { IfErr result (RefusesLine self.old Format) }
        ensures kept { IfErr result (λ _. self.new ≡ self.old) }
    {
        let later = self.later.with_lengths();
        if !self.set_later(later) {
            return Err(LineFault::NoLaterMaster);
        }
        Ok(Answer::Format)
    }

    /// Runs the line that sets how many seglets later masters have.
    fn run_seglets(&mut self, seglets: u64) -> Result<Answer, LineFault>
        requires { Stands self.old }
        ensures ran { IfOk result (SessionAnswers self.old (Seglets seglets) self.new) }
        ensures refused { IfErr result (RefusesLine self.old (Seglets seglets)) }
        ensures kept { IfErr result (λ _. self.new ≡ self.old) }
    {
        let later = self.later.with_seglets(seglets);
        if !self.set_later(later) {
            return Err(LineFault::NoLaterMaster);
        }
        Ok(Answer::Seglets(seglets))
    }

    /// Runs the line that asks what a new master needs to adopt what a recovery would find.
    #[inline(never)]
    fn run_needs<H: Threads + Wait + Sync>(&self, rt: &H) -> Answer
        requires { Stands self.now }
        ensures { SessionAnswers self.now Needs self.now result }
    {
        if let Node::Up(_) = self.node {
            return Answer::Up;
        }
        if self.is_known {
            let request = Request {
                options: self.options,
                later: self.later,
                master: self.master,
                used: self.used,
            };
            return node_needs(rt, self.alloc, &self.node, request, &self.will);
        }
        Answer::SeatUnknown
    }

    /// Runs the line that makes the coordinator's will anew of the live objects.
    fn run_will(&mut self) -> Answer
        ensures { SessionAnswers self.old WillLine self.new result }
    {
        let limits = Limits {
            bytes: self.options.bytes,
            objects: self.options.objects,
        };
        self.node.will(self.alloc, limits, &mut self.will)
    }

    /// Runs the line that recovers what the master left. Once a master has adopted the table, a later recovery is for
    /// this new master, the options are those of the new master, and the will is one partition again.
    fn run_recover<H: Threads + Wait + Sync>(&mut self, rt: &H, order: ReplayOrder) -> Answer
        requires order { IsOrder order }
        requires stands { Stands self.old }
        ensures { SessionRecovers self.old (Recover order) self.new result }
    {
        if let Node::Up(_) = self.node {
            return Answer::Up;
        }
        if !self.is_known {
            return Answer::SeatUnknown;
        }
        // Once a master has adopted the table, nothing may fail that the session needs.
        let Ok(whole) = whole_will(self.alloc, &self.options) else {
            return Answer::NotRecovered(RecoveryFault::Plan(PlanFault::NoMemory));
        };
        let request = Request {
            options: self.options,
            later: self.later,
            master: self.master,
            used: self.used,
        };
        let recovery = recover_node(rt, self.alloc, &mut self.node, request, &self.will, order);
        self.used = recovery.used;
        if recovery.master != self.master {
            self.master = recovery.master;
            self.options = later_options(&self.options, &self.later);
            self.will = whole;
        }
        recovery.answer
    }

    /// Runs the line that has clients make their rounds.
    #[inline(never)]
    fn run_clients<H: Threads + Wait + Sync>(&mut self, rt: &H, work: Workload) -> Answer
        requires stands { Stands self.old }
        requires clients { work.clients ≤ 63 }
        requires rounds { work.rounds ≤ 1000000 }
        ensures { SessionAnswers self.old (Clients work.clients work.rounds work.passes) self.new result }
    {
        let Served { answer, is_known } = serve_clients(
            rt,
            &mut self.node,
            self.alloc,
            self.options.history,
            work,
        );
        self.is_known &= is_known;
        answer
    }

    /// Runs the line that begins to clean these segments.
    #[tactic(auto, using(crate::proofs::Commanding::left_as_it_is))]
    fn run_begin(&mut self, segments: Numbers<'_>) -> Result<Answer, LineFault>
        ensures ran { IfOk result (λ answer.
            SessionAnswers self.old (Begin (numbers_of segments.entry)) self.new answer) }
        ensures refused { IfErr result (λ fault. fault ≡ LineFault.NoMemory) }
        ensures kept { IfErr result (λ _. self.new ≡ self.old) }
    {
        let victims = row_of(self.alloc, segments)?;
        Ok(self.node.step(Step::BeginClean(victims)))
    }

    /// Runs the line that cleans these segments.
    #[tactic(auto, using(crate::proofs::Commanding::left_as_it_is))]
    fn run_clean(&mut self, segments: Numbers<'_>) -> Result<Answer, LineFault>
        ensures ran { IfOk result (λ answer.
            SessionAnswers self.old (Clean (numbers_of segments.entry)) self.new answer) }
        ensures refused { IfErr result (λ fault. fault ≡ LineFault.NoMemory) }
        ensures kept { IfErr result (λ _. self.new ≡ self.old) }
    {
        let victims = row_of(self.alloc, segments)?;
        Ok(self.node.clean(victims))
    }
}

/// The numbers of a line, in memory of their own.
fn row_of(alloc: Global, numbers: Numbers<'_>) -> Result<Row<u64>, NoMemory>
    ensures { IfOk result (λ row. row ≡ numbers_of numbers.entry) }
{
    Ok(Row::new(numbers.collect(alloc)?))
}
