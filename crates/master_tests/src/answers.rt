//! Calls of a master, and their answers.

use crate::asks::{Ask, SEAT, command_of, steps_of};
use crate::comparisons::{is_the_plain_map, value};
use crate::masters::new_master_in;
use backup::MemoryFleet;
use entry::Size;
use recovery::master::{
    Command, History, Look, Master, Record, Refusal, Reply, Shown, Step, StepAnswer,
};
use replica::Label;
use std::alloc::Global;

/// What a step did, and its two numbers: backup and segment, segment and length, or place in the history and 0.
pub type Kind = (&'static str, u64, u64);

fn refusal_kind(refusal: &Refusal) -> Kind {
    match refusal {
        Refusal::Nothing => ("Nothing", 0, 0),
        Refusal::Rolling => ("Rolling", 0, 0),
        Refusal::Lost(backup) => ("Lost", *backup, 0),
        _ => ("refused", 0, 0),
    }
}

pub fn kind(answer: &Result<StepAnswer, Refusal>) -> Kind {
    match answer {
        Ok(StepAnswer::Opened(backup, segment)) => ("opened", *backup, *segment),
        Ok(StepAnswer::Applied(place, _)) => ("applied", *place, 0),
        Ok(StepAnswer::Extended(backup, segment)) => ("extended", *backup, *segment),
        Ok(StepAnswer::Closed(backup, segment)) => ("closed", *backup, *segment),
        Ok(StepAnswer::Rolling(segment)) => ("rolling", *segment, 0),
        Ok(StepAnswer::Compacted(segment, len)) => ("compacted", *segment, *len),
        Ok(StepAnswer::Begun(survivors)) => ("begun", survivors.first, survivors.count as u64),
        Ok(StepAnswer::Moved) => ("moved", 0, 0),
        Ok(StepAnswer::Carried) => ("carried", 0, 0),
        Ok(StepAnswer::Dropped) => ("dropped", 0, 0),
        Ok(StepAnswer::Sealed(backup)) => ("sealed", *backup, 0),
        Ok(StepAnswer::Freed(segment, backup)) => ("freed", *backup, *segment),
        Ok(StepAnswer::Raised(segment)) => ("raised", *segment, 0),
        Ok(StepAnswer::Repaired(backup, segment)) => ("repaired", *backup, *segment),
        Err(refusal) => refusal_kind(refusal),
    }
}

/// A reply and its version, or a refusal and 0.
pub type Told = (&'static str, u64);

pub fn told(reply: &Reply) -> Told {
    match reply {
        Reply::None => ("none", 0),
        Reply::Found(version, _) => ("found", version.get()),
        Reply::Ok(version) => ("ok", version.get()),
        Reply::Mismatch(Some(version)) => ("mismatch", version.get()),
        Reply::Mismatch(None) => ("mismatch", 0),
    }
}

/// What a record says: the key and the value of its command, its reply, and the value that was found.
pub type Said = (&'static [u8], &'static [u8], Told, &'static [u8]);

/// The backup, the master and the segment of a replica, and how many bytes it has.
pub type Replica = (u64, u64, u64, usize);

/// A call of a master, and its answer.
pub enum Call {
    /// A run of steps, whose answers are not looked at.
    Run(&'static [Ask]),
    /// A run of steps, and what they did.
    Answers(&'static [Ask], &'static [Kind]),
    /// A step with a command, and its reply.
    Replies(Ask, Told),
    /// What the master tells of a command before: the test that would refuse it, or the reply that it would get.
    Would(Ask, Told),
    /// The step that a cleaner makes next, and what it did.
    Turn(Kind),
    /// A cleaner has nothing to do.
    Rests,
    /// The step that is under way, and what it did.
    Goes(Kind),
    /// Which take from now ends in a fault, and whether it is taken.
    Fault(u64, bool),
    /// How many pushes of a failover are left at most.
    Left(u64),
    /// The victims that a cleaner would choose.
    Victims(&'static [u64]),
    /// The head, how many records are durable, and how many there are.
    Counts(u64, u64, usize),
    /// There is no image of this segment.
    NoImage(u64),
    /// The table, the place and the bytes of each live object.
    Sizes(&'static [(u64, u64, u64)]),
    /// The replicas of other masters are freed.
    Retires,
    /// The backup, the master, the segment and the length of each replica, of all masters.
    Holds(&'static [Replica]),
    /// What a copy of the record at this place says.
    Copy(usize, Said),
    /// It does what the plain programs do, if these are its first commands.
    Compares(&'static [Ask]),
}

/// Runs these steps. Whether memory lasted.
pub fn run(alloc: Global, master: &mut Master<MemoryFleet>, asks: &[Ask]) -> bool {
    match &steps_of(alloc, asks) {
        Some(steps) => master.run(steps.as_slice()).is_ok(),
        None => false,
    }
}

fn are_kinds(answers: &[Result<StepAnswer, Refusal>], kinds: &[Kind]) -> bool {
    let mut are_same = answers.len() == kinds.len();
    for (answer, want) in answers.iter().zip(kinds) {
        are_same = are_same && kind(answer) == *want;
    }
    are_same
}

fn has_answers(
    alloc: Global,
    master: &mut Master<MemoryFleet>,
    asks: &[Ask],
    kinds: &[Kind],
) -> bool {
    let Some(steps) = steps_of(alloc, asks) else {
        return false;
    };
    match &master.run(steps.as_slice()) {
        Ok(answers) => are_kinds(answers.as_slice(), kinds),
        Err(_) => false,
    }
}

/// The reply of a step with this command.
pub fn reply(master: &mut Master<MemoryFleet>, command: Command) -> Option<Reply> {
    match master.step(Step::Apply(0, command)) {
        Ok(StepAnswer::Applied(_, reply)) => Some(reply),
        _ => None,
    }
}

fn replies(alloc: Global, master: &mut Master<MemoryFleet>, ask: &Ask) -> Option<Told> {
    let command = command_of(alloc, ask)?;
    Some(told(&reply(master, command)?))
}

fn told_of(master: &Master<MemoryFleet>, command: &Command) -> Option<Told> {
    match &master.would(0, command) {
        Ok(()) => match &master.answer_to(command) {
            Ok(reply) => Some(told(reply)),
            Err(_) => None,
        },
        Err(refusal) => Some((refusal_kind(refusal).0, 0)),
    }
}

fn would(alloc: Global, master: &Master<MemoryFleet>, ask: &Ask) -> Option<Told> {
    match &command_of(alloc, ask) {
        Some(command) => told_of(master, command),
        None => None,
    }
}

fn turn(master: &mut Master<MemoryFleet>) -> Option<Kind> {
    let step = master.next_step().ok()??;
    Some(kind(&master.step(step)))
}

fn goes(master: &mut Master<MemoryFleet>) -> Option<Kind> {
    let step = master.pending_step()?;
    Some(kind(&master.step(step)))
}

fn fails(master: &mut Master<MemoryFleet>, takes: u64, taken: bool) -> bool {
    master.fault_at(takes, taken);
    true
}

fn rests(master: &Master<MemoryFleet>) -> bool {
    matches!(&master.next_step(), Ok(None))
}

fn has_no_image(master: &Master<MemoryFleet>, id: u64) -> bool {
    matches!(&master.look(Look::Image(id)), Ok(Shown::Image(None)))
}

fn has_counts(master: &Master<MemoryFleet>, head: u64, durable: u64, records: usize) -> bool {
    master.head() == head && master.durable() == durable && master.history().len() == records
}

fn has_victims(master: &Master<MemoryFleet>, want: &[u64]) -> bool {
    match &master.choose() {
        Ok(victims) => victims.as_slice() == want,
        Err(_) => false,
    }
}

fn are_sizes(sizes: &[Size], want: &[(u64, u64, u64)]) -> bool {
    let mut are_same = sizes.len() == want.len();
    for (size, want) in sizes.iter().zip(want) {
        are_same = are_same && (size.table, size.place, size.bytes) == *want;
    }
    are_same
}

fn has_sizes(master: &Master<MemoryFleet>, want: &[(u64, u64, u64)]) -> bool {
    match &master.look(Look::Sizes) {
        Ok(Shown::Sizes(sizes)) => are_sizes(sizes.as_slice(), want),
        _ => false,
    }
}

fn are_replicas(labels: &[Label], want: &[Replica]) -> bool {
    let mut are_same = labels.len() == want.len();
    for (label, want) in labels.iter().zip(want) {
        are_same = are_same && (label.backup, label.master, label.segment, label.len) == *want;
    }
    are_same
}

fn holds(master: &Master<MemoryFleet>, want: &[Replica]) -> bool {
    match &master.look(Look::Holdings) {
        Ok(Shown::Holdings(labels)) => are_replicas(labels.as_slice(), want),
        _ => false,
    }
}

/// The value of a put.
fn given(command: &Command) -> &[u8] {
    match command {
        Command::Put(_, value, _) => value.as_slice(),
        _ => &[],
    }
}

fn says(record: &Record, want: &Said) -> bool {
    let (key, put, reply, found) = want;
    let is_key = record.command.key().bytes.as_slice() == *key;
    let is_put = given(&record.command) == *put;
    let is_found = value(&record.reply) == *found;
    record.seat == SEAT && is_key && is_put && is_found && told(&record.reply) == *reply
}

fn is_copied(alloc: Global, records: &History, place: usize, want: &Said) -> bool {
    let Some(record) = records.get(place) else {
        return false;
    };
    match &record.to_record(alloc) {
        Ok(copy) => says(copy, want),
        Err(_) => false,
    }
}

/// Makes the call. Whether that is its answer.
fn is_answered(alloc: Global, master: &mut Master<MemoryFleet>, call: &Call) -> bool {
    match call {
        Call::Run(asks) => run(alloc, master, asks),
        Call::Answers(asks, kinds) => has_answers(alloc, master, asks, kinds),
        Call::Replies(ask, want) => replies(alloc, master, ask) == Some(*want),
        Call::Would(ask, want) => would(alloc, master, ask) == Some(*want),
        Call::Turn(want) => turn(master) == Some(*want),
        Call::Rests => rests(master),
        Call::Goes(want) => goes(master) == Some(*want),
        Call::Fault(takes, taken) => fails(master, *takes, *taken),
        Call::Left(want) => master.failover_left() == *want,
        Call::Victims(want) => has_victims(master, want),
        Call::Counts(head, durable, records) => has_counts(master, *head, *durable, *records),
        Call::NoImage(id) => has_no_image(master, *id),
        Call::Sizes(want) => has_sizes(master, want),
        Call::Retires => master.retire().is_ok(),
        Call::Holds(want) => holds(master, want),
        Call::Copy(place, want) => is_copied(alloc, master.history(), *place, want),
        Call::Compares(asks) => is_the_plain_map(alloc, master, asks),
    }
}

/// How many calls, from the first on, have the answers that they say.
pub fn passed(alloc: Global, master: &mut Master<MemoryFleet>, calls: &[Call]) -> usize {
    for (place, call) in calls.iter().enumerate() {
        if !is_answered(alloc, master, call) {
            return place;
        }
    }
    calls.len()
}

/// The same of a new master that writes this format. It is none if memory runs out.
pub fn passed_by_new(alloc: Global, format: u64, calls: &[Call]) -> usize {
    match new_master_in(alloc, format) {
        Some(mut master) => passed(alloc, &mut master, calls),
        None => 0,
    }
}
