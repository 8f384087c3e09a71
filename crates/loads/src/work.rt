//! What a thread works with.

use crate::plan::Task;
use crate::tracing::{trace_answer, trace_fault};
use counted_calls::locked_log::CallFault;
use counted_calls::master::{Command, Reply};
use entry::NoMemory;
use load_keys::Words;
use load_report::{Latencies, Lines};

/// What a thread works with, and what it leaves behind.
#[derive(Drop)]
pub struct Work {
    pub(crate) words: Words,
    /// How many values it made.
    pub(crate) values: u64,
    /// How many operations it made.
    pub operations: u64,
    /// How long its gets took.
    pub reads: Latencies,
    /// How long its puts took.
    pub updates: Latencies,
    /// The lines of its calls.
    pub lines: Lines,
    /// How many calls have a line.
    pub traced: u64,
    /// False if memory ran out for a line.
    pub is_whole: bool,
}

impl Work {
    /// What the thread begins with.
    pub(crate) fn new(task: &Task) -> Result<Work, NoMemory> {
        let reads = Latencies::new(task.plan.alloc)?;
        let updates = Latencies::new(task.plan.alloc)?;
        let mut seeds = Words::new(task.plan.seed.wrapping_add(task.thread));
        Ok(Work {
            words: Words::new(seeds.word()),
            values: 0,
            operations: 0,
            reads,
            updates,
            lines: Lines::new(task.plan.alloc),
            traced: 0,
            is_whole: true,
        })
    }

    /// Counts a call that began and ended then, and writes its line if lines are asked for.
    pub(crate) fn note(
        &mut self,
        task: &Task,
        command: &Command,
        start: u64,
        end: u64,
        outcome: &Result<Reply, CallFault>,
    ) {
        let took = end.saturating_sub(start);
        match command {
            Command::Get(_) => self.reads.note(took),
            _ => self.updates.note(took),
        }
        if task.plan.is_traced {
            self.trace(task.thread, command, start, end, outcome);
        }
    }

    /// Writes the line of a call.
    fn trace(
        &mut self,
        thread: u64,
        command: &Command,
        start: u64,
        end: u64,
        outcome: &Result<Reply, CallFault>,
    ) {
        let written = match outcome {
            Ok(reply) => trace_answer(&mut self.lines, thread, start, end, command, reply),
            Err(fault) => trace_fault(&mut self.lines, thread, start, end, command, fault),
        };
        self.traced = self.traced.saturating_add(1);
        if written.is_err() {
            self.is_whole = false;
        }
    }
}
