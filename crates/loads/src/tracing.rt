//! The lines of a trace, one for each call.

use counted_calls::locked_log::CallFault;
use counted_calls::master::{Command, If, Reply};
use entry::{NoMemory, Value, Version};
use load_report::Lines;
use std::time::Clock;

/// The nanoseconds of the clock, or 0 if it can't be read.
pub fn nanos<R: Clock>(rt: &R) -> u64 {
    match rt.monotonic() {
        Ok(time) => time.as_nanos().min(u64::MAX as u128) as u64,
        Err(_) => 0,
    }
}

/// Writes the thread, and when the call began and ended: `-` if it wasn't answered.
pub fn trace_begin(
    lines: &mut Lines,
    thread: u64,
    start: u64,
    end: Option<u64>,
) -> Result<(), NoMemory> {
    lines.first_number(thread)?;
    lines.number(start)?;
    match end {
        Some(end) => lines.number(end),
        None => lines.word(b"-"),
    }
}

/// Writes the command and an equals sign.
fn trace_command(lines: &mut Lines, command: &Command) -> Result<(), NoMemory> {
    match command {
        Command::Get(key) => {
            lines.word(b"get")?;
            lines.word(key.view().bytes)?;
        }
        Command::Put(key, value, when) => trace_put(lines, key.view().bytes, value, when)?,
        Command::Delete(_) => lines.word(b"delete")?,
    }
    lines.word(b"=")
}

/// Writes a put.
fn trace_put(lines: &mut Lines, key: &[u8], value: &Value, when: &If) -> Result<(), NoMemory> {
    match when {
        If::Any => {
            lines.word(b"put")?;
            lines.word(key)?;
        }
        If::Absent => {
            lines.word(b"new")?;
            lines.word(key)?;
        }
        If::Version(version) => {
            lines.word(b"cas")?;
            lines.word(key)?;
            lines.number(*version)?;
        }
    }
    lines.word(value.as_slice())
}

/// Writes a reply.
fn trace_reply(lines: &mut Lines, reply: &Reply) -> Result<(), NoMemory> {
    match reply {
        Reply::Found(version, value) => {
            lines.number(version.get())?;
            lines.word(value.as_slice())
        }
        Reply::None => lines.word(b"none"),
        Reply::Ok(version) => {
            lines.word(b"ok")?;
            lines.number(version.get())
        }
        Reply::Mismatch(found) => {
            lines.word(b"mismatch")?;
            trace_version(lines, found)
        }
    }
}

/// Writes the version that a key has, or `none`.
fn trace_version(lines: &mut Lines, found: &Option<Version>) -> Result<(), NoMemory> {
    match found {
        Some(version) => lines.number(version.get()),
        None => lines.word(b"none"),
    }
}

/// Writes the line of a call that was answered.
pub fn trace_answer(
    lines: &mut Lines,
    thread: u64,
    start: u64,
    end: u64,
    command: &Command,
    reply: &Reply,
) -> Result<(), NoMemory> {
    trace_begin(lines, thread, start, Some(end))?;
    trace_command(lines, command)?;
    trace_reply(lines, reply)?;
    lines.end()
}

/// Writes the line of a call that has no answer. A refused call surely changed nothing.
pub(crate) fn trace_fault(
    lines: &mut Lines,
    thread: u64,
    start: u64,
    end: u64,
    command: &Command,
    fault: &CallFault,
) -> Result<(), NoMemory> {
    match fault {
        CallFault::Refused(_) => {
            trace_begin(lines, thread, start, Some(end))?;
            trace_command(lines, command)?;
            lines.word(b"refused")?;
        }
        _ => {
            trace_begin(lines, thread, start, None)?;
            trace_command(lines, command)?;
            lines.word(b"unanswered")?;
        }
    }
    lines.end()
}
