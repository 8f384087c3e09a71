//! The objects that are there at first.

use crate::options::Options;
use crate::session::Fault;
use embedded::{If, Status, Store};
use loads::{Lines, fresh_value, nanos, object_of};
use std::alloc::Global;
use std::time::Clock;

/// Puts the objects, and writes a line for each put if a trace is wanted. The thread of these lines is 0.
pub fn fill<R: Clock>(
    rt: &R,
    alloc: Global,
    store: &mut Store,
    options: &Options,
    is_traced: bool,
    lines: &mut Lines,
) -> Result<(), Fault> {
    for number in 0..options.records {
        let start = nanos(rt);
        let version = put(alloc, store, options, number)?;
        let end = nanos(rt);
        if is_traced {
            trace(alloc, lines, options, number, version, start, end)?;
        }
    }
    Ok(())
}

/// Puts the object of a number. The answer is its version.
fn put(alloc: Global, store: &mut Store, options: &Options, number: u64) -> Result<u64, Fault> {
    let Ok(key) = object_of(alloc, number) else {
        return Err(Fault::NoMemory);
    };
    let Ok(value) = fresh_value(alloc, 0, number, options.length as usize) else {
        return Err(Fault::NoMemory);
    };
    let reply = store.put(1, key.view().bytes, value.as_slice(), If::Any);
    match reply.status {
        Status::Ok => Ok(reply.version),
        _ => Err(Fault::NotFilled),
    }
}

/// Writes the line of a put.
fn trace(
    alloc: Global,
    lines: &mut Lines,
    options: &Options,
    number: u64,
    version: u64,
    start: u64,
    end: u64,
) -> Result<(), Fault> {
    let key = object_of(alloc, number)?;
    let value = fresh_value(alloc, 0, number, options.length as usize)?;
    lines.first_number(0)?;
    lines.number(start)?;
    lines.number(end)?;
    lines.word(b"put")?;
    lines.word(key.view().bytes)?;
    lines.word(value.as_slice())?;
    lines.word(b"= ok")?;
    lines.number(version)?;
    lines.end()?;
    Ok(())
}
