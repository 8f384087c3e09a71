//! What a recovered table has.

use crate::session::Fault;
use embedded::{NotRecovered, Reply, Status, Store};
use loads::{Lines, object_of};
use std::alloc::Global;

/// Drops the master, recovers, and writes the next master's objects with numbers below `made`. The answer is how many
/// there are.
pub fn recover(
    alloc: Global,
    store: &mut Store,
    made: u64,
    lines: &mut Lines,
) -> Result<u64, Fault> {
    if !store.crash() {
        return Err(Fault::NotRecovered);
    }
    match store.recover() {
        Ok(_) => {}
        Err(NotRecovered::NoMemory) => return Err(Fault::NoMemory),
        Err(_) => return Err(Fault::NotRecovered),
    }
    let mut objects: u64 = 0;
    for number in 0..made {
        if write_object(alloc, store, number, lines)? {
            objects = objects.saturating_add(1);
        }
    }
    Ok(objects)
}

/// Writes the object of a number, if it is there.
fn write_object(
    alloc: Global,
    store: &mut Store,
    number: u64,
    lines: &mut Lines,
) -> Result<bool, Fault> {
    let key = object_of(alloc, number)?;
    let Reply {
        status,
        version,
        place,
        ..
    } = store.get(1, key.view().bytes);
    match status {
        Status::Ok => {}
        Status::None => return Ok(false),
        _ => return Err(Fault::NotRead),
    }
    let Some(value) = store.value(place) else {
        return Err(Fault::NotRead);
    };
    lines.first(b"object")?;
    lines.word(key.view().bytes)?;
    lines.number(version)?;
    lines.word(value)?;
    lines.end()?;
    Ok(true)
}
