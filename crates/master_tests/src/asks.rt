//! What the tests ask of a master.

use entry::{Key, MAX_VALUE_LEN, Row, Value};
use recovery::master::{Command, If, Step};
use std::alloc::Global;

/// Pushes, the begin of a roll, steps of a pass, or a command on a key. The key is of table 1, if no table is named.
pub enum Ask {
    /// So many pushes.
    Push(usize),
    Roll,
    /// The begin of a pass with these victims.
    Clean(&'static [u64]),
    Copy,
    Seal,
    Get(&'static [u8]),
    /// A put of one byte.
    Put(&'static [u8], u8, If),
    /// A put in this table, of a key and a value.
    Write(u64, &'static [u8], &'static [u8]),
    Delete(&'static [u8]),
}

/// Who asks.
pub const SEAT: u64 = 7;

fn key_of(alloc: Global, bytes: &[u8]) -> Option<Key> {
    Key::new(alloc, 1, bytes).ok()
}

fn put(alloc: Global, key: &[u8], byte: u8, when: If) -> Option<Command> {
    let bytes = Vec::from_slice(alloc, &[byte]).ok()?;
    Some(Command::Put(key_of(alloc, key)?, Value::new(bytes), when))
}

fn write(alloc: Global, table: u64, key: &[u8], value: &[u8]) -> Option<Command> {
    if value.len() > MAX_VALUE_LEN {
        return None;
    }
    let value = Value::from_slice(alloc, value).ok()?;
    let key = Key::new(alloc, table, key).ok()?;
    Some(Command::Put(key, value, If::Any))
}

/// The command of an ask.
pub fn command_of(alloc: Global, ask: &Ask) -> Option<Command> {
    match ask {
        Ask::Get(key) => Some(Command::Get(key_of(alloc, key)?)),
        Ask::Put(key, byte, when) => put(alloc, key, *byte, *when),
        Ask::Write(table, key, value) => write(alloc, *table, key, value),
        Ask::Delete(key) => Some(Command::Delete(key_of(alloc, key)?)),
        _ => None,
    }
}

fn add_pushes(steps: &mut Vec<Step>, times: usize) -> Option<()> {
    for _ in 0..times {
        steps.push(Step::Push).ok()?;
    }
    Some(())
}

/// The begin of a pass.
fn clean(alloc: Global, victims: &[u64]) -> Option<Step> {
    let victims = Vec::from_slice(alloc, victims).ok()?;
    Some(Step::BeginClean(Row::new(victims)))
}

fn add_steps(alloc: Global, steps: &mut Vec<Step>, ask: &Ask) -> Option<()> {
    match ask {
        Ask::Push(times) => add_pushes(steps, *times),
        Ask::Roll => steps.push(Step::BeginRoll).ok(),
        Ask::Clean(victims) => steps.push(clean(alloc, victims)?).ok(),
        Ask::Copy => steps.push(Step::Copy).ok(),
        Ask::Seal => steps.push(Step::Seal).ok(),
        _ => steps.push(Step::Apply(SEAT, command_of(alloc, ask)?)).ok(),
    }
}

/// The steps of these asks, or `None` if memory runs out.
pub fn steps_of(alloc: Global, asks: &[Ask]) -> Option<Vec<Step>> {
    let mut steps = Vec::new(alloc);
    for ask in asks {
        add_steps(alloc, &mut steps, ask)?;
    }
    Some(steps)
}
