//! The command of a line.

ghost use Rattle.lines.specs.Keys.{IsKey};

use crate::fault::LineFault;
use entry::{Key, KeyRef, MAX_VALUE_LEN, NoMemory, Row, Value};
use lines::{CommandLine, KeyWord, Numbers};
use next_master::master::{Command, If};
use std::alloc::Global;

/// The command of a line.
pub fn command_of(alloc: Global, line: CommandLine<'_>) -> Result<Command, LineFault> {
    match line {
        CommandLine::Put { table, key, value } => put(alloc, table, key, value, If::Any),
        CommandLine::New { table, key, value } => put(alloc, table, key, value, If::Absent),
        CommandLine::Cas {
            table,
            key,
            version,
            value,
        } => put(alloc, table, key, value, If::Version(version)),
        CommandLine::Get { table, key } => Ok(Command::Get(make_key(alloc, table, key)?)),
        CommandLine::Del { table, key } => Ok(Command::Delete(make_key(alloc, table, key)?)),
    }
}

/// The put of a line. No value of a line is too long for an entry.
fn put(
    alloc: Global,
    table: u64,
    word: KeyWord<'_>,
    value: &[u8],
    when: If,
) -> Result<Command, LineFault> {
    if value.len() > MAX_VALUE_LEN {
        return Err(LineFault::NoMemory);
    }
    let key = make_key(alloc, table, word)?;
    let value = Value::from_slice(alloc, value)?;
    Ok(Command::Put(key, value, when))
}

fn make_key(alloc: Global, table: u64, word: KeyWord<'_>) -> Result<Key, NoMemory> {
    let key = key_ref(table, word.bytes);
    key.to_key(alloc)
}

/// The key of a table with these bytes.
fn key_ref<'a>(table: u64, bytes: &'a [u8]) -> KeyRef<'a>
    requires { IsKey bytes.now }
{
    KeyRef { table, bytes }
}

/// The numbers of a line, in memory of their own.
pub fn row_of(alloc: Global, numbers: Numbers<'_>) -> Result<Row<u64>, LineFault> {
    Ok(Row::new(numbers.collect(alloc)?))
}
