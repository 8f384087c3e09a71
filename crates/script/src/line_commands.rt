//! The command that a line has.

ghost use Rattle.std.specs.Prelude.{◌≡◌, ◌≤◌, length, Some};
ghost use Rattle.entry.specs.View.{shown_key};
ghost use Rattle.history.specs.View.{shown_command as lent_command};
ghost use Rattle.lines.specs.Grammar.{shown_command};
ghost use Rattle.lines.specs.Keys.{IsKey};
ghost use Rattle.next_master.specs.cluster.Told.{command_of};
ghost use Rattle.script.specs.Turns.{HasValue};
ghost use Rattle.versioned_map.specs.declared.command.Command.TheVariants as asked;

use entry::{KeyRef, MAX_VALUE_LEN};
use lines::{CommandLine, KeyWord};
use next_master::master::{CommandRef, If, ValueRef};

/// The command of a line. Its key and its value stay in the line.
#[inline(always)]
pub(crate) fn line_command<'a>(line: CommandLine<'a>) -> CommandRef<'a>
    requires value { HasValue (shown_command line) }
    ensures { command_of (shown_command line.entry) ≡ Some (lent_command result) }
{
    match line {
        CommandLine::Put { table, key, value } => put_command(table, key, value, If::Any),
        CommandLine::New { table, key, value } => put_command(table, key, value, If::Absent),
        CommandLine::Cas {
            table,
            key,
            version,
            value,
        } => put_command(table, key, value, If::Version(version)),
        CommandLine::Get { table, key } => CommandRef::Get(key_of(table, key)),
        CommandLine::Del { table, key } => CommandRef::Delete(key_of(table, key)),
    }
}

fn key_of<'a>(table: u64, word: KeyWord<'a>) -> KeyRef<'a>
    ensures { shown_key result ≡ record { table = table; bytes = word.entry.bytes.now } }
{
    key_ref(table, word.bytes)
}

/// The key of a table with these bytes.
fn key_ref<'a>(table: u64, bytes: &'a [u8]) -> KeyRef<'a>
    requires { IsKey bytes.now }
    ensures { shown_key result ≡ record { table = table; bytes = bytes.entry.now } }
{
    KeyRef { table, bytes }
}

fn put_command<'a>(table: u64, word: KeyWord<'a>, value: &'a [u8], when: If) -> CommandRef<'a>
    requires value { length value.now ≤ MAX_VALUE_LEN }
    ensures { lent_command result ≡
        asked.Put (record { table = table; bytes = word.entry.bytes.now }) value.entry.now when }
{
    CommandRef::Put(key_of(table, word), ValueRef { bytes: value }, when)
}
