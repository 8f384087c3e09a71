//! Lines that are commands.

ghost use Rattle.std.specs.Prelude.{◌≡◌, true, false};
ghost use Rattle.entry.specs.Key.{IsKeyBytes};
ghost use Rattle.entry.specs.Limits.{IsValue};
ghost use Rattle.history.specs.View.{shown_command as shown_ref};
ghost use Rattle.lines.specs.Grammar.{shown_command};
ghost use Rattle.versioned_map.specs.declared.command.Command.TheVariants as asked;
ghost use Rattle.embedded.specs.Lives.{key_of};
ghost use Rattle.disk_lines.specs.Groups.{Applies, AppliesLine};
ghost use Rattle.disk_lines.specs.Lines.{CarriesOutLine};

use embedded::master::CommandRef;
use embedded::{is_key, is_value, key_ref, put_command};
use file_fleet::FleetRegistry;
use file_store::{FileStore, If, Reply};
use lines::CommandLine;
use take_journal::Device;

/// Carries out the command of a line.
pub(crate) fn serve_line<D: Device, G: FleetRegistry>(
    store: &mut FileStore<D, G>,
    line: CommandLine<'_>,
) -> Reply
    ensures { CarriesOutLine store.old.master.knows (shown_command line.entry) result store.new.master.knows }
{
    match line {
        CommandLine::Put { table, key, value } => store.put(table, key.bytes, value, If::Any),
        CommandLine::New { table, key, value } => store.put(table, key.bytes, value, If::Absent),
        CommandLine::Cas {
            table,
            key,
            version,
            value,
        } => store.put(table, key.bytes, value, If::Version(version)),
        CommandLine::Get { table, key } => store.get(table, key.bytes),
        CommandLine::Del { table, key } => store.delete(table, key.bytes),
    }
}

/// Applies the command of a line, without a push, and answers whether it was applied. If it wasn't, nothing changed: it
/// has to be carried out by itself, which makes what it waits for or tells why it is refused.
pub(crate) fn apply_line<D: Device, G: FleetRegistry>(
    store: &mut FileStore<D, G>,
    line: CommandLine<'_>,
) -> bool
    ensures applied { result ≡ true →
        AppliesLine store.old.master.knows (shown_command line.entry) store.new.master.knows }
    ensures same { result ≡ false → store.new.master.knows ≡ store.old.master.knows }
{
    match line {
        CommandLine::Put { table, key, value } => {
            apply_put(store, table, key.bytes, value, If::Any)
        }
        CommandLine::New { table, key, value } => {
            apply_put(store, table, key.bytes, value, If::Absent)
        }
        CommandLine::Cas {
            table,
            key,
            version,
            value,
        } => apply_put(store, table, key.bytes, value, If::Version(version)),
        CommandLine::Get { table, key } => {
            is_key(key.bytes) && apply(store, &CommandRef::Get(key_ref(table, key.bytes)))
        }
        CommandLine::Del { table, key } => {
            is_key(key.bytes) && apply(store, &CommandRef::Delete(key_ref(table, key.bytes)))
        }
    }
}

/// Applies a put, if its key and its value aren't too long, and answers whether it was applied.
fn apply_put<D: Device, G: FleetRegistry>(
    store: &mut FileStore<D, G>,
    table: u64,
    key: &[u8],
    value: &[u8],
    when: If,
) -> bool
    ensures applied { result ≡ true → IsKeyBytes key.now × IsValue value.now
        × Applies store.old.master.knows (asked.Put (key_of table key.now) value.now when) store.new.master.knows }
    ensures same { result ≡ false → store.new.master.knows ≡ store.old.master.knows }
{
    is_key(key) && is_value(value) && apply(store, &put_command(table, key, value, when))
}

/// Applies a command, and answers whether it was applied.
fn apply<D: Device, G: FleetRegistry>(store: &mut FileStore<D, G>, command: &CommandRef<'_>) -> bool
    ensures applied { result ≡ true →
        Applies store.old.master.knows (shown_ref command.now) store.new.master.knows }
    ensures same { result ≡ false → store.new.master.knows ≡ store.old.master.knows }
{
    store.apply(command).is_ok()
}
