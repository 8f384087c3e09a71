//! Answers to the commands of a group.

ghost use Rattle.std.specs.Prelude.{◌≡◌, ◌+◌, ◌≤◌, length};
ghost use Rattle.disk_lines.specs.Turns.{AnswersGroup};

use crate::printing::{word_of_push, write_group};
use answers::ScriptFault;
use file_fleet::FleetRegistry;
use file_store::FileStore;
use std::io::Write;
use take_journal::Device;

/// Answers the last commands that were applied, so many of them: they are pushed together until they are durable, and
/// only then their replies are written, in order. If a push is refused, the replies of those that are durable are
/// written, and `unsure` of each other one.
pub(crate) fn answer_group<W: Write, D: Device, G: FleetRegistry>(
    writer: &mut W,
    store: &mut FileStore<D, G>,
    count: u64,
    is_raw: bool,
) -> Result<(), ScriptFault>
    requires { store.old.master.knows.forgotten + count ≤ length store.old.master.knows.history }
    ensures { AnswersGroup is_raw count store.old.master.knows store.new.master.knows
        (W.contents writer.old) (W.contents writer.new) result }
{
    if count == 0 {
        return Ok(());
    }
    let records = store.master.history().len() as u64;
    let why = match store.push_for(records - 1) {
        Ok(()) => "",
        Err(refusal) => word_of_push(&refusal),
    };
    let told = write_group(writer, store, records - count, records, why, is_raw);
    store.tidy(count);
    told
}
