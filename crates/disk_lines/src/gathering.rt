//! Groups: the commands of lines that are at hand together.

ghost use Rattle.std.specs.Prelude.{◌≡◌, ◌+◌, ◌-◌, ◌<◌, ◌≤◌, ◌^◌, true, false, IfOk, IfSome};
ghost use Rattle.std.specs.Io.KnownBytes.{Keeps};
ghost use Rattle.disk_lines.specs.Turns.{AppliesText, Gathers};

use crate::serving::apply_line;
use file_fleet::FleetRegistry;
use file_store::FileStore;
use lines::{Line, LineReader, ReadFault, Taken};
use raw_lines::parse_text;
use std::io::{BufRead, Write};
use take_journal::Device;

/// The most commands of a group. So a master keeps at most so many records more than without groups.
const MOST_COMMANDS: u64 = 1_024;

/// Takes a line and, while whole lines are at hand, more of them, and applies the command of each. It ends at a line
/// whose command isn't applied, or that has none. The answer is how many commands were applied, and then what was taken
/// behind their lines: nothing if no line is at hand or the group is full.
pub(crate) fn gather<R: BufRead, W: Write, D: Device, G: FleetRegistry>(
    reader: &mut R,
    writer: &mut W,
    lines: &mut LineReader,
    store: &mut FileStore<D, G>,
    number: u64,
    is_raw: bool,
) -> (u64, Result<Option<Taken>, ReadFault>)
    requires { number < 2 ^ 64 - 1 }
    ensures gathered { Gathers is_raw store.old.master.knows store.new.master.knows (R.remaining reader.old)
        (R.remaining reader.new) lines.new result.0 result.1 }
    ensures few { number + result.0 ≤ 2 ^ 64 - 1 }
    ensures room { IfOk result.1 (λ taken. IfSome taken (λ t. number + result.0 < 2 ^ 64 - 1)) }
    ensures flushed { Keeps (W.contents writer.old) (W.contents writer.new) }
{
    let most = MOST_COMMANDS.min(u64::MAX - number);
    for count in 0..most {
        if count > 0 && !lines.has_line(reader, is_raw) {
            return (count, Ok(None));
        }
        match lines.next_line(reader, writer, is_raw) {
            Ok(Taken::Ended) => {
                if !apply_text(store, lines.text(), is_raw) {
                    return (count, Ok(Some(Taken::Ended)));
                }
            }
            Ok(taken) => return (count, Ok(Some(taken))),
            Err(fault) => return (count, Err(fault)),
        }
    }
    (most, Ok(None))
}

/// Applies the command of a text, and answers whether it was applied. If it wasn't, or if the text says no command,
/// nothing changed.
fn apply_text<D: Device, G: FleetRegistry>(
    store: &mut FileStore<D, G>,
    text: &[u8],
    is_raw: bool,
) -> bool
    ensures applied { result ≡ true →
        AppliesText is_raw store.old.master.knows text.now store.new.master.knows }
    ensures same { result ≡ false → store.new.master.knows ≡ store.old.master.knows }
{
    match parse_text(text, is_raw) {
        Ok(Line::Command(command)) => apply_line(store, command),
        _ => false,
    }
}
