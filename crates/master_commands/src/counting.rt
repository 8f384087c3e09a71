//! How the counts of a log's segments follow a change.

ghost use Rattle.std.specs.Prelude.{◌≡◌};
ghost use Rattle.history.specs.View.{shown_command};
ghost use Rattle.master_commands.specs.Counts.{put_len, stone_len, IsCounted};

use crate::change::{Change, Judged};
use entry::{OBJECT_LEN, TOMBSTONE_LEN};
use history::{CommandRef, key_of};
use tally::Tallies;

/// The bytes of the object that a put makes; 0 for another command.
#[inline(always)]
fn put_len(command: &CommandRef<'_>) -> usize
    ensures { result ≡ put_len (shown_command command.now) }
{
    match command {
        CommandRef::Put(key, value, _) => OBJECT_LEN + key.bytes.len() + value.bytes.len(),
        _ => 0,
    }
}

/// The bytes of a tombstone of the command's key.
#[inline(always)]
fn stone_len(command: &CommandRef<'_>) -> usize
    ensures { result ≡ stone_len (shown_command command.now) }
{
    TOMBSTONE_LEN + key_of(command).bytes.len()
}

/// Counts what a change did. The key's object, if it had one, is dead. The segment with the id `head` has the change's
/// unit.
#[inline(always)]
pub(crate) fn count(tallies: &mut Tallies, head: u64, command: &CommandRef<'_>, judged: &Judged)
    ensures { IsCounted (shown_command command.now) judged.now.change judged.now.held.place.segment judged.now.had
        head tallies.old tallies.new }
{
    let dead = judged.held.place.segment;
    let had = judged.had as usize;
    match &judged.change {
        Change::Nothing => {}
        Change::Create(_) => {
            tallies.grow(head, put_len(command), 0);
        }
        Change::Replace(_, _) => {
            tallies.shrink(dead, had);
            tallies.grow(head, put_len(command), stone_len(command));
        }
        Change::Delete(_) => {
            tallies.shrink(dead, had);
            tallies.grow(head, 0, stone_len(command));
        }
    }
}
